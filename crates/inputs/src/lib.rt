// What the inputs say under the low-ON and high-ON settings (paper 01, "Stops"; 6.6 to 6.9): limits, emergency, sensor.
// Every public function is total: it has no premise and states its result for every input. Assumes nothing.
#![tactic(auto)]

ghost use Rattle.std.specs.Prelude.{◌≡◌, false, get_or};
ghost use Rattle.inputs.specs.Inputs.{low_at, high_at, blocked_at, some_blocked, active_at};

// Whether the setting has bit 0 and that input is low.
// Low and high are two functions, as in specs/: a sentence of paper 01 each.
fn low_at(setting: u32, inputs: u32) -> bool
    ensures { result ≡ low_at setting inputs 0 }
{
    setting % 2 == 1 && inputs % 2 == 0
}

// Whether the setting has bit 0 and that input is high.
fn high_at(setting: u32, inputs: u32) -> bool
    ensures { result ≡ high_at setting inputs 0 }
{
    setting % 2 == 1 && inputs % 2 == 1
}

// Whether the input of bit 0 is active in either setting.
fn active(low: u32, high: u32, inputs: u32) -> bool
    ensures { result ≡ active_at low high inputs 0 }
{
    low_at(low, inputs) || high_at(high, inputs)
}

// Whether axis 0 is blocked in its direction. Of a later axis the caller shifts the words down to bits 0 and 1.
fn blocked_at(low: u32, high: u32, inputs: u32, distance: u32, minus: bool) -> bool
    ensures { result ≡ blocked_at low high inputs distance minus 0 }
{
    distance > 0
        && if minus {
            low_at(low, inputs) || high_at(high / 2, inputs / 2)
        } else {
            low_at(low / 2, inputs / 2) || high_at(high, inputs)
        }
}

// Whether the emergency input is active.
pub fn emergency(low: u32, high: u32, inputs: u32) -> bool
    ensures { result ≡ active_at low high inputs 12 }
{
    active(low / 4096, high / 4096, inputs / 4096)
}

// Whether the sensor input is active.
pub fn sensor(low: u32, high: u32, inputs: u32) -> bool
    ensures { result ≡ active_at low high inputs 13 }
{
    active(low / 8192, high / 8192, inputs / 8192)
}

// Whether some axis with a distance is blocked in its direction.
// Three words and two arrays: settings, inputs and the plan lie apart in the controller. The axes stand one by one: none
// of firmware's functions shifts or divides by a number that varies (paper 02, 4/14; ci/widths.py).
pub fn blocked(low: u32, high: u32, inputs: u32, distances: [u32; 5], minus: [bool; 5]) -> bool
    ensures { result ≡ some_blocked low high inputs (λ k. get_or distances k 0) (λ k. get_or minus k false) }
{
    if low % 1024 == 0 {
        if high % 1024 == 0 {
            return false;
        }
    }
    if blocked_at(low, high, inputs, distances[0], minus[0]) {
        return true;
    }
    if blocked_at(low / 4, high / 4, inputs / 4, distances[1], minus[1]) {
        return true;
    }
    if blocked_at(low / 16, high / 16, inputs / 16, distances[2], minus[2]) {
        return true;
    }
    if blocked_at(low / 64, high / 64, inputs / 64, distances[3], minus[3]) {
        return true;
    }
    blocked_at(low / 256, high / 256, inputs / 256, distances[4], minus[4])
}
