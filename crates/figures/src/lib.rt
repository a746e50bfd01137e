// Bench figures (paper 01, "Host end and program"): a speed in hertz and a slope in hertz per ms as f64, read back or
// turned away by 21, a setting as its P command, and the pair of figures that a controller's settings show.
// Figures go out for every u32 and come in for every f64, with no premise; the pair's is that its controller is
// reachable. Assumes nothing.
#![tactic(auto)]

ghost use Rattle.std.specs.Prelude.{◌≡◌, ℕ, ◌*◌};
ghost use Rattle.line.specs.Ranges.{top_speed, top_slope};
ghost use Rattle.controller.specs.Reach.{Reachable, Made};
ghost use Rattle.figures.specs.Figures.{
  Exactly,
  number_of,
  UnitIs,
  count_of,
  asked_of,
  units_of,
  speed_hz,
  slope_hz,
  speed_units,
  slope_units,
  ReadBack,
  command_of,
  Shown,
};

use controller::Controller;
use line::command::{Command, TOP_SLOPE, TOP_SPEED};

// The speed: its code and its unit in hertz (P 8).
const SPEED: u8 = 8;

const SPEED_UNIT: f64 = 0.25;
// The slope: its code and its unit in hertz per ms (P 9).
const SLOPE: u8 = 9;

const SLOPE_UNIT: f64 = 1.25;
// The largest u32.
const LARGEST: f64 = 4294967295.0;

// A figure that is no whole number of units, or out of range.
#[derive(Clone, Copy, PartialEq, Eq)]
pub struct NotExact;

// "Turned away" 21.
impl From<NotExact> for u8 {
    ghost from_gives = { λ e number. number ≡ number_of e };

    fn from(_e: NotExact) -> u8 {
        21
    }
}

// A setting as the bench has it: in hertz, or in hertz per ms.
#[derive(Drop)]
pub enum Setting {
    Speed(f64),
    Slope(f64),
}

// Speed in hertz and slope in hertz per ms, shown together.
#[derive(Drop)]
pub struct Figures {
    pub speed: f64,
    pub slope: f64,
}

// n units of speed: n/4 hertz.
pub fn speed_hz(n: u32) -> f64
    ensures { Exactly result n 4 }
{
    n as f64 * SPEED_UNIT
}

// n units of slope: 5n/4 hertz per ms.
pub fn slope_hz_per_ms(n: u32) -> f64
    ensures { Exactly result (5 * n) 4 }
{
    n as f64 * SLOPE_UNIT
}

// The figure in units. The quotient, which may be rounded, only proposes a number; the last test decides.
fn read_units(x: f64, unit: f64, most: u32) -> Result<u32, NotExact>
    ensures { (a : ℕ) → UnitIs unit a → count_of result ≡ units_of a 4 most x }
{
    let y = x / unit;
    if y >= 1.0 && y <= LARGEST {
        let n = std::num::truncating_f64_to_u64(y) as u32;
        if n <= most && n as f64 * unit == x {
            return Ok(n);
        }
    }
    Err(NotExact)
}

// A speed in hertz, read back.
pub fn speed_units(x: f64) -> Result<u32, NotExact>
    ensures result_value { count_of result ≡ speed_units x }
    ensures read_back { ReadBack speed_hz top_speed x (count_of result) }
{
    read_units(x, SPEED_UNIT, TOP_SPEED)
}

// A slope in hertz per ms, read back.
pub fn slope_units(x: f64) -> Result<u32, NotExact>
    ensures result_value { count_of result ≡ slope_units x }
    ensures read_back { ReadBack slope_hz top_slope x (count_of result) }
{
    read_units(x, SLOPE_UNIT, TOP_SLOPE)
}

// The P command that makes the setting.
pub fn command_of(s: Setting) -> Result<Command, NotExact>
    ensures { asked_of result ≡ command_of s }
{
    let command = match s {
        Setting::Speed(x) => Command::Set {
            code: SPEED,
            value: speed_units(x)?,
        },
        Setting::Slope(x) => Command::Set {
            code: SLOPE,
            value: slope_units(x)?,
        },
    };
    Ok(command)
}

// The speed and slope settings of a controller.
pub fn figures_of(c: Controller) -> Figures
    requires { Reachable c }
    ensures { Made c (λ m. Shown result m.settings.speed m.settings.slope) }
{
    let speed = speed_hz(c.speed());
    let slope = slope_hz_per_ms(c.slope());
    Figures { speed, slope }
}
