// The output words of a tick by their parts (paper 01, "Lines of output"; chapter 5): what the general outputs add, and
// what the lines of each axis add at rest and in the first half of a tick in which the axis pulses.
// Every public function is total: it has no premise and states its result for every input. Assumes nothing.
#![tactic(auto)]

ghost use Rattle.std.specs.Prelude.{◌≤◌, ◌≡◌, true, false, cond, pos, get_or};
ghost use Rattle.laws.specs.Axes.{each, directed};
ghost use Rattle.laws.specs.Bits.{bit};
ghost use Rattle.outputs.specs.Outputs.{general_of, rest_of, fire_of, cells_of, still_of};
ghost use Rattle.outputs.specs.Outputs.{xor, has_direction, pair_of, inverses_of, lines_of, shown_of};

// What each axis adds to a word, at rest and while it pulses, and what all five add at rest.
// Two arrays side by side: this is part of the controller, a `repr(C)` struct whose layout stays.
#[repr(C)]
#[derive(Clone, Copy)]
pub struct Cells {
    pub rests: [u32; 5],
    pub fires: [u32; 5],
    pub still: u32,
}

// What the general outputs add to a word.
pub fn general(switch: u8, outputs: u32) -> u32
    ensures { result ≡ general_of switch outputs }
{
    let low = outputs % 16777216;
    if switch < 8 {
        low / 1024 * 1024
    } else {
        low / 1048576 * 1048576
    }
}

// Whether the switch gives each axis a pulse and a direction line.
fn has_direction(switch: u8) -> bool
    ensures { result ≡ has_direction switch }
{
    matches!(switch, 0..=3 | 8..=11)
}

// The line, flipped where bit 0 of the polarity says so.
fn flipped(polarity: u32, line: bool) -> bool
    ensures { result ≡ xor (bit polarity 0) line }
{
    line != (polarity % 2 == 1)
}

// One of two numbers.
fn either(on: bool, n: u32, m: u32) -> u32
    ensures { result ≡ cond on n m }
{
    if on { n } else { m }
}

// Two lines side by side, the first of which counts n.
fn pair(first: bool, second: bool, n: u32) -> u32
    requires { n ≤ 256 }
    ensures { result ≡ pair_of first second n }
{
    either(first, n, 0) + either(second, 2 * n, 0)
}

// The same, each line followed by its inverse.
fn inverses(first: bool, second: bool, n: u32) -> u32
    requires { n ≤ 65536 }
    ensures { result ≡ inverses_of first second n }
{
    either(first, n, 2 * n) + either(second, 4 * n, 8 * n)
}

// What two lines add to a word, flipped by bits 0 and 1 of the polarity. Of a later axis the caller shifts it down.
fn lines(switch: u8, polarity: u32, first: bool, second: bool, n: u32, m: u32) -> u32
    requires { (n ≤ 256) × (m ≤ 65536) }
    ensures { result ≡ lines_of switch (xor (bit polarity 0) first) (xor (bit polarity 1) second) n m }
{
    let a = flipped(polarity, first);
    let b = flipped(polarity / 2, second);
    if switch < 8 {
        pair(a, b, n)
    } else {
        inverses(a, b, m)
    }
}

// What an axis adds, its polarity bits being 0 and 1: at rest, or in the first half of a tick in which it fires a pulse.
fn cell(switch: u8, polarity: u32, minus: bool, fires: bool, n: u32, m: u32) -> u32
    requires { (n ≤ 256) × (m ≤ 65536) }
    ensures { result ≡ shown_of switch polarity minus (cond fires (directed minus 1) (pos 0)) fires n m }
{
    if has_direction(switch) {
        lines(switch, polarity, fires, minus, n, m)
    } else {
        lines(switch, polarity, fires && !minus, fires && minus, n, m)
    }
}

// What each of the five axes adds. They stand one by one: none of firmware's functions shifts or divides by a number that
// varies (paper 02, 4/14; ci/widths.py).
fn each_axis(switch: u8, polarity: u32, minus: [bool; 5], fires: bool) -> [u32; 5]
    ensures { result ≡ each (cells_of switch polarity (λ k. get_or minus k false) fires) }
{
    [
        cell(switch, polarity, minus[0], fires, 1, 1),
        cell(switch, polarity / 4, minus[1], fires, 4, 16),
        cell(switch, polarity / 16, minus[2], fires, 16, 256),
        cell(switch, polarity / 64, minus[3], fires, 64, 4096),
        cell(switch, polarity / 256, minus[4], fires, 256, 65536),
    ]
}

// What the lines of the five axes add to a word.
#[tactic(auto, unfolding(crate::specs::Outputs::rest_of, crate::specs::Outputs::fire_of))]
pub fn axis_cells(switch: u8, polarity: u32, minus: [bool; 5]) -> Cells
    ensures rests_value { result.rests ≡ each (rest_of switch polarity (λ k. get_or minus k false)) }
    ensures fires_value { result.fires ≡ each (fire_of switch polarity (λ k. get_or minus k false)) }
    ensures still_value { result.still ≡ still_of switch polarity (λ k. get_or minus k false) }
{
    let rests = each_axis(switch, polarity, minus, false);
    let fires = each_axis(switch, polarity, minus, true);
    let still = rests.iter().sum();
    Cells {
        rests,
        fires,
        still,
    }
}
