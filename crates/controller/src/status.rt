// What a controller tells of itself: the status word and what replies are made from (paper 01, "Stops", Status).
ghost use Rattle.std.specs.Prelude.{◌≡◌, ◌≤◌};
ghost use Rattle.laws.specs.Bits.{weight};
ghost use Rattle.controller.specs.Inner.Parts.{blocked_in};
ghost use Rattle.controller.specs.Inner.Status.{current_of, status_of, readings_of};

use crate::state::{Controller, Plan};
use crate::watch;
use reply::Readings;

// A function and no `if` in each place: its promise keeps the sum of the seven in a byte.
fn bit(on: bool, n: u8) -> u8
    ensures { (result ≡ weight on n) × (result ≤ n) }
{
    if on { n } else { 0 }
}

// The running move's distances, else the next move's. As the value of an `if` it was tried: a short line through
// firmware took 11 ns more.
fn current(c: Controller) -> Plan
    ensures { result ≡ current_of c }
{
    let mut plan = c.cold.next;
    if c.hot.run.moving {
        let running = c.hot.plan;
        plan = running;
    }
    plan
}

// Whether a limit is in the way. The arrays are made anew, so that no line has to keep a plan in memory for a call that
// few make.
// Not one function with `limit_or_watch` of watch: tried, and a tick of firmware took 2 ns more.
fn blocked(c: Controller) -> bool
    ensures { result ≡ blocked_in c.cold.settings c.hot.inputs (current_of c) }
{
    if watch::is_calm(c.cold.settings.low, c.cold.settings.high, c.hot.inputs) {
        return false;
    }
    let plan = current(c);
    let d = plan.distances;
    let m = plan.minus;
    let distances = [d[0], d[1], d[2], d[3], d[4]];
    let minus = [m[0], m[1], m[2], m[3], m[4]];
    inputs::blocked(
        c.cold.settings.low,
        c.cold.settings.high,
        c.hot.inputs,
        distances,
        minus,
    )
}

// The status word: seven bits.
pub(crate) fn status(c: Controller) -> u8
    ensures { result ≡ status_of c }
{
    let run = c.hot.run;
    let flags = c.hot.flags;
    let limited = blocked(c);
    let busy = run.moving || 0 < c.hot.pause.left;
    bit(busy, 1)
        + bit(run.moving, 2)
        + bit(flags.wrong, 4)
        + bit(flags.stopped, 8)
        + bit(limited, 16)
        + bit(flags.emergency, 32)
        + bit(flags.sensed, 64)
}

// What replies are made from.
pub(crate) fn readings(c: Controller) -> Readings
    ensures { result ≡ readings_of c }
{
    let travels = c.hot.counters.travels;
    let positions = c.hot.counters.positions;
    let minus = c.hot.plan.minus;
    Readings {
        travels,
        positions,
        inputs: c.hot.inputs,
        minus,
        switch: c.cold.switch,
        status: status(c),
    }
}
