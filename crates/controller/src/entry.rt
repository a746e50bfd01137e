// The entry that a tick answers where it ends a move (paper 02, 1/14).
ghost use Rattle.std.specs.Prelude.{◌≡◌, ◌≤◌, ◌<◌};
ghost use Rattle.controller.specs.Inner.Entry.{signed_of, signed_at_of, cause_of, told_of, TravelsFit};

use crate::ramp;
use crate::state::{Counters, Plan, Run};
use journal::{Entry, NO_ENTRY};
use reply::Travel;

// A travel in its direction.
fn signed(travel: Travel, minus: bool) -> i32
    requires { travel.0 ≤ 524287 }
    ensures { result ≡ signed_of travel minus }
{
    let steps = travel.0 as i32;
    if minus { -steps } else { steps }
}

fn signed_at(plan: Plan, counters: Counters, k: usize) -> i32
    requires { (k < 5) × TravelsFit counters }
    ensures { result ≡ signed_at_of plan counters k }
{
    let travel = counters.travels[k];
    signed(travel, plan.minus[k])
}

// 0 where the master has gone its whole length, else 1: stopped.
// A number and no enum: C reads it.
fn cause(run: Run) -> u8
    ensures { result ≡ cause_of run }
{
    if run.gone == run.length { 0 } else { 1 }
}

// The entry of a move that has ended, or zeros: five axes written out, for the speed of the tick.
pub(crate) fn told(ends: bool, plan: Plan, counters: Counters, run: Run) -> Entry
    requires { TravelsFit counters }
    ensures { result ≡ told_of ends plan counters run }
{
    if !ends {
        return NO_ENTRY;
    }
    let a = signed_at(plan, counters, 0);
    let b = signed_at(plan, counters, 1);
    let c = signed_at(plan, counters, 2);
    let d = signed_at(plan, counters, 3);
    let e = signed_at(plan, counters, 4);
    let ticks = ramp::count(run);
    Entry {
        ticks,
        cause: cause(run),
        travels: [a, b, c, d, e],
    }
}
