// The pulses of a tick: shares and axes (paper 01, "Shares").
ghost use Rattle.std.specs.Prelude.{◌≡◌, ◌≤◌, ◌<◌};
ghost use Rattle.controller.specs.Inner.Motion.{
  share_step_of,
  idle_of,
  axis_step_of,
  dwell_left_of,
  stepped_of,
  runs_of,
  AxisStepFits,
  RunFits,
};

use crate::state::{Counters, Hot, Plan, Run, Settings};
use crate::{ramp, words};
use reply::{Position, Travel};

const TICKS_PER_MS: u32 = 250;

// A remainder after one master pulse more, and whether the axis pulses.
#[derive(Drop)]
pub struct Share {
    pub remainder: u32,
    pub on: bool,
}

// The share step: the remainder grows by the distance and gives up a whole length as a pulse. Remainder
// and distance together never exceed 1,048,573, so 32 bits hold the sum (paper 02, 4/14).
fn share_step(remainder: u32, distance: u32, length: u32) -> Share
    requires { (remainder < length) × (distance ≤ length) × (length ≤ 524287) }
    ensures { result ≡ share_step_of remainder distance length }
{
    let sum = remainder + distance;
    if length <= sum {
        return Share {
            remainder: sum - length,
            on: true,
        };
    }
    Share {
        remainder: sum,
        on: false,
    }
}

// An axis after a tick, whether it pulses, and the pulse that the tick answers for it.
#[derive(Drop)]
pub struct Axis {
    pub travel: Travel,
    pub position: Position,
    pub remainder: u32,
    pub on: bool,
    pub pulse: i8,
}

// An axis that sends no pulse in a tick.
fn idle(travel: Travel, position: Position, remainder: u32) -> Axis
    ensures { result ≡ idle_of travel position remainder }
{
    Axis {
        travel,
        position,
        remainder,
        on: false,
        pulse: 0,
    }
}

// One axis in a tick: where the master pulses and its share grows, its travel and position go one further.
fn axis_step(fires: bool, plan: Plan, counters: Counters, length: u32, k: usize) -> Axis
    requires { (k < 5) × AxisStepFits fires plan counters length k }
    ensures { result ≡ axis_step_of fires plan counters length k }
{
    let t = counters.travels[k];
    let p = counters.positions[k];
    let remainder = counters.remainders[k];
    if !fires {
        return idle(t, p, remainder);
    }
    let s = share_step(remainder, plan.distances[k], length);
    if s.on {
        if plan.minus[k] {
            return Axis {
                travel: Travel(t.0 + 1),
                position: Position(p.0 - 1),
                remainder: s.remainder,
                on: true,
                pulse: -1,
            };
        }
        return Axis {
            travel: Travel(t.0 + 1),
            position: Position(p.0 + 1),
            remainder: s.remainder,
            on: true,
            pulse: 1,
        };
    }
    idle(t, p, s.remainder)
}

// The ticks of the dwell that are left: the end of a move begins one.
fn dwell_left(ends: bool, dwell: u32, left: u32) -> u32
    requires { dwell ≤ 16383 }
    ensures { result ≡ dwell_left_of ends dwell left }
{
    if ends {
        return TICKS_PER_MS * dwell;
    }
    left
}

// Hot with what a tick alters in it: five axes written out, here, in `runs` and in words.rt, for the speed of the tick.
fn stepped(hot: Hot, run: Run, left: u32, a: Axis, b: Axis, c: Axis, d: Axis, e: Axis) -> Hot
    ensures { result ≡ stepped_of hot run left a b c d e }
{
    let ta = a.travel;
    let tb = b.travel;
    let tc = c.travel;
    let td = d.travel;
    let te = e.travel;
    let pa = a.position;
    let pb = b.position;
    let pc = c.position;
    let pd = d.position;
    let pe = e.position;
    let counters = Counters {
        travels: [ta, tb, tc, td, te],
        remainders: [
            a.remainder,
            b.remainder,
            c.remainder,
            d.remainder,
            e.remainder,
        ],
        positions: [pa, pb, pc, pd, pe],
    };
    let mut next = hot;
    next.counters = counters;
    next.run = run;
    next.pause.left = left;
    next
}

// What the ramp and the pulses of a tick leave, the pulses, the first output word, and whether the move ends.
#[derive(Drop)]
pub struct Ran {
    pub hot: Hot,
    pub first: u32,
    pub pulses: [i8; 5],
    pub ends: bool,
}

// Ramp and pulses. One way through for every tick, so that the state is made once, at the end.
pub(crate) fn runs(settings: Settings, hot: Hot) -> Ran
    requires { RunFits settings hot }
    ensures { result ≡ runs_of settings hot }
{
    let was = hot.run;
    let plan = hot.plan;
    let counters = hot.counters;
    let wires = hot.wires;
    let paced = ramp::pace(settings, was);
    let fires = paced.fires;
    let length = was.length;
    let a = axis_step(fires, plan, counters, length, 0);
    let b = axis_step(fires, plan, counters, length, 1);
    let c = axis_step(fires, plan, counters, length, 2);
    let d = axis_step(fires, plan, counters, length, 3);
    let e = axis_step(fires, plan, counters, length, 4);
    let pulses = [a.pulse, b.pulse, c.pulse, d.pulse, e.pulse];
    let first = words::word(wires, a.on, b.on, c.on, d.on, e.on);
    let left = dwell_left(paced.ends, settings.dwell, hot.pause.left);
    let run = paced.run;
    let next = stepped(hot, run, left, a, b, c, d, e);
    Ran {
        hot: next,
        first,
        pulses,
        ends: paced.ends,
    }
}
