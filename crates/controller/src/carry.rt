// A stopped move carried on: what turns that away, and what it does (paper 02, 6/14).
ghost use Rattle.std.specs.Prelude.{◌≡◌, ◌&&◌, ◌<◌};
ghost use Rattle.controller.specs.Inner.Carry.{
  replanned_of,
  can_carry_on_of,
  open_at_of,
  open_plan_of,
  carry_number_of,
  carried_of,
  OpenFits,
  CarryFits,
};

use crate::start;
use crate::state::{Counters, Hot, Plan, Run, Settings};

// What a distance line adds to the master, as it is held.
const REPLANNED: u16 = 256;

// The master once a distance line was accepted.
pub(crate) fn replanned(master: u16) -> u16
    ensures { result ≡ replanned_of master }
{
    if master < REPLANNED {
        master + REPLANNED
    } else {
        master
    }
}

// Whether there is a move to carry on: at rest it is short of M where a stop ended it so, and only there.
fn can_carry_on(run: Run) -> bool
    ensures { result ≡ can_carry_on_of run }
{
    run.gone < run.length && run.master < REPLANNED
}

// What an axis's travel leaves of its distance.
fn open_at(plan: Plan, counters: Counters, k: usize) -> u32
    requires { (k < 5) × OpenFits plan counters }
    ensures { result ≡ open_at_of plan counters k }
{
    let travel = counters.travels[k];
    plan.distances[k] - travel.0
}

// The open distances of the latest move, in its directions.
fn open_plan(plan: Plan, counters: Counters) -> Plan
    requires { OpenFits plan counters }
    ensures { result ≡ open_plan_of plan counters }
{
    let minus = plan.minus;
    Plan {
        distances: [
            open_at(plan, counters, 0),
            open_at(plan, counters, 1),
            open_at(plan, counters, 2),
            open_at(plan, counters, 3),
            open_at(plan, counters, 4),
        ],
        minus,
    }
}

// The number that turns a carry-on away behind 11, or 0: as a byte's answer holds it.
pub(crate) fn carry_number(settings: Settings, hot: Hot) -> u8
    requires { CarryFits hot }
    ensures { result ≡ carry_number_of settings hot }
{
    if !can_carry_on(hot.run) {
        return 26;
    }
    if hot.flags.emergency {
        return 12;
    }
    if inputs::sensor(settings.low, settings.high, hot.inputs) {
        return 13;
    }
    let open = open_plan(hot.plan, hot.counters);
    if inputs::blocked(
        settings.low,
        settings.high,
        hot.inputs,
        open.distances,
        open.minus,
    ) {
        return 16;
    }
    if start::some_leave(open, hot.counters) {
        return 17;
    }
    0
}

// The move goes on: speed, phase and ticks 0, bits 3 and 6 cleared, no dwell, no waiting start. Travels and remainders
// stay.
pub(crate) fn carried(hot: Hot) -> Hot
    ensures { result ≡ carried_of hot }
{
    let mut next = hot;
    next.run.speed = 0;
    next.run.phase = 0;
    next.run.moving = true;
    next.run.stopping = false;
    next.run.ticks = 0;
    next.run.rounds = 0;
    next.pause.left = 0;
    next.pause.waiting = 0;
    next.flags.stopped = false;
    next.flags.sensed = false;
    next
}
