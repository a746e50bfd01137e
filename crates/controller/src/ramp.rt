// The ramp: the speed of a tick, the phase, and the master pulse that comes of it (paper 01, "Ramp").
ghost use Rattle.std.specs.Prelude.{◌≡◌, ◌≤◌, ◌<◌};
ghost use Rattle.machine.specs.Ramp.{braked, towards};
ghost use Rattle.controller.specs.Inner.Ramp.{
  ramp_of,
  ticks_of,
  stands_of,
  at_rest_of,
  under_way_of,
  advance_of,
  pace_of,
  RampFits,
  PaceFits,
};

use crate::state::{Run, Settings};

// The phase at which the master pulses.
const FULL: u32 = 50000000;

const FIFTIETHS: u32 = 50;

// The ticks of a round.
const ROUND: u64 = 4294967296;

// u falls by a but not below a, and stays where it is at or below a.
fn brake(u: u32, a: u32) -> u32
    ensures { result ≡ braked u a }
{
    if u <= a { u } else { (u - a).max(a) }
}

// u goes towards the target by at most a.
fn approach(u: u32, target: u32, a: u32) -> u32
    ensures { result ≡ towards u target a }
{
    // The step is cut: a saturating sum that is cut took up to four instructions more.
    if u <= target {
        u + (target - u).min(a)
    } else {
        u - (u - target).min(a)
    }
}

// The speed of this tick.
fn ramp(settings: Settings, run: Run) -> u32
    requires { RampFits settings run }
    ensures { (result ≡ ramp_of settings run) × (result ≤ 50000000) }
{
    let u = run.speed;
    let a = settings.slope;
    if run.stopping {
        return u.saturating_sub(a);
    }
    let left = (run.length - run.gone) as u64 * FULL as u64 - run.phase as u64;
    if 2 * a as u64 * left <= u as u64 * u as u64 {
        return brake(u, a);
    }
    approach(u, FIFTIETHS * settings.speed, a)
}

// Whether a stop has come down to the slope.
fn stands(run: Run, slope: u32) -> bool
    ensures { result ≡ stands_of run slope }
{
    run.stopping && run.speed <= slope
}

// The ticks in which the move's ramp ran.
pub(crate) fn count(run: Run) -> u64
    ensures { result ≡ ticks_of run }
{
    run.rounds as u64 * ROUND + run.ticks as u64
}

// The run after a tick of the ramp, whether the master pulses in it, and whether the move ends in it.
#[derive(Drop)]
pub struct Paced {
    pub run: Run,
    pub fires: bool,
    pub ends: bool,
}

// The move has ended: speed and phase 0.
fn at_rest(was: Run, ticks: u64, gone: u32) -> Run
    ensures { result ≡ at_rest_of was ticks gone }
{
    Run {
        length: was.length,
        gone,
        speed: 0,
        phase: 0,
        master: was.master,
        moving: false,
        stopping: false,
        ticks: (ticks % ROUND) as u32,
        rounds: (ticks / ROUND) as u32,
    }
}

fn under_way(was: Run, ticks: u64, gone: u32, speed: u32, phase: u32) -> Run
    ensures { result ≡ under_way_of was ticks gone speed phase }
{
    Run {
        length: was.length,
        gone,
        speed,
        phase,
        master: was.master,
        moving: was.moving,
        stopping: was.stopping,
        ticks: (ticks % ROUND) as u32,
        rounds: (ticks / ROUND) as u32,
    }
}

// The phase grows by the speed, and the master pulses where it is full.
fn advance(was: Run, ticks: u64, speed: u32) -> Paced
    requires { (speed ≤ 50000000) × (was.phase < 50000000) × (was.gone < 524287) }
    ensures { result ≡ advance_of was ticks speed }
{
    let grown = was.phase + speed;
    if grown < FULL {
        let run = under_way(was, ticks, was.gone, speed, grown);
        return Paced {
            run,
            fires: false,
            ends: false,
        };
    }
    let gone = was.gone + 1;
    if gone == was.length {
        let run = at_rest(was, ticks, gone);
        return Paced {
            run,
            fires: true,
            ends: true,
        };
    }
    let run = under_way(was, ticks, gone, speed, grown - FULL);
    Paced {
        run,
        fires: true,
        ends: false,
    }
}

// A tick of the ramp: nothing at rest; the end of a stop; or the speed of this tick and what comes of it.
pub(crate) fn pace(settings: Settings, was: Run) -> Paced
    requires { PaceFits settings was }
    ensures { result ≡ pace_of settings was }
{
    if !was.moving {
        return Paced {
            run: was,
            fires: false,
            ends: false,
        };
    }
    let ticks = count(was) + 1;
    if stands(was, settings.slope) {
        let run = at_rest(was, ticks, was.gone);
        return Paced {
            run,
            fires: false,
            ends: true,
        };
    }
    let speed = ramp(settings, was);
    advance(was, ticks, speed)
}
