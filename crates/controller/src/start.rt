// A start: what turns it away, and what it begins (paper 01, "Turned away" 12 to 17).
ghost use Rattle.std.specs.Prelude.{◌≡◌, ◌≤◌, ◌<◌};
ghost use Rattle.controller.specs.Inner.Start.{
  leaves_of,
  leaves_at_of,
  some_leave_of,
  start_number_of,
  begun_of,
  StartFits,
};

use crate::state::{Counters, Hot, Plan, Run, Settings, Wires};
use line::distances;
use reply::{Position, Travel};

// The greatest position, as it is held.
const LAST_PLACE: u32 = 1048575;

// Whether a position leaves its range in so many steps.
fn leaves(position: Position, minus: bool, distance: u32) -> bool
    requires { (position.0 ≤ 1048575) × (distance ≤ 524287) }
    ensures { result ≡ leaves_of position minus distance }
{
    if minus {
        position.0 < distance
    } else {
        LAST_PLACE < position.0 + distance
    }
}

fn leaves_at(next: Plan, counters: Counters, k: usize) -> bool
    requires { (k < 5) × StartFits next counters }
    ensures { result ≡ leaves_at_of next counters k }
{
    let position = counters.positions[k];
    leaves(position, next.minus[k], next.distances[k])
}

// Whether some final position is out of range. A plan and the counters, and no Hot: the plan is the next move's, or what
// is open of the latest, and neither stands in Hot.
// By `any` over the axes the proof did not close.
pub(crate) fn some_leave(next: Plan, counters: Counters) -> bool
    requires { StartFits next counters }
    ensures { result ≡ some_leave_of next counters }
{
    leaves_at(next, counters, 0)
        || leaves_at(next, counters, 1)
        || leaves_at(next, counters, 2)
        || leaves_at(next, counters, 3)
        || leaves_at(next, counters, 4)
}

// The number that turns a start with this master away, or 0: as the answers of byte and tick hold it.
pub(crate) fn start_number(settings: Settings, next: Plan, hot: Hot, master: u8) -> u8
    requires { (master < 5) × StartFits next hot.counters }
    ensures { result ≡ start_number_of settings next hot master }
{
    if hot.flags.emergency {
        return 12;
    }
    if inputs::sensor(settings.low, settings.high, hot.inputs) {
        return 13;
    }
    let length = next.distances[master as usize];
    if distances::some_longer(next.distances, length) {
        return 14;
    }
    if length == 0 {
        return 15;
    }
    if inputs::blocked(
        settings.low,
        settings.high,
        hot.inputs,
        next.distances,
        next.minus,
    ) {
        return 16;
    }
    if some_leave(next, hot.counters) {
        return 17;
    }
    0
}

// A move begins: travels and remainders 0, bits 3 and 6 cleared, no dwell, no waiting start.
pub(crate) fn begun(next: Plan, polarity: u32, switch: u8, hot: Hot, master: u8) -> Hot
    requires { master < 5 }
    ensures { result ≡ begun_of next polarity switch hot master }
{
    let cells = outputs::axis_cells(switch, polarity, next.minus);
    let run = Run {
        length: next.distances[master as usize],
        gone: 0,
        speed: 0,
        phase: 0,
        master: master as u16,
        moving: true,
        stopping: false,
        ticks: 0,
        rounds: 0,
    };
    let positions = hot.counters.positions;
    let counters = Counters {
        travels: [Travel(0); 5],
        remainders: [0; 5],
        positions,
    };
    let wires = Wires {
        general: hot.wires.general,
        cells,
    };
    let mut begun = hot;
    begun.plan = next;
    begun.counters = counters;
    begun.run = run;
    begun.wires = wires;
    begun.pause.left = 0;
    begun.pause.waiting = 0;
    begun.flags.stopped = false;
    begun.flags.sensed = false;
    begun
}
