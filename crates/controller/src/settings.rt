// What lines set: a distance, a setting by its code, the general outputs (paper 01, "Lines").
ghost use Rattle.std.specs.Prelude.{◌≡◌, ◌<◌};
ghost use Rattle.controller.specs.Inner.Parts.{put, with_setting};
ghost use Rattle.controller.specs.Inner.Settings.{set_axis_of, rewire_of, set_setting_of, set_outputs_of};

use crate::carry;
use crate::state::{Controller, Settings};

// The code of the polarity.
const POLARITY: u8 = 12;

// The next move's distance and direction of an axis. The latest move is then not carried on (paper 02, 6/14).
pub(crate) fn set_axis(c: Controller, axis: u8, minus: bool, length: u32) -> Controller
    requires { axis < 5 }
    ensures { result ≡ set_axis_of c axis minus length }
{
    let k = axis as usize;
    let mut next = c;
    next.cold.next.distances[k] = length;
    next.cold.next.minus[k] = minus;
    next.hot.run.master = carry::replanned(c.hot.run.master);
    next
}

// The settings with the one of this code replaced. The code is a number and no enum, as in `Command::Set`, for
// `write_line` of host promises 19 for every code without a line.
fn put(settings: Settings, code: u8, v: u32) -> Settings
    ensures { result ≡ put settings code v }
{
    let mut next = settings;
    match code {
        8 => next.speed = v,
        9 => next.slope = v,
        10 => next.dwell = v,
        11 => next.watch = v,
        12 => next.polarity = v,
        13 => next.low = v,
        14 => next.high = v,
        _ => {}
    }
    next
}

// The controller with one setting replaced.
fn store(c: Controller, code: u8, v: u32) -> Controller
    ensures { result ≡ with_setting c code v }
{
    let mut next = c;
    next.cold.settings = put(c.cold.settings, code, v);
    next
}

// What the axes' lines add to an output word under the polarity set.
fn rewire(c: Controller) -> Controller
    ensures { result ≡ rewire_of c }
{
    let mut next = c;
    next.hot.wires.cells = outputs::axis_cells(
        c.cold.switch,
        c.cold.settings.polarity,
        c.hot.plan.minus,
    );
    next
}

// A setting by its code; the polarity alters the output words.
pub(crate) fn set_setting(c: Controller, code: u8, v: u32) -> Controller
    ensures { result ≡ set_setting_of c code v }
{
    let next = store(c, code, v);
    if code == POLARITY { rewire(next) } else { next }
}

// The general outputs, and what they add to an output word.
pub(crate) fn set_outputs(c: Controller, v: u32) -> Controller
    ensures { result ≡ set_outputs_of c v }
{
    let mut next = c;
    next.hot.wires.general = outputs::general(c.cold.switch, v);
    next
}
