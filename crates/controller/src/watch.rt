// The tick's first stages and its stop causes (paper 01, "Stops", tick order).
ghost use Rattle.std.specs.Prelude.{◌≡◌, ◌/◌, ◌+◌};
ghost use Rattle.controller.specs.Inner.Watch.{
  raised_of,
  is_full_of,
  takes_of,
  is_calm_of,
  limit_or_watch_of,
  causes_of,
  stops_of,
};

use crate::state::{Hot, Plan, Settings};

// The watch count at which the line counts as lost: 4 s.
const WATCH_FULL: u32 = 1000000;

// By `saturating_add` and `min` it was tried: a tick of firmware took 1 ns more.
fn raised(watch: u32) -> u32
    ensures { result ≡ raised_of watch }
{
    if watch < WATCH_FULL {
        watch + 1
    } else {
        WATCH_FULL
    }
}

// Whether the count is full and the setting, shifted down to its bit, watches.
fn is_full(watch: u32, setting: u32) -> bool
    ensures { result ≡ is_full_of watch setting }
{
    WATCH_FULL <= watch && setting % 2 == 1
}

// Take inputs, with one tick less until a W line's block, raise the watch count, hold an active emergency, clear the
// general outputs at a full count.
pub(crate) fn takes(settings: Settings, was: Hot, word: u32) -> Hot
    ensures { result ≡ takes_of settings was word }
{
    let active = inputs::emergency(settings.low, settings.high, word);
    let watch = raised(was.watch);
    let mut next = was;
    next.inputs = word;
    next.pause.block = was.pause.block.saturating_sub(1);
    next.watch = watch;
    // No branch: by `||` a trial's tick chose between the two, for three to five instructions more.
    next.flags.emergency = was.flags.emergency | active;
    if is_full(watch, settings.watch / 2) {
        next.wires.general = 0;
    }
    next
}

// Whether no limit input is active: all that low-ON has are high, none that high-ON has is. Few ticks need more.
pub(crate) fn is_calm(low: u32, high: u32, inputs: u32) -> bool
    ensures { result ≡ is_calm_of low high inputs }
{
    (high & inputs) % 1024 == 0 && (low & inputs) % 1024 == low % 1024
}

// A limit or the watch: the causes that set bit 3. The arrays are made anew, so that no tick has to keep the plan in
// memory for a call that few make.
fn limit_or_watch(settings: Settings, plan: Plan, inputs: u32, watch: u32) -> bool
    ensures { result ≡ limit_or_watch_of settings plan inputs watch }
{
    if is_calm(settings.low, settings.high, inputs) {
        return is_full(watch, settings.watch);
    }
    let d = plan.distances;
    let m = plan.minus;
    let distances = [d[0], d[1], d[2], d[3], d[4]];
    let minus = [m[0], m[1], m[2], m[3], m[4]];
    inputs::blocked(settings.low, settings.high, inputs, distances, minus)
        || is_full(watch, settings.watch)
}

// What meets a running move: any cause, a limit or the watch, the sensor.
#[derive(Drop)]
pub struct Met {
    pub any: bool,
    pub limit: bool,
    pub sensor: bool,
}

fn causes(
    settings: Settings,
    plan: Plan,
    moving: bool,
    emergency: bool,
    inputs: u32,
    watch: u32,
) -> Met
    ensures { result ≡ causes_of settings plan moving emergency inputs watch }
{
    if !moving {
        return Met {
            any: false,
            limit: false,
            sensor: false,
        };
    }
    let sensor = inputs::sensor(settings.low, settings.high, inputs);
    let limit = limit_or_watch(settings, plan, inputs, watch);
    Met {
        any: emergency || sensor || limit,
        limit,
        sensor,
    }
}

// Begin a stop of a running move that a cause meets, and mark bits 3 and 6.
pub(crate) fn stops(settings: Settings, was: Hot) -> Hot
    ensures { result ≡ stops_of settings was }
{
    let plan = was.plan;
    let met = causes(
        settings,
        plan,
        was.run.moving,
        was.flags.emergency,
        was.inputs,
        was.watch,
    );
    let mut next = was;
    next.run.stopping = was.run.stopping || met.any;
    next.flags.stopped = was.flags.stopped || met.limit;
    next.flags.sensed = was.flags.sensed || met.sensor;
    next
}
