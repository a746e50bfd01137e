// The dwell counted down, and a start that waits for its end (paper 01, "Stops").
ghost use Rattle.std.specs.Prelude.{◌≡◌, ◌<◌};
ghost use Rattle.controller.specs.Inner.Start.{StartFits};
ghost use Rattle.controller.specs.Inner.Dwell.{failed_of, due_of, is_due_of, waits_of, WaitFits};

use crate::start;
use crate::state::{Hot, Plan, Settings};

// Hot after the dwell, with the number of a waiting start that failed, or 0.
// A number and no Result: see numbers.rt.
#[derive(Drop)]
pub struct Waited {
    pub hot: Hot,
    pub number: u8,
}

// A waiting start that failed is dropped; 14 sets bit 2.
fn failed(was: Hot, number: u8) -> Hot
    ensures { result ≡ failed_of was number }
{
    let mut next = was;
    next.flags.wrong = was.flags.wrong || number == 14;
    next.pause.left = 0;
    next.pause.waiting = 0;
    next
}

// The dwell has come to its end, and a waiting start is tried.
fn due(settings: Settings, next: Plan, switch: u8, hot: Hot, master: u8) -> Waited
    requires { (master < 5) × StartFits next hot.counters }
    ensures { result ≡ due_of settings next switch hot master }
{
    let number = start::start_number(settings, next, hot, master);
    let after = if number == 0 {
        start::begun(next, settings.polarity, switch, hot, master)
    } else {
        failed(hot, number)
    };
    Waited { hot: after, number }
}

fn is_due(left: u32, waiting: u16) -> bool
    ensures { result ≡ is_due_of left waiting }
{
    left == 1 && 0 < waiting
}

// Count the dwell down and, when it becomes 0, try a waiting start. The two ways write to one variable: a copy each
// would keep the whole state in memory in every tick.
pub(crate) fn waits(settings: Settings, next: Plan, switch: u8, hot: Hot) -> Waited
    requires { WaitFits next hot }
    ensures { result ≡ waits_of settings next switch hot }
{
    let mut after = hot;
    let mut number = 0;
    if is_due(hot.pause.left, hot.pause.waiting) {
        let was = hot;
        let waited = due(settings, next, switch, was, (hot.pause.waiting - 1) as u8);
        let tried = waited.hot;
        after = tried;
        number = waited.number;
    } else {
        let left = hot.pause.left.saturating_sub(1);
        after.pause.left = left;
    }
    Waited { hot: after, number }
}
