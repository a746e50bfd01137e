// So many ticks with one input word, and the tick in which the move ends (paper 02, 5/14). Assumes nothing.
ghost use Rattle.std.specs.Prelude.{◌≤◌, ◌≡◌, length};
ghost use Rattle.machine.specs.Steps.{tick_step};
ghost use Rattle.machine.specs.Calls.{buffer};
ghost use Rattle.controller.specs.Reach.{Reachable, Made};
ghost use Rattle.trial.specs.Trial.{first_of};
ghost use Rattle.trial.specs.Ticking.{ticked_of, ran_of, last_of};

use block::REPLY_ROOM;
use controller::Controller;

// The controller after some ticks, and which of them, counted from 1, was the first that ended a move; 0 for none.
// 0 as `Trial` has it: an Option would be turned back at once.
#[derive(Drop)]
pub(crate) struct Ticked {
    pub(crate) controller: Controller,
    pub(crate) end: u32,
}

// The first of n ticks and one more that ends a move.
fn first(end: u32, ends: bool, n: u32) -> u32
    ensures { result ≡ first_of end ends n }
{
    if end != 0 {
        end
    } else if ends {
        n
    } else {
        0
    }
}

// One tick, the n-th.
fn tick(was: Ticked, buf: &mut [u8], word: u32, n: u32) -> Ticked
    requires reachable { Reachable was.controller }
    requires in_bounds { 120 ≤ length buf.old }
    ensures { Made was.controller (λ m. result ≡ ticked_of was.end n (tick_step m word buffer)) }
{
    let a = was.controller.tick(buf, word);
    Ticked {
        controller: a.controller,
        end: first(was.end, a.ended, n),
    }
}

// So many ticks, or as many as it takes to the end: those behind it alter nothing that is shown (`Rest`). They are lent
// a buffer of their own, without which each would be turned away by 2 (3/14).
// One test at the head of the loop: by `for` with a `break` a tick took a sixth more instructions.
pub(crate) fn run(c: Controller, word: u32, count: u32) -> Ticked
    requires { Reachable c }
    ensures { Made c (λ m. result ≡ ran_of m word (last_of m word count)) }
{
    let mut buf = [0u8; REPLY_ROOM];
    let mut ran = Ticked {
        controller: c,
        end: 0,
    };
    let mut n = 0;
    while n < count && ran.end == 0 {
        n += 1;
        ran = tick(ran, &mut buf, word, n);
    }
    ran
}
