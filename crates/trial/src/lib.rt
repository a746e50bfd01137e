// A dose tried without wine (paper 02, 5/14): what a plain start with this master and so many ticks with this input
// word would leave. All of it is done on a copy, with a reply buffer of its own: the controller is given by value and
// stays the caller's. The only premise is that it is reachable. Assumes nothing.
#![tactic(auto)]

ghost use Rattle.std.specs.Prelude.{◌≤◌, ◌≡◌};
ghost use Rattle.controller.specs.Held.{held_byte};
ghost use Rattle.controller.specs.Reach.{Reachable, Made};
ghost use Rattle.trial.specs.Trial.{start_answer, turned, shown, trial_of};
ghost use Rattle.trial.specs.Promises.{Numbers, PlainStart, FirstEnd, Rest, OnTheBench};
ghost use Rattle.trial.specs.Witness.{TrialWitness, WholeTrial};

use crate::ticking::Ticked;
use block::REPLY_ROOM;
use controller::{ByteAnswer, Controller, LAST_WORD};
use digits::END;
use reply::Travel;

mod ticking;

// The most ticks of a trial.
pub const MOST_TICKS: u32 = 1000000;

// The highest axis, and so the highest master.
pub const LAST_AXIS: u32 = 4;

// What would be left: five positions and five travels; the tick of the end, counted from 1, or 0 where it is not
// reached; and the number that turns the trial away, or 0. With a number all else is 0.
// C reads it, hence arrays side by side, 0 for no end, and a number and no Result.
#[repr(C)]
#[derive(Clone, Copy)]
pub struct Trial {
    pub positions: [i64; 5],
    pub travels: [Travel; 5],
    pub end: u32,
    pub number: u8,
}

// Nothing is shown but a number.
fn turned(number: u8) -> Trial
    ensures { result ≡ turned number }
{
    Trial {
        positions: [0; 5],
        travels: [Travel(0); 5],
        end: 0,
        number,
    }
}

// The machine's own line of a plain start, given to the copy without a half-received line.
fn start(c: Controller, master: u32) -> ByteAnswer
    requires reachable { Reachable c }
    requires master_bound { master ≤ 4 }
    ensures made { Made c (λ m. result ≡ held_byte (start_answer m master)) }
    ensures reachable_2 { Reachable result.controller }
{
    let copy = c.without_line();
    let line = [b'Q', b'0', b'8', b'0' + master as u8];
    let ready = copy.gather(&line).controller;
    let mut buf = [0u8; REPLY_ROOM];
    ready.byte(&mut buf, END)
}

// What the controller shows after the ticks.
fn shown(ran: Ticked) -> Trial
    requires { Reachable ran.controller }
    ensures { Made ran.controller (λ m. result ≡ shown m ran.end) }
{
    let positions = ran.controller.signed_positions();
    let travels = ran.controller.travels();
    Trial {
        positions,
        travels,
        end: ran.end,
        number: 0,
    }
}

// What a plain start and so many ticks would leave. Its numbers for every machine, what the line means, that the end is
// the first and the rest alters nothing, that the bench itself would come to the same, and computed trials, stand here
// as promises.
pub fn temixohuel_trial(c: Controller, master: u32, word: u32, ticks: u32) -> Trial
    requires { Reachable c }
    ensures made { Made c (λ m. result ≡ trial_of m master word ticks) }
    ensures numbers { Numbers }
    ensures plain_start { PlainStart }
    ensures first_end { FirstEnd }
    ensures rest { Rest }
    ensures on_the_bench { OnTheBench }
    ensures trial_witness { TrialWitness }
    ensures whole_trial { WholeTrial }
{
    if LAST_WORD < word {
        return turned(3);
    }
    if MOST_TICKS < ticks {
        return turned(25);
    }
    if LAST_AXIS < master {
        return turned(10);
    }
    let start = start(c, master);
    if start.number != 0 {
        return turned(start.number);
    }
    shown(ticking::run(start.controller, word, ticks))
}
