// The blending controller (paper 01): power-on, a received byte with its lent reply buffer, the bytes before a 0D at
// once, a tick with its input word and its lent reply buffer, readings, and a copy without a half-received line. Only
// power-on and calls can make one. Each entry's answer is that of the crate `machine`, held as specs/Held.antt says;
// the only premise is that the controller is reachable. Assumes nothing.
#![tactic(auto)]

ghost use Rattle.std.specs.Prelude.{◌≡◌};
ghost use Rattle.block.specs.Block.{front_of};
ghost use Rattle.machine.specs.Carry.{CarryOn};
ghost use Rattle.machine.specs.Demand.{Demand3};
ghost use Rattle.machine.specs.Identified.{Returns};
ghost use Rattle.machine.specs.Journal.{Journal};
ghost use Rattle.machine.specs.Marked.{Marked};
ghost use Rattle.machine.specs.Settle.{Settles};
ghost use Rattle.machine.specs.Watch.{Watch};
ghost use Rattle.witness.specs.Blocks.{BlockWitness};
ghost use Rattle.witness.specs.Carried.{CarryWitness};
ghost use Rattle.witness.specs.Entries.{EntryWitness};
ghost use Rattle.witness.specs.Identified.{ReturnWitness};
ghost use Rattle.witness.specs.Witness.{Witness};
ghost use Rattle.controller.specs.Held.{held_power};
ghost use Rattle.controller.specs.Reach.{Reachable};
ghost use Rattle.controller.specs.Answers as answered;
ghost use Rattle.controller.specs.Answers.{ReplyIn, BlockIn, Promised, Demand3Answers};
ghost use Rattle.controller.specs.Carry.{CarryAnswers};
ghost use Rattle.controller.specs.Identified.{ReturnsAnswers};
ghost use Rattle.controller.specs.Journal.{JournalAnswers};
ghost use Rattle.controller.specs.Settle.{SettlesAnswers};

pub use crate::state::{ByteAnswer, Controller, Gathered, PowerOn, TickAnswer};
pub use crate::turned::LAST_WORD;
use block::REPLY_ROOM;

mod aside;
mod carry;
mod dwell;
mod entry;
mod line_end;
mod motion;
mod numbers;
mod orders;
mod power;
mod ramp;
mod readings;
mod settings;
mod settle;
mod start;
pub mod state;
mod status;
mod turned;
mod watch;
mod words;

// Power-on. The theorem about every list of calls, the marked table and computed lists stand here as promises, so that
// the gate keeps them: they speak of the machine whose held values every entry answers. The same theorem over the
// answers of these entries themselves stands beside it (`Demand3Answers`). So do the two about the journal's entries
// (`Journal`, `JournalAnswers`), with computed ones (`EntryWitness`), the one about the watch that is on from here
// (`Watch`), the two about the blocks of W lines (`Settles`, `SettlesAnswers`), with computed ones (`BlockWitness`),
// the two about carry-ons (`CarryOn`, `CarryAnswers`), with a computed one (`CarryWitness`), and the two about the
// identification that replies return (`Returns`, `ReturnsAnswers`), with computed replies (`ReturnWitness`).
pub fn power_on(switch: u8) -> PowerOn
    ensures value { result ≡ held_power switch }
    ensures reachable { Reachable result.controller }
    ensures demand3 { Demand3 }
    ensures marked { Marked }
    ensures witness { Witness }
    ensures demand3answers { Demand3Answers }
    ensures journal { Journal }
    ensures journal_answers { JournalAnswers }
    ensures entry_witness { EntryWitness }
    ensures watch { Watch }
    ensures settles { Settles }
    ensures settles_answers { SettlesAnswers }
    ensures block_witness { BlockWitness }
    ensures carry_on { CarryOn }
    ensures carry_answers { CarryAnswers }
    ensures carry_witness { CarryWitness }
    ensures returns { Returns }
    ensures returns_answers { ReturnsAnswers }
    ensures return_witness { ReturnWitness }
{
    if power::is_bad(switch) {
        let controller = power::fresh(0);
        return PowerOn {
            controller,
            number: 1,
        };
    }
    let controller = power::fresh(switch);
    PowerOn {
        controller,
        number: 0,
    }
}

// The reply that a received byte or a tick left in its lent buffer, by the length that it answered: the front part,
// empty for a length past the end.
pub fn front(buf: &[u8], n: usize) -> &[u8]
    ensures result_value { result.now ≡ front_of buf.now n }
    ensures reply_in { ReplyIn buf.now n result.now }
    ensures block_in { BlockIn buf.now n result.now }
{
    block::front(buf, n)
}

impl Controller {
    // A received byte, with the buffer lent for a reply: the answer and the whole buffer are the machine's.
    pub fn byte(self, buf: &mut [u8], b: u8) -> ByteAnswer
        requires { Reachable self }
        ensures { Promised self (answered.byte b buf.old buf.new result) }
    {
        if buf.len() < REPLY_ROOM {
            return ByteAnswer {
                controller: self,
                length: 0,
                number: 2,
            };
        }
        let taken = self.cold.line.take(b);
        let controller = aside::with_line(self, taken.next);
        match taken.heard {
            None => ByteAnswer {
                controller,
                length: 0,
                number: 0,
            },
            Some(line) => line_end::lined(controller, buf, line),
        }
    }

    // The bytes of a stretch before its first 0D, at once: the controller is the machine's after each of them, in a
    // list of calls. None of them has a reply or a number (`Quiet`), so that no buffer is lent.
    pub fn gather(self, bytes: &[u8]) -> Gathered
        requires { Reachable self }
        ensures { Promised self (answered.stretch bytes.now result) }
    {
        let gathered = self.cold.line.gather(bytes);
        let controller = aside::with_line(self, gathered.next);
        Gathered {
            controller,
            count: gathered.count,
        }
    }

    // A tick, with its input word and the buffer lent for a block: the answer and the whole buffer are the machine's.
    pub fn tick(self, buf: &mut [u8], word: u32) -> TickAnswer
        requires { Reachable self }
        ensures { Promised self (answered.tick word buf.old buf.new result) }
    {
        let number = turned::tick_number(buf.len(), word);
        if number != 0 {
            return turned::refused(self, number);
        }
        let cold = self.cold;
        let settings = cold.settings;
        let next = cold.next;
        let was = self.hot;
        let taken = watch::takes(settings, was, word);
        let waited = dwell::waits(settings, next, cold.switch, taken);
        let looked = waited.hot;
        let stopped = watch::stops(settings, looked);
        let ran = motion::runs(settings, stopped);
        let hot = ran.hot;
        let wires = hot.wires;
        let second = words::rest(wires);
        let pulses = ran.pulses;
        let plan = hot.plan;
        let counters = hot.counters;
        let run = hot.run;
        let entry = entry::told(ran.ends, plan, counters, run);
        let block = was.pause.block;
        let length = settle::tell(buf, block, cold.switch, word, cold.named, cold.ident);
        let controller = Controller { hot, cold };
        TickAnswer {
            controller,
            first: ran.first,
            second,
            pulses,
            number: waited.number,
            ended: ran.ends,
            length,
            entry,
        }
    }
}
