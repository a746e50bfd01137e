// What the bench program does with its input (paper 01, "Host end and program"), a byte or a stretch at a time, on
// values and lent buffers: lines that begin with T run ticks and print the sums of the signed pulses, before them the
// block of a W line if it comes in these ticks; other lines go in and their replies are printed. The only premise is
// that the session is one that `new` and the calls after it made. Assumes nothing.
#![tactic(auto)]

ghost use Rattle.std.specs.Prelude.{◌≤◌, [], ◌∷◌, ◌++◌, ◌≡◌, length};
ghost use Rattle.session.specs.Kept.{Keeping};
ghost use Rattle.session.specs.Lines.{Lines};
ghost use Rattle.session.specs.Session.{fresh, ended, character, taken, finished, kept_of, untaken_of, held_bench};
ghost use Rattle.session.specs.Session.{Told, Answers, Running, Runs};
ghost use Rattle.session.specs.Stretch.{stretch, held_stretch, Silent};

pub use crate::asked::MOST_TICKS;
use crate::kept::Kept;
pub use crate::state::{Gathered, Place, Session, Taken};
use block::REPLY_ROOM;
use digits::END;
use text::FEED;

mod answer;
mod asked;
mod kept;
mod opening;
pub mod state;
mod stretch;
mod sums;
mod ticks;

impl Session {
    // A controller of switch 0 that got the host's first line, before any input. The law of whole lines stands here as
    // a promise, so that the gate keeps it: it speaks of the bench whose held values every entry answers.
    pub fn new() -> Session
        ensures value { result ≡ held_bench fresh }
        ensures running { Running result }
        ensures lines { Lines }
    {
        Session {
            controller: opening::opened(),
            kept: Kept::new(),
            place: Place::Start,
        }
    }

    // A character of a line that begins with T.
    fn keep(self, b: u8) -> Taken
        ensures { Keeping self.kept (λ l. result ≡ kept_of self.controller (l ++ (b ∷ []))) }
    {
        Taken {
            session: Session {
                controller: self.controller,
                kept: self.kept.push(b),
                place: Place::Asking,
            },
            length: 0,
            number: 0,
        }
    }

    // The end of a line.
    fn end_line(self, buf: &mut [u8]) -> Taken
        requires running { Running self }
        requires in_bounds { 120 ≤ length buf.old }
        ensures { Runs self (λ x. Told result buf.new buf.old (ended x)) }
    {
        match self.place {
            Place::Asking => answer::answer(self.controller, buf, self.kept.asked()),
            Place::Start | Place::Sending => {
                let sent = answer::send(self.controller, buf, END);
                answer::stand(sent, Place::Start)
            }
        }
    }

    // A character, which is no line feed.
    fn pass(self, buf: &mut [u8], b: u8) -> Taken
        requires running { Running self }
        requires in_bounds { 120 ≤ length buf.old }
        ensures { Runs self (λ x. Told result buf.new buf.old (character x b)) }
    {
        if stretch::keeps(self.place, b) {
            return self.keep(b);
        }
        let sent = answer::send(self.controller, buf, b);
        answer::stand(sent, Place::Sending)
    }

    // The bytes before the first line feed or 0D, at once: the same as `take` of each. They print nothing and have no
    // number, so that no buffer is lent.
    pub fn gather(self, bytes: &[u8]) -> Gathered
        requires { Running self }
        ensures runs { Runs self (λ x. result ≡ held_stretch x bytes.now) }
        ensures runs_2 { Runs self (λ x. Silent x (stretch bytes.now)) }
        ensures running { Running result.session }
    {
        let count = stretch::before_mark(bytes);
        let mut controller = self.controller;
        let mut kept = self.kept;
        let mut place = self.place;
        if 0 < count {
            if stretch::keeps(place, bytes[0]) {
                kept = kept.push_all(&bytes[..count]);
                place = Place::Asking;
            } else {
                controller = controller.gather(&bytes[..count]).controller;
                place = Place::Sending;
            }
        }
        let session = Session {
            controller,
            kept,
            place,
        };
        Gathered { session, count }
    }

    // A buffer under 120 bytes: nothing is altered or printed.
    fn untaken(self) -> Taken
        ensures { result ≡ untaken_of self }
    {
        Taken {
            session: self,
            length: 0,
            number: 2,
        }
    }

    // A byte of the input, with a buffer for what it prints. With a buffer under 120 bytes it is not taken: number 2.
    pub fn take(self, buf: &mut [u8], b: u8) -> Taken
        requires { Running self }
        ensures runs { Runs self (λ x. Answers result buf.new buf.old x (taken x b)) }
        ensures running { Running result.session }
    {
        if buf.len() < REPLY_ROOM {
            return self.untaken();
        }
        if b == FEED {
            return self.end_line(buf);
        }
        self.pass(buf, b)
    }

    // The end of the input, whose last line may lack its line feed.
    pub fn finish(self, buf: &mut [u8]) -> Taken
        requires { Running self }
        ensures runs { Runs self (λ x. Answers result buf.new buf.old x (finished x)) }
        ensures running { Running result.session }
    {
        if buf.len() < REPLY_ROOM {
            return self.untaken();
        }
        match self.place {
            Place::Start => Taken {
                session: self,
                length: 0,
                number: 0,
            },
            Place::Sending | Place::Asking => self.end_line(buf),
        }
    }
}
