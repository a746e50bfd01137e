// What is printed, made ready in the lent buffer: the reply to a byte that went in, and the answer to a line that
// begins with T. Assumes nothing.
ghost use Rattle.std.specs.Prelude.{◌≤◌, [], ◌∷◌, ◌≡◌, length, take};
ghost use Rattle.block.specs.Block.{over};
ghost use Rattle.machine.specs.Steps.{byte_step};
ghost use Rattle.machine.specs.Calls.{buffer};
ghost use Rattle.controller.specs.Reach.{Reachable, Made};
ghost use Rattle.session.specs.Session.{shown_byte, shown, asks, Passed, stood_at, at_start, Told};

use crate::asked::Ticks;
use crate::kept::Kept;
use crate::state::{Place, Sent, Session, Taken};
use crate::{sums, ticks};
use controller::Controller;
use digits::END;
use text::FEED;

// The question mark.
const QUESTION: u8 = b'?';

// A byte of a reply as it is printed.
fn shown_byte(c: u8) -> u8
    ensures { result ≡ shown_byte c }
{
    if c == END { FEED } else { c }
}

// The front part of a buffer as it is printed.
fn show(buf: &mut [u8], n: usize)
    requires { n ≤ length buf.old }
    ensures { buf.new ≡ over (shown (take n buf.old)) buf.old }
{
    for b in buf[..n].iter_mut() {
        *b = shown_byte(*b);
    }
}

// A byte goes in, and its reply is made ready to print.
pub(crate) fn send(c: Controller, buf: &mut [u8], b: u8) -> Sent
    requires reachable { Reachable c }
    requires in_bounds { 120 ≤ length buf.old }
    ensures { Made c (λ m. Passed result buf.new buf.old (byte_step m b buffer)) }
{
    let a = c.byte(buf, b);
    show(buf, a.length);
    Sent {
        controller: a.controller,
        length: a.length,
        number: a.number,
    }
}

// A session with nothing kept.
pub(crate) fn stand(sent: Sent, place: Place) -> Taken
    ensures { result ≡ stood_at sent place }
{
    Taken {
        session: Session {
            controller: sent.controller,
            kept: Kept::new(),
            place,
        },
        length: sent.length,
        number: sent.number,
    }
}

// `?` and a line feed.
fn question(c: Controller, buf: &mut [u8]) -> Taken
    requires { 120 ≤ length buf.old }
    ensures { (result ≡ at_start c 2) × (buf.new ≡ over (63 ∷ 10 ∷ []) buf.old) }
{
    buf[0] = QUESTION;
    buf[1] = FEED;
    let sent = Sent {
        controller: c,
        length: 2,
        number: 0,
    };
    stand(sent, Place::Start)
}

// A line that begins with T.
pub(crate) fn answer(c: Controller, buf: &mut [u8], asked: Option<Ticks>) -> Taken
    requires reachable { Reachable c }
    requires in_bounds { 120 ≤ length buf.old }
    ensures { Made c (λ m. Told result buf.new buf.old (asks m asked)) }
{
    let Some(Ticks { count, word }) = asked else {
        return question(c, buf);
    };
    let ran = ticks::run_ticks(c, buf, count, word);
    let at = ran.length as usize;
    show(buf, at);
    let length = sums::write_behind(buf, at, ran.sums);
    let sent = Sent {
        controller: ran.controller,
        length,
        number: ran.number,
    };
    stand(sent, Place::Start)
}
