// What preview does with a byte (docs/PROTOCOL.md, "A dose on screen first"): a line that begins with D is kept and
// answered by `screen`, and nothing of it goes in; every other byte goes to the bench, and what that would print is
// told in words, as the desk tells it. Once the output has failed nothing more is written, so that what was written is
// a first part of what is printed. Assumes nothing.
ghost use Rattle.std.specs.Prelude.{IfOk};
ghost use Rattle.session.specs.Session.{Running};

use block::REPLY_ROOM;
use session::Session;
use text::{FEED, Text};
use turns::Stopped;
use wording::Desk;

// The letter D.
const LETTER: u8 = 68;

// The bench, the desk that tells what it prints, the line that begins with D as far as it has come, of which a text
// holds more than it needs to be over-long, and whether the next byte begins a line.
#[derive(Clone, Copy)]
pub(crate) struct Preview {
    pub(crate) session: Session,
    desk: Desk,
    line: Text,
    begins: bool,
}

impl Preview {
    // Power-on with switch 0 and the host's first line, before any input.
    pub(crate) fn new() -> Preview
        ensures { Running result.session }
    {
        Preview {
            session: Session::new(),
            desk: Desk::new(),
            line: Text::new(),
            begins: true,
        }
    }

    // Whether a byte belongs to a line that begins with D: one is under way, or the byte begins one.
    fn keeps(&self, b: u8) -> bool {
        self.line.count != 0 || self.begins && b == LETTER
    }

    // A byte that goes to the bench.
    fn send(self, rt: &impl Print, b: u8) -> Result<Preview, Stopped>
        requires { Running self.session }
        ensures { IfOk result (λ end. Running end.session) }
    {
        let mut buf = [0u8; REPLY_ROOM];
        let taken = self.session.take(&mut buf, b);
        Ok(Preview {
            session: taken.session,
            desk: telling::tell(rt, self.desk, block::front(&buf, taken.length))?,
            line: Text::new(),
            begins: b == FEED,
        })
    }

    // The answer to the line that begins with D.
    fn answer(&self, rt: &impl Print) -> Result<(), Stopped>
        requires { Running self.now.session }
    {
        let text = screen::answer(self.session.controller(), self.line.bytes());
        rt.write_all(text.bytes())?;
        Ok(())
    }

    // A byte of the line that begins with D.
    fn keep(self, rt: &impl Print, b: u8) -> Result<Preview, Stopped>
        requires { Running self.session }
        ensures { IfOk result (λ end. Running end.session) }
    {
        let line = if b == FEED {
            self.answer(rt)?;
            Text::new()
        } else {
            self.line.with(b)
        };
        Ok(Preview {
            session: self.session,
            desk: self.desk,
            line,
            begins: b == FEED,
        })
    }

    // One byte.
    fn take(self, rt: &impl Print, b: u8) -> Result<Preview, Stopped>
        requires { Running self.session }
        ensures { IfOk result (λ end. Running end.session) }
    {
        if self.keeps(b) {
            self.keep(rt, b)
        } else {
            self.send(rt, b)
        }
    }

    // The bytes of a read, one after another.
    pub(crate) fn pass(self, rt: &impl Print, bytes: &[u8]) -> Result<Preview, Stopped>
        requires { Running self.session }
        ensures { IfOk result (λ end. Running end.session) }
    {
        let mut preview = self;
        for &b in bytes {
            preview = preview.take(rt, b)?;
        }
        Ok(preview)
    }

    // The end of the input, whose last line may lack its line feed.
    pub(crate) fn finish(self, rt: &impl Print) -> Result<(), Stopped>
        requires { Running self.session }
    {
        if self.line.count != 0 {
            return self.answer(rt);
        }
        let mut buf = [0u8; REPLY_ROOM];
        let taken = self.session.finish(&mut buf);
        telling::tell(rt, self.desk, block::front(&buf, taken.length))?;
        Ok(())
    }
}
