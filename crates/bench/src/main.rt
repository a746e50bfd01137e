// The bench program (paper 01, "Host end and program"): reads standard input to its end, and writes what the bytes of a
// read print, at once, before it reads on. What the bytes do and print is the proved work of `session` and `console`.
// Its stored test is the session that paper 01 prints. Assumes nothing beyond the contracts that the library gives to
// the system's calls that read and write.
#![tactic(auto)]

ghost use Rattle.std.specs.Prelude.{IfOk};
ghost use Rattle.session.specs.Session.{Running};

use block::REPLY_ROOM;
use session::Session;
use turns::Stopped;

// The bytes of a read.
fn pass(rt: &impl Print, s: Session, bytes: &[u8]) -> Result<Session, Stopped>
    requires { Running s }
    ensures { IfOk result Running }
{
    let passed = console::pass_all(rt, s, bytes);
    if passed.written {
        Ok(passed.session)
    } else {
        Err(Stopped)
    }
}

// The end of the input, whose last line may lack its line feed.
fn finish(rt: &impl Print, s: Session) -> Result<(), Stopped>
    requires { Running s }
{
    let mut buf = [0u8; REPLY_ROOM];
    let taken = s.finish(&mut buf);
    rt.write_all(block::front(&buf, taken.length))?;
    Ok(())
}

// Power-on with switch 0 and the host's first line, the whole input, and its end.
fn run(rt: &HostRuntime) -> Result<(), Stopped> {
    let end = turns::read_all(
        &mut rt.stdin(),
        Session::new(),
        |s: Session, bytes: &[u8]|
            requires { Running s }
            ensures { IfOk result Running }
        { pass(rt, s, bytes) },
    )?;
    finish(rt, end)
}

// The exit status is always 0: a word on standard error says that it stopped before the end.
// Each program has a main of its own, for its name.
fn main(rt: HostRuntime) {
    if run(&rt).is_err() {
        let _ = eprintln!(rt; "bench: stopped, input or output failed");
    }
}
