// The program `preview` (paper 02, 5/14; docs/PROTOCOL.md, "A dose on screen first"): reads standard input to its end,
// tells in words what the bench would print to each line, and shows what a trial would leave. What is answered is the
// proved work of `session`, `wording` and `screen`. Assumes nothing beyond the contracts that the library gives to the
// system's calls that read and write.
#![tactic(auto)]

ghost use Rattle.std.specs.Prelude.{IfOk};
ghost use Rattle.session.specs.Session.{Running};

use crate::passing::Preview;
use turns::Stopped;

mod passing;

// The whole input, and its end.
fn run(rt: &HostRuntime) -> Result<(), Stopped> {
    let end = turns::read_all(
        &mut rt.stdin(),
        Preview::new(),
        |preview: Preview, bytes: &[u8]|
            requires { Running preview.session }
            ensures { IfOk result (λ end. Running end.session) }
        { preview.pass(rt, bytes) },
    )?;
    end.finish(rt)
}

// The exit status is always 0: a word on standard error says that it stopped before the end.
// Each program has a main of its own, for its name.
fn main(rt: HostRuntime) {
    if run(&rt).is_err() {
        let _ = eprintln!(rt; "preview: stopped, input or output failed");
    }
}
