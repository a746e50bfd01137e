// The program `desk`, the host end for people (docs/PROTOCOL.md, "From words"): reads standard input to its end and
// answers each line at once. What it answers is the proved work of `wording`. Assumes nothing beyond the contracts that
// the library gives to the system's calls that read and write.
#![tactic(auto)]

use turns::Stopped;
use wording::Desk;

// The whole input, and its end.
fn run(rt: &HostRuntime) -> Result<(), Stopped> {
    let desk = turns::read_all(&mut rt.stdin(), Desk::new(), |desk: Desk, bytes: &[u8]| {
        telling::tell(rt, desk, bytes)
    })?;
    let last = desk.finish();
    rt.write_all(last.bytes())?;
    Ok(())
}

// The exit status is always 0: a word on standard error says that it stopped before the end.
// Each program has a main of its own, for its name.
fn main(rt: HostRuntime) {
    if run(&rt).is_err() {
        let _ = eprintln!(rt; "desk: stopped, input or output failed");
    }
}
