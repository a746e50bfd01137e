// What the desk answers to the bytes of a read, written at once (docs/PROTOCOL.md, "From words"): the programs `desk` and
// `preview` do so. What it answers is the proved work of `wording`. Assumes nothing.
#![tactic(auto)]

ghost use Rattle.std.specs.Prelude.{◌≡◌, IfOk};
ghost use Rattle.telling.specs.Telling.{told};

use turns::Stopped;
use wording::Desk;

// The desk after bytes, one after another; what each prints is written before the next is taken. Once the output has
// failed nothing more is written, so that what was written is a first part of what is printed.
pub fn tell(rt: &impl Print, desk: Desk, bytes: &[u8]) -> Result<Desk, Stopped>
    ensures { IfOk result (λ end. end ≡ told desk bytes.now) }
{
    let mut desk = desk;
    for &b in bytes {
        let taken = desk.take(b);
        desk = taken.desk;
        rt.write_all(taken.text.bytes())?;
    }
    Ok(desk)
}
