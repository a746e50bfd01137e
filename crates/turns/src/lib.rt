// The turns of a program: it reads, and passes on what came before it reads on, to the end of its input. Assumes nothing
// beyond the contract that the library gives to the system's call that reads.
#![tactic(auto)]

ghost use Rattle.std.specs.Prelude.{IfOk};
ghost use Rattle.turns.specs.Turns.{Keeps, Passed, Takes};

use std::io::{Error, Read};

// The buffer for the bytes of a read.
const ROOM: usize = 4096;

// Why a program stops as it is: the input cannot be read, or the output takes no more.
#[derive(Clone, Copy)]
pub struct Stopped;

impl From<Error> for Stopped {
    fn from(_why: Error) -> Stopped {
        Stopped
    }
}

// Reads to the end of the input, and passes the bytes of each read on before it reads on. The end is what the passes
// made of the start, one after another, each of bytes, and none that failed. A proved loop has to end, and nothing says
// that the input does: it has a number of turns that no run uses up.
pub fn read_all<T: Drop, F: FnMut(T, &[u8]) -> Result<T, Stopped>>(
    input: &mut impl Read,
    start: T,
    mut pass: F,
) -> Result<T, Stopped>
    requires takes { Takes F.pre pass start }
    requires keeps { Keeps F.pre F.step }
    ensures { IfOk result (Passed F.pre F.step pass start) }
{
    let mut buf = [0u8; ROOM];
    let mut end = start;
    for _ in 0..u64::MAX {
        let n = input.read(&mut buf)?;
        if n == 0 {
            return Ok(end);
        }
        end = pass(end, &buf[..n])?;
    }
    Err(Stopped)
}
