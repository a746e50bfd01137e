// The block of a W line, which comes once the inputs have settled (paper 02, 3/14).
ghost use Rattle.std.specs.Prelude.{◌≤◌, ◌≡◌, length};
ghost use Rattle.block.specs.Block.{over};
ghost use Rattle.controller.specs.Inner.Settle.{span_of, awaits_of, tell_reply};

use crate::state::Controller;
use line::command;
use line::command::Command;

// The ticks from a W line to its block: 10 ms.
const SPAN: u16 = 2500;

// The ticks until the block of a W line: a silent one gives none.
fn span(silent: bool) -> u16
    ensures { result ≡ span_of silent }
{
    if silent { 0 } else { SPAN }
}

// An accepted W line takes the earlier one's place; any other line leaves it.
pub(crate) fn awaits(c: Controller, command: Command, silent: bool, ident: Option<u8>) -> Controller
    ensures { result ≡ awaits_of c command silent ident }
{
    let mut next = c;
    if command::is_w(command) {
        let block = span(silent);
        next.hot.pause.block = block;
        next.cold.named = ident.is_some();
        next.cold.ident = ident.unwrap_or(0);
    }
    next
}

// The block, in the tick that counts the last of them, and its length: no other tick writes anything.
// `named` and `held` come as the controller holds them: the Option is made in the one tick that needs it.
pub(crate) fn tell(buf: &mut [u8], block: u16, switch: u8, word: u32, named: bool, held: u8) -> u8
    requires { 120 ≤ length buf.old }
    ensures value { result ≡ length (tell_reply block switch word named held) }
    ensures buf_after { buf.new ≡ over (tell_reply block switch word named held) buf.old }
{
    if block == 1 {
        return reply::write_inputs(buf, switch, word, named.then_some(held)) as u8;
    }
    0
}
