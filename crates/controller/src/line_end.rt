// What the end of a line does: it is turned away, or accepted, obeyed and answered (paper 01, "Lines", Replies).
ghost use Rattle.std.specs.Prelude.{◌≡◌, ◌≤◌, length};
ghost use Rattle.block.specs.Block.{over};
ghost use Rattle.line.specs.Fits.{CommandFits, JudgedFits};
ghost use Rattle.controller.specs.Inner.Numbers.{NumberFits};
ghost use Rattle.controller.specs.Inner.LineEnd.{
  refuse_of,
  refuse_reply,
  obey_of,
  tell_reply,
  lined_of,
  lined_reply,
};

use crate::state::{ByteAnswer, Controller};
use crate::{numbers, orders, settle, status};
use line::Accepted;
use receiver::Line;

// A line turned away.
fn refuse(c: Controller, buf: &mut [u8], line: Line, number: u8) -> ByteAnswer
    requires { 120 ≤ length buf.old }
    ensures value { result ≡ refuse_of c line.silent line.ident number }
    ensures buf_after { buf.new ≡ over (refuse_reply c line.silent line.ident number) buf.old }
{
    let controller = numbers::turned(c, number);
    let length = if line.silent {
        0
    } else {
        reply::write_refusal(buf, c.cold.switch, number, line.ident)
    };
    ByteAnswer {
        controller,
        length,
        number,
    }
}

// The reply to a line accepted, and its length: none to a silent one.
fn tell(c: Controller, buf: &mut [u8], line: Line, accepted: Accepted) -> usize
    requires { 120 ≤ length buf.old }
    ensures value { result ≡ length (tell_reply c line.silent line.ident accepted.command accepted.digits) }
    ensures buf_after { buf.new ≡ over (tell_reply c line.silent line.ident accepted.command accepted.digits) buf.old }
{
    if line.silent {
        return 0;
    }
    let told = status::readings(c);
    reply::write_reply(buf, told, accepted.command, accepted.digits, line.ident)
}

// A line accepted: the reply first, since it is made from what is there before the command is obeyed.
fn obey(c: Controller, buf: &mut [u8], line: Line, accepted: Accepted) -> ByteAnswer
    requires { (120 ≤ length buf.old) × CommandFits accepted.command }
    ensures value { result ≡ obey_of c line.silent line.ident accepted.command accepted.digits }
    ensures buf_after { buf.new ≡ over (tell_reply c line.silent line.ident accepted.command accepted.digits) buf.old }
{
    let length = tell(c, buf, line, accepted);
    let done = orders::does(c, accepted.command);
    let zeroed = orders::zero_watch(done);
    let controller = settle::awaits(zeroed, accepted.command, line.silent, line.ident);
    ByteAnswer {
        controller,
        length,
        number: 0,
    }
}

// A line that has ended.
pub(crate) fn lined(c: Controller, buf: &mut [u8], line: Line) -> ByteAnswer
    requires { (120 ≤ length buf.old) × JudgedFits line.judged × NumberFits c }
    ensures value { result ≡ lined_of c line.silent line.ident line.judged }
    ensures buf_after { buf.new ≡ over (lined_reply c line.silent line.ident line.judged) buf.old }
{
    match line.judged {
        Err(refusal) => refuse(c, buf, line, u8::from(refusal)),
        Ok(accepted) => {
            let number = numbers::number(c, accepted.command);
            if number == 0 {
                obey(c, buf, line, accepted)
            } else {
                refuse(c, buf, line, number)
            }
        }
    }
}
