// The host end (paper 01, "Host end and program"): the writer from a command value to a full line, and the master
// picker; the line that host tools send first (paper 02, 2/14).
// Every public function is total: it has no premise, and states its result and the whole buffer for every input.
// Assumes nothing.
#![tactic(auto)]

ghost use Rattle.std.specs.Prelude.{◌≤◌, ◌≡◌, length};
ghost use Rattle.block.specs.Block.{over};
ghost use Rattle.host.specs.Master.{master_of, Longest};
ghost use Rattle.host.specs.Writer.{
  ident_fits,
  has_line,
  switch_of,
  query_of,
  error_number,
  result_of,
  written_of,
  buffer_of,
};
ghost use Rattle.host.specs.RoundTrip.{LineTrip, LineBack};
ghost use Rattle.host.specs.Watch.{watch_off, WatchOff};

use block::Block;
use digits::END;
use line::command::Command;
use line::{command, distances};

mod content;

// The least line buffer.
const LINE_ROOM: usize = 10;

// What the host asks for: a command, whether its line is silent, and its identification.
#[derive(Clone, Copy)]
pub struct Request {
    pub silent: bool,
    pub command: Command,
    pub ident: Option<u8>,
}

// Why there is no line: the buffer is as it was.
#[derive(Clone, Copy, PartialEq, Eq)]
pub enum WriteError {
    // 18: a line buffer under 10 bytes.
    ShortBuffer,
    // 19: a value without a line.
    NoLine,
}

// The number of the paper.
impl From<WriteError> for u8 {
    ghost from_gives = { λ error number. number ≡ error_number error };

    fn from(error: WriteError) -> u8 {
        match error {
            WriteError::ShortBuffer => 18,
            WriteError::NoLine => 19,
        }
    }
}

// Whether an identification is absent, or a character 0-9, A-F or a-f.
pub fn is_ident(ident: Option<u8>) -> bool
    ensures { result ≡ ident_fits ident }
{
    ident.is_none_or(line::is_ident)
}

// Whether the values of a request are in their ranges; W's query has no identification.
fn has_line(request: Request) -> bool
    ensures { result ≡ has_line request }
{
    command::fits(request.command)
        && if content::is_query(request.command) {
            request.ident.is_none()
        } else {
            is_ident(request.ident)
        }
}

// The switch digit of a line: 0 (reply) or 4 (silent).
fn switch(silent: bool) -> u8
    ensures { result ≡ switch_of silent }
{
    if silent { 4 } else { 0 }
}

// A W query at the front of a buffer that has room for it.
fn write_query(buf: &mut [u8], silent: bool)
    requires { 10 ≤ length buf.old }
    ensures { buf.new ≡ over (query_of silent) buf.old }
{
    buf[0] = b'W';
    buf[1] = digits::capital(switch(silent));
    buf[2] = END;
}

// The line of a request at the front of a lent buffer: 18 for a buffer under 10 bytes, then 19 for a value without a
// line; both leave the buffer as it was. That the controller reads every such line as the same command, and that 19 is
// exactly for values without a line, stand here as promises.
pub fn write_line(buf: &mut [u8], request: Request) -> Result<usize, WriteError>
    ensures result_value { result_of result ≡ written_of request buf.old }
    ensures buf_after { buf.new ≡ buffer_of request buf.old }
    ensures line_trip { LineTrip }
    ensures line_back { LineBack }
{
    if buf.len() < LINE_ROOM {
        return Err(WriteError::ShortBuffer);
    }
    if !has_line(request) {
        return Err(WriteError::NoLine);
    }
    if content::is_query(request.command) {
        write_query(buf, request.silent);
        return Ok(3);
    }
    let content = content::content_of(request.command);
    let block = Block {
        letter: content.letter,
        switch: switch(request.silent),
        number: content.number,
        ident: request.ident,
    };
    Ok(block::write_block(buf, 0, block))
}

// P0B0 and 0D: what host tools send first, once after each power-on, and drop the reply of (paper 02, 2/14). No other
// entry of the host adds it.
pub fn watch_off() -> [u8; 5]
    ensures value { result ≡ watch_off }
    ensures watch_off { WatchOff }
{
    [b'P', b'0', b'B', b'0', END]
}

// The master for a move with these distances: the longest; of equals the lowest axis; 0 if all are 0.
pub fn pick_master(distances: [u32; 5]) -> u8
    ensures value { result ≡ master_of distances }
    ensures longest { Longest distances result }
{
    for k in 0..4 {
        if !distances::some_longer(distances, distances[k]) {
            return k as u8;
        }
    }
    4
}
