// Runs all that is stored in the folder data: sessions of the bench program, lists of calls, and vectors of the host
// end and of the journal (docs/VECTORS.md). The arguments are pairs: `session`, `lists` or `vectors`, and the file to
// read, `-` for standard input. A file's answers come after a line with its name. What is printed is compared with what
// the reference prints, not proved; every function here is proved safe and ending. Assumes nothing beyond the contracts
// that the library gives to the system's calls that read, write, open a file and hand out the arguments.
#![tactic(auto)]

ghost use Rattle.std.specs.Prelude.{◌≤◌, length};

use crate::host_end::HostEnd;
use crate::lists::List;
use crate::texts::Text;
use session::Session;
use std::env::{Env, FillError};
use std::fs;
use std::io::{Error, ErrorKind, Read};

mod blocks;
mod digests;
mod form;
mod host_end;
mod input;
mod journal_lines;
mod lists;
mod pairs;
mod settings;
mod station_lines;
mod texts;
mod writer;

// The longest word of an argument, and the longest name of a file.
const LONGEST: usize = 4096;

// The most bytes of a session.
const ROOM: usize = 65536;

// A session of the bench program from power-on and its own first line: up to 65,536 bytes, twice as many as the
// longest that is stored.
fn play_session(rt: &impl Print, file: &mut impl Read) {
    let mut bytes = [0u8; ROOM];
    let n = input::read_full(file, &mut bytes);
    let passed = console::pass_all(rt, Session::new(), &bytes[..n]);
    let mut buf = [0u8; block::REPLY_ROOM];
    let last = passed.session.finish(&mut buf);
    let _ = rt.write_all(block::front(&buf, last.length));
}

// What a word asks for. An unknown word is a line of no form.
fn play(rt: &impl Print, word: &[u8], file: &mut impl Read) {
    match word {
        b"session" => play_session(rt, file),
        b"lists" => input::run(rt, List::new(), file),
        b"vectors" => input::run(rt, HostEnd, file),
        _ => texts::question().print(rt),
    }
}

// A named file, after a line with its name.
fn play_file(rt: &HostRuntime, word: &[u8], name: &[u8]) {
    let opened = match str::from_utf8(name) {
        Ok(path) => fs::open(rt, path),
        Err(_) => Err(Error::from(ErrorKind::InvalidFilename)),
    };
    match opened {
        Ok(mut file) => {
            Text::new().characters(b"# ").characters(name).print(rt);
            play(rt, word, &mut file);
        }
        Err(error) => fail(rt, name, error),
    }
}

// Writes a line to standard error: the name of a file, and why it could not be opened.
fn fail(rt: &HostRuntime, name: &[u8], error: Error) {
    let _ = rt.stderr().write_all(name);
    let _ = eprintln!(rt; ": {error}");
}

// Puts an argument at the start of `buf`, and answers its length: 0 where it is missing or too long.
fn argument(rt: &impl Env, i: usize, buf: &mut [u8]) -> usize
    ensures { result ≤ length buf.new }
{
    rt.arg(i, buf).unwrap_or(0)
}

// The pair of these two arguments.
fn play_pair(rt: &HostRuntime, i: usize, j: usize) {
    let mut word = [0u8; LONGEST];
    let m = argument(rt, i, &mut word);
    let mut name = [0u8; LONGEST];
    let n = argument(rt, j, &mut name);
    if matches!(&name[..n], b"-") {
        play(rt, &word[..m], &mut rt.stdin());
        return;
    }
    play_file(rt, &word[..m], &name[..n]);
}

// How many arguments there are, the program's own name among them.
fn argument_count(rt: &impl Env) -> usize {
    let mut buf = [0u8; LONGEST];
    // The number of the first argument that is not there is the answer.
    for i in 0..usize::MAX {
        if let Err(FillError::NotPresent) = rt.arg(i, &mut buf) {
            return i;
        }
    }
    usize::MAX
}

fn main(rt: HostRuntime) {
    let pairs = argument_count(&rt) / 2;
    for i in 0..pairs {
        play_pair(&rt, 2 * i + 1, 2 * i + 2);
    }
}
