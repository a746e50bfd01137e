// What the bench program does with the bytes of a read (paper 01, "Host end and program"): all are taken, each once and
// in order, and what they print is written at once. What the bytes do is the proved work of `session`; here what they
// print is put into a buffer, one behind another, and written out. All that is handed to the call that writes is
// stated. Assumes nothing.
#![tactic(auto)]

ghost use Rattle.std.specs.Prelude.{◌+◌, ◌≤◌, ◌<◌, ◌≡◌, length, take};
ghost use Rattle.session.specs.Lines.{after, printed_by};
ghost use Rattle.session.specs.Session.{taken, held_bench, Running, Runs};
ghost use Rattle.console.specs.Console.{Stands, line_length, Fills};

use block::REPLY_ROOM;
use session::Session;

// The buffer for what the bytes of a read print.
const ROOM: usize = 65536;

// The session after some bytes, and where what they print ends in the buffer.
#[derive(Drop)]
struct Printed {
    session: Session,
    length: usize,
}

// The session after some bytes, where what they print ends in the buffer, and how many they are.
// Lengths and no slices: the bytes stand in the lent buffer.
#[derive(Drop)]
struct Line {
    session: Session,
    length: usize,
    count: usize,
}

// The session after the bytes of a read, and whether the output took all that they print. No Result: the session is
// promised either way.
#[derive(Drop)]
pub struct Passed {
    pub session: Session,
    pub written: bool,
}

// Writes a text, and answers whether the output took it. The session and the bytes are there for the premise alone, that
// the text is what they print: the contract of the call that writes does not say what was written.
fn print(rt: &impl Print, s: Session, bytes: &[u8], text: &[u8]) -> bool
    requires running { Running s }
    requires runs { Runs s (λ x. text.now ≡ printed_by x bytes.now) }
{
    rt.write_all(text).is_ok()
}

// One byte of the input. What it prints stands in `out` behind the `at` bytes that stand there.
fn pass_byte(s: Session, out: &mut [u8], at: usize, b: u8) -> Printed
    requires running { Running s }
    requires at_in_bounds { at + 120 ≤ length out.old }
    ensures running_2 { Running result.session }
    ensures length_in_bounds { result.length ≤ length out.old }
    ensures runs { Runs s (λ x. result.session ≡ held_bench (taken x b).bench) }
    ensures runs_2 { Runs s (λ x. Stands at result.length (taken x b).printed out.new out.old) }
{
    let taken = s.take(&mut out[at..], b);
    Printed {
        session: taken.session,
        length: at + taken.length,
    }
}

// The characters of a line and the byte behind them, as far as they have come. What that prints stands in `out` behind
// the `at` bytes that stand there.
fn pass_line(s: Session, out: &mut [u8], at: usize, bytes: &[u8]) -> Line
    requires running { Running s }
    requires at_in_bounds { at + 120 ≤ length out.old }
    ensures running_2 { Running result.session }
    ensures length_in_bounds { result.length ≤ length out.old }
    ensures count_in_bounds { (result.count ≤ length bytes.now) × (0 < length bytes.now → 0 < result.count) }
    ensures runs { Runs s (λ x. result.session ≡ held_bench (after x (take result.count bytes.now))) }
    ensures runs_2 { Runs s (λ x. Stands at result.length (printed_by x (take result.count bytes.now))
        out.new out.old) }
    ensures count_value { result.count ≡ line_length bytes.now }
{
    let gathered = s.gather(bytes);
    let n = gathered.count;
    if n < bytes.len() {
        let printed = pass_byte(gathered.session, out, at, bytes[n]);
        return Line {
            session: printed.session,
            length: printed.length,
            count: n + 1,
        };
    }
    Line {
        session: gathered.session,
        length: at,
        count: n,
    }
}

// As many bytes, line by line, as `out` has room for. What they print stands at the front of `out`, so that what the
// bytes of a read print can be written at once. How long a line is shows when it is passed, so that no iterator gives
// the steps.
fn fill(s: Session, out: &mut [u8], bytes: &[u8]) -> Line
    requires { Running s }
    ensures running { Running result.session }
    ensures runs { Runs s (λ x. Fills result out.new out.old x bytes.now) }
{
    let mut session = s;
    let mut at = 0;
    let mut i = 0;
    while i < bytes.len() && REPLY_ROOM <= out.len() - at {
        let passed = pass_line(session, out, at, &bytes[i..]);
        session = passed.session;
        at = passed.length;
        i += passed.count;
    }
    Line {
        session,
        length: at,
        count: i,
    }
}

// The bytes of a read. What they print is written at once; in parts only where it is longer than the buffer. Once the
// output has failed nothing more is written, so that what was written is a first part of what is printed. How many bytes
// a part takes shows when it is filled, so that no iterator gives the steps.
pub fn pass_all(rt: &impl Print, s: Session, bytes: &[u8]) -> Passed
    requires { Running s }
    ensures running { Running result.session }
    ensures runs { Runs s (λ x. result.session ≡ held_bench (after x bytes.now)) }
{
    let mut out = [0u8; ROOM];
    let mut session = s;
    let mut written = true;
    let mut i = 0;
    while i < bytes.len() {
        let filled = fill(session, &mut out, &bytes[i..]);
        let end = i + filled.count;
        let text = block::front(&out, filled.length);
        written = written && print(rt, session, &bytes[i..end], text);
        session = filled.session;
        i = end;
    }
    Passed { session, written }
}
