// What the line of a command in range holds (paper 01, "Lines"; chapter 7): its letter and six digits. The premises of
// these functions are the ranges that `line::command::fits` judged before. Assumes nothing.
ghost use Rattle.std.specs.Prelude.{◌+◌, ◌<◌, ◌≡◌};
ghost use Rattle.laws.specs.Bits.{weight};
ghost use Rattle.digits.specs.Digits.{five_digits, top_bit};
ghost use Rattle.line.specs.Codes.{is_query};
ghost use Rattle.line.specs.Fits.{CommandFits};
ghost use Rattle.line.specs.declared.command.Command.TheVariants as C;
ghost use Rattle.reply.specs.Reply.{coded};
ghost use Rattle.host.specs.Writer.{content, content_of};

use digits::{FIVE_DIGITS, FOUR_DIGITS, TOP_BIT};
use line::command::{Command, Reading};

// The codes of the watch, a start, the status and everything, and the lowest code of a setting by a line Q.
const WATCH: u8 = 11;

const START: u8 = 8;

const STATUS: u8 = 6;

const EVERYTHING: u8 = 8;

const LOW_ON: u8 = 13;
// What a start's second digit has added where it waits.
const WAITS: u32 = 8;

// A letter, and six digits as a number.
#[derive(Drop)]
pub(crate) struct Content {
    pub(crate) letter: u8,
    pub(crate) number: u32,
}

// A letter, a code and the five digits after it.
fn coded(letter: u8, code: u8, five: u32) -> Content
    requires { five < five_digits }
    ensures { result ≡ content letter (coded code five) }
{
    Content {
        letter,
        number: code as u32 * FIVE_DIGITS + five,
    }
}

// A distance's five digits: the top bit is minus.
fn distance_digits(minus: bool, length: u32) -> u32
    requires { length < top_bit }
    ensures { result ≡ weight minus top_bit + length }
{
    if minus { TOP_BIT + length } else { length }
}

// P, and Q for the settings of the inputs; the watch is the second digit.
fn setting(code: u8, value: u32) -> Content
    requires { CommandFits (C.Set code value) }
    ensures { result ≡ content_of (C.Set code value) }
{
    match code {
        WATCH => coded(b'P', code, value * FOUR_DIGITS),
        LOW_ON.. => coded(b'Q', code, value),
        _ => coded(b'P', code, value),
    }
}

// Q 8: the second digit is the master, 8 more for a start after the dwell.
fn start(master: u8, waits: bool) -> Content
    requires { master < 5 }
    ensures { result ≡ content_of (C.Start master waits) }
{
    let added = if waits { WAITS } else { 0 };
    coded(b'Q', START, (added + master as u32) * FOUR_DIGITS)
}

// A reading; W's query has no digits, and here stands with 0.
fn reading(reading: Reading) -> Content
    ensures { result ≡ content_of (C.Read reading) }
{
    match reading {
        Reading::Travel(axis) => coded(b'Q', axis, 0),
        Reading::Position(axis) => coded(b'q', axis, 0),
        Reading::Status => coded(b'Q', STATUS, 0),
        Reading::Everything => coded(b'q', EVERYTHING, 0),
        Reading::Inputs => Content {
            letter: b'W',
            number: 0,
        },
    }
}

// The letter and digits of a command in range.
pub(crate) fn content_of(command: Command) -> Content
    requires { CommandFits command }
    ensures { result ≡ content_of command }
{
    match command {
        Command::Distance {
            axis,
            minus,
            length,
        } => coded(b'P', axis, distance_digits(minus, length)),
        Command::Set { code, value } => setting(code, value),
        Command::Start { master, waits } => start(master, waits),
        Command::Order(code) => coded(b'Q', code, 0),
        Command::Outputs(v) => Content {
            letter: b'W',
            number: v,
        },
        Command::Read(r) => reading(r),
    }
}

// Whether a command is W's query, which has no digits.
pub(crate) fn is_query(command: Command) -> bool
    ensures { result ≡ is_query command }
{
    matches!(command, Command::Read(Reading::Inputs))
}
