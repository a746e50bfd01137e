// The table of codes (chapter 7): a row for each letter and code. Assumes nothing.
ghost use Rattle.std.specs.Prelude.{◌≡◌, ◌<◌};
ghost use Rattle.digits.specs.Digits.{six_digits};
ghost use Rattle.line.specs.Codes.{row_p, row_q, rowq, row_w, row_of};

use crate::command::{Command, Reading};

// A row: the least number of digits (the most is six), and the command.
#[derive(Clone, Copy)]
pub(crate) struct Row {
    pub(crate) least: u8,
    pub(crate) command: Command,
}

// P: distances, then settings. Of a distance's five digits the top bit is minus.
fn row_p(code: u8, five: u32) -> Option<Row>
    ensures { result ≡ row_p code five }
{
    let (least, command) = match code {
        0..=4 => (
            6,
            Command::Distance {
                axis: code,
                minus: digits::TOP_BIT <= five,
                length: five % digits::TOP_BIT,
            },
        ),
        11 => (
            2,
            Command::Set {
                code,
                value: five / digits::FOUR_DIGITS,
            },
        ),
        8..=12 => (6, Command::Set { code, value: five }),
        _ => return None,
    };
    Some(Row { least, command })
}

// Q: readings, starts, orders, input settings. A start's second digit from 8 on waits for the end of the dwell.
fn row_q(code: u8, five: u32) -> Option<Row>
    ensures { result ≡ row_q code five }
{
    let second = five / digits::FOUR_DIGITS;
    let (least, command) = match code {
        0..=4 => (1, Command::Read(Reading::Travel(code))),
        6 => (1, Command::Read(Reading::Status)),
        8 => (
            2,
            Command::Start {
                master: (second % 8) as u8,
                waits: 8 <= second,
            },
        ),
        9..=12 => (1, Command::Order(code)),
        13 | 14 => (6, Command::Set { code, value: five }),
        _ => return None,
    };
    Some(Row { least, command })
}

// q: positions, and everything.
fn row_small_q(code: u8) -> Option<Row>
    ensures { result ≡ rowq code }
{
    let reading = match code {
        0..=4 => Reading::Position(code),
        8 => Reading::Everything,
        _ => return None,
    };
    Some(Row {
        least: 1,
        command: Command::Read(reading),
    })
}

// W alone is a query, with digits an order.
fn row_w(count: u32, number: u32) -> Row
    ensures { Some result ≡ row_w count number }
{
    if count == 0 {
        return Row {
            least: 0,
            command: Command::Read(Reading::Inputs),
        };
    }
    Row {
        least: 6,
        command: Command::Outputs(number),
    }
}

// The row of a letter, a digit count and the six digits' number; none for a code that is absent or not in the table. W
// has no code; P, Q, q with no digit have none.
pub(crate) fn row_of(letter: u8, count: u32, number: u32) -> Option<Row>
    requires { number < six_digits }
    ensures { result ≡ row_of letter count number }
{
    if letter == b'W' {
        return Some(row_w(count, number));
    }
    if count == 0 {
        return None;
    }
    let code = (number / digits::FIVE_DIGITS) as u8;
    let five = number % digits::FIVE_DIGITS;
    match letter {
        b'P' => row_p(code, five),
        b'Q' => row_q(code, five),
        _ => row_small_q(code),
    }
}
