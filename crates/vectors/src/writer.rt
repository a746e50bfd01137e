// The writer on a line `W hh h hh hh h hhhhhhhh ii`.
use crate::texts::Text;
use crate::{form, texts};
use host::Request;
use line::command::{Command, Reading};

// The longest buffer of a line or a journal, and what each of its bytes is before.
pub(crate) const ROOM: usize = 64;

pub(crate) const BEFORE: u8 = 90;

// The highest number of a command in the page's table.
const LAST: u8 = 18;

// A command by its number in the page's table (docs/VECTORS.md); the last for each number past it.
fn command_of(number: u8, axis: u8, flag: bool, value: u32) -> Command {
    match number {
        0 => Command::Distance {
            axis,
            minus: flag,
            length: value,
        },
        1 => Command::Set { code: 8, value },
        2 => Command::Set { code: 9, value },
        3 => Command::Set { code: 10, value },
        4 => Command::Set {
            code: 11,
            value: value % 256,
        },
        5 => Command::Set { code: 12, value },
        6 => Command::Read(Reading::Travel(axis)),
        7 => Command::Read(Reading::Status),
        8 => Command::Start {
            master: axis,
            waits: flag,
        },
        9 => Command::Order(9),
        10 => Command::Order(10),
        11 => Command::Order(11),
        12 => Command::Set { code: 13, value },
        13 => Command::Set { code: 14, value },
        14 => Command::Read(Reading::Position(axis)),
        15 => Command::Read(Reading::Everything),
        16 => Command::Read(Reading::Inputs),
        17 => Command::Outputs(value),
        _ => Command::Order(12),
    }
}

// Bytes, two digits each, after a space; nothing where there is none.
fn with_bytes(text: Text, s: &[u8]) -> Text {
    if s.is_empty() {
        return text;
    }
    s.iter().fold(text.with(b' '), |told, &b| told.byte(b))
}

// The number and the length, or the place, that a writer answers, then the whole buffer.
pub(crate) fn told(number: u8, length: usize, buf: &[u8]) -> Text {
    let answer = Text::new().number(number).with(b' ');
    with_bytes(answer.hex(length as u64, 2), buf)
}

// The line of a request without its 0D, behind some characters; or the number that refuses it.
pub(crate) fn with_line(text: Text, before: &[u8], request: Request) -> Text {
    let mut buf = [0; 10];
    match host::write_line(&mut buf, request) {
        Err(error) => text.number(u8::from(error)),
        Ok(0) => text.number(0),
        Ok(n) => text
            .characters(before)
            .characters(block::front(&buf, n - 1)),
    }
}

fn written(buf: &mut [u8], request: Request) -> Text {
    match host::write_line(buf, request) {
        Ok(n) => told(0, n, buf),
        Err(error) => told(u8::from(error), 0, buf),
    }
}

fn request_of(line: &[u8], number: u8, given: bool) -> Request {
    let flag = form::at(line, 13) == b'1';
    let value = form::number(line, 15, 23);
    Request {
        silent: form::at(line, 5) == b'1',
        command: command_of(number, form::byte(line, 10), flag, value),
        ident: given.then_some(form::byte(line, 24)),
    }
}

// `W`: a line written into so long a buffer.
pub(crate) fn answer(line: &[u8], given: bool) -> Text {
    let room = usize::from(form::byte(line, 2));
    let number = form::byte(line, 7);
    let mut buf = [BEFORE; ROOM];
    match buf.get_mut(..room) {
        Some(buf) if number <= LAST => written(buf, request_of(line, number, given)),
        _ => texts::question(),
    }
}
