// The reader on a line `B hh..`.
use crate::form;
use crate::texts::Text;
use digits::TOP_BIT;
use reader::reading::{Figure, Reading};
use reply::Position;

// The identification.
fn with_ident(text: Text, ident: Option<u8>) -> Text {
    match ident {
        None => text.characters(b" --"),
        Some(c) => text.with(b' ').byte(c),
    }
}

// A letter of the page's table and the switch digit.
fn headed(letter: u8, switch: u8) -> Text {
    Text::new()
        .characters(b"00 ")
        .with(letter)
        .with(b' ')
        .hex(u64::from(switch), 1)
        .with(b' ')
}

// An axis, and a sign with what it is the sign of.
fn of_axis(text: Text, axis: u8, sign: u8, n: u32) -> Text {
    text.hex(u64::from(axis), 1)
        .with(b' ')
        .with(sign)
        .with(b' ')
        .hex(u64::from(n), 6)
}

// A position by its sign and its magnitude.
fn placed(text: Text, axis: u8, position: Position) -> Text {
    let sign = if position.0 < TOP_BIT { b'-' } else { b'+' };
    of_axis(text, axis, sign, position.0.abs_diff(TOP_BIT))
}

// What a block says.
fn shown(reading: Option<Reading>) -> Text {
    let Some(reading) = reading else {
        return Text::new().number(20);
    };
    let switch = reading.switch;
    let told = match reading.figure {
        Figure::Verdict(number) => headed(b'U', switch).number(number),
        Figure::Travelled {
            axis,
            minus,
            travel,
        } => of_axis(headed(b'T', switch), axis, b'0' + u8::from(minus), travel.0),
        Figure::Status(status) => headed(b'Q', switch).byte(status),
        Figure::Echo(digits) => headed(b'E', switch).hex(u64::from(digits), 6),
        Figure::Placed { axis, position } => placed(headed(b'P', switch), axis, position),
        Figure::Inputs(inputs) => headed(b'I', switch).hex(u64::from(inputs), 6),
    };
    with_ident(told, reading.ident)
}

// A line `B hh..` of up to sixteen bytes, or one of no form.
pub(crate) fn answer(line: &[u8]) -> Text {
    form::row(line, b"B hhhhhhhhhhhhhhhhhhhhhhhhhhhhhhhh", 2, |bytes| {
        shown(reader::read_block(bytes))
    })
}
