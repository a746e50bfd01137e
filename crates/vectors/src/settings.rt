// Bench figures on lines `F` and `U`.
use crate::texts::Text;
use crate::{form, texts, writer};
use figures::{NotExact, Setting};
use host::Request;
use line::command::Command;

// 2 to the 53, and what an exponent has added.
const MOST_DIGITS: u64 = 9007199254740992;

const ADDED: u32 = 2048;

// What a line's figures are of.
#[derive(Clone, Copy)]
pub(crate) enum Unit {
    Speed,
    Slope,
}

impl Unit {
    // `V` is for speeds; else a line is of slopes.
    pub(crate) fn of_line(line: &[u8]) -> Unit {
        match form::at(line, 2) {
            b'V' => Unit::Speed,
            _ => Unit::Slope,
        }
    }

    // The figure of n units.
    pub(crate) fn figure(self, n: u32) -> f64 {
        match self {
            Unit::Speed => figures::speed_hz(n),
            Unit::Slope => figures::slope_hz_per_ms(n),
        }
    }

    // A figure in units.
    pub(crate) fn units(self, x: f64) -> Result<u32, NotExact> {
        match self {
            Unit::Speed => figures::speed_units(x),
            Unit::Slope => figures::slope_units(x),
        }
    }

    fn setting(self, x: f64) -> Setting {
        match self {
            Unit::Speed => Setting::Speed(x),
            Unit::Slope => Setting::Slope(x),
        }
    }
}

// 4 times a figure as a whole number, cut off to one; 0 where it is past 64 bits or not a number.
pub(crate) fn quarters_of(x: f64) -> u64 {
    let y = x * 4.0;
    if y > -1.0 && y < 18446744073709551616.0 {
        std::num::truncating_f64_to_u64(y)
    } else {
        0
    }
}

// A figure as `U` prints it.
pub(crate) fn with_figure(text: Text, x: f64) -> Text {
    let quarters = quarters_of(x);
    let exact = std::num::nearest_u64_to_f64(quarters) == x * 4.0;
    text.hex(quarters, 16)
        .characters(if exact { b" =" } else { b" ~" })
}

// `U`: the figure of any number of units.
pub(crate) fn shown(line: &[u8]) -> Text {
    with_figure(
        Text::new(),
        Unit::of_line(line).figure(form::number(line, 4, 12)),
    )
}

// m doubled or halved step by step.
fn scaled(m: f64, factor: f64, steps: u32) -> f64 {
    (0..steps).fold(m, |x, _| x * factor)
}

fn magnitude(m: u64, exponent: u32) -> f64 {
    let factor = if exponent < ADDED { 0.5 } else { 2.0 };
    scaled(
        std::num::nearest_u64_to_f64(m),
        factor,
        exponent.abs_diff(ADDED),
    )
}

fn signed(sign: u8, x: f64) -> f64 {
    match sign {
        b'N' => 0.0 / 0.0,
        b'-' => -x,
        _ => x,
    }
}

fn with_units(text: Text, units: Result<u32, NotExact>) -> Text {
    match units {
        Ok(n) => text.characters(b"00 ").hex(u64::from(n), 6),
        Err(error) => text.number(u8::from(error)),
    }
}

// The line of a command without its 0D.
fn with_line(text: Text, command: Command) -> Text {
    let request = Request {
        silent: false,
        command,
        ident: None,
    };
    writer::with_line(text, b"00 ", request)
}

fn with_asked(text: Text, asked: Result<Command, NotExact>) -> Text {
    match asked {
        Err(error) => text.number(u8::from(error)),
        Ok(command) => with_line(text, command),
    }
}

// `F`: a figure read back.
pub(crate) fn read_back(line: &[u8]) -> Text {
    let high = u64::from(form::number(line, 6, 12));
    let m = high * 4294967296 + u64::from(form::number(line, 12, 20));
    if MOST_DIGITS < m {
        return texts::question();
    }
    let sign = form::at(line, 4);
    let unit = Unit::of_line(line);
    let x = signed(sign, magnitude(m, form::number(line, 21, 24)));
    let asked = figures::command_of(unit.setting(x));
    with_asked(with_units(Text::new(), unit.units(x)).with(b' '), asked)
}
