// What a word and a number, a figure or `on` behind it mean as a command (docs/PROTOCOL.md, "From words").
// Assumes nothing.
ghost use Rattle.std.specs.Prelude.{◌≡◌};
ghost use Rattle.numerals.specs.Numerals.{spelled_of, figure_of};
ghost use Rattle.phrases.specs.Meanings.{
  axis_of,
  with_decimal,
  with_hexadecimal,
  with_figure,
  carry_of,
  single_of,
};

use crate::meaning::NoCommand;
use figures::Setting;
use line::command::{Command, Reading};
use sentences::places;
use text::parts;

// An axis or a master: a number over 255 counts as 255, which no command has either.
pub(crate) fn axis(n: u32) -> u8
    ensures { result ≡ axis_of n }
{
    n.min(255) as u8
}

// A word and a decimal number.
fn with_decimal(k: usize, w: &[u8]) -> Option<Command>
    ensures { result ≡ with_decimal k (spelled_of 10 w.now) }
{
    let n = numerals::read_decimal(w)?;
    match k {
        places::START => Some(Command::Start {
            master: axis(n),
            waits: false,
        }),
        places::TRAVEL => Some(Command::Read(Reading::Travel(axis(n)))),
        places::POSITION => Some(Command::Read(Reading::Position(axis(n)))),
        places::DWELL => Some(Command::Set { code: 10, value: n }),
        places::WATCH => Some(Command::Set { code: 11, value: n }),
        _ => None,
    }
}

// A word and a hexadecimal number.
fn with_hexadecimal(k: usize, w: &[u8]) -> Option<Command>
    ensures { result ≡ with_hexadecimal k (spelled_of 16 w.now) }
{
    let n = numerals::read_hexadecimal(w)?;
    match k {
        places::POLARITY => Some(Command::Set { code: 12, value: n }),
        places::LOW => Some(Command::Set { code: 13, value: n }),
        places::HIGH => Some(Command::Set { code: 14, value: n }),
        places::OUTPUTS => Some(Command::Outputs(n)),
        _ => None,
    }
}

// A speed or a slope.
fn with_figure(k: usize, w: &[u8]) -> Result<Command, NoCommand>
    ensures { result ≡ with_figure k (figure_of w.now) }
{
    if places::SLOPE < k {
        return Err(NoCommand::Misspelled);
    }
    let x = figures::speed_hz(numerals::read_figure(w)?);
    let setting = if k == places::SPEED {
        Setting::Speed(x)
    } else {
        Setting::Slope(x)
    };
    Ok(figures::command_of(setting)?)
}

// `carry` and the word `on`.
fn carry(w: &[u8]) -> Option<Command>
    ensures { result ≡ carry_of w.now }
{
    if parts::same(w, b"on") {
        Some(Command::Order(12))
    } else {
        None
    }
}

// Two words.
// By the ranges of places: they say what follows the word.
pub(crate) fn single(k: usize, w: &[u8]) -> Result<Command, NoCommand>
    ensures { result ≡ single_of k w.now }
{
    let command = if k == places::CARRY {
        carry(w)
    } else if k < places::POLARITY {
        with_decimal(k, w)
    } else if k < places::SPEED {
        with_hexadecimal(k, w)
    } else {
        return with_figure(k, w);
    };
    command.ok_or(NoCommand::Misspelled)
}
