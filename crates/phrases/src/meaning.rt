// What words mean as a command (docs/PROTOCOL.md, "From words"). Assumes nothing.
ghost use Rattle.std.specs.Prelude.{◌≡◌};
ghost use Rattle.phrases.specs.declared.meaning.NoCommand.TheVariants as N;
ghost use Rattle.phrases.specs.Meanings.{unread, plain_of, pair_of, waiting_of, meant_at, meant_by};

use crate::single;
use figures::NotExact;
use line::command::{Command, Reading};
use numerals::{NoFigure, Signed};
use sentences::places;
use text::{SPACE, parts};

// Why words mean no command.
// Not `NoFigure` of numerals, which tells of a figure alone.
#[derive(Clone, Copy, PartialEq, Eq)]
pub enum NoCommand {
    // They have no form.
    Misspelled,
    // A figure in them is no whole number of units, or out of range: 21.
    NotExact,
}

impl From<NoFigure> for NoCommand {
    ghost from_gives = { λ figure reason. reason ≡ unread figure };

    fn from(figure: NoFigure) -> NoCommand {
        match figure {
            NoFigure::Misspelled => NoCommand::Misspelled,
            NoFigure::Inexact => NoCommand::NotExact,
        }
    }
}

impl From<NotExact> for NoCommand {
    ghost from_gives = { λ _ reason. reason ≡ N.NotExact };

    fn from(_e: NotExact) -> NoCommand {
        NoCommand::NotExact
    }
}

// A word alone.
fn plain(k: usize) -> Option<Command>
    ensures { result ≡ plain_of k }
{
    match k {
        places::STOP => Some(Command::Order(9)),
        places::STATUS => Some(Command::Read(Reading::Status)),
        places::EVERYTHING => Some(Command::Read(Reading::Everything)),
        places::INPUTS => Some(Command::Read(Reading::Inputs)),
        places::CLEAR => Some(Command::Order(10)),
        places::RESET => Some(Command::Order(11)),
        _ => None,
    }
}

// Three words: an axis and its distance.
fn pair(k: usize, number: &[u8], distance: &[u8]) -> Option<Command>
    ensures { result ≡ pair_of k number.now distance.now }
{
    if k != places::DISTANCE {
        return None;
    }
    let axis = single::axis(numerals::read_decimal(number)?);
    let Signed { minus, size } = numerals::read_signed(distance)?;
    Some(Command::Distance {
        axis,
        minus,
        length: size,
    })
}

// Four words: a start after the dwell.
fn waiting(k: usize, master: &[u8], w: &[u8], x: &[u8]) -> Option<Command>
    ensures { result ≡ waiting_of k master.now w.now x.now }
{
    if k == places::START && parts::same(w, b"after") && parts::same(x, b"dwell") {
        Some(Command::Start {
            master: single::axis(numerals::read_decimal(master)?),
            waits: true,
        })
    } else {
        None
    }
}

// By how many words there are.
fn meant_at(k: usize, body: &[u8]) -> Result<Command, NoCommand>
    ensures { result ≡ meant_at k body.now }
{
    let command = match parts::parts(body, SPACE) {
        1 => plain(k),
        2 => return single::single(k, parts::part(body, SPACE, 1)),
        3 => pair(k, parts::part(body, SPACE, 1), parts::part(body, SPACE, 2)),
        4 => waiting(
            k,
            parts::part(body, SPACE, 1),
            parts::part(body, SPACE, 2),
            parts::part(body, SPACE, 3),
        ),
        _ => None,
    };
    command.ok_or(NoCommand::Misspelled)
}

// What the words of a form mean.
pub(crate) fn meaning_of(body: &[u8]) -> Result<Command, NoCommand>
    ensures { result ≡ meant_by body.now }
{
    meant_at(sentences::place_of(parts::part(body, SPACE, 0)), body)
}
