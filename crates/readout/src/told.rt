// What each kind of block says, in words (docs/PROTOCOL.md, "From words"). Assumes nothing.
ghost use Rattle.std.specs.Prelude.{◌≡◌, nat_abs};
ghost use Rattle.laws.specs.Axes.{is_minus};
ghost use Rattle.reply.specs.Reply.{position_of};
ghost use Rattle.text.specs.Decimal.{sign_text};
ghost use Rattle.text.specs.Text.{writes};
ghost use Rattle.readout.specs.Readout.{
  verdict_text,
  direction_text,
  travel_text,
  motion_text,
  bit_text,
  bits_text,
  status_text,
  position_text,
  inputs_text,
  switch_text,
  ident_text,
  origin_text,
};

use reply::{Position, Travel};
use text::Text;

// U.
pub(crate) fn verdict(text: Text, number: u8) -> Text
    ensures { result ≡ writes text (verdict_text number) }
{
    if number == 0 {
        sentences::sentence(text, 0)
    } else {
        sentences::turned_away(text, number)
    }
}

// The direction of a move.
fn direction(text: Text, minus: bool) -> Text
    ensures { result ≡ writes text (direction_text minus) }
{
    if minus {
        text.characters(b" minus ")
    } else {
        text.characters(b" plus ")
    }
}

// S 0-4.
pub(crate) fn travelled(text: Text, axis: u8, minus: bool, travel: Travel) -> Text
    ensures { result ≡ writes text (travel_text axis minus travel.0) }
{
    let said = text.characters(b"travel ").decimal(axis as u32);
    direction(said, minus).decimal(travel.0)
}

// Whether a move or a dwell runs.
fn motion(text: Text, status: u8) -> Text
    ensures { result ≡ writes text (motion_text status) }
{
    if status / 2 % 2 == 1 {
        sentences::state(text, 2)
    } else if status % 2 == 1 {
        sentences::state(text, 1)
    } else {
        sentences::state(text, 0)
    }
}

// A bit that is set, or nothing.
fn bit(text: Text, on: bool, place: usize) -> Text
    ensures { result ≡ writes text (bit_text on place) }
{
    if on {
        sentences::state(text.characters(b", "), place)
    } else {
        text
    }
}

// The bits from 2 on.
fn bits(text: Text, status: u8) -> Text
    ensures { result ≡ writes text (bits_text status) }
{
    let wrong = bit(text, status / 4 % 2 == 1, 3);
    let stopped = bit(wrong, status / 8 % 2 == 1, 4);
    let blocked = bit(stopped, status / 16 % 2 == 1, 5);
    let held = bit(blocked, status / 32 % 2 == 1, 6);
    bit(held, status / 64 % 2 == 1, 7)
}

// S 6.
pub(crate) fn status(text: Text, status: u8) -> Text
    ensures { result ≡ writes text (status_text status) }
{
    let said = text.characters(b"status ").decimal(status as u32);
    bits(motion(said.characters(b": "), status), status)
}

// A position with its sign.
fn signed(text: Text, p: Position) -> Text
    ensures { result ≡ writes text (sign_text (is_minus (position_of p)) (nat_abs (position_of p))) }
{
    let pulses = p.signed();
    text.signed(pulses < 0, pulses.unsigned_abs() as u32)
}

// s 0-4.
pub(crate) fn placed(text: Text, axis: u8, position: Position) -> Text
    ensures { result ≡ writes text (position_text axis (position_of position)) }
{
    let said = text.characters(b"position ").decimal(axis as u32);
    signed(said.characters(b" "), position)
}

// R.
pub(crate) fn inputs(text: Text, word: u32) -> Text
    ensures { result ≡ writes text (inputs_text word) }
{
    text.characters(b"inputs ").six(word)
}

// The switch digit where it is not 0.
fn switch(text: Text, s: u8) -> Text
    ensures { result ≡ writes text (switch_text s) }
{
    if s == 0 {
        text
    } else {
        text.characters(b" (switch ")
            .with(digits::capital(s))
            .with(b')')
    }
}

// The identification where there is one.
fn name(text: Text, ident: Option<u8>) -> Text
    ensures { result ≡ writes text (ident_text ident) }
{
    match ident {
        None => text,
        Some(c) => text.characters(b" (as ").with(c).with(b')'),
    }
}

// Whose block it is.
pub(crate) fn origin(text: Text, s: u8, ident: Option<u8>) -> Text
    ensures { result ≡ writes text (origin_text s ident) }
{
    name(switch(text, s), ident)
}
