// The fields of a block by its letter (paper 01, "Lines", Replies): each in its range, or the bytes are no block.
// Each function is total and states its result for every input, whatever the switch is. Assumes nothing.
ghost use Rattle.std.specs.Prelude.{ℕ, Option, ◌≡◌};
ghost use Rattle.reader.specs.Reader.{says, is_verdict, verdict_in, is_echo, order_in, place_in, fields_in};

use crate::reading::Figure;
use digits::{FIVE_DIGITS, FOUR_DIGITS, TOP_BIT};
use line::command::{AXES, input_bits, is_order};
use reply::{Position, Travel};

// What the status bits 0 to 6 count to.
const STATUS_FULL: u32 = 128;
// The highest number of a turned-away line of paper 01, and the one that paper 02 (6/14) has beside them: there is
// nothing to carry on.
const LAST_NUMBER: u32 = 17;

const NO_CARRY: u32 = 26;

// U: 0, 8 to 17, 26, or 4 to 7 with no identification.
fn is_verdict(number: u32, ident: Option<u8>) -> bool
    ensures { result ≡ is_verdict number ident }
{
    match number {
        0 | 8..=LAST_NUMBER | NO_CARRY => true,
        4..=7 => ident.is_none(),
        _ => false,
    }
}

// An order's digits: 8 with a master in the second digit and any four after; 9, A, B, C; D, E with input bits only.
fn is_echo(number: u32) -> bool
    ensures { result ≡ is_echo number }
{
    let code = number / FIVE_DIGITS;
    let five = number % FIVE_DIGITS;
    match code {
        8 => five / FOUR_DIGITS % 8 < AXES as u32,
        13 | 14 => input_bits(five),
        _ => is_order(code),
    }
}

// A U block.
fn verdict_in(number: u32, ident: Option<u8>) -> Option<Figure>
    ensures { (switch : ℕ) → says switch ident result ≡ verdict_in switch number ident }
{
    if is_verdict(number, ident) {
        Some(Figure::Verdict(number as u8))
    } else {
        None
    }
}

// An S block: a travel, the status, or an order's digits.
fn order_in(number: u32) -> Option<Figure>
    ensures { (switch : ℕ) (ident : Option ℕ) → says switch ident result ≡ order_in switch number ident }
{
    let code = number / FIVE_DIGITS;
    let five = number % FIVE_DIGITS;
    if code < AXES as u32 {
        Some(Figure::Travelled {
            axis: code as u8,
            minus: TOP_BIT <= five,
            travel: Travel(five % TOP_BIT),
        })
    } else if code == 6 {
        if five < STATUS_FULL {
            Some(Figure::Status(five as u8))
        } else {
            None
        }
    } else {
        is_echo(number).then_some(Figure::Echo(number))
    }
}

// An s block: a position in 20-bit two's complement.
fn place_in(number: u32) -> Option<Figure>
    ensures { (switch : ℕ) (ident : Option ℕ) → says switch ident result ≡ place_in switch number ident }
{
    let code = number / FIVE_DIGITS;
    let five = number % FIVE_DIGITS;
    if code < AXES as u32 {
        Some(Figure::Placed {
            axis: code as u8,
            position: Position((five + TOP_BIT) % FIVE_DIGITS),
        })
    } else {
        None
    }
}

// The fields by the letter.
#[tactic(auto, unfolding(crate::specs::Reader::fields_in))]
pub(crate) fn fields_in(letter: u8, number: u32, ident: Option<u8>) -> Option<Figure>
    ensures { (switch : ℕ) → says switch ident result ≡ fields_in letter switch number ident }
{
    match letter {
        b'U' => verdict_in(number, ident),
        b'S' => order_in(number),
        b's' => place_in(number),
        b'R' => Some(Figure::Inputs(number)),
        _ => None,
    }
}
