// Numbers as people write them: decimal or hexadecimal, with a sign, and with a decimal fraction.
// Every public function is total: it has no premise and states its result for every input. Assumes nothing.
#![tactic(auto)]

ghost use Rattle.std.specs.Prelude.{◌≡◌};
ghost use Rattle.numerals.specs.Numerals.{join_value, join_of, spelled_of, signed_of, figure_of};

use digits::Digit;

mod fraction;

// A minus sign.
const MINUS: u8 = b'-';

// A decimal number that may have a minus sign before it.
#[derive(Clone, Copy)]
pub struct Signed {
    pub minus: bool,
    pub size: u32,
}

// Why a row of characters is no figure.
#[derive(Clone, Copy, PartialEq, Eq)]
pub enum NoFigure {
    // It spells none.
    Misspelled,
    // It is no whole number of quarters, or below 0.
    Inexact,
}

// The number n with a digit of the value v behind it; a number past the largest counts as the largest.
fn join_value(base: u32, n: u32, v: u8) -> Option<u32>
    ensures { result ≡ join_value base n v }
{
    let v = u32::from(v);
    if v < base {
        Some(n.saturating_mul(base).saturating_add(v))
    } else {
        None
    }
}

// One character more.
fn join(base: u32, n: u32, c: u8) -> Option<u32>
    ensures { result ≡ join_of base (Some n) c }
{
    match digits::read_digit(c)? {
        Digit::Capital(v) | Digit::Small(v) => join_value(base, n, v),
    }
}

// A row of digits in a base.
fn read(base: u32, cs: &[u8]) -> Option<u32>
    ensures { result ≡ spelled_of base cs.now }
{
    if cs.is_empty() {
        return None;
    }
    let mut n = 0;
    for &c in cs {
        n = join(base, n, c)?;
    }
    Some(n)
}

// A decimal number; none where the characters do not spell one.
pub fn read_decimal(cs: &[u8]) -> Option<u32>
    ensures { result ≡ spelled_of 10 cs.now }
{
    read(10, cs)
}

// A hexadecimal number; none where the characters do not spell one.
pub fn read_hexadecimal(cs: &[u8]) -> Option<u32>
    ensures { result ≡ spelled_of 16 cs.now }
{
    read(16, cs)
}

// A decimal number that may have a minus sign before it.
pub fn read_signed(cs: &[u8]) -> Option<Signed>
    ensures { result ≡ signed_of cs.now }
{
    let (minus, digits) = match cs {
        [MINUS, rest @ ..] => (true, rest),
        _ => (false, cs),
    };
    Some(Signed {
        minus,
        size: read_decimal(digits)?,
    })
}

// A figure, in quarters. With a minus sign before it it is below 0, and so is not exact.
pub fn read_figure(cs: &[u8]) -> Result<u32, NoFigure>
    ensures { result ≡ figure_of cs.now }
{
    match cs {
        [MINUS, rest @ ..] => {
            fraction::plain_figure(rest)?;
            Err(NoFigure::Inexact)
        }
        _ => fraction::plain_figure(cs),
    }
}
