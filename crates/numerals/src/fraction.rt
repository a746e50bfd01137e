// A figure with a decimal fraction, as quarters. Assumes nothing.
ghost use Rattle.std.specs.Prelude.{◌≡◌};
ghost use Rattle.numerals.specs.Numerals.{digit_at, hundredths, zeros, quarters_of, plain_figure};

use crate::{NoFigure, read_decimal};
use text::parts;

// A point, and the digit 0.
const POINT: u8 = b'.';

const ZERO: u8 = b'0';

// The value of the decimal digit at a place of a fraction; 0 where there is none, or no digit.
fn digit_at(cs: &[u8], i: usize) -> u8
    ensures { result ≡ digit_at cs.now i }
{
    cs.get(i).copied().unwrap_or(ZERO).saturating_sub(ZERO)
}

// The first two digits of a fraction as a number.
fn hundredths(cs: &[u8]) -> u32
    ensures { result ≡ hundredths cs.now }
{
    u32::from(digit_at(cs, 0)) * 10 + u32::from(digit_at(cs, 1))
}

// Whether all digits of a fraction from the third on are 0.
fn zeros(cs: &[u8]) -> bool
    ensures { result ≡ zeros cs.now }
{
    cs.iter().skip(2).all(|&c| c == ZERO)
}

// Wholes and a fraction of these digits as quarters.
fn quarters(whole: u32, cs: &[u8]) -> Result<u32, NoFigure>
    ensures { result ≡ quarters_of whole cs.now }
{
    let n = hundredths(cs);
    if zeros(cs) && n % 25 == 0 {
        Ok(whole.saturating_mul(4).saturating_add(n / 25))
    } else {
        Err(NoFigure::Inexact)
    }
}

// A figure with no sign: the whole part, and what stands behind the point if there is one.
pub(crate) fn plain_figure(cs: &[u8]) -> Result<u32, NoFigure>
    ensures { result ≡ plain_figure cs.now }
{
    let whole = read_decimal(parts::part(cs, POINT, 0)).ok_or(NoFigure::Misspelled)?;
    match parts::parts(cs, POINT) {
        1 => Ok(whole.saturating_mul(4)),
        2 => {
            let behind = parts::part(cs, POINT, 1);
            read_decimal(behind).ok_or(NoFigure::Misspelled)?;
            quarters(whole, behind)
        }
        _ => Err(NoFigure::Misspelled),
    }
}
