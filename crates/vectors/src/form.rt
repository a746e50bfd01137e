// The form of a line, and the numbers in its fields.
ghost use Rattle.std.specs.Prelude.{◌≤◌};

use crate::texts;
use crate::texts::Text;
use digits::Digit;

// The most bytes that a line has side by side.
const MOST: usize = 48;

// The value of a capital hexadecimal digit.
fn value(c: u8) -> Option<u8> {
    match digits::read_digit(c) {
        Some(Digit::Capital(v)) => Some(v),
        _ => None,
    }
}

// Whether a character may stand where a form has this letter: `h` is a digit, `d` one from 0 to 7, `f` 0 or 1, `k` V or
// A, `g` a sign or N, `p` a sign; any other stands for itself.
fn allows(letter: u8, c: u8) -> bool {
    match letter {
        b'h' => value(c).is_some(),
        b'd' => matches!(c, b'0'..=b'7'),
        b'f' => matches!(c, b'0' | b'1'),
        b'k' => matches!(c, b'V' | b'A'),
        b'g' => matches!(c, b'+' | b'-' | b'N'),
        b'p' => matches!(c, b'+' | b'-'),
        _ => c == letter,
    }
}

// Whether a line has a form, character by character.
pub(crate) fn fits(line: &[u8], form: &[u8]) -> bool {
    line.len() == form.len() && form.iter().zip(line).all(|(&letter, &c)| allows(letter, c))
}

// The character at a place; 0 where there is none.
pub(crate) fn at(line: &[u8], place: usize) -> u8 {
    line.get(place).copied().unwrap_or(0)
}

// The number with one digit more; eight digits fit.
fn join(n: u32, c: u8) -> u32 {
    n << 4 | u32::from(value(c).unwrap_or(0))
}

// The number of the digits from a place up to another. By places and no slice: a digit that is absent reads as 0.
pub(crate) fn number(line: &[u8], from: usize, end: usize) -> u32 {
    (from..end).fold(0, |n, i| join(n, at(line, i)))
}

// Two digits from a place on.
pub(crate) fn byte(line: &[u8], at: usize) -> u8 {
    (number(line, at, at.saturating_add(2)) % 256) as u8
}

// Two digits each from a place on, zeros after the line's last, in fixed memory, for this project has no heap.
fn bytes(line: &[u8], from: usize) -> [u8; MOST]
    requires { from ≤ 100 }
{
    let mut bytes = [0; MOST];
    for (i, b) in bytes.iter_mut().enumerate() {
        *b = byte(line, 2 * i + from);
    }
    bytes
}

// The answer to a line's bytes, two digits each from a place on: as many as the line has, which else is of no form. The
// form is that of the longest line.
pub(crate) fn row<F: FnOnce(&[u8]) -> Text>(
    line: &[u8],
    form: &[u8],
    from: usize,
    answer: F,
) -> Text
    requires from_in_bounds { from ≤ 100 }
    requires callable { F.IsAlwaysCallable answer }
{
    let n = line.len();
    if n < from || (n - from) % 2 != 0 || !fits(line, block::front(form, n)) {
        return texts::question();
    }
    let bytes = bytes(line, from);
    answer(block::front(&bytes, (n - from) / 2))
}
