// The form `T n hhhhhh` of the bench program's lines (paper 01, "Host end and program"). Assumes nothing.
ghost use Rattle.std.specs.Prelude.{◌≤◌, ◌≡◌, Some};
ghost use Rattle.session.specs.Asked.{join_of, count_of, asked_of};

use text::SPACE;

// The letter T.
pub(crate) const LETTER: u8 = b'T';

// The most ticks of a line.
pub const MOST_TICKS: u32 = 1000000;

// What a line of the form asks: so many ticks with one input word.
#[derive(Drop)]
pub(crate) struct Ticks {
    pub(crate) count: u32,
    pub(crate) word: u32,
}

// The number with one decimal digit more.
fn join(n: u32, c: u8) -> Option<u32>
    requires { n ≤ 1000000 }
    ensures { result ≡ join_of (Some n) c }
{
    if !c.is_ascii_digit() {
        return None;
    }
    let v = n * 10 + (c - b'0') as u32;
    if v == 0 || MOST_TICKS < v {
        return None;
    }
    Some(v)
}

// The number that the characters spell, 1 to 1,000,000 without leading zeros.
// Not `read_decimal` of numerals: no leading zeros, and nothing over 1,000,000.
fn read_count(cs: &[u8]) -> Option<u32>
    ensures { result ≡ count_of cs.now }
{
    if cs.is_empty() {
        return None;
    }
    let mut n = 0;
    for &c in cs {
        n = join(n, c)?;
    }
    Some(n)
}

// What a line asks, by its characters; none where it has not the form.
pub(crate) fn parse_tick(line: &[u8]) -> Option<Ticks>
    ensures { result ≡ asked_of line.now }
{
    if 16 < line.len() {
        return None;
    }
    let [letter, first, count @ .., second, a, b, c, d, e, f] = line else {
        return None;
    };
    if *letter != LETTER || *first != SPACE || *second != SPACE {
        return None;
    }
    let count = read_count(count)?;
    let word = digits::read_six([*a, *b, *c, *d, *e, *f])?;
    Some(Ticks {
        count,
        word: word.value,
    })
}
