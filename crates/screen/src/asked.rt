// The line that asks for a trial, `D 0 1000000 000000` (docs/PROTOCOL.md, "A dose on screen first"). Assumes nothing.
ghost use Rattle.std.specs.Prelude.{◌≡◌};
ghost use Rattle.screen.specs.Asked.{four_words, asked_of};

use text::{SPACE, parts};

// A line of so many characters is over-long, for people's lines of every kind.
pub const OVERLONG: usize = 100;

// The words of the line.
const WORDS: usize = 4;

// The trial that a line asks for: a start with this master, and so many ticks with this input word. Each is any number
// that was spelled: what turns a trial away is for `trial` to say.
#[derive(Clone, Copy)]
pub struct Asked {
    pub master: u32,
    pub ticks: u32,
    pub word: u32,
}

// What a line of four words asks.
fn four_words(line: &[u8]) -> Option<Asked>
    ensures { result ≡ four_words line.now }
{
    if !parts::same(parts::part(line, SPACE, 0), b"D") {
        return None;
    }
    Some(Asked {
        master: numerals::read_decimal(parts::part(line, SPACE, 1))?,
        ticks: numerals::read_decimal(parts::part(line, SPACE, 2))?,
        word: numerals::read_hexadecimal(parts::part(line, SPACE, 3))?,
    })
}

// What a line asks, by its characters; none where it has not the form.
pub(crate) fn parse_trial(line: &[u8]) -> Option<Asked>
    ensures { result ≡ asked_of line.now }
{
    if line.len() < OVERLONG && parts::parts(line, SPACE) == WORDS {
        four_words(line)
    } else {
        None
    }
}
