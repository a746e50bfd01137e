// Words that are no command: the line that host tools send first, the master picker, the bench program's T line
// (docs/PROTOCOL.md, "From words"). Assumes nothing.
ghost use Rattle.std.specs.Prelude.{◌≡◌};
ghost use Rattle.text.specs.Text.{writes};
ghost use Rattle.numerals.specs.Numerals.{spelled_of};
ghost use Rattle.phrases.specs.Meanings.{word};
ghost use Rattle.phrases.specs.Phrases.{
  opening_text,
  number_of,
  five_of,
  master_text,
  tick_text,
  tick_line_text,
  ticks_text,
};

use crate::nearest;
use controller::LAST_WORD;
use digits::END;
use line::command;
use session::MOST_TICKS;
use text::{SPACE, Text, parts};

// The host's first line.
pub(crate) fn opening(text: Text, line: &[u8]) -> Text
    ensures { result ≡ writes text (opening_text line.now) }
{
    if parts::parts(line, SPACE) == 1 {
        let first = host::watch_off();
        return text.characters(parts::part(&first, END, 0));
    }
    nearest(text, line)
}

// The decimal number that the word at place k spells.
fn number_at(line: &[u8], k: usize) -> Option<u32>
    ensures { result ≡ spelled_of 10 (word k line.now) }
{
    numerals::read_decimal(parts::part(line, SPACE, k))
}

// The five numbers behind the first word.
fn distances(line: &[u8]) -> Option<[u32; 5]>
    ensures { result ≡ five_of line.now }
{
    if parts::parts(line, SPACE) != 6 {
        return None;
    }
    Some([
        number_at(line, 1)?,
        number_at(line, 2)?,
        number_at(line, 3)?,
        number_at(line, 4)?,
        number_at(line, 5)?,
    ])
}

// The picker's axis.
pub(crate) fn master(text: Text, line: &[u8]) -> Text
    ensures { result ≡ writes text (master_text line.now) }
{
    let Some(distances) = distances(line) else {
        return nearest(text, line);
    };
    text.characters(b"master ")
        .decimal(host::pick_master(distances) as u32)
}

// A T line, or 3, the paper's number for an input word over FFFFFF.
fn tick_line(text: Text, n: u32, word: u32) -> Text
    ensures { result ≡ writes text (tick_text n word) }
{
    if LAST_WORD < word {
        return sentences::turned_away(text, 3);
    }
    text.characters(b"T ").decimal(n).characters(b" ").six(word)
}

// So many ticks with a word, each spelled or not.
fn ticks_by(text: Text, line: &[u8], n: Option<u32>, word: Option<u32>) -> Text
    ensures { result ≡ writes text (tick_line_text line.now (number_of n) word) }
{
    let (Some(n), Some(w)) = (n, word) else {
        return nearest(text, line);
    };
    if !command::within(n, 1, MOST_TICKS) {
        return nearest(text, line);
    }
    tick_line(text, n, w)
}

// The bench program's T line.
pub(crate) fn ticks(text: Text, line: &[u8]) -> Text
    ensures { result ≡ writes text (ticks_text line.now) }
{
    let n = number_at(line, 1);
    let word = numerals::read_hexadecimal(parts::part(line, SPACE, 2));
    match parts::parts(line, SPACE) {
        2 => ticks_by(text, line, n, Some(0)),
        3 => ticks_by(text, line, n, word),
        _ => nearest(text, line),
    }
}
