// A trial in words: the program preview's D line (docs/PROTOCOL.md, "From words"). Assumes nothing.
ghost use Rattle.std.specs.Prelude.{◌≡◌};
ghost use Rattle.text.specs.Text.{writes};
ghost use Rattle.phrases.specs.Phrases.{trial_line_text, tried_text, trial_text};

use crate::nearest;
use controller::LAST_WORD;
use text::{SPACE, Text, parts};
use trial::{LAST_AXIS, MOST_TICKS};

// A D line, or the number that turns the trial away.
// The numbers are those of `temixohuel_trial`, in its order.
fn trial_line(text: Text, master: u32, n: u32, word: u32) -> Text
    ensures { result ≡ writes text (trial_line_text master n word) }
{
    if LAST_WORD < word {
        return sentences::turned_away(text, 3);
    }
    if MOST_TICKS < n {
        return sentences::turned_away(text, 25);
    }
    if LAST_AXIS < master {
        return sentences::turned_away(text, 10);
    }
    text.characters(b"D ")
        .decimal(master)
        .characters(b" ")
        .decimal(n)
        .characters(b" ")
        .six(word)
}

// A trial by its three numbers, each spelled or not.
fn tried(
    text: Text,
    line: &[u8],
    master: Option<u32>,
    ticks: Option<u32>,
    word: Option<u32>,
) -> Text
    ensures { result ≡ writes text (tried_text line.now master ticks word) }
{
    let (Some(k), Some(n), Some(w)) = (master, ticks, word) else {
        return nearest(text, line);
    };
    trial_line(text, k, n, w)
}

// The program preview's D line. Without a number of ticks there are as many as a trial takes.
pub(crate) fn trial(text: Text, line: &[u8]) -> Text
    ensures { result ≡ writes text (trial_text line.now) }
{
    let master = numerals::read_decimal(parts::part(line, SPACE, 1));
    let ticks = numerals::read_decimal(parts::part(line, SPACE, 2));
    let word = numerals::read_hexadecimal(parts::part(line, SPACE, 3));
    match parts::parts(line, SPACE) {
        2 => tried(text, line, master, Some(MOST_TICKS), Some(0)),
        3 => tried(text, line, master, ticks, Some(0)),
        4 => tried(text, line, master, ticks, word),
        _ => nearest(text, line),
    }
}
