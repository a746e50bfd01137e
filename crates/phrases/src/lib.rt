// Words to lines (docs/PROTOCOL.md, "From words"): what the desk prints to a line of words. A command becomes the line
// that the writer gives; `opening`, `master`, `ticks` and `trial` have their own answers; anything else has the nearest
// form.
// Every public function is total: it has no premise and states its result for every input. Assumes nothing.
#![tactic(auto)]

ghost use Rattle.std.specs.Prelude.{◌≡◌};
ghost use Rattle.text.specs.Text.{writes};
ghost use Rattle.phrases.specs.Phrases.{
  is_silent,
  unsilenced,
  named_of,
  body_of,
  nearest_text,
  line_text,
  command_text,
  text_at,
  words_text,
  overlong_text,
};
ghost use Rattle.phrases.specs.Promises.{SameLine, TickLine, TrialLine};

use crate::meaning::NoCommand;
use digits::END;
use figures::NotExact;
use host::Request;
pub use screen::asked::OVERLONG;
use sentences::places;
use text::{SPACE, Text, parts};

mod meaning;
mod programs;
mod single;
mod trials;

// The identification of a form, and the length of what stands before it, as `named_of` states it: a slice in its place
// would need a lifetime on the type, and says no more.
#[derive(Drop)]
struct Named {
    ident: Option<u8>,
    length: usize,
}

// Whether a line begins with `silent `.
fn is_silent(line: &[u8]) -> bool
    ensures { result ≡ is_silent line.now }
{
    parts::same(block::front(line, 7), b"silent ")
}

// A line without `silent `.
fn unsilenced(line: &[u8]) -> &[u8]
    ensures { result.now ≡ unsilenced line.now }
{
    if is_silent(line) {
        return parts::rest(line, 7);
    }
    line
}

// The identification, and where it begins.
fn ident_in(line: &[u8]) -> Named
    ensures { result ≡ named_of line.now }
{
    let n = line.len();
    if 5 <= n && parts::same(&line[n - 5..n - 1], b" as ") {
        return Named {
            ident: Some(line[n - 1]),
            length: n - 5,
        };
    }
    Named {
        ident: None,
        length: n,
    }
}

// A line without `silent ` and its identification: the form.
fn body(line: &[u8]) -> &[u8]
    ensures { result.now ≡ body_of line.now }
{
    let rest = unsilenced(line);
    let named = ident_in(rest);
    block::front(rest, named.length)
}

// The nearest form.
pub(crate) fn nearest(text: Text, line: &[u8]) -> Text
    ensures { result ≡ writes text (nearest_text line.now) }
{
    sentences::question(text, parts::part(body(line), SPACE, 0))
}

// The line of a request, without 0D, or the number that refuses it.
pub fn line_of(text: Text, request: Request) -> Text
    ensures { result ≡ writes text (line_text request) }
{
    let mut buf = [0u8; 10];
    match host::write_line(&mut buf, request) {
        Ok(n) => text.characters(parts::part(block::front(&buf, n), END, 0)),
        Err(e) => sentences::turned_away(text, u8::from(e)),
    }
}

// A command in words.
fn command(text: Text, line: &[u8]) -> Text
    ensures { result ≡ writes text (command_text line.now) }
{
    match meaning::meaning_of(body(line)) {
        Ok(command) => line_of(
            text,
            Request {
                silent: is_silent(line),
                command,
                ident: ident_in(unsilenced(line)).ident,
            },
        ),
        Err(NoCommand::Misspelled) => nearest(text, line),
        Err(NoCommand::NotExact) => sentences::turned_away(text, u8::from(NotExact)),
    }
}

// A line of words by the place of its first.
fn words_at(text: Text, k: usize, line: &[u8]) -> Text
    ensures { result ≡ writes text (text_at k line.now) }
{
    match k {
        places::OPENING => programs::opening(text, line),
        places::MASTER => programs::master(text, line),
        places::TICKS => programs::ticks(text, line),
        places::TRIAL => trials::trial(text, line),
        _ => command(text, line),
    }
}

// A line of words. That what is printed for a command is its very line, that a printed T line asks for these very
// ticks and a printed D line for this very trial, stand here as promises.
pub fn words(text: Text, line: &[u8]) -> Text
    ensures value { result ≡ writes text (words_text line.now) }
    ensures same_line { SameLine }
    ensures tick_line { TickLine }
    ensures trial_line { TrialLine }
{
    let k = sentences::place_of(parts::part(line, SPACE, 0));
    words_at(text, k, line)
}

// A line that is too long: so many of its characters are looked at as it had to have.
pub fn overlong(text: Text, line: &[u8]) -> Text
    ensures { result ≡ writes text (overlong_text line.now) }
{
    let first = unsilenced(block::front(line, OVERLONG));
    sentences::question(text, parts::part(first, SPACE, 0))
}
