// What the program `desk` does with its input (docs/PROTOCOL.md, "From words"), a byte at a time, on values: each line
// is answered at once, whatever bytes it has and however long it is.
// Every public function is total: it has no premise and states its result for every input. Assumes nothing.
#![tactic(auto)]

ghost use Rattle.std.specs.Prelude.{[], ◌≡◌};
ghost use Rattle.text.specs.Text.{holding, writes};
ghost use Rattle.wording.specs.Page.{Page};
ghost use Rattle.wording.specs.Promises.{Whole, AnswerLines, Told, AnswersInOrder};
ghost use Rattle.wording.specs.Wording.{
  is_sum_at,
  are_sums,
  answer_text,
  answer_of,
  desk_of,
  taken_by,
  finished_by,
  Desks,
  held_line,
  taken_of,
  finished_of,
};

use phrases::OVERLONG;
use text::{FEED, SPACE, Text, parts};

mod stations;

// The characters since the last line feed.
#[derive(Clone, Copy)]
pub struct Desk {
    line: Text,
}

// The desk after a byte, and what is printed.
#[derive(Drop)]
pub struct Taken {
    pub desk: Desk,
    pub text: Text,
}

// Whether a sum stands at place k.
fn is_sum_at(line: &[u8], k: usize) -> bool
    ensures { result ≡ is_sum_at line.now k }
{
    numerals::read_signed(parts::part(line, SPACE, k)).is_some()
}

// Whether a line is five sums.
fn are_sums(line: &[u8]) -> bool
    ensures { result ≡ are_sums line.now }
{
    parts::parts(line, SPACE) == 5 && (0..5).all(|k| is_sum_at(line, k))
}

// What a line is, and what is printed to it.
// The first that holds, in the order of the page.
fn answer_text(text: Text, line: &[u8]) -> Text
    ensures { result ≡ writes text (answer_text line.now) }
{
    if OVERLONG <= line.len() {
        return phrases::overlong(text, line);
    }
    if stations::is_station(line) {
        return stations::station(text, line);
    }
    if readout::is_block(line) {
        return readout::block(text, line);
    }
    if are_sums(line) {
        return text.characters(b"pulses ").characters(line);
    }
    phrases::words(text, line)
}

// The answer to a line, with its line feed. That no answer is cut, how many lines each has, that replies are told by
// their figures and commands by their lines, and the examples of docs/PROTOCOL.md, stand here as promises.
pub fn answer(line: &[u8]) -> Text
    ensures value { result ≡ holding (answer_of line.now) }
    ensures whole { Whole }
    ensures answer_lines { AnswerLines }
    ensures told { Told }
    ensures page { Page }
{
    answer_text(Text::new(), line).with(FEED)
}

impl Desk {
    // No character. What a desk prints to a whole input stands here as a promise.
    pub fn new() -> Desk
        ensures value { result ≡ desk_of [] }
        ensures answers_in_order { AnswersInOrder }
    {
        Desk { line: Text::new() }
    }

    // The answer to the line that is held.
    fn answered(self) -> Text
        ensures { result ≡ holding (answer_of (held_line self)) }
    {
        answer(self.line.bytes())
    }

    // One byte of the input.
    pub fn take(self, b: u8) -> Taken
        ensures value { result ≡ taken_of self b }
        ensures desks { Desks self (λ l. result ≡ taken_by l b) }
    {
        if b == FEED {
            return Taken {
                desk: Desk::new(),
                text: self.answered(),
            };
        }
        Taken {
            desk: Desk {
                line: self.line.with(b),
            },
            text: Text::new(),
        }
    }

    // The end of the input.
    pub fn finish(self) -> Text
        ensures value { result ≡ finished_of self }
        ensures desks { Desks self (λ l. result ≡ finished_by l) }
    {
        if self.line.count == 0 {
            return Text::new();
        }
        self.answered()
    }
}
