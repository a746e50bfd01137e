// Replies to words (docs/PROTOCOL.md, "From words"): which lines are reply blocks, and what the desk prints to one.
// What a block says is the work of `reader`.
// Every public function is total: it has no premise and states its result for every input. Assumes nothing.
#![tactic(auto, using(text::proofs::TextLaws::parts))]

ghost use Rattle.std.specs.Prelude.{◌∷◌, [], ◌++◌, ◌≡◌};
ghost use Rattle.digits.specs.Digits.{digit_of, end_byte};
ghost use Rattle.reader.specs.Reader.{figures_of, read_of};
ghost use Rattle.text.specs.Text.{writes};
ghost use Rattle.readout.specs.Readout.{is_letter, is_switch, is_block, figure_text, block_text};
ghost use Rattle.readout.specs.Promises.{RepliesTold, ShortAnswers};

use digits::{Digit, END};
use reader::reading::{Figure, Reading};
use text::Text;

mod orders;
mod told;

// The characters of a block with an identification, its 0D not counted.
const LONGEST: usize = 9;

// U, S, s or R.
fn is_letter(c: u8) -> bool
    ensures { result ≡ is_letter c }
{
    matches!(c, b'U' | b'S' | b's' | b'R')
}

// 0-9 or A-F.
fn is_switch(c: u8) -> bool
    ensures { result ≡ is_switch (digit_of c) }
{
    matches!(digits::read_digit(c), Some(Digit::Capital(_)))
}

// Whether a line is to be read as a block.
pub fn is_block(line: &[u8]) -> bool
    ensures { result ≡ is_block line.now }
{
    2 <= line.len() && is_letter(line[0]) && is_switch(line[1])
}

// The line with 0D behind it, read as one block.
fn read(line: &[u8]) -> Option<Reading>
    ensures { figures_of result ≡ read_of (line.now ++ (end_byte ∷ [])) }
{
    let n = line.len();
    if LONGEST < n {
        return None;
    }
    let mut block = [END; 10];
    block[..n].copy_from_slice(line);
    reader::read_block(&block[..n + 1])
}

// What a block says, and whose it is; 20 where there is none.
fn figure(text: Text, reading: Option<Reading>) -> Text
    ensures { result ≡ writes text (figure_text (figures_of reading)) }
{
    let Some(reading) = reading else {
        return sentences::turned_away(text, 20);
    };
    let said = match reading.figure {
        Figure::Verdict(number) => told::verdict(text, number),
        Figure::Travelled {
            axis,
            minus,
            travel,
        } => told::travelled(text, axis, minus, travel),
        Figure::Status(status) => told::status(text, status),
        Figure::Echo(digits) => orders::echo(text, digits),
        Figure::Placed { axis, position } => told::placed(text, axis, position),
        Figure::Inputs(inputs) => told::inputs(text, inputs),
    };
    told::origin(said, reading.switch, reading.ident)
}

// A block in words, or 20 with its sentence. That every reply block is taken for one and told by its figures, and that
// no answer is long, stand here as promises.
#[tactic(auto, using(crate::proofs::Promises::promised), unfolding(crate::specs::Readout::block_text))]
pub fn block(text: Text, line: &[u8]) -> Text
    ensures value { result ≡ writes text (block_text line.now) }
    ensures replies_told { RepliesTold }
    ensures short_answers { ShortAnswers }
{
    figure(text, read(line))
}
