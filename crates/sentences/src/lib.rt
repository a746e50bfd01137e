// What the desk says in fixed words (docs/PROTOCOL.md, "From words"): the sentence of each number, what a status says,
// the words that begin a form, and the nearest form. Every public function is total: it has no premise and states its
// result for every input. Assumes nothing.
#![tactic(auto)]

ghost use Rattle.std.specs.Prelude.{◌≡◌};
ghost use Rattle.text.specs.Text.{writes};
ghost use Rattle.sentences.specs.Sentences.{
  sentence_text,
  turned_text,
  state_text,
  shared,
  word_count,
  better_of,
  closest,
  is_word,
  place_of,
  question_text,
};
ghost use Rattle.sentences.specs.Promises.{Places, Tables, Nearest};

use crate::tables::{FORMS, KEYWORDS, SENTENCES, STATES};
use text::{FEED, Text, parts};

pub mod places;
mod tables;

// The place of no word, behind that of the last.
const NO_WORD: usize = 23;

// The sentence of a number; nothing for a number that has none.
#[tactic(auto, unfolding(crate::specs::Sentences::sentences))]
pub fn sentence(text: Text, n: u8) -> Text
    ensures { result ≡ writes text (sentence_text n) }
{
    text.row(&SENTENCES, usize::from(n))
}

// A number and its sentence.
pub fn turned_away(text: Text, n: u8) -> Text
    ensures { result ≡ writes text (turned_text n) }
{
    let number = text.characters(b"turned away by ").decimal(u32::from(n));
    sentence(number.characters(b": "), n)
}

// What a status says at a place: 0 to 2 for bits 0 and 1, from 3 on each bit from 2 on.
#[tactic(auto, unfolding(crate::specs::Sentences::states))]
pub fn state(text: Text, k: usize) -> Text
    ensures { result ≡ writes text (state_text k) }
{
    text.row(&STATES, k)
}

// How many first letters a word has in common with the one at place k.
#[tactic(auto, unfolding(crate::specs::Sentences::keywords))]
fn shared(k: usize, w: &[u8]) -> usize
    ensures { result ≡ shared k w.now }
{
    parts::common(parts::part(&KEYWORDS, FEED, k), w)
}

// Of two places the one whose word has more of them in common, and the first where both have as many.
fn better(w: &[u8], j: usize, k: usize) -> usize
    ensures { result ≡ better_of w.now j k }
{
    if shared(j, w) < shared(k, w) { k } else { j }
}

// The best of all places.
fn closest(w: &[u8]) -> usize
    ensures { result ≡ closest word_count w.now }
{
    (0..NO_WORD).fold(NO_WORD, |best, k| better(w, best, k))
}

// Whether the word at place k is this very one.
fn is_word(k: usize, w: &[u8]) -> bool
    ensures { result ≡ is_word k w.now }
{
    parts::part(&KEYWORDS, FEED, k) == w
}

// The place of the very word, or that of no word.
pub fn place_of(w: &[u8]) -> usize
    ensures value { result ≡ place_of w.now }
    ensures places { Places }
{
    (0..NO_WORD).find(|&k| is_word(k, w)).unwrap_or(NO_WORD)
}

// A question mark and the nearest form.
pub fn question(text: Text, w: &[u8]) -> Text
    ensures value { result ≡ writes text (question_text w.now) }
    ensures nearest { Nearest w.now }
    ensures tables { Tables }
{
    text.characters(b"? ").row(&FORMS, closest(w))
}
