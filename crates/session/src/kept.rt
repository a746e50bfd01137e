// The characters of a line that begins with T, as far as its judgement needs them. Assumes nothing.
ghost use Rattle.std.specs.Prelude.{[], ◌∷◌, ◌++◌, ◌≡◌};
ghost use Rattle.session.specs.Asked.{asked_of};
ghost use Rattle.session.specs.Kept.{keeping, Keeping, push_of, kept_asked};

use crate::asked;
use crate::asked::Ticks;

// One character more than the form has.
const ROOM: usize = 17;

// The first 17 characters, zeros after them, and their count. A public type, since callers hold sessions within values
// of their own; no function of it is public. No text of the crate `text`, whose 250 bytes would go with the session at
// every byte: tried, lines `Q06` took a tenth longer. A const parameter on Text would stand in each statement above it
// (holding, writes), for three short functions here.
#[derive(Clone, Copy)]
pub struct Kept {
    chars: [u8; ROOM],
    count: u8,
}

impl Kept {
    // No character.
    pub(crate) fn new() -> Kept
        ensures { result ≡ keeping [] }
    {
        Kept {
            chars: [0; ROOM],
            count: 0,
        }
    }

    // One character more. From 17 on the count stands still.
    pub(crate) fn push(mut self, b: u8) -> Kept
        ensures value { result ≡ push_of self b }
        ensures keeping { Keeping self (λ l. result ≡ keeping (l ++ (b ∷ []))) }
    {
        if (self.count as usize) < ROOM {
            self.chars[self.count as usize] = b;
            self.count += 1;
        }
        self
    }

    // Characters one after another.
    pub(crate) fn push_all(self, cs: &[u8]) -> Kept
        ensures { Keeping self (λ l. result ≡ keeping (l ++ cs.now)) }
    {
        cs.iter().fold(self, |kept, &c| kept.push(c))
    }

    // What the line asks, however long it is.
    pub(crate) fn asked(self) -> Option<Ticks>
        ensures value { result ≡ kept_asked self }
        ensures keeping { Keeping self (λ l. result ≡ asked_of l) }
    {
        if 16 < self.count {
            return None;
        }
        asked::parse_tick(&self.chars[..self.count as usize])
    }
}
