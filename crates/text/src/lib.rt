// Texts for people: rows of bytes taken apart at a mark and compared, and a text under way.
// Every public function is total: it has no premise and states its result for every input. Assumes nothing.
#![tactic(auto)]

ghost use Rattle.std.specs.Prelude.{[], ◌≡◌};
ghost use Rattle.digits.specs.Digits.{six_of};
ghost use Rattle.text.specs.Decimal.{decimal_of, sign_text};
ghost use Rattle.text.specs.Parts.{part};
ghost use Rattle.text.specs.Text.{bytes_of, holding, push_of, writes};

pub mod parts;

// The most bytes of a text.
pub const ROOM: usize = 250;

// The line feed, which ends a line and a row of a table.
pub const FEED: u8 = b'\n';

// A space, which stands between two words.
pub const SPACE: u8 = b' ';

// A text: its bytes, zeros after them, and their count, in fixed memory, since this project has no heap. From 250 bytes
// on no more are taken.
#[derive(Clone, Copy)]
pub struct Text {
    pub chars: [u8; ROOM],
    pub count: u8,
}

impl Text {
    // No byte.
    pub fn new() -> Text
        ensures { result ≡ holding [] }
    {
        Text {
            chars: [0; ROOM],
            count: 0,
        }
    }

    // Its bytes; none where it counts more than there are, which no text does that is made here.
    pub fn bytes(&self) -> &[u8]
        ensures { result.now ≡ bytes_of self.now }
    {
        self.chars.get(..usize::from(self.count)).unwrap_or(&[])
    }

    // One byte more.
    pub fn with(mut self, b: u8) -> Text
        ensures { result ≡ push_of self b }
    {
        if usize::from(self.count) < ROOM {
            self.chars[usize::from(self.count)] = b;
            self.count += 1;
        }
        self
    }

    // Bytes one after another.
    pub fn characters(self, cs: &[u8]) -> Text
        ensures { result ≡ writes self cs.now }
    {
        cs.iter().fold(self, |text, &c| text.with(c))
    }

    // A number in decimal, digit by digit: `write!` would give a `Result` that never fails for each caller to let go.
    pub fn decimal(self, n: u32) -> Text
        ensures { result ≡ writes self (decimal_of n) }
    {
        if n < 10 {
            self.with(b'0' + n as u8)
        } else {
            self.decimal(n / 10).with(b'0' + (n % 10) as u8)
        }
    }

    // A number in decimal, with a minus sign before it or without.
    pub fn signed(self, minus: bool, n: u32) -> Text
        ensures { result ≡ writes self (sign_text minus n) }
    {
        if minus {
            self.with(b'-').decimal(n)
        } else {
            self.decimal(n)
        }
    }

    // The six hexadecimal digits of the low 24 bits, in capitals.
    pub fn six(self, n: u32) -> Text
        ensures { result ≡ writes self (six_of n) }
    {
        self.characters(&digits::six_capitals(n))
    }

    // A row of a table, whose rows have line feeds between them.
    pub fn row(self, table: &[u8], k: usize) -> Text
        ensures { result ≡ writes self (part 10 k table.now) }
    {
        self.characters(parts::part(table, FEED, k))
    }
}
