// A line of output, made piece by piece. What has no room is dropped; no line of the page comes near that.
ghost use Rattle.std.specs.Prelude.{◌≤◌};

// The longest line and its line feed.
const ROOM: usize = 160;

// The line feed, which ends a line.
pub(crate) const FEED: u8 = 10;

// The characters so far: a count of them beside fixed memory, for this project has no heap. It is no text of crate text,
// which has more room: it would print more of a file's name of over 157 characters, and what is printed may not change.
#[derive(Drop)]
pub(crate) struct Text {
    bytes: [u8; ROOM],
    length: usize,
}

impl Text {
    pub(crate) fn new() -> Text {
        Text {
            bytes: [0; ROOM],
            length: 0,
        }
    }

    // One character more.
    pub(crate) fn with(mut self, b: u8) -> Text {
        let at = self.length;
        if let Some(place) = self.bytes.get_mut(at) {
            *place = b;
            self.length += 1;
        }
        self
    }

    // So many hexadecimal digits. By hand: write! would give a Result that never fails.
    pub(crate) fn hex(mut self, v: u64, count: u32) -> Text
        requires { count ≤ 16 }
    {
        for k in (0..count).rev() {
            self = self.with(digits::capital((v >> (4 * k) & 15) as u8));
        }
        self
    }

    // A byte, two digits.
    pub(crate) fn byte(self, b: u8) -> Text {
        self.hex(u64::from(b), 2)
    }

    // A number of the paper, two decimal digits, by hand too.
    pub(crate) fn number(self, n: u8) -> Text {
        self.with(b'0' + n / 10 % 10).with(b'0' + n % 10)
    }

    // Characters as they are.
    pub(crate) fn characters(self, s: &[u8]) -> Text {
        s.iter().fold(self, |text, &b| text.with(b))
    }

    // Written to standard output with a line feed.
    pub(crate) fn print(self, rt: &impl Print) {
        let line = self.with(FEED);
        let _ = rt.write_all(block::front(&line.bytes, line.length));
    }
}

// The answer to a line of no form.
pub(crate) fn question() -> Text {
    Text::new().with(b'?')
}
