// The receiver (paper 01, "Lines"): takes one byte a call, or all bytes before a 0D, and hands the next state back. A
// line may have any length: its first ten characters tell all that is asked of it. Byte 0D ends the line, all other 255
// values are characters.
// Every public function is total: it has no premise and states its result for every input. Assumes nothing.
#![tactic(auto)]

ghost use Rattle.std.specs.Prelude.{◌≡◌, [], length};
ghost use Rattle.receiver.specs.Receiver.{holding, push_of, taken_of, receive, held_taken, heard_of, Holding};
ghost use Rattle.receiver.specs.Receiver.{before_end, push_all, gathered_of, held_gathered};

use digits::END;
use line::{Accepted, Refusal};

// The line that is being received: its first ten characters, zeros after them, and their count. Twelve bytes: eleven
// would be copied in parts that overlap, and a tick would wait for them. It lies so in the controller that firmware
// holds (C interface).
#[repr(C)]
#[derive(Clone, Copy)]
pub struct Receiver {
    chars: [u8; 10],
    count: u16,
}

// The end of a line: whether it is silent, its identification, and its judgement.
#[derive(Clone, Copy)]
pub struct Line {
    pub silent: bool,
    pub ident: Option<u8>,
    pub judged: Result<Accepted, Refusal>,
}

// The next state, and the line that the byte ended, if it did.
#[derive(Clone, Copy)]
pub struct Taken {
    pub next: Receiver,
    pub heard: Option<Line>,
}

// The receiver after a stretch of characters, and how many they are.
// Each of the three `Gathered` (here, of a controller, of a session) names what it holds.
#[derive(Drop)]
pub struct Gathered {
    pub next: Receiver,
    pub count: usize,
}

// How many bytes stand before the first 0D.
#[tactic(auto, using(crate::proofs::Laws::length_before_end))]
fn before_end(bytes: &[u8]) -> usize
    ensures { result ≡ length (before_end bytes.now) }
{
    bytes.iter().take_while(|&&b| b != END).count()
}

impl Receiver {
    // A receiver with nothing received.
    pub fn new() -> Receiver
        ensures { result ≡ holding [] }
    {
        Receiver {
            chars: [0; 10],
            count: 0,
        }
    }

    // One character more. From ten on the count stands still.
    fn push(mut self, b: u8) -> Receiver
        ensures { result ≡ push_of self b }
    {
        if self.count < 10 {
            self.chars[self.count as usize] = b;
            self.count += 1;
        }
        self
    }

    // Characters one after another. Ten fill the line: no more of them are looked at.
    fn push_all(self, cs: &[u8]) -> Receiver
        ensures { result ≡ push_all self cs.now }
    {
        cs.iter().take(10).fold(self, |line, &c| line.push(c))
    }

    // The bytes before the first 0D, at once: the same as `take` of each.
    pub fn gather(self, bytes: &[u8]) -> Gathered
        ensures value { result ≡ gathered_of self bytes.now }
        ensures holding { Holding self (λ l. result ≡ held_gathered l bytes.now) }
    {
        let count = before_end(bytes);
        Gathered {
            next: self.push_all(&bytes[..count]),
            count,
        }
    }

    // The line as it stands, judged.
    fn heard(self) -> Option<Line>
        ensures { result ≡ heard_of self }
    {
        let line = self.chars.get(..self.count as usize).unwrap_or(&self.chars);
        Some(Line {
            silent: line::is_silent(line),
            ident: line::ident(line),
            judged: line::judge(line),
        })
    }

    // One byte: stated on what is held, and so for every list of characters so held, however long.
    pub fn take(self, b: u8) -> Taken
        ensures value { result ≡ taken_of self b }
        ensures holding { Holding self (λ l. result ≡ held_taken (receive l b)) }
    {
        if b == END {
            let heard = self.heard();
            let next = Receiver::new();
            return Taken { next, heard };
        }
        let next = self.push(b);
        Taken { next, heard: None }
    }
}
