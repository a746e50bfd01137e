// Lists of calls: gathered in the nine bytes of `replay`, then played to a fresh controller for each switch.
use crate::input::Lines;
use crate::texts::Text;
use crate::{form, texts};
use digits::END;

// The most calls.
const MOST: usize = 4096;

// The buffer lent with each byte of a line.
const LENT: u8 = 120;

// A call: ticks with an input word, a received byte with so many bytes lent, the readings, one tick with so many lent.
#[derive(Clone, Copy)]
enum Call {
    Ticks { word: u32, count: u32 },
    Byte { byte: u8, lent: u8 },
    Readings,
    Tick { word: u32, lent: u8 },
}

impl Call {
    // The kind, and two numbers of four bytes, the low one first.
    fn bytes(self) -> [u8; 9] {
        let (kind, value, count) = match self {
            Call::Ticks { word, count } => (0, word, count),
            Call::Byte { byte, lent } => (1, u32::from(byte), u32::from(lent)),
            Call::Readings => (2, 0, 0),
            Call::Tick { word, lent } => (3, word, u32::from(lent)),
        };
        let [a, b, c, d] = value.to_le_bytes();
        let [e, f, g, h] = count.to_le_bytes();
        [kind, a, b, c, d, e, f, g, h]
    }
}

// The calls, of which so many are gathered, in fixed memory, for this project has no heap; the first and the last switch.
#[derive(Drop)]
pub(crate) struct List {
    calls: [[u8; 9]; MOST],
    count: usize,
    first: u8,
    last: u8,
}

impl List {
    pub(crate) fn new() -> List {
        List {
            calls: [[0; 9]; MOST],
            count: 0,
            first: 0,
            last: 0,
        }
    }

    // One call more.
    fn gather(&mut self, rt: &impl Print, call: Call) {
        match self.calls.get_mut(self.count) {
            Some(place) => {
                *place = call.bytes();
                self.count += 1;
            }
            None => texts::question().print(rt),
        }
    }

    // The characters of a line and its 0D as received bytes.
    fn gather_line(&mut self, rt: &impl Print, text: &[u8]) {
        for &byte in text {
            self.gather(rt, Call::Byte { byte, lent: LENT });
        }
        self.gather(
            rt,
            Call::Byte {
                byte: END,
                lent: LENT,
            },
        );
    }

    // A line `L text`, or one of no form. The 0D is one call more than the text has characters.
    fn take_text(&mut self, rt: &impl Print, line: &[u8]) {
        match line {
            [b'L', b' ', text @ ..]
                if !text.is_empty() && text.len() < MOST.saturating_sub(self.count) => {
                self.gather_line(rt, text)
            }
            _ => texts::question().print(rt),
        }
    }

    // The list played for each of its switches.
    fn play(&self, rt: &impl Print) {
        let calls = self.calls.get(..self.count).unwrap_or(&[]);
        for switch in self.first..=self.last {
            let digest = replay::temixohuel_replay(switch, calls.as_flattened());
            Text::new()
                .byte(switch)
                .with(b' ')
                .hex(u64::from(digest), 8)
                .print(rt);
        }
    }
}

impl Lines for List {
    // A line of the page.
    fn take(&mut self, rt: &impl Print, line: &[u8]) {
        // A chain and no table: each form has fields of its own.
        if form::fits(line, b"B hh hh") {
            let byte = form::byte(line, 2);
            self.gather(
                rt,
                Call::Byte {
                    byte,
                    lent: form::byte(line, 5),
                },
            );
        } else if form::fits(line, b"T hhhhhh hhhhhhhh") {
            let word = form::number(line, 9, 17);
            let count = form::number(line, 2, 8);
            self.gather(rt, Call::Ticks { word, count });
        } else if form::fits(line, b"K hhhhhhhh hh") {
            let word = form::number(line, 2, 10);
            let lent = form::byte(line, 11);
            self.gather(rt, Call::Tick { word, lent });
        } else if form::fits(line, b"S hh hh") {
            self.count = 0;
            self.first = form::byte(line, 2);
            self.last = form::byte(line, 5);
        } else if form::fits(line, b"R") {
            self.gather(rt, Call::Readings);
        } else if form::fits(line, b"E") {
            self.play(rt);
        } else {
            self.take_text(rt, line);
        }
    }
}
