// A file, line by line: each is given to what runs on lines.
ghost use Rattle.std.specs.Prelude.{◌≤◌, length};

use crate::texts;
use crate::texts::FEED;
use std::io::Read;

// The most characters of a line.
const LONGEST: usize = 100;

// What runs on lines.
pub(crate) trait Lines: Drop {
    fn take(&mut self, rt: &impl Print, line: &[u8]);
}

// What runs, and the characters of the line so far with their count, one more than the most for a longer line, in fixed
// memory, for this project has no heap.
#[derive(Drop)]
struct Stand<L> {
    lines: L,
    chars: [u8; LONGEST],
    length: usize,
}

impl<L: Lines> Stand<L> {
    // The end of a line.
    fn end_line(&mut self, rt: &impl Print) {
        if LONGEST < self.length {
            texts::question().print(rt);
        } else {
            let line = block::front(&self.chars, self.length);
            if line.first().is_some_and(|&b| b != b'#') {
                self.lines.take(rt, line);
            }
        }
        self.length = 0;
    }

    fn take(&mut self, rt: &impl Print, b: u8) {
        if b == FEED {
            self.end_line(rt);
        } else if let Some(place) = self.chars.get_mut(self.length) {
            *place = b;
            self.length += 1;
        } else {
            self.length = LONGEST + 1;
        }
    }

    // The bytes of a read, one after another.
    fn pass(&mut self, rt: &impl Print, bytes: &[u8]) {
        for &b in bytes {
            self.take(rt, b);
        }
    }
}

// Reads until `buf` is full, the input ends or a read fails, and answers how many bytes it put at the start of `buf`.
pub(crate) fn read_full(file: &mut impl Read, buf: &mut [u8]) -> usize
    ensures { result ≤ length buf.new }
{
    let mut done = 0;
    // No call of the library reads so: `read_exact` does not tell how much of a shorter input it put there.
    while done < buf.len() {
        let n = file.read(&mut buf[done..]).unwrap_or(0);
        if n == 0 {
            break;
        }
        done += n;
    }
    done
}

// The whole input; its last line may lack the line feed. A read that fails ends it too.
pub(crate) fn run<L: Lines>(rt: &impl Print, lines: L, file: &mut impl Read) {
    let mut stand = Stand {
        lines,
        chars: [0; LONGEST],
        length: 0,
    };
    let _ = turns::read_all(file, (), |_: (), bytes: &[u8]| {
        stand.pass(rt, bytes);
        Ok(())
    });
    stand.end_line(rt);
}
