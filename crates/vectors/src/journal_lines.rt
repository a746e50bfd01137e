// The journal's writer on a line `A hh hh hhhhhhhhhhhhhhhh hh e e e e e`, and its reader on a line `J hh hh..`.
use crate::texts::Text;
use crate::{form, texts, writer};
use journal::{Entry, EntryAt};

// Where a journal begins in its line.
const FIRST: usize = 5;

// A sign and eight digits, at most 7FFFFFFF, from a place on.
fn travel(line: &[u8], at: usize) -> i32 {
    let first = at.saturating_add(1);
    let n = (form::number(line, first, first.saturating_add(8)) % 2147483648) as i32;
    if form::at(line, at) == b'-' { -n } else { n }
}

fn entry_of(line: &[u8]) -> Entry {
    let high = u64::from(form::number(line, 8, 16));
    Entry {
        ticks: high * 4294967296 + u64::from(form::number(line, 16, 24)),
        cause: form::byte(line, 25),
        travels: [28, 38, 48, 58, 68].map(|at| travel(line, at)),
    }
}

fn appended(buf: &mut [u8], place: usize, entry: Entry) -> Text {
    let answer = journal::append(buf, place, entry);
    writer::told(answer.number, answer.next, buf)
}

// `A`: an entry written into so long a buffer.
pub(crate) fn append(line: &[u8]) -> Text {
    let room = usize::from(form::byte(line, 2));
    let mut buf = [writer::BEFORE; writer::ROOM];
    match buf.get_mut(..room) {
        Some(buf) => appended(buf, usize::from(form::byte(line, 5)), entry_of(line)),
        None => texts::question(),
    }
}

// A travel after a space.
fn with_travel(text: Text, z: i32) -> Text {
    let sign = if z < 0 { b'-' } else { b'+' };
    text.with(b' ')
        .with(sign)
        .hex(u64::from(z.unsigned_abs()), 8)
}

// The place after an entry, and the entry.
fn with_entry(text: Text, next: usize, entry: Entry) -> Text {
    let told = text
        .hex(next as u64, 2)
        .with(b' ')
        .hex(entry.ticks, 16)
        .with(b' ')
        .byte(entry.cause);
    entry
        .travels
        .iter()
        .fold(told, |told, &z| with_travel(told, z))
}

// What the reader answers.
fn shown(answer: EntryAt) -> Text {
    if answer.found {
        with_entry(Text::new().characters(b"00 "), answer.next, answer.entry)
    } else if answer.number == 0 {
        Text::new().characters(b"--")
    } else {
        Text::new().number(answer.number)
    }
}

// `J`: a journal of up to forty bytes read, or a line of no form.
pub(crate) fn read(line: &[u8]) -> Text {
    let longest =
        b"J hh hhhhhhhhhhhhhhhhhhhhhhhhhhhhhhhhhhhhhhhhhhhhhhhhhhhhhhhhhhhhhhhhhhhhhhhhhhhhhhhh";
    form::row(line, longest, FIRST, |journal| {
        shown(journal::read(journal, usize::from(form::byte(line, 2))))
    })
}
