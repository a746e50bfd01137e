// The journal (paper 02, 1/14): the entry of each move that ended, appended in a lent buffer and read back.
// Both functions are total: they have no premise, and state their answer and the whole buffer for every input.
// Assumes nothing.
#![tactic(auto)]

ghost use Rattle.std.specs.Prelude.{◌≡◌};
ghost use Rattle.journal.specs.Journal.{appended, append_buffer, nothing_at, read_at};
ghost use Rattle.journal.specs.Journal.{RoundTrip, OneSpelling};
ghost use Rattle.journal.specs.Inner.{refusal_number, taken};
ghost use Rattle.journal.specs.Examples.{ReadExamples, WriteExamples};

mod entries;
mod numbers;

// What refuses an entry, or the bytes of one.
#[derive(Clone, Copy, PartialEq, Eq)]
pub(crate) enum Refusal {
    // 22: no space for the whole entry.
    NoSpace,
    // 23: cut short.
    CutShort,
    // 24: a wrong spelling, or a value out of range.
    Wrong,
}

// The number of the paper.
impl From<Refusal> for u8 {
    ghost from_gives = { λ refusal number. number ≡ refusal_number refusal };

    fn from(refusal: Refusal) -> u8 {
        match refusal {
            Refusal::NoSpace => 22,
            Refusal::CutShort => 23,
            Refusal::Wrong => 24,
        }
    }
}

// What was read, and the place after it.
#[derive(Clone, Copy)]
pub(crate) struct Found<T> {
    pub(crate) value: T,
    pub(crate) next: usize,
}

// A move that ended: ticks moved, the ending one included, why (0 where m reached M, else 1, stopped), and five signed
// travels.
// The cause is a number and no enum: C reads it.
#[repr(C)]
#[derive(Drop)]
pub struct Entry {
    pub ticks: u64,
    pub cause: u8,
    pub travels: [i32; 5],
}

// What stands for an entry where there is none.
pub const NO_ENTRY: Entry = Entry {
    ticks: 0,
    cause: 0,
    travels: [0, 0, 0, 0, 0],
};

// The place after the entry and 0; or the given place with 24 or 22. C reads this struct (it is exported), hence a number
// beside the place and no `Result`.
#[repr(C)]
#[derive(Drop)]
pub struct Appended {
    pub next: usize,
    pub number: u8,
}

// An entry: found, the place after it, 0. The journal's end: not found, 0. A refusal: not found, 23 or 24. Where none
// is found the entry is all zeros, and the place is the given one. C reads this struct too, hence no `Option` or `Result`.
#[repr(C)]
#[derive(Drop)]
pub struct EntryAt {
    pub entry: Entry,
    pub next: usize,
    pub found: bool,
    pub number: u8,
}

// Whether an entry with these numbers can be written at the place `at` of a buffer of this length. An `at` near 2^64 is
// answered too.
fn takes(length: usize, at: usize, numbers: [u64; 7]) -> Result<(), Refusal>
    ensures { result ≡ taken length at numbers }
{
    if !entries::fit(numbers) {
        return Err(Refusal::Wrong);
    }
    match at.checked_add(entries::total(numbers)) {
        Some(end) if end <= length => Ok(()),
        _ => Err(Refusal::NoSpace),
    }
}

// The entry at the place `at`, and the place after it; on a refusal nothing is altered, and the place is the given one.
pub fn append(buf: &mut [u8], at: usize, entry: Entry) -> Appended
    ensures value { result ≡ appended buf.old at entry }
    ensures buf_after { buf.new ≡ append_buffer buf.old at entry }
    ensures round_trip { RoundTrip }
    ensures write_examples { WriteExamples }
{
    let numbers = entries::numbers_of(entry);
    match takes(buf.len(), at, numbers) {
        Ok(()) => Appended {
            next: entries::write_all(buf, at, numbers),
            number: 0,
        },
        Err(refusal) => Appended {
            next: at,
            number: refusal.into(),
        },
    }
}

// No entry from the place `at` on, for this reason.
fn nothing(at: usize, number: u8) -> EntryAt
    ensures { result ≡ nothing_at at number }
{
    EntryAt {
        entry: NO_ENTRY,
        next: at,
        found: false,
        number,
    }
}

// The entry at the place `at`, if there is one.
pub fn read(bytes: &[u8], at: usize) -> EntryAt
    ensures value { result ≡ read_at bytes.now at }
    ensures one_spelling { OneSpelling }
    ensures read_examples { ReadExamples }
{
    if bytes.len() <= at {
        return nothing(at, 0);
    }
    match entries::read_all(bytes, at) {
        Ok(all) => EntryAt {
            entry: entries::entry_from(all.value),
            next: all.next,
            found: true,
            number: 0,
        },
        Err(refusal) => nothing(at, refusal.into()),
    }
}
