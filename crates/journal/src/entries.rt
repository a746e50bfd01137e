// The seven numbers of an entry: judged, written and read one after the other. Assumes nothing.
ghost use Rattle.std.specs.Prelude.{◌+◌, ◌≤◌, true, ◌≡◌, length, drop};
ghost use Rattle.block.specs.Block.{put};
ghost use Rattle.journal.specs.Entries.{within, ranges, numbers_of, entry_from, fit_all, spell_all, read_all};
ghost use Rattle.journal.specs.Entries.{ranged};
ghost use Rattle.journal.specs.Numbers.{found};
ghost use Rattle.journal.specs.Inner.{range_at, found_at};

use crate::{Entry, Found, Refusal, numbers};

// The most that ticks, cause and a stored travel may be.
const TICKS_MOST: u64 = 35184372088831;

const CAUSE_MOST: u64 = 1;

const TRAVEL_MOST: u64 = 1048574;

// The numbers of an entry, in order.
pub(crate) fn numbers_of(entry: Entry) -> [u64; 7]
    ensures { result ≡ numbers_of entry }
{
    let [a, b, c, d, e] = entry.travels.map(numbers::to_stored);
    [entry.ticks, u64::from(entry.cause), a, b, c, d, e]
}

// The entry with these numbers.
pub(crate) fn entry_from(values: [u64; 7]) -> Entry
    requires { fit_all ranges values ≡ true }
    ensures { result ≡ entry_from values }
{
    let [ticks, cause, a, b, c, d, e] = values;
    Entry {
        ticks,
        cause: cause as u8,
        travels: [a, b, c, d, e].map(numbers::to_signed),
    }
}

// Whether number k of an entry may be n: ticks, the cause, or a travel as it is stored.
fn is_within(k: usize, n: u64) -> bool
    ensures { result ≡ within (range_at k) n }
{
    matches!(
        (k, n),
        (0, 1..=TICKS_MOST) | (1, 0..=CAUSE_MOST) | (2.., 0..=TRAVEL_MOST)
    )
}

// Whether each number is within its range.
pub(crate) fn fit(values: [u64; 7]) -> bool
    ensures { result ≡ fit_all ranges values }
{
    values.iter().enumerate().all(|(k, n)| is_within(k, *n))
}

// How many bytes the numbers take.
pub(crate) fn total(values: [u64; 7]) -> usize
    ensures { result ≡ length (spell_all values) }
{
    values
        .iter()
        .map(|n| numbers::size(*n, numbers::MORE))
        .sum()
}

// The numbers at a place where they have room, and the place after them.
pub(crate) fn write_all(buf: &mut [u8], at: usize, values: [u64; 7]) -> usize
    requires { (at + length (spell_all values) ≤ length buf.old) × (fit_all ranges values ≡ true) }
    ensures value { result ≡ at + length (spell_all values) }
    ensures buf_after { buf.new ≡ put at (spell_all values) buf.old }
{
    let mut place = at;
    for n in values {
        place = numbers::write(buf, place, n, numbers::MORE);
    }
    place
}

// Number k of an entry at the place `at`: wrong too where it is out of range.
fn judge(bytes: &[u8], at: usize, k: usize) -> Result<Found<u64>, Refusal>
    ensures { result ≡ found_at at (ranged (range_at k) (found 6 (drop at bytes.now))) }
{
    let one = numbers::read(bytes, at, numbers::MORE)?;
    if !is_within(k, one.value) {
        return Err(Refusal::Wrong);
    }
    Ok(one)
}

// The seven numbers from the place `at` on.
pub(crate) fn read_all(bytes: &[u8], at: usize) -> Result<Found<[u64; 7]>, Refusal>
    ensures { result ≡ found_at at (read_all ranges (drop at bytes.now)) }
{
    let mut values = [0; 7];
    let mut place = at;
    for (k, value) in values.iter_mut().enumerate() {
        let one = judge(bytes, place, k)?;
        *value = one.value;
        place = one.next;
    }
    Ok(Found {
        value: values,
        next: place,
    })
}
