// One number of a journal: its length, its groups in a lent buffer, and how it is read; and the signed numbers.
// Assumes nothing.
ghost use Rattle.std.specs.Prelude.{◌+◌, ◌≤◌, ◌<◌, ◌≡◌, IfOk, length, drop};
ghost use Rattle.block.specs.Block.{put};
ghost use Rattle.journal.specs.Numbers.{groups, found, stored, signed};
ghost use Rattle.journal.specs.Inner.{capacity, found_at};

use crate::{Found, Refusal};

// A group counts so many; the bit above it says that a further group follows.
const GROUP: u64 = 128;

const TOP: u8 = 128;

// The groups that may follow the first.
pub(crate) const MORE: u8 = 6;

// How many groups n takes: one, and up to `more` others.
pub(crate) fn size(n: u64, more: u8) -> usize
    ensures { (result ≡ length (groups more n)) × (result ≤ more + 1) }
{
    if more == 0 || n < GROUP {
        1
    } else {
        1 + size(n / GROUP, more - 1)
    }
}

// The groups of n at the place `at`, and the place after them.
pub(crate) fn write(buf: &mut [u8], at: usize, n: u64, more: u8) -> usize
    requires { (at + length (groups more n) ≤ length buf.old) × (n < capacity more) }
    ensures value { result ≡ at + length (groups more n) }
    ensures buf_after { buf.new ≡ put at (groups more n) buf.old }
{
    if n < GROUP {
        buf[at] = n as u8;
        return at + 1;
    }
    buf[at] = TOP + (n % GROUP) as u8;
    write(buf, at + 1, n / GROUP, more - 1)
}

// The number at the place `at`, of one group and up to `more` others.
pub(crate) fn read(bytes: &[u8], at: usize, more: u8) -> Result<Found<u64>, Refusal>
    requires { more ≤ 6 }
    ensures value { result ≡ found_at at (found more (drop at bytes.now)) }
    ensures value_bound { IfOk result (λ one. one.value < capacity more) }
{
    let b = bytes.get(at).copied().ok_or(Refusal::CutShort)?;
    if b < TOP {
        return Ok(Found {
            value: u64::from(b),
            next: at + 1,
        });
    }
    let more = more.checked_sub(1).ok_or(Refusal::Wrong)?;
    let rest = read(bytes, at + 1, more)?;
    if rest.value == 0 {
        return Err(Refusal::Wrong);
    }
    Ok(Found {
        value: u64::from(b - TOP) + GROUP * rest.value,
        next: rest.next,
    })
}

// A signed number as it is stored.
pub(crate) fn to_stored(z: i32) -> u64
    ensures { result ≡ stored z }
{
    let twice = 2 * u64::from(z.unsigned_abs());
    if z < 0 { twice - 1 } else { twice }
}

// The signed number that is stored as n.
pub(crate) fn to_signed(n: u64) -> i32
    requires { n < 1048576 }
    ensures { result ≡ signed n }
{
    let half = (n / 2) as i32;
    if n % 2 == 0 { half } else { -1 - half }
}
