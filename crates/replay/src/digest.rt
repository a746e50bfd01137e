// The digest of answers: each is mixed in as three numbers, each with a factor of its own, so that none stands for
// another. Every function is total. Assumes nothing.
ghost use Rattle.std.specs.Prelude.{◌≤◌, cond, ◌≡◌};
ghost use Rattle.replay.specs.Digest.{mixed, pulse_code, tick_code, at_axis, mixed_bytes, mixed_axes};
ghost use Rattle.replay.specs.Digest.{raised, mixed_entry};
ghost use Rattle.replay.specs.Digest.{travel_at, place_at};

use journal::Entry;
use reply::{Position, Travel};

// A digest with three numbers more. The sum of the products stays below 2 to the 64.
pub fn mix(h: u32, x: u32, y: u32, z: u32) -> u32
    ensures { result ≡ mixed h x y z }
{
    let sum = h as u64 * 2147483629
        + x as u64 * 1073741789
        + y as u64 * 536870909
        + z as u64 * 268435399;
    (sum % 4294967296) as u32
}

// A pulse: 0, 1, and 2 for any other.
fn code(p: i8) -> u32
    ensures value { result ≡ pulse_code p }
    ensures upper_bound { result ≤ 2 }
{
    match p {
        0 => 0,
        1 => 1,
        _ => 2,
    }
}

// The five pulses and the number of a tick as one number.
pub(crate) fn tick_code(pulses: [i8; 5], number: u8) -> u32
    ensures { result ≡ tick_code (at_axis pulses) number }
{
    let low = code(pulses[0]) + code(pulses[1]) * 3 + code(pulses[2]) * 9;
    low + code(pulses[3]) * 27 + code(pulses[4]) * 81 + number as u32 * 256
}

// A digest with each byte of a buffer more.
pub(crate) fn bytes(h: u32, buf: &[u8]) -> u32
    ensures { result ≡ mixed_bytes h buf.now }
{
    let mut digest = h;
    for &b in buf {
        digest = mix(digest, b as u32, 0, 0);
    }
    digest
}

// A signed number with 2,147,483,648 added.
fn raise(z: i32) -> u32
    ensures { result ≡ raised z }
{
    (z as i64 + 2147483648) as u32
}

// A digest with an entry more.
fn told(h: u32, entry: Entry) -> u32
    ensures { result ≡ mixed_entry h entry }
{
    let low = (entry.ticks % 4294967296) as u32;
    let high = (entry.ticks / 4294967296) as u32;
    let [a, b, c, d, e] = entry.travels;
    let counted = mix(h, low, high, entry.cause as u32);
    let moved = mix(counted, raise(a), raise(b), raise(c));
    mix(moved, raise(d), raise(e), 0)
}

// The same where a move ended.
pub(crate) fn entered(h: u32, ended: bool, entry: Entry) -> u32
    ensures { result ≡ cond ended (mixed_entry h entry) h }
{
    if ended { told(h, entry) } else { h }
}

// A digest with the travel and the position of each axis more.
pub(crate) fn axes(h: u32, travels: [Travel; 5], positions: [Position; 5]) -> u32
    ensures { result ≡ mixed_axes (travel_at travels) (place_at positions) h 5 }
{
    let mut digest = h;
    for (k, travel) in travels.iter().enumerate() {
        digest = mix(digest, travel.0, positions[k].0, k as u32);
    }
    digest
}
