// The six digits of a travel, a position and the status, and those of q 8 (paper 01, "Lines", Replies). Assumes
// nothing.
ghost use Rattle.std.specs.Prelude.{◌≡◌, get_or};
ghost use Rattle.reply.specs.Reply.{coded, numbers, told_by};

use crate::readings::{Position, Readings, Travel};
use digits::{FIVE_DIGITS, TOP_BIT};

// The code of the status.
const STATUS: u32 = 6;

// What the readings have of an axis. (No line names an axis that is not there: it reads as one that never moved.)
fn at<T: Copy>(items: [T; 5], axis: u8, absent: T) -> T
    ensures { result ≡ get_or items axis absent }
{
    items.get(axis as usize).copied().unwrap_or(absent)
}

// The six digits of a travel: the axis, the minus bit and the low 19 bits.
pub fn travel_number(readings: Readings, axis: u8) -> u32
    ensures { result ≡ coded axis ((told_by readings).travel axis) }
{
    let minus = at(readings.minus, axis, false);
    let travel = at(readings.travels, axis, Travel(0));
    let number = u32::from(axis) * FIVE_DIGITS + travel.0 % TOP_BIT;
    if minus { number + TOP_BIT } else { number }
}

// The six digits of a position: the axis, and 20-bit two's complement.
pub fn position_number(readings: Readings, axis: u8) -> u32
    ensures { result ≡ coded axis ((told_by readings).position axis) }
{
    let position = at(readings.positions, axis, Position(TOP_BIT));
    u32::from(axis) * FIVE_DIGITS + (position.0 % FIVE_DIGITS + TOP_BIT) % FIVE_DIGITS
}

// The six digits of the status.
pub fn status_number(status: u8) -> u32
    ensures { result ≡ coded 6 status }
{
    STATUS * FIVE_DIGITS + u32::from(status)
}

// The six digits of each block of q 8, in order.
pub fn all_numbers(readings: Readings) -> [u32; 12]
    ensures { result ≡ numbers (told_by readings) }
{
    [
        travel_number(readings, 0),
        travel_number(readings, 1),
        travel_number(readings, 2),
        travel_number(readings, 3),
        travel_number(readings, 4),
        status_number(readings.status),
        position_number(readings, 0),
        position_number(readings, 1),
        position_number(readings, 2),
        position_number(readings, 3),
        position_number(readings, 4),
        readings.inputs,
    ]
}
