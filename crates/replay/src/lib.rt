// Lists of calls played to a fresh controller, all their answers in one digest: two machines that answer alike have
// the same digest for every list. The entry is total, for every switch and every list of bytes, and answers the digest
// of the machine of the crate `machine` (specs/Replay.antt). Assumes nothing.
#![tactic(auto)]

ghost use Rattle.std.specs.Prelude.{◌+◌, ◌≤◌, ◌≡◌, length};
ghost use Rattle.controller.specs.Reach.{Reachable};
ghost use Rattle.replay.specs.Replay.{held_seen, Plays, begun, kind_of, called_by, word_at, replayed};

use crate::play::Played;
use block::REPLY_ROOM;

pub mod digest;
mod play;

// The bytes of a call: its kind, its value and its count.
const CALL: usize = 9;

// Where a call has its value and its count.
const VALUE: usize = 1;

const COUNT: usize = 5;

// What a call is.
#[derive(Clone, Copy)]
pub(crate) enum Kind {
    // So many ticks, with 120 bytes lent.
    Ticks,
    // A received byte.
    Byte,
    // One tick, with as many bytes lent as its count says.
    Tick,
    // The readings.
    Readings,
}

impl From<u8> for Kind {
    fn from(kind: u8) -> Kind
        ensures { result ≡ kind_of kind }
    {
        match kind {
            0 => Kind::Ticks,
            1 => Kind::Byte,
            3 => Kind::Tick,
            _ => Kind::Readings,
        }
    }
}

// The number of four bytes, the low one first.
fn word_at(bytes: &[u8], at: usize) -> u32
    requires { at + 4 ≤ length bytes.now }
    ensures { result ≡ word_at bytes.now at }
{
    u32::from_le_bytes([bytes[at], bytes[at + 1], bytes[at + 2], bytes[at + 3]])
}

// Power-on.
fn begin(switch: u8) -> Played
    ensures { result ≡ held_seen switch (begun switch) }
{
    let on = controller::power_on(switch);
    Played {
        controller: on.controller,
        digest: digest::mix(0, on.number as u32, 0, 0),
    }
}

// One call of the list. So many ticks, or one: both are played in one place, so that the compiler can make the tick a
// part of it.
fn call(was: Played, kind: Kind, value: u32, count: u32) -> Played
    requires { Reachable was.controller }
    ensures { Plays was result (λ s. called_by s kind value count) }
{
    let (n, room, whole) = match kind {
        Kind::Ticks => (count, REPLY_ROOM, false),
        Kind::Tick => (1, (count % 256) as usize, true),
        Kind::Byte => {
            return play::send(
                was,
                (value % 256) as u8,
                (count % 256) as usize,
                count < 256,
            );
        }
        Kind::Readings => return play::read(was),
    };
    play::ticks(was, value, n, room, whole)
}

// The digest of all answers to the calls, after power-on with the switch.
pub fn temixohuel_replay(switch: u8, calls: &[u8]) -> u32
    ensures { result ≡ replayed switch calls.now }
{
    let mut played = begin(switch);
    for bytes in calls.chunks_exact(CALL) {
        let value = word_at(bytes, VALUE);
        let count = word_at(bytes, COUNT);
        played = call(played, Kind::from(bytes[0]), value, count);
    }
    played.digest
}
