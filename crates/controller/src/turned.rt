// A tick that is turned away (paper 01, "Turned away" 3; paper 02, 3/14: 2).
ghost use Rattle.std.specs.Prelude.{◌≡◌};
ghost use Rattle.controller.specs.Settle.{refused_with};
ghost use Rattle.controller.specs.Inner.Turned.{tick_number_of};

use crate::state::{Controller, TickAnswer};
use block::REPLY_ROOM;
use journal::NO_ENTRY;

// The greatest input word: 24 bits.
pub const LAST_WORD: u32 = 16777215;

// The number that turns a tick away, by the length of its buffer and its word, or 0: as the tick's answer holds it.
pub(crate) fn tick_number(room: usize, word: u32) -> u8
    ensures { result ≡ tick_number_of room word }
{
    if room < REPLY_ROOM {
        return 2;
    }
    if LAST_WORD < word {
        return 3;
    }
    0
}

// A tick that is turned away by this number: nothing altered.
pub(crate) fn refused(c: Controller, number: u8) -> TickAnswer
    ensures { result ≡ refused_with c number }
{
    TickAnswer {
        controller: c,
        first: 0,
        second: 0,
        pulses: [0; 5],
        number,
        ended: false,
        length: 0,
        entry: NO_ENTRY,
    }
}
