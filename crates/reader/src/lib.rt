// The host's reader of one reply block (paper 01, "Lines", Replies; "Turned away" 20).
// Every public function is total: it has no premise and states its result for every input. Assumes nothing.
#![tactic(auto)]

ghost use Rattle.std.specs.Prelude.{◌≡◌};
ghost use Rattle.reader.specs.Blocks.{BlocksRead};
ghost use Rattle.reader.specs.ReadBack.{RepliesRead};
ghost use Rattle.reader.specs.Reader.{figures_of, ident_in, read_of};

use crate::reading::Reading;
use digits::{Digit, END};

mod fields;
pub mod reading;

// The switch that is none.
const NO_SWITCH: u8 = 12;

// The identification of a block of ten bytes.
fn ident_in(s: &[u8]) -> Option<u8>
    ensures { result ≡ ident_in s.now }
{
    if s.len() == 10 { Some(s[8]) } else { None }
}

// The bytes as one whole reply block; none where they are no block (20). That every reply of a controller is read back
// to the figures it was made from, and that it is none exactly for bytes that are no block, stand here as promises.
#[tactic(auto, using(crate::proofs::Promises::promised), unfolding(crate::specs::Reader::read_of))]
pub fn read_block(s: &[u8]) -> Option<Reading>
    ensures result_value { figures_of result ≡ read_of s.now }
    ensures replies_read { RepliesRead }
    ensures blocks_read { BlocksRead }
{
    let n = s.len();
    if n < 9 || 10 < n || s[n - 1] != END {
        return None;
    }
    let ident = ident_in(s);
    if !host::is_ident(ident) {
        return None;
    }
    let Some(Digit::Capital(switch)) = digits::read_digit(s[1]) else {
        return None;
    };
    let number = digits::read_six([s[2], s[3], s[4], s[5], s[6], s[7]])?;
    if switch == NO_SWITCH || number.small {
        return None;
    }
    let figure = fields::fields_in(s[0], number.value, ident)?;
    Some(Reading {
        switch,
        ident,
        figure,
    })
}
