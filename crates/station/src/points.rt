// An axis and its distance in a command (source document 001, 3.2.3, 3.3.1). Assumes nothing.
ghost use Rattle.std.specs.Prelude.{◌≤◌, ◌≡◌};
ghost use Rattle.station.specs.Held.{measured_of, point_of};

use numerals::Signed;
use text::{SPACE, parts};

// A distance in pulses: 0 is plus, and a size from 4,294,967,295 on counts as that.
// Not `Signed` of numerals: -0 is plus.
#[derive(Clone, Copy)]
pub(crate) struct Distance {
    pub(crate) minus: bool,
    pub(crate) size: u32,
}

// No pulse.
pub(crate) const STILL: Distance = Distance {
    minus: false,
    size: 0,
};

// The distance that a number with its sign is; -0 is plus.
fn measured(n: Signed) -> Distance
    ensures { result ≡ measured_of n }
{
    Distance {
        minus: n.minus && n.size != 0,
        size: n.size,
    }
}

// A text of two words more than k, the first of these two an axis, the second a distance.
pub(crate) fn point_in(t: &[u8], k: usize, axis: &[u8]) -> Option<Distance>
    requires { k ≤ 1 }
    ensures { result ≡ point_of k axis.now t.now }
{
    if parts::parts(t, SPACE) != k + 2 || parts::part(t, SPACE, k) != axis {
        return None;
    }
    numerals::read_signed(parts::part(t, SPACE, k + 1)).map(measured)
}
