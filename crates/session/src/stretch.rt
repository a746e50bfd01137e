// Where a line begins with T, and where a stretch of its characters ends. Assumes nothing.
ghost use Rattle.std.specs.Prelude.{◌≡◌, length};
ghost use Rattle.session.specs.Stretch.{stretch, keeps_of};

use crate::asked::LETTER;
use crate::state::Place;
use digits::END;
use text::FEED;

// How many bytes stand before the first line feed or 0D.
pub(crate) fn before_mark(bytes: &[u8]) -> usize
    ensures { result ≡ length (stretch bytes.now) }
{
    bytes
        .iter()
        .position(|&b| b == FEED || b == END)
        .unwrap_or(bytes.len())
}

// Whether a line whose next character is b begins with T.
pub(crate) fn keeps(place: Place, b: u8) -> bool
    ensures { result ≡ keeps_of place b }
{
    match place {
        Place::Start => b == LETTER,
        Place::Sending => false,
        Place::Asking => true,
    }
}
