// The echo of an order in words (docs/PROTOCOL.md, "From words"). Assumes nothing.
ghost use Rattle.std.specs.Prelude.{◌≡◌};
ghost use Rattle.text.specs.Text.{writes};
ghost use Rattle.readout.specs.Readout.{start_text, order_text, echo_text};

use digits::{FIVE_DIGITS, FOUR_DIGITS};
use text::Text;

// S 8, by the second digit.
fn start(text: Text, d: u32) -> Text
    ensures { result ≡ writes text (start_text d) }
{
    let said = text.characters(b"start ").decimal(d % 8);
    if d < 8 {
        said
    } else {
        said.characters(b" after dwell")
    }
}

// An order in words, by its six digits.
fn order(text: Text, n: u32) -> Text
    ensures { result ≡ writes text (order_text n) }
{
    let five = n % FIVE_DIGITS;
    match n / FIVE_DIGITS {
        8 => start(text, five / FOUR_DIGITS),
        9 => text.characters(b"stop"),
        10 => text.characters(b"clear"),
        11 => text.characters(b"reset"),
        12 => text.characters(b"carry on"),
        13 => text.characters(b"low ").six(five),
        14 => text.characters(b"high ").six(five),
        _ => text,
    }
}

// S of an order.
pub(crate) fn echo(text: Text, n: u32) -> Text
    ensures { result ≡ writes text (echo_text n) }
{
    order(sentences::sentence(text, 0).characters(b": "), n)
}
