// Numbers with decimals on screen: a time in seconds, a share in percent (docs/PROTOCOL.md, "A dose on screen first").
// Assumes nothing.
ghost use Rattle.std.specs.Prelude.{◌<◌, ◌≡◌};
ghost use Rattle.text.specs.Text.{writes};
ghost use Rattle.screen.specs.Screen.{pair_of, six_decimals, time_text, share_text};

use text::Text;

// The time of a tick in µs.
const TICK: u64 = 4;

// The µs of a second.
const SECOND: u64 = 1000000;

// Two digits of a number: those of its tens and its ones.
fn pair(text: Text, n: u32) -> Text
    ensures { result ≡ writes text (pair_of n) }
{
    text.with(b'0' + (n / 10 % 10) as u8)
        .with(b'0' + (n % 10) as u8)
}

// Six digits of a number, a point before them.
fn six_decimals(text: Text, n: u32) -> Text
    ensures { result ≡ writes text (six_decimals n) }
{
    let point = text.characters(b".");
    let high = pair(point, n / 10000);
    let middle = pair(high, n / 100);
    pair(middle, n)
}

// The time of n ticks in seconds.
pub(crate) fn time(text: Text, n: u32) -> Text
    ensures { result ≡ writes text (time_text n) }
{
    let micros = n as u64 * TICK;
    let whole = text.decimal((micros / SECOND) as u32);
    six_decimals(whole, (micros % SECOND) as u32)
}

// A share, so many hundredths of a percent, in percent.
pub(crate) fn share(text: Text, h: u32) -> Text
    ensures { result ≡ writes text (share_text h) }
{
    pair(text.decimal(h / 100).characters(b"."), h)
}
