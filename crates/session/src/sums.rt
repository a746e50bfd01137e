// Sums as text (paper 01, "Host end and program"). Assumes nothing.
ghost use Rattle.std.specs.Prelude.{◌+◌, ◌≤◌, ◌≡◌, length};
ghost use Rattle.block.specs.Block.{put};
ghost use Rattle.text.specs.Decimal.{decimal_of, sign_text};
ghost use Rattle.session.specs.Text.{item_text, sums_text};

use text::{FEED, SPACE};

// The decimal digits of n at the place `at`, and the place after them. They go straight into the lent buffer, though
// `Text::decimal` spells them too: a `Text` has 251 bytes and goes by value, and with it a line of one tick took up to
// twice as long (docs/DESIGN-PASS.md, "Point by point").
fn write_decimal(buf: &mut [u8], at: usize, n: u32) -> usize
    requires { at + length (decimal_of n) ≤ length buf.old }
    ensures { (result ≡ at + length (decimal_of n)) × (buf.new ≡ put at (decimal_of n) buf.old) }
{
    if n < 10 {
        buf[at] = b'0' + n as u8;
        return at + 1;
    }
    let end = write_decimal(buf, at, n / 10);
    buf[end] = b'0' + (n % 10) as u8;
    end + 1
}

// A number with its sign at the place `at`, and the place after it.
fn write_number(buf: &mut [u8], at: usize, minus: bool, n: u32) -> usize
    requires { at + length (sign_text minus n) ≤ length buf.old }
    ensures value { result ≡ at + length (sign_text minus n) }
    ensures buf_after { buf.new ≡ put at (sign_text minus n) buf.old }
{
    if minus {
        buf[at] = b'-';
        return write_decimal(buf, at + 1, n);
    }
    write_decimal(buf, at, n)
}

// The sum of axis k with its mark at the place `at`, and the place after it.
fn write_item(buf: &mut [u8], at: usize, minus: bool, n: u32, k: usize) -> usize
    requires { at + 12 ≤ length buf.old }
    ensures value { result ≡ at + length (item_text minus n k) }
    ensures buf_after { buf.new ≡ put at (item_text minus n k) buf.old }
    ensures upper_bound { result ≤ at + 12 }
{
    let end = write_number(buf, at, minus, n);
    let mark = if k == 4 { FEED } else { SPACE };
    buf[end] = mark;
    end + 1
}

// The line of five sums behind what stands before the place `at`, and the place after it: a space between two of them,
// a line feed after the last.
pub(crate) fn write_behind(buf: &mut [u8], at: usize, sums: [i32; 5]) -> usize
    requires { at + 60 ≤ length buf.old }
    ensures value { result ≡ at + length (sums_text 5 sums) }
    ensures buf_after { buf.new ≡ put at (sums_text 5 sums) buf.old }
{
    let mut end = at;
    for (k, &sum) in sums.iter().enumerate() {
        end = write_item(buf, end, sum < 0, sum.unsigned_abs(), k);
    }
    end
}
