// The six lines of a trial (docs/PROTOCOL.md, "A dose on screen first"). Assumes nothing.
ghost use Rattle.std.specs.Prelude.{◌≤◌, ◌<◌, ◌≡◌, length};
ghost use Rattle.text.specs.Text.{writes};
ghost use Rattle.screen.specs.Screen.{end_text, master_line, share_at, wine_line, wine_lines};

use crate::{decimals, shares};
use line::command::AXES;
use text::Text;
use trial::Trial;

// The tick of the end and its time; where it is not reached, the ticks asked for and theirs.
fn end(text: Text, end: u32, ticks: u32) -> Text
    ensures { result ≡ writes text (end_text end ticks) }
{
    if end == 0 {
        let told = text
            .characters(b"does not end in ")
            .decimal(ticks)
            .characters(b" ticks, ");
        return decimals::time(told, ticks);
    }
    let told = text
        .characters(b"ends in tick ")
        .decimal(end)
        .characters(b", ");
    decimals::time(told, end)
}

// The first line.
pub(crate) fn master_line(text: Text, master: u32, tick: u32, ticks: u32) -> Text
    ensures value { result ≡ writes text (master_line master tick ticks) }
    ensures ticks_len_bound { length (master_line master tick ticks) ≤ 68 }
{
    let mark = text
        .characters(b"master ")
        .decimal(master)
        .characters(b": ");
    end(mark, tick, ticks).characters(b" s\n")
}

// The share of a wine.
fn share_at(trial: Trial, k: usize) -> u32
    requires { k < 5 }
    ensures { result ≡ share_at trial k }
{
    shares::share(shares::pulses(trial, k), shares::all_pulses(trial))
}

// The line of a wine.
fn wine_line(text: Text, trial: Trial, k: usize) -> Text
    requires { k < 5 }
    ensures value { result ≡ writes text (wine_line trial k) }
    ensures k_len_bound { length (wine_line trial k) ≤ 36 }
{
    let told = text
        .characters(b"wine ")
        .decimal(k as u32)
        .characters(b": ")
        .decimal(shares::pulses(trial, k))
        .characters(b" pulses, ");
    decimals::share(told, share_at(trial, k)).characters(b" %\n")
}

// The lines of all wines.
pub(crate) fn wine_lines(text: Text, trial: Trial) -> Text
    ensures value { result ≡ writes text (wine_lines 5 trial) }
    ensures trial_len_bound { length (wine_lines 5 trial) ≤ 180 }
{
    let mut next = text;
    for k in 0..AXES as usize {
        next = wine_line(next, trial, k);
    }
    next
}
