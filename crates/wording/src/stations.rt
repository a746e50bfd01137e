// Commands of an MD5230D station that are typed at the desk (docs/PROTOCOL.md, "Lines of the other bench make"): which
// lines are such, and what is printed to them. Assumes nothing.
ghost use Rattle.std.specs.Prelude.{◌≤◌, ◌<◌, ◌≡◌, length};
ghost use Rattle.station.specs.Station.{answer};
ghost use Rattle.text.specs.Text.{holding, writes};
ghost use Rattle.wording.specs.Stations.{
  is_name,
  is_station,
  command_in,
  lines_text,
  told_of,
  station_text,
};

use host::Request;
use station::{Refusal, Requests};
use text::{FEED, SPACE, Text, parts};

// The byte that ends a command.
const NULL: u8 = 0;

// Whether a word is three capitals.
fn is_name(word: &[u8]) -> bool
    ensures { result ≡ is_name word.now }
{
    word.len() == 3 && word.iter().all(|c| c.is_ascii_uppercase())
}

// Whether a line is a station's command, by its first word.
pub(crate) fn is_station(line: &[u8]) -> bool
    ensures { result ≡ is_station line.now }
{
    is_name(parts::part(line, SPACE, 0))
}

// The command with its end.
fn command(line: &[u8]) -> Text
    ensures { result ≡ holding (command_in line.now) }
{
    Text::new().characters(line).with(NULL)
}

// The lines of command values, in order, a line feed between two of them.
fn lines(text: Text, values: &[Request]) -> Text
    ensures { result ≡ writes text (lines_text values.now) }
{
    let Some((first, more)) = values.split_first() else {
        return text;
    };
    let mut told = phrases::line_of(text, *first);
    for value in more {
        told = phrases::line_of(told.with(FEED), *value);
    }
    told
}

// What comes of a command: its lines, or the number that turns it away.
fn told(text: Text, converted: Result<Requests, Refusal>) -> Text
    requires { (answer converted).count ≤ 6 }
    ensures { result ≡ writes text (told_of (answer converted)) }
{
    match converted {
        Ok(values) => lines(text, &values.requests[..values.count]),
        Err(refusal) => sentences::turned_away(text, refusal.into()),
    }
}

// What is printed to a command.
pub(crate) fn station(text: Text, line: &[u8]) -> Text
    requires { length line.now < 100 }
    ensures { result ≡ writes text (station_text line.now) }
{
    told(text, station::convert(command(line).bytes()))
}
