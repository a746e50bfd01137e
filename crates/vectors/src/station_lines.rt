// The converter of MD5230D commands on a line `C hh..`.
ghost use Rattle.std.specs.Prelude.{◌≡◌};
ghost use Rattle.station.specs.Station.{convert_of};

use crate::texts::Text;
use crate::{form, writer};
use station::Converted;

// What comes of a command, every place of it.
fn converted(command: &[u8]) -> Converted
    ensures { result ≡ convert_of command.now }
{
    station::whole(station::convert(command))
}

// The number, how many values there are, and the lines of all six places.
fn shown(converted: Converted) -> Text {
    let requests = converted.requests;
    let told = Text::new()
        .number(converted.number)
        .with(b' ')
        .hex(converted.count as u64, 1);
    requests.iter().fold(
        told,
        |told, &request| writer::with_line(told, b" ", request),
    )
}

// A command of up to 48 bytes, or a line of no form.
pub(crate) fn answer(line: &[u8]) -> Text {
    let longest =
        b"C hhhhhhhhhhhhhhhhhhhhhhhhhhhhhhhhhhhhhhhhhhhhhhhhhhhhhhhhhhhhhhhhhhhhhhhhhhhhhhhhhhhhhhhhhhhhhhhh";
    form::row(line, longest, 2, |bytes| shown(converted(bytes)))
}
