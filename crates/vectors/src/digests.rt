// Every number of units, there and back, as one digest: lines `D`.
use crate::settings;
use crate::settings::Unit;
use crate::texts::Text;
use figures::NotExact;
use line::command::{TOP_SLOPE, TOP_SPEED};
use replay::digest;

// The next figure above 1.
const NEXT: f64 = 1.0000000000000002;

// The units that a figure has, and 0 or the number that turns it away, mixed into a digest.
fn mixed(h: u32, told: u32, units: Result<u32, NotExact>) -> u32 {
    match units {
        Ok(n) => digest::mix(h, told, n, 0),
        Err(error) => digest::mix(h, told, 0, u32::from(u8::from(error))),
    }
}

// One n: its figure read back, and the next figure above.
fn mixed_both(h: u32, unit: Unit, n: u32) -> u32 {
    let x = unit.figure(n);
    let told = (settings::quarters_of(x) % 4294967296) as u32;
    let read = mixed(h, told, unit.units(x));
    mixed(read, 0, unit.units(x * NEXT))
}

// `D`: every n from 1 to the largest setting, and one more.
pub(crate) fn answer(line: &[u8]) -> Text {
    let unit = Unit::of_line(line);
    let most = match unit {
        Unit::Speed => TOP_SPEED,
        Unit::Slope => TOP_SLOPE,
    };
    let digest = (1..=most + 1).fold(0, |digest, n| mixed_both(digest, unit, n));
    Text::new().hex(u64::from(digest), 8)
}
