// The controller for firmware in C or Rust: power-on, a received byte, a tick and the readings, by value; and the
// journal's writer and reader. Each function has the contract of the entry of `controller` or `journal` that it passes
// on, but for what speaks of the machine alone and for computed examples; include/temixohuel.h declares them. The
// premise is that the controller is reachable, and power-on, byte and tick promise this of what they hand back; the
// journal's two have none. Assumes nothing.
#![tactic(auto)]

ghost use Rattle.std.specs.Prelude.{List, map, ◌≡◌};
ghost use Rattle.laws.specs.Axes.{each};
ghost use Rattle.reply.specs.declared.readings.Position.{Position};
ghost use Rattle.reply.specs.Reply.{position_of};
ghost use Rattle.journal.specs.Journal.{appended, append_buffer, read_at, RoundTrip, OneSpelling};
ghost use Rattle.machine.specs.Stops.{status};
ghost use Rattle.controller.specs.Held.{held_power};
ghost use Rattle.controller.specs.Reach.{Reachable, Made};
ghost use Rattle.controller.specs.Answers as answered;
ghost use Rattle.controller.specs.Answers.{Promised, TravelsOf, PositionsOf, Demand3Answers};
ghost use Rattle.controller.specs.Carry.{CarryAnswers};
ghost use Rattle.controller.specs.Identified.{ReturnsAnswers};
ghost use Rattle.controller.specs.Journal.{JournalAnswers};
ghost use Rattle.controller.specs.Settle.{SettlesAnswers};

use controller::{ByteAnswer, Controller, PowerOn, TickAnswer};
use journal::{Appended, Entry, EntryAt};
use reply::Travel;

// The five travels: an array does not cross by itself.
#[repr(C)]
#[derive(Drop)]
pub struct Travels {
    pub axes: [Travel; 5],
}

// The five positions as signed numbers, of the width that `Position::signed` has.
#[repr(C)]
#[derive(Drop)]
pub struct Positions {
    pub axes: [i64; 5],
}

// Power-on, for every switch.
#[unsafe(no_mangle)]
pub extern "C" fn temixohuel_power_on(switch: u8) -> PowerOn
    ensures value { result ≡ held_power switch }
    ensures reachable { Reachable result.controller }
    ensures demand3answers { Demand3Answers }
    ensures journal_answers { JournalAnswers }
    ensures settles_answers { SettlesAnswers }
    ensures carry_answers { CarryAnswers }
    ensures returns_answers { ReturnsAnswers }
{
    controller::power_on(switch)
}

// A received byte, with the buffer lent for a reply.
#[unsafe(no_mangle)]
pub extern "C" fn temixohuel_byte(c: Controller, buf: &mut [u8], b: u8) -> ByteAnswer
    requires { Reachable c }
    ensures { Promised c (answered.byte b buf.old buf.new result) }
{
    c.byte(buf, b)
}

// A tick, with its input word and the buffer lent for the block of a W line; the one that ends a move answers its
// entry.
#[unsafe(no_mangle)]
pub extern "C" fn temixohuel_tick(c: Controller, buf: &mut [u8], word: u32) -> TickAnswer
    requires { Reachable c }
    ensures { Promised c (answered.tick word buf.old buf.new result) }
{
    c.tick(buf, word)
}

// The pulses that each axis has sent in the latest move.
#[unsafe(no_mangle)]
pub extern "C" fn temixohuel_travels(c: Controller) -> Travels
    requires { Reachable c }
    ensures { TravelsOf c result.axes }
{
    let axes = c.travels();
    Travels { axes }
}

// The signed pulses of each axis since power-on or the last position reset.
#[unsafe(no_mangle)]
pub extern "C" fn temixohuel_positions(c: Controller) -> Positions
    requires { Reachable c }
    ensures axes_value { (ps : List Position) → PositionsOf c ps → result.axes ≡ map position_of ps }
    ensures made { Made c (λ m. result.axes ≡ each m.position) }
{
    let axes = c.signed_positions();
    Positions { axes }
}

// The status word.
#[unsafe(no_mangle)]
pub extern "C" fn temixohuel_status(c: Controller) -> u8
    requires { Reachable c }
    ensures { Made c (λ m. result ≡ status m) }
{
    c.status()
}

// The speed setting in units of 0.25 Hz.
#[unsafe(no_mangle)]
pub extern "C" fn temixohuel_speed(c: Controller) -> u32
    requires { Reachable c }
    ensures { Made c (λ m. result ≡ m.settings.speed) }
{
    c.speed()
}

// The slope setting in units of 1.25 kHz/s.
#[unsafe(no_mangle)]
pub extern "C" fn temixohuel_slope(c: Controller) -> u32
    requires { Reachable c }
    ensures { Made c (λ m. result ≡ m.settings.slope) }
{
    c.slope()
}

// The entry of an ended move at the place `at` of a journal, and the place after it.
#[unsafe(no_mangle)]
pub extern "C" fn temixohuel_append(buf: &mut [u8], at: usize, entry: Entry) -> Appended
    ensures value { result ≡ appended buf.old at entry }
    ensures buf_after { buf.new ≡ append_buffer buf.old at entry }
    ensures round_trip { RoundTrip }
{
    journal::append(buf, at, entry)
}

// The entry at the place `at` of a journal, if there is one, and the place after it.
#[unsafe(no_mangle)]
pub extern "C" fn temixohuel_read(bytes: &[u8], at: usize) -> EntryAt
    ensures value { result ≡ read_at bytes.now at }
    ensures one_spelling { OneSpelling }
{
    journal::read(bytes, at)
}
