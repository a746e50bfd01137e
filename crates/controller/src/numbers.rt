// Which numbers from 11 on turn a well-formed line away, and what that leaves (paper 01, "Turned away"). A number is a
// u8 here and in the tick, 0 for none: the answers of power-on, byte and tick hold it so (repr(C), read by firmware), and
// it is the paper's own.
ghost use Rattle.std.specs.Prelude.{◌≡◌, ◌<◌};
ghost use Rattle.line.specs.Fits.{CommandFits};
ghost use Rattle.controller.specs.Inner.Start.{StartFits};
ghost use Rattle.controller.specs.Inner.Carry.{CarryFits};
ghost use Rattle.controller.specs.Inner.Numbers.{
  stores_of,
  rest_number_of,
  setting_number_of,
  start_line_of,
  carry_line_of,
  order_number_of,
  NumberFits,
  number_of,
  turned_of,
};

use crate::state::Controller;
use crate::{carry, start};
use line::command;
use line::command::Command;

// The code of the order that carries a stopped move on (paper 02, 6/14).
pub(crate) const CARRY_ON: u8 = 12;

// A start after the dwell is stored if a dwell runs.
pub(crate) fn stores(c: Controller, waits: bool) -> bool
    ensures { result ≡ stores_of c waits }
{
    waits && 0 < c.hot.pause.left
}

// 11 while a move runs.
fn rest_number(c: Controller) -> u8
    ensures { result ≡ rest_number_of c }
{
    if c.hot.run.moving { 11 } else { 0 }
}

// A setting's number: 11 for any P but speed.
fn setting_number(c: Controller, code: u8) -> u8
    ensures { result ≡ setting_number_of c code }
{
    if command::within(code as u32, 9, 12) {
        rest_number(c)
    } else {
        0
    }
}

// A start's number: 11, then its own unless it is stored.
fn start_line(c: Controller, master: u8, waits: bool) -> u8
    requires { (master < 5) × StartFits c.cold.next c.hot.counters }
    ensures { result ≡ start_line_of c master waits }
{
    if c.hot.run.moving {
        11
    } else if stores(c, waits) {
        0
    } else {
        start::start_number(c.cold.settings, c.cold.next, c.hot, master)
    }
}

// A carry-on's number: 11, then its own.
fn carry_line(c: Controller) -> u8
    requires { CarryFits c.hot }
    ensures { result ≡ carry_line_of c }
{
    if c.hot.run.moving {
        11
    } else {
        carry::carry_number(c.cold.settings, c.hot)
    }
}

// An order's number: a carry-on alone has one.
fn order_number(c: Controller, code: u8) -> u8
    requires { CarryFits c.hot }
    ensures { result ≡ order_number_of c code }
{
    if code == CARRY_ON { carry_line(c) } else { 0 }
}

// The number that turns a well-formed line away, or 0.
pub(crate) fn number(c: Controller, command: Command) -> u8
    requires { CommandFits command × NumberFits c }
    ensures { result ≡ number_of c command }
{
    match command {
        Command::Distance { .. } => rest_number(c),
        Command::Set { code, .. } => setting_number(c, code),
        Command::Start { master, waits } => start_line(c, master, waits),
        Command::Order(code) => order_number(c, code),
        Command::Outputs(_) | Command::Read(_) => 0,
    }
}

// A line turned away by 10 to 17 or 26 zeroes the watch count; 14 sets bit 2.
pub(crate) fn turned(c: Controller, number: u8) -> Controller
    ensures { result ≡ turned_of c number }
{
    if number < 10 {
        return c;
    }
    let mut next = c;
    next.hot.watch = 0;
    next.hot.flags.wrong = c.hot.flags.wrong || number == 14;
    next
}
