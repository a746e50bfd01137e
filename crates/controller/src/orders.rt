// What an accepted command does (paper 01, "Lines").
ghost use Rattle.std.specs.Prelude.{◌≡◌, ◌<◌};
ghost use Rattle.line.specs.Fits.{CommandFits};
ghost use Rattle.controller.specs.Inner.Orders.{
  obey_start_of,
  obey_stop_of,
  obey_reset_of,
  obey_order_of,
  does_of,
  zero_watch_of,
};

use crate::numbers::CARRY_ON;
use crate::state::Controller;
use crate::{carry, numbers, settings, start};
use line::command::Command;
use reply::Position;

// A start that is stored waits, any other begins a move.
fn obey_start(c: Controller, master: u8, waits: bool) -> Controller
    requires { master < 5 }
    ensures { result ≡ obey_start_of c master waits }
{
    let mut next = c;
    if numbers::stores(c, waits) {
        next.hot.pause.waiting = master as u16 + 1;
    } else {
        next.hot = start::begun(
            c.cold.next,
            c.cold.settings.polarity,
            c.cold.switch,
            c.hot,
            master,
        );
    }
    next
}

// Order 9 begins a stop of a running move, with bit 3, and drops a stored start.
fn obey_stop(c: Controller) -> Controller
    ensures { result ≡ obey_stop_of c }
{
    let mut next = c;
    next.hot.pause.waiting = 0;
    if c.hot.run.moving {
        next.hot.run.stopping = true;
        next.hot.flags.stopped = true;
    }
    next
}

// A position reset zeroes positions and, with the emergency input inactive or disabled, frees the hold.
fn obey_reset(c: Controller) -> Controller
    ensures { result ≡ obey_reset_of c }
{
    let active = inputs::emergency(c.cold.settings.low, c.cold.settings.high, c.hot.inputs);
    let mut counters = c.hot.counters;
    counters.positions = [Position(digits::TOP_BIT); 5];
    let mut next = c;
    next.hot.counters = counters;
    next.hot.flags.emergency = c.hot.flags.emergency && active;
    next
}

// Orders by their codes: 9 stop, A clear bit 2, B position reset, C carry on.
fn obey_order(c: Controller, code: u8) -> Controller
    ensures { result ≡ obey_order_of c code }
{
    let mut next = c;
    match code {
        9 => next = obey_stop(c),
        10 => next.hot.flags.wrong = false,
        11 => next = obey_reset(c),
        CARRY_ON => next.hot = carry::carried(c.hot),
        _ => {}
    }
    next
}

// What an accepted command does. A reading alters nothing.
pub(crate) fn does(c: Controller, command: Command) -> Controller
    requires { CommandFits command }
    ensures { result ≡ does_of c command }
{
    match command {
        Command::Distance {
            axis,
            minus,
            length,
        } => settings::set_axis(c, axis, minus, length),
        Command::Set { code, value } => settings::set_setting(c, code, value),
        Command::Start { master, waits } => obey_start(c, master, waits),
        Command::Order(code) => obey_order(c, code),
        Command::Outputs(v) => settings::set_outputs(c, v),
        Command::Read(_) => c,
    }
}

// The watch count zeroed.
pub(crate) fn zero_watch(c: Controller) -> Controller
    ensures { result ≡ zero_watch_of c }
{
    let mut next = c;
    next.hot.watch = 0;
    next
}
