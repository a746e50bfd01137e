// The command values of a form, or 29 (paper 02, 8/14). Assumes nothing.
ghost use Rattle.std.specs.Prelude.{[], ◌∷◌, ◌≡◌};
ghost use Rattle.station.specs.Station.{asks};
ghost use Rattle.station.specs.Held.{requests, held_distance, held_speed, held_move, held_answer};

use crate::forms::Form;
use crate::points::{Distance, STILL};
use crate::{Refusal, Requests, UNUSED};
use host::Request;
use line::command::Command;

// The most pps and the most pulses of an axis.
const TOP_SPEED: u32 = 250000;

const TOP_DISTANCE: u32 = 524287;

// A command that asks for a reply and carries no identification.
fn asks(command: Command) -> Request
    ensures { result ≡ asks command }
{
    Request {
        silent: false,
        command,
        ident: None,
    }
}

// One command value.
fn one(command: Command) -> Requests
    ensures { result ≡ requests (asks command ∷ []) }
{
    let mut requests = [UNUSED; 6];
    requests[0] = asks(command);
    Requests { count: 1, requests }
}

// n pps are 4n units.
fn speed(n: u32) -> Result<Requests, Refusal>
    ensures { result ≡ held_speed n }
{
    match n {
        1..=TOP_SPEED => Ok(one(Command::Set {
            code: 8,
            value: 4 * n,
        })),
        _ => Err(Refusal::OutOfRange),
    }
}

// The distance of an axis.
fn distance(axis: u8, d: Distance) -> Request
    ensures { result ≡ held_distance axis d }
{
    asks(Command::Distance {
        axis,
        minus: d.minus,
        length: d.size,
    })
}

// X is axis 0, Y axis 1; the other axes get distance 0; then the plain start, the longer axis its master.
fn drive(x: Distance, y: Distance) -> Result<Requests, Refusal>
    ensures { result ≡ held_move x y }
{
    if TOP_DISTANCE < x.size || TOP_DISTANCE < y.size {
        return Err(Refusal::OutOfRange);
    }
    let master = host::pick_master([x.size, y.size, 0, 0, 0]);
    Ok(Requests {
        count: 6,
        requests: [
            distance(0, x),
            distance(1, y),
            distance(2, STILL),
            distance(3, STILL),
            distance(4, STILL),
            asks(Command::Start {
                master,
                waits: false,
            }),
        ],
    })
}

// What one of the four says.
pub(crate) fn values_of(form: Form) -> Result<Requests, Refusal>
    ensures { result ≡ held_answer form }
{
    match form {
        Form::Speed(n) => speed(n),
        Form::Move { x, y } => drive(x, y),
        Form::Stop => Ok(one(Command::Order(9))),
    }
}
