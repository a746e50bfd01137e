// The converter (paper 02, 8/14): a command of an MD5230D station as command values for the writer.
// Every public function is total: it has no premise and states its result for every input. Assumes nothing.
#![tactic(auto)]

ghost use Rattle.std.specs.Prelude.{◌≡◌};
ghost use Rattle.station.specs.Station.{refusal_number, answer, convert_of};
ghost use Rattle.station.specs.Spelled.{Spelled};
ghost use Rattle.station.specs.Examples.{Examples};
ghost use Rattle.station.specs.Writable.{Writable};
ghost use Rattle.station.specs.Places.{Places};
ghost use Rattle.station.specs.Executed.{Executes};
ghost use Rattle.station.specs.Witness.{Witness};
ghost use Rattle.station.specs.Taken.{Taken};

use host::Request;
use line::command::{Command, Reading};

mod forms;
mod names;
mod points;
mod values;

// What turns a command away: "Turned away" 27 to 29.
#[derive(Clone, Copy, PartialEq, Eq)]
pub enum Refusal {
    // 27: a name that the station has not, or one of the four in another form.
    Unknown,
    // 28: a command that we lack.
    Lacked,
    // 29: a speed or a distance out of its range.
    OutOfRange,
}

// The number of the paper.
impl From<Refusal> for u8 {
    ghost from_gives = { λ refusal number. number ≡ refusal_number refusal };

    fn from(refusal: Refusal) -> u8 {
        match refusal {
            Refusal::Unknown => 27,
            Refusal::Lacked => 28,
            Refusal::OutOfRange => 29,
        }
    }
}

// The command values of a command: the first `count` of the six, in order. This project has no heap, so that they
// stand in fixed memory with their count beside them.
#[derive(Drop)]
pub struct Requests {
    pub count: usize,
    pub requests: [Request; 6],
}

// What comes of a command: a number that turns it away, or 0; how many command values there are; they come first of the
// six, in order. A program that prints every place prints those of a refusal too, so that a number stands beside them.
#[derive(Drop)]
pub struct Converted {
    pub number: u8,
    pub count: usize,
    pub requests: [Request; 6],
}

// What an unused place holds: a reading of the status, which alters nothing where it is sent by mistake.
pub const UNUSED: Request = Request {
    silent: false,
    command: Command::Read(Reading::Status),
    ident: None,
};

// The command values of a command, or the first of 27, 28 and 29 that applies. Promises: a command says what the format
// lines of source document 001 spell, with examples; the writer has a line for each value; what each place holds; and
// that the lines, executed, move exactly the distances named, with runs that do, and that a fresh controller takes the
// lines of each command.
pub fn convert(command: &[u8]) -> Result<Requests, Refusal>
    ensures value { answer result ≡ convert_of command.now }
    ensures spelled { Spelled }
    ensures examples { Examples }
    ensures writable { Writable }
    ensures places { Places }
    ensures executes { Executes }
    ensures witness { Witness }
    ensures taken { Taken }
{
    let name = names::name_of(command);
    if !names::is_listed(name) {
        return Err(Refusal::Unknown);
    }
    if !names::is_ours(name) {
        return Err(Refusal::Lacked);
    }
    let Some(form) = forms::form_of(command) else {
        return Err(Refusal::Unknown);
    };
    values::values_of(form)
}

// All that an answer of `convert` says, which is `convert_of` of the command: command values have the number 0; a
// refusal has its number, no command value, and six unused places.
pub fn whole(converted: Result<Requests, Refusal>) -> Converted
    ensures { result ≡ answer converted }
{
    match converted {
        Ok(values) => {
            let requests = values.requests;
            Converted {
                number: 0,
                count: values.count,
                requests,
            }
        }
        Err(refusal) => Converted {
            number: u8::from(refusal),
            count: 0,
            requests: [UNUSED; 6],
        },
    }
}
