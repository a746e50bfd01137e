// A session as it is held, and what its entries answer (paper 01, "Host end and program"). Assumes nothing.
ghost use Rattle.std.specs.Prelude.{◌≡◌};
ghost use Rattle.controller.specs.Held.{held};
ghost use Rattle.controller.specs.Reach.{Reachable};
ghost use Rattle.session.specs.Session.{Running, Runs};

use crate::kept::Kept;
use controller::Controller;

// Where the input stands. A public type, since callers hold sessions within values of their own.
#[derive(Clone, Copy)]
pub enum Place {
    // Before the first character of a line.
    Start,
    // In a line whose characters go in.
    Sending,
    // In a line that begins with T.
    Asking,
}

// The controller, the characters of a line that begins with T, and where the input stands.
// That calls made it is a premise of its functions, no ghost field: such a field has one proof at most, and many lists of
// calls leave one session.
#[derive(Clone, Copy)]
pub struct Session {
    pub(crate) controller: Controller,
    pub(crate) kept: Kept,
    pub(crate) place: Place,
}

impl Session {
    // The controller as it stands, for what is tried on a copy of it (paper 02, 5/14); a half-received line is in it.
    pub fn controller(self) -> Controller
        requires { Running self }
        ensures runs { Runs self (λ x. result ≡ held x.machine) }
        ensures reachable { Reachable result }
    {
        self.controller
    }
}

// The next session; the length of what is to be printed, which stands at the front of the lent buffer; and a number: 2
// for a buffer under 120 bytes, the number that turned away the line which ended here, or that of a waiting start which
// failed in the ticks of a line that begins with T; else 0.
// No Result: the next session is promised with every number. A length, since the bytes stand in the lent buffer.
#[derive(Drop)]
pub struct Taken {
    pub session: Session,
    pub length: usize,
    pub number: u8,
}

// The controller after a byte that went in or after ticks, the length of what is to be printed, and the number told.
// No Result: the controller is promised with every number.
// No `ByteAnswer`: it comes of ticks too.
#[derive(Drop)]
pub(crate) struct Sent {
    pub(crate) controller: Controller,
    pub(crate) length: usize,
    pub(crate) number: u8,
}

// The session after a stretch of characters, and how many they are.
#[derive(Drop)]
pub struct Gathered {
    pub session: Session,
    pub count: usize,
}
