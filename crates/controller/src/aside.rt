// A half-received line put aside, as a trial does on its copy (paper 02, 5/14). It is no call of demand 3's list: what
// it hands back is for a copy, never for the bench. The only premise is that the controller is reachable.
ghost use Rattle.std.specs.Prelude.{[], ◌≡◌};
ghost use Rattle.machine.specs.State.{with_line};
ghost use Rattle.controller.specs.Held.{held};
ghost use Rattle.controller.specs.Inner.Power.{with_line_of};
ghost use Rattle.controller.specs.Reach.{Reachable, Made};

use crate::state::Controller;
use receiver::Receiver;

// The controller with the characters received so far.
pub(crate) fn with_line(c: Controller, line: Receiver) -> Controller
    ensures { result ≡ with_line_of c line }
{
    let mut cold = c.cold;
    cold.line = line;
    Controller { hot: c.hot, cold }
}

impl Controller {
    // The controller as it is, but for the characters since the last 0D, of which it has none.
    pub fn without_line(self) -> Controller
        requires { Reachable self }
        ensures made { Made self (λ m. result ≡ held (with_line m [])) }
        ensures reachable { Reachable result }
    {
        let line = Receiver::new();
        with_line(self, line)
    }
}
