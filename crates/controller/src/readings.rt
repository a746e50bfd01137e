// What a caller reads off a controller: travels, positions, the status word, speed and slope (paper 01, "Shares",
// "Stops", "Ramp"). The only premise is that the controller is reachable.
ghost use Rattle.std.specs.Prelude.{map, ◌≡◌};
ghost use Rattle.laws.specs.Axes.{each};
ghost use Rattle.reply.specs.Reply.{position_of};
ghost use Rattle.machine.specs.Stops.{status};
ghost use Rattle.controller.specs.Reach.{Reachable, Made};
ghost use Rattle.controller.specs.Answers.{TravelsOf, PositionsOf};

use crate::state::Controller;
use crate::status;
use reply::{Position, Travel};

impl Controller {
    // The pulses that each axis has sent in the latest move.
    pub fn travels(self) -> [Travel; 5]
        requires { Reachable self }
        ensures { TravelsOf self result }
    {
        self.hot.counters.travels
    }

    // The signed pulses of each axis since power-on or the last position reset.
    pub fn positions(self) -> [Position; 5]
        requires { Reachable self }
        ensures positions_of { PositionsOf self result }
        ensures made { Made self (λ m. map position_of result ≡ each m.position) }
    {
        self.hot.counters.positions
    }

    // The same as signed numbers. (By `map` over the array the proof did not close.)
    pub fn signed_positions(self) -> [i64; 5]
        requires { Reachable self }
        ensures { Made self (λ m. result ≡ each m.position) }
    {
        let held = self.positions();
        [
            held[0].signed(),
            held[1].signed(),
            held[2].signed(),
            held[3].signed(),
            held[4].signed(),
        ]
    }

    // The status word.
    pub fn status(self) -> u8
        requires { Reachable self }
        ensures { Made self (λ m. result ≡ status m) }
    {
        status::status(self)
    }

    // The speed setting in units of 0.25 Hz.
    pub fn speed(self) -> u32
        requires { Reachable self }
        ensures { Made self (λ m. result ≡ m.settings.speed) }
    {
        self.cold.settings.speed
    }

    // The slope setting in units of 1.25 kHz/s.
    pub fn slope(self) -> u32
        requires { Reachable self }
        ensures { Made self (λ m. result ≡ m.settings.slope) }
    {
        self.cold.settings.slope
    }
}
