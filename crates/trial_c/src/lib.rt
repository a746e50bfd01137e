// The trial for firmware in C or Rust: `temixohuel_trial` of the crate `trial` under its C name, with its contract;
// include/temixohuel.h declares it. The premise is that the controller is reachable. Assumes nothing.
#![tactic(auto)]

ghost use Rattle.std.specs.Prelude.{◌≡◌};
ghost use Rattle.controller.specs.Reach.{Reachable, Made};
ghost use Rattle.trial.specs.Trial.{trial_of};
ghost use Rattle.trial.specs.Promises.{Numbers, PlainStart, FirstEnd, Rest, OnTheBench};
ghost use Rattle.trial.specs.Witness.{TrialWitness, WholeTrial};

use controller::Controller;
use trial::Trial;

// What a plain start and so many ticks would leave.
#[unsafe(no_mangle)]
pub extern "C" fn temixohuel_trial(c: Controller, master: u32, word: u32, ticks: u32) -> Trial
    requires { Reachable c }
    ensures made { Made c (λ m. result ≡ trial_of m master word ticks) }
    ensures numbers { Numbers }
    ensures plain_start { PlainStart }
    ensures first_end { FirstEnd }
    ensures rest { Rest }
    ensures on_the_bench { OnTheBench }
    ensures trial_witness { TrialWitness }
    ensures whole_trial { WholeTrial }
{
    trial::temixohuel_trial(c, master, word, ticks)
}
