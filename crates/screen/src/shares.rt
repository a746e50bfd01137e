// The pulses of each wine and its share of all (docs/PROTOCOL.md, "A dose on screen first"). Assumes nothing.
ghost use Rattle.std.specs.Prelude.{◌≤◌, ◌<◌, ◌≡◌};
ghost use Rattle.screen.specs.Screen.{pulses, all_pulses, share_of};

use trial::Trial;

// All of a dose, in hundredths of a percent.
const ALL: u64 = 10000;

// The pulses of a wine: the travel of its axis.
pub(crate) fn pulses(trial: Trial, k: usize) -> u32
    requires { k < 5 }
    ensures { result ≡ pulses trial k }
{
    trial.travels[k].0
}

// The pulses of all wines, which may be more than 32 bits hold.
pub(crate) fn all_pulses(trial: Trial) -> u64
    ensures { result ≡ all_pulses trial }
{
    let mut sum = 0;
    for travel in trial.travels {
        sum += travel.0 as u64;
    }
    sum
}

// A share in hundredths of a percent, without what is left over; 0 where no axis has moved.
pub(crate) fn share(part: u32, all: u64) -> u32
    requires { part ≤ all }
    ensures { result ≡ share_of part all }
{
    if all == 0 {
        return 0;
    }
    (part as u64 * ALL / all) as u32
}
