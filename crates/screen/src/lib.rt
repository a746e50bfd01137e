// A dose on screen first (paper 02, 5/14; docs/PROTOCOL.md, "A dose on screen first"): the line that asks for a trial,
// and what is shown of one. What a trial leaves is the work of `trial`. The only premise is that the controller that a
// trial is made on is reachable; each result is stated for every other value. Assumes nothing.
#![tactic(auto)]

ghost use Rattle.std.specs.Prelude.{◌≤◌, ◌≡◌, length};
ghost use Rattle.controller.specs.Reach.{Reachable, Made};
ghost use Rattle.text.specs.Text.{holding, writes};
ghost use Rattle.screen.specs.Answer.{answer_of};
ghost use Rattle.screen.specs.Page.{Forms, Screens};
ghost use Rattle.screen.specs.Promises.{Whole, Shares, Times};
ghost use Rattle.screen.specs.Screen.{question_text, six_lines, screen_text};

use crate::asked::Asked;
use controller::Controller;
use text::{FEED, Text};
use trial::Trial;

pub mod asked;
mod decimals;
mod lines;
mod shares;

// What is printed to a line that asks for no trial.
fn question() -> Text
    ensures { result ≡ holding question_text }
{
    Text::new().characters(b"? D 0 1000000 000000\n")
}

// The line of the end, and a line for each wine.
fn six_lines(text: Text, trial: Trial, master: u32, ticks: u32) -> Text
    ensures value { result ≡ writes text (six_lines trial master ticks) }
    ensures ticks_len_bound { length (six_lines trial master ticks) ≤ 250 }
{
    let first = lines::master_line(text, master, trial.end, ticks);
    lines::wine_lines(first, trial)
}

// A trial on screen, by its master and the ticks that were asked for. No screen is cut.
fn screen(trial: Trial, master: u32, ticks: u32) -> Text
    ensures value { result ≡ holding (screen_text trial master ticks) }
    ensures whole { Whole trial master ticks }
{
    let text = Text::new();
    if trial.number == 0 {
        return six_lines(text, trial, master, ticks);
    }
    sentences::turned_away(text, trial.number).with(FEED)
}

// What is printed to a line that begins with D, which is never cut. The controller is given by value: the caller's is
// not touched. That a share is the true one cut off, that a time is 4 µs a tick, and the page's own lines and screens,
// stand here as promises.
pub fn answer(c: Controller, line: &[u8]) -> Text
    requires { Reachable c }
    ensures made { Made c (λ m. result ≡ holding (answer_of m line.now)) }
    ensures made_2 { Made c (λ m. length (answer_of m line.now) ≤ 250) }
    ensures shares { Shares }
    ensures times { Times }
    ensures forms { Forms }
    ensures screens { Screens }
{
    let Some(
        Asked {
            master,
            ticks,
            word,
        },
    ) = asked::parse_trial(line)
    else {
        return question();
    };
    let trial = trial::temixohuel_trial(c, master, word, ticks);
    screen(trial, master, ticks)
}
