// How the bench program begins, before any input: power-on, and the host's first line, whose reply is dropped (paper
// 02, 2/14). Assumes nothing.
ghost use Rattle.std.specs.Prelude.{◌≡◌};
ghost use Rattle.controller.specs.Held.{held};
ghost use Rattle.session.specs.Session.{fresh};

use crate::answer;
use block::REPLY_ROOM;
use controller::Controller;

// The controller with its watch off. The four characters before the line's 0D are gathered at once.
pub(crate) fn opened() -> Controller
    ensures { result ≡ held fresh.machine }
{
    let line = host::watch_off();
    let gathered = controller::power_on(0).controller.gather(&line);
    let mut reply = [0u8; REPLY_ROOM];
    answer::send(gathered.controller, &mut reply, line[4]).controller
}
