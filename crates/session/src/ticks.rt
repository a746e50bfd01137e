// So many ticks with one input word, the sums of their signed pulses, the number of a waiting start that failed, and
// the block of a W line. Assumes nothing.
ghost use Rattle.std.specs.Prelude.{◌≤◌, ◌≡◌, ◌+ℤ◌, length};
ghost use Rattle.block.specs.Block.{over};
ghost use Rattle.machine.specs.Steps.{tick_step};
ghost use Rattle.machine.specs.Calls.{buffer};
ghost use Rattle.std.specs.Int.{w32};
ghost use Rattle.std.proofs.Common.{SFits};
ghost use Rattle.controller.specs.Reach.{Reachable, Made};
ghost use Rattle.session.specs.Ticks.{blocks_of, ran_of, Rooms, Small, added_of, later_of, ticked_of};

use controller::Controller;

// The controller after some ticks, the sums of the signed pulses of axes 0 to 4 in them, the number of the last of them
// that has one, else 0, and the length of the block that one of them answered, which stands at the front of the lent
// buffer.
// No Result: the controller is promised with every number.
#[derive(Drop)]
pub(crate) struct Ran {
    pub(crate) controller: Controller,
    pub(crate) sums: [i32; 5],
    pub(crate) number: u8,
    pub(crate) length: u8,
}

// The sum with one pulse more.
fn add(sum: i32, pulse: i8) -> i32
    requires { SFits w32 (sum +ℤ pulse) }
    ensures { result ≡ sum +ℤ pulse }
{
    sum + pulse as i32
}

// The five sums with the pulses of one tick more.
fn added(sums: [i32; 5], pulses: [i8; 5]) -> [i32; 5]
    requires { Rooms sums pulses }
    ensures { result ≡ added_of sums pulses }
{
    [
        add(sums[0], pulses[0]),
        add(sums[1], pulses[1]),
        add(sums[2], pulses[2]),
        add(sums[3], pulses[3]),
        add(sums[4], pulses[4]),
    ]
}

// The number after a tick more, which has the number n. The length of a block goes by the same rule.
fn later(before: u8, n: u8) -> u8
    ensures { result ≡ later_of before n }
{
    if n == 0 { before } else { n }
}

// One tick more.
fn ticked(ran: Ran, buf: &mut [u8], word: u32) -> Ran
    requires reachable { Reachable ran.controller }
    requires small { Small ran.sums }
    requires in_bounds { 120 ≤ length buf.old }
    ensures made { Made ran.controller (λ m. result ≡ ticked_of ran (tick_step m word buffer)) }
    ensures made_2 { Made ran.controller (λ m. buf.new
        ≡ over (tick_step m word buffer).reply buf.old) }
{
    let a = ran.controller.tick(buf, word);
    Ran {
        controller: a.controller,
        sums: added(ran.sums, a.pulses),
        number: later(ran.number, a.number),
        length: later(ran.length, a.length),
    }
}

// `count` ticks, whatever the controller does in them: no sum leaves the range, since positions do not.
pub(crate) fn run_ticks(c: Controller, buf: &mut [u8], count: u32, word: u32) -> Ran
    requires reachable { Reachable c }
    requires in_bounds { 120 ≤ length buf.old }
    ensures made { Made c (λ m. result ≡ ran_of count word m) }
    ensures made_2 { Made c (λ m. buf.new ≡ over (blocks_of count word m) buf.old) }
{
    let mut ran = Ran {
        controller: c,
        sums: [0; 5],
        number: 0,
        length: 0,
    };
    for _ in 0..count {
        ran = ticked(ran, buf, word);
    }
    ran
}
