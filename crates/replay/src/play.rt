// The kinds of call, each on a controller that power-on and calls made, with the digest so far. Assumes nothing.
ghost use Rattle.std.specs.Prelude.{◌≤◌, cond, ◌≡◌, length, replicate};
ghost use Rattle.block.specs.Block.{front_of};
ghost use Rattle.controller.specs.Reach.{Reachable};
ghost use Rattle.replay.specs.Digest.{mixed_bytes};
ghost use Rattle.replay.specs.Replay.{Plays, Lends, ticked, tick_lent, ticks, lent_after, lent_ticks, sent, read};

use crate::digest;
use controller::Controller;

// The controller after some calls, and the digest of their answers.
#[derive(Drop)]
pub(crate) struct Played {
    pub(crate) controller: Controller,
    pub(crate) digest: u32,
}

// A digest with the block at the front of a buffer more. Most ticks have none: the length is tested first.
fn with_block(h: u32, buf: &[u8], n: u8) -> u32
    ensures { result ≡ mixed_bytes h (front_of buf.now n) }
{
    if n == 0 {
        return h;
    }
    digest::bytes(h, controller::front(buf, n as usize))
}

// One tick with this buffer lent. What few ticks answer, block and entry, goes in first: the compiler then joins its
// tests with the controller's own.
fn tick(was: Played, buf: &mut [u8], word: u32) -> Played
    requires { Reachable was.controller }
    ensures plays { Plays was result (λ s. ticked s word buf.old) }
    ensures lends { Lends was buf.new (λ s. tick_lent s word buf.old buf.old) }
{
    let a = was.controller.tick(buf, word);
    let shown = with_block(was.digest, buf, a.length);
    let entered = digest::entered(shown, a.ended, a.entry);
    let code = digest::tick_code(a.pulses, a.number);
    Played {
        controller: a.controller,
        digest: digest::mix(entered, a.first, a.second, code),
    }
}

// So many ticks with one input word and one buffer. No other function makes ticks: the controller's tick has one
// caller, and so the compiler can make it a part of this loop.
fn run(was: Played, buf: &mut [u8], word: u32, count: u32) -> Played
    requires { Reachable was.controller }
    ensures plays { Plays was result (λ s. ticks s count word buf.old) }
    ensures lends { Lends was buf.new (λ s. lent_after s count word buf.old) }
{
    let mut played = was;
    for _ in 0..count {
        played = tick(played, buf, word);
    }
    played
}

// Of a buffer all bytes, or those of the reply alone.
// Whether all count comes from the bytes of the call.
fn part(buf: &[u8], n: usize, whole: bool) -> &[u8]
    ensures { result.now ≡ cond whole buf.now (front_of buf.now n) }
{
    if whole {
        buf
    } else {
        controller::front(buf, n)
    }
}

// So many ticks, all with this buffer lent. All bytes of the buffer count after the last of them, or none.
fn lend_ticks(was: Played, buf: &mut [u8], word: u32, count: u32, whole: bool) -> Played
    requires { Reachable was.controller }
    ensures { Plays was result (λ s. lent_ticks s count word buf.old whole) }
{
    let ran = run(was, buf, word, count);
    let counted = part(buf, 0, whole);
    Played {
        controller: ran.controller,
        digest: digest::bytes(ran.digest, counted),
    }
}

// So many ticks, with so many zeros lent.
pub(crate) fn ticks(was: Played, word: u32, count: u32, room: usize, whole: bool) -> Played
    requires reachable { Reachable was.controller }
    requires room_bound { room ≤ 255 }
    ensures { Plays was result (λ s. lent_ticks s count word (replicate room 0) whole) }
{
    let mut buf = [0u8; 255];
    lend_ticks(was, &mut buf[..room], word, count, whole)
}

// A received byte with this buffer lent. Of the buffer all bytes count, or those of the reply alone.
fn lend(was: Played, buf: &mut [u8], b: u8, whole: bool) -> Played
    requires reachable { Reachable was.controller }
    requires buf_len_bound { length buf.old ≤ 255 }
    ensures { Plays was result (λ s. sent s b whole buf.old) }
{
    let a = was.controller.byte(buf, b);
    let answered = digest::mix(was.digest, a.length as u32, a.number as u32, 0);
    let counted = part(buf, a.length, whole);
    Played {
        controller: a.controller,
        digest: digest::bytes(answered, counted),
    }
}

// A received byte with so many zeros lent.
pub(crate) fn send(was: Played, b: u8, room: usize, whole: bool) -> Played
    requires reachable { Reachable was.controller }
    requires room_bound { room ≤ 255 }
    ensures { Plays was result (λ s. sent s b whole (replicate room 0)) }
{
    let mut buf = [0u8; 255];
    lend(was, &mut buf[..room], b, whole)
}

// The readings: travels, positions, status, speed and slope.
pub(crate) fn read(was: Played) -> Played
    requires { Reachable was.controller }
    ensures { Plays was result read }
{
    let controller = was.controller;
    let travels = controller.travels();
    let positions = controller.positions();
    let shown = digest::axes(was.digest, travels, positions);
    let status = controller.status();
    let speed = controller.speed();
    let slope = controller.slope();
    let digest = digest::mix(shown, status as u32, speed, slope);
    Played { controller, digest }
}
