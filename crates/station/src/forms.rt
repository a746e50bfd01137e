// What a command says (source document 001, chapters 2, 3.2.3, 3.2.10, 3.3.1, 3.4.1). Assumes nothing.
ghost use Rattle.std.specs.Prelude.{◌||◌, ◌≡◌};
ghost use Rattle.station.specs.Forms.{
  is_ended,
  is_x,
  is_y,
  speed_form,
  single_form,
  back,
  pair_form,
  stop_form,
  form_as,
  form_of,
};
ghost use Rattle.station.specs.Held.{held_form};

use crate::names::NULL;
use crate::points::{Distance, STILL};
use crate::{names, points};
use text::{SPACE, parts};

// The comma between two axes.
const COMMA: u8 = 44;

// What a command says; a speed in pps from 4,294,967,295 on counts as that.
#[derive(Drop)]
pub(crate) enum Form {
    Speed(u32),
    Move { x: Distance, y: Distance },
    Stop,
}

// 00 is the last byte and the only one.
fn is_ended(command: &[u8]) -> bool
    ensures { result ≡ is_ended command.now }
{
    parts::parts(command, NULL) == 2 && parts::part(command, NULL, 1).is_empty()
}

// X and Y.
const AXES: [&[u8]; 2] = [b"X", b"Y"];

// Whether a word is one of them.
fn is_axis(w: &[u8]) -> bool
    ensures { result ≡ is_x w.now || is_y w.now }
{
    AXES.contains(&w)
}

// SPD: an axis and a drive speed (3.4.1).
fn speed(t: &[u8]) -> Option<Form>
    ensures { result ≡ held_form (speed_form t.now) }
{
    if parts::parts(t, SPACE) != 3 || !is_axis(parts::part(t, SPACE, 1)) {
        return None;
    }
    numerals::read_decimal(parts::part(t, SPACE, 2)).map(Form::Speed)
}

// INC: one axis and its relative position (3.2.3).
fn single(t: &[u8]) -> Option<Form>
    ensures { result ≡ held_form (single_form t.now) }
{
    let x = points::point_in(t, 1, b"X").map(|x| Form::Move { x, y: STILL });
    let y = points::point_in(t, 1, b"Y").map(|y| Form::Move { x: STILL, y });
    x.or(y)
}

// What stands behind the first comma, where one space may come first.
fn back(t: &[u8]) -> &[u8]
    ensures { result.now ≡ back t.now }
{
    let after = parts::part(t, COMMA, 1);
    after.strip_prefix(b" ").unwrap_or(after)
}

// LNI: X and its finish point, Y and its finish point (3.3.1).
fn pair(t: &[u8]) -> Option<Form>
    ensures { result ≡ held_form (pair_form t.now) }
{
    if parts::parts(t, COMMA) != 2 {
        return None;
    }
    let x = points::point_in(parts::part(t, COMMA, 0), 1, b"X")?;
    let y = points::point_in(back(t), 0, b"Y")?;
    Some(Form::Move { x, y })
}

// SST: one axis or both (3.2.10).
const STOPS: [&[u8]; 4] = [b"SST X", b"SST Y", b"SST X,Y", b"SST X, Y"];

// Whether a text is one of these.
fn stop(t: &[u8]) -> Option<Form>
    ensures { result ≡ held_form (stop_form t.now) }
{
    STOPS.contains(&t).then_some(Form::Stop)
}

// What a text says, by its name. A `match` on the four was tried: it tells a proof of a name's length alone, and didn't
// close.
fn form_as(name: &[u8], t: &[u8]) -> Option<Form>
    ensures { result ≡ held_form (form_as name.now t.now) }
{
    if name == b"SPD".as_slice() {
        return speed(t);
    }
    if name == b"INC".as_slice() {
        return single(t);
    }
    if name == b"LNI".as_slice() {
        return pair(t);
    }
    if name == b"SST".as_slice() {
        return stop(t);
    }
    None
}

// What a command says; nothing without its end.
pub(crate) fn form_of(command: &[u8]) -> Option<Form>
    ensures { result ≡ held_form (form_of command.now) }
{
    if !is_ended(command) {
        return None;
    }
    form_as(names::name_of(command), names::text_of(command))
}
