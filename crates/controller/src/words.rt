// The output words by their parts: the general outputs and what each axis adds (paper 01, "Lines of output").
ghost use Rattle.std.specs.Prelude.{◌≡◌, ◌<◌};
ghost use Rattle.controller.specs.Inner.Words.{level_of, word_of, rest_of, WiresFit};

use crate::state::Wires;

// What an axis adds to the first word.
fn level(wires: Wires, k: usize, on: bool) -> u32
    requires { (k < 5) × WiresFit wires }
    ensures { (result ≡ level_of wires k on) × (result < 16777216) }
{
    let cells = wires.cells;
    if on {
        return cells.fires[k];
    }
    cells.rests[k]
}

// The output word in which these axes pulse.
pub(crate) fn word(wires: Wires, a: bool, b: bool, c: bool, d: bool, e: bool) -> u32
    requires { WiresFit wires }
    ensures { result ≡ word_of wires a b c d e }
{
    wires.general
        + level(wires, 0, a)
        + level(wires, 1, b)
        + level(wires, 2, c)
        + level(wires, 3, d)
        + level(wires, 4, e)
}

// The output word at rest, which is that of every second half.
pub(crate) fn rest(wires: Wires) -> u32
    requires { WiresFit wires }
    ensures { result ≡ rest_of wires }
{
    let cells = wires.cells;
    wires.general + cells.still
}
