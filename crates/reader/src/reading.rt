// What a reply block says (paper 01, "Lines", Replies): the reader's answer. Assumes nothing.
use reply::{Position, Travel};

// A block: its switch, its identification, and what it says.
#[derive(Clone, Copy)]
pub struct Reading {
    pub switch: u8,
    pub ident: Option<u8>,
    pub figure: Figure,
}

// What a block says, by its letter and code.
#[derive(Clone, Copy)]
pub enum Figure {
    // U: the number of a line turned away, 0 for an accepted setting.
    // A number and no enum: the block's own, 0 and 26 among them.
    Verdict(u8),
    // S 0-4: an axis's travel in the latest move, and that move's direction.
    Travelled {
        axis: u8,
        minus: bool,
        travel: Travel,
    },
    // S 6.
    Status(u8),
    // S 8 to E: the six digits of the order.
    Echo(u32),
    // s 0-4: an axis's position.
    Placed {
        axis: u8,
        position: Position,
    },
    // R: the inputs of the last tick (q 8), or of a W line's 2,500th.
    Inputs(u32),
}
