// What replies are made from, and how a travel and a position are held (paper 01, "Lines", Replies). Assumes nothing.
ghost use Rattle.std.specs.Prelude.{◌≡◌};
ghost use Rattle.reply.specs.Reply.{position_of};

use digits::TOP_BIT;

// The pulses that an axis has sent in the latest move. It has no sign.
#[repr(C)]
#[derive(Clone, Copy)]
pub struct Travel(pub u32);

// The signed pulses of an axis since power-on or the last position reset, with 524,288 added.
#[repr(C)]
#[derive(Clone, Copy)]
pub struct Position(pub u32);

impl Position {
    // The position itself, a signed number. An i64 has room for it whatever u32 is held.
    pub fn signed(self) -> i64
        ensures { result ≡ position_of self }
    {
        i64::from(self.0) - i64::from(TOP_BIT)
    }
}

// What replies are made from. Three arrays, and not five of one struct: the controller holds them so, in its `repr(C)`
// structs, whose layout stays, and hands them on whole.
#[derive(Clone, Copy)]
pub struct Readings {
    pub travels: [Travel; 5],
    pub positions: [Position; 5],
    pub inputs: u32,
    pub minus: [bool; 5],
    pub switch: u8,
    pub status: u8,
}
