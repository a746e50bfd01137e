// The controller in parts: what a tick may alter, what only bytes alter; and what the entries answer. `Run` and `Pause`
// have no hole behind their last field: the compiler copies a hole by itself in every tick.
use journal::Entry;
use outputs::Cells;
use receiver::Receiver;
use reply::{Position, Travel};

// Speed in units of 0.25 Hz, slope in units of 1.25 kHz/s, dwell in ms, polarity, the two input settings, watch.
#[repr(C)]
#[derive(Clone, Copy)]
pub struct Settings {
    pub speed: u32,
    pub slope: u32,
    pub dwell: u32,
    pub polarity: u32,
    pub low: u32,
    pub high: u32,
    pub watch: u32,
}

// A distance and a direction for each axis; true is minus.
// Arrays side by side: the form that paper 01 names, in the layout of firmware.
#[repr(C)]
#[derive(Clone, Copy)]
pub struct Plan {
    pub distances: [u32; 5],
    pub minus: [bool; 5],
}

// The latest move: the master's distance and travel, the speed in fiftieths of a unit, the phase, and the ticks in
// which its ramp ran: `rounds` times 2 to the 32, and `ticks`. In two halves a controller has 256 bytes; one of more
// costs a call from firmware 10 ns. `master` is the master, and 256 more once a distance line was accepted since the
// move began (paper 02, 6/14): a flag of its own cost a tick of firmware 3 ns.
#[repr(C)]
#[derive(Clone, Copy)]
pub struct Run {
    pub length: u32,
    pub gone: u32,
    pub speed: u32,
    pub phase: u32,
    pub master: u16,
    pub moving: bool,
    pub stopping: bool,
    pub ticks: u32,
    pub rounds: u32,
}

// What each axis counts. A remainder is what the master's travel times the distance leaves when divided by the length.
// Arrays side by side: the form that paper 01 names, in the layout of firmware.
#[repr(C)]
#[derive(Clone, Copy)]
pub struct Counters {
    pub travels: [Travel; 5],
    pub remainders: [u32; 5],
    pub positions: [Position; 5],
}

// The ticks of the dwell that are left, and the waiting start: 0, or its master and 1 (no Option: repr(C)); and the ticks
// until the block of a W line, 0 where none is to come.
#[repr(C)]
#[derive(Clone, Copy)]
pub struct Pause {
    pub left: u32,
    pub waiting: u16,
    pub block: u16,
}

// Status bits 2, 3, 5 and 6.
#[repr(C)]
#[derive(Clone, Copy)]
pub struct Flags {
    pub wrong: bool,
    pub stopped: bool,
    pub emergency: bool,
    pub sensed: bool,
}

// The output words by their parts, kept ready.
#[repr(C)]
#[derive(Clone, Copy)]
pub struct Wires {
    pub general: u32,
    pub cells: Cells,
}

// What a tick may alter. Settings and the next plan are passed apart from it: bytes alone alter them, and so the steps
// of a tick hand on Hot alone.
#[repr(C)]
#[derive(Clone, Copy)]
pub struct Hot {
    pub plan: Plan,
    pub counters: Counters,
    pub run: Run,
    pub wires: Wires,
    pub pause: Pause,
    pub inputs: u32,
    pub watch: u32,
    pub flags: Flags,
}

// What only bytes alter. `ident` is the identification of the latest W line, if that is `named`: a flag and a character
// in the place of an Option, since no enum crosses to firmware (repr(C)).
#[repr(C)]
#[derive(Clone, Copy)]
pub struct Cold {
    pub settings: Settings,
    pub next: Plan,
    pub line: Receiver,
    pub named: bool,
    pub ident: u8,
    pub switch: u8,
}

// Its fields are the crate's own, so that only power-on and calls can make one.
// That calls made it (`Reachable`) is a premise of its functions and no invariant: the only one that paper 01 allows,
// and C hands controllers in.
#[repr(C)]
#[derive(Clone, Copy)]
pub struct Controller {
    pub(crate) hot: Hot,
    pub(crate) cold: Cold,
}

// A controller as power-on leaves it, and 1 for a switch that there is none of, else 0.
// A number and no Result: see numbers.rt.
#[repr(C)]
#[derive(Drop)]
pub struct PowerOn {
    pub controller: Controller,
    pub number: u8,
}

// What a byte answers: the next controller, the length of the reply in the lent buffer, and the number that turned
// the byte or its line away, told of silent lines too; 0 where nothing was.
// A number and no Result: see numbers.rt. A length and no slice: paper 01 has the byte step tell it.
#[repr(C)]
#[derive(Drop)]
pub struct ByteAnswer {
    pub controller: Controller,
    pub length: usize,
    pub number: u8,
}

// What a stretch of bytes answers: the next controller, and how many bytes it took.
#[derive(Drop)]
pub struct Gathered {
    pub controller: Controller,
    pub count: usize,
}

// What a tick answers: the next controller, the five pulses (-1, 0, 1), the output words of its two halves, the number
// of a waiting start that failed, or 2, 3, or 0, whether it ends a move, with the entry of that move for the journal
// (an entry without an end is all zeros), and the length of a W line's block in the lent buffer, 0 without one.
// A number and no Result: see numbers.rt; a flag beside the entry, since C reads it.
#[repr(C)]
#[derive(Drop)]
pub struct TickAnswer {
    pub controller: Controller,
    pub first: u32,
    pub second: u32,
    pub pulses: [i8; 5],
    pub number: u8,
    pub ended: bool,
    pub length: u8,
    pub entry: Entry,
}
