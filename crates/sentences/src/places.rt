// The places of the words in the table of words: the row of each, which has its form in the table of forms too, and of
// which `Places` and `Tables` speak. An enum would be no plainer: with a table of its own, and turned into the row again.

// The place of each word. A decimal number follows.
pub const START: usize = 0;

pub const TRAVEL: usize = 1;

pub const POSITION: usize = 2;

pub const DWELL: usize = 3;

pub const WATCH: usize = 4;
// A hexadecimal number follows.
pub const POLARITY: usize = 5;

pub const LOW: usize = 6;

pub const HIGH: usize = 7;

pub const OUTPUTS: usize = 8;
// A figure follows.
pub const SPEED: usize = 9;

pub const SLOPE: usize = 10;
// An axis and a distance follow.
pub const DISTANCE: usize = 11;
// Nothing follows.
pub const STOP: usize = 12;

pub const STATUS: usize = 13;

pub const EVERYTHING: usize = 14;

pub const INPUTS: usize = 15;

pub const CLEAR: usize = 16;

pub const RESET: usize = 17;
// The word `on` follows.
pub const CARRY: usize = 18;
// No commands: the host's first line, the master picker, the bench program's ticks, a trial of the program preview.
pub const OPENING: usize = 19;

pub const MASTER: usize = 20;

pub const TICKS: usize = 21;

pub const TRIAL: usize = 22;
