// What a line asks for (chapter 7), and the one judgement of its ranges (paper 01, "Lines").
// Every function is total: it has no premise and states its result for every input. Assumes nothing.
ghost use Rattle.std.specs.Prelude.{◌≡◌};
ghost use Rattle.line.specs.Codes.{is_inputs, is_w};
ghost use Rattle.line.specs.Ranges.{is_within, input_bits, setting_fits, reading_fits, distance_fits, is_order, fits};

// The axes.
pub const AXES: u8 = 5;
// The most units of speed and of slope.
pub const TOP_SPEED: u32 = 1000000;

pub const TOP_SLOPE: u32 = 4095;

// What is read.
#[derive(Clone, Copy)]
pub enum Reading {
    // Q 0-4: an axis's travel.
    Travel(u8),
    // q 0-4: an axis's position.
    Position(u8),
    // Q 6.
    Status,
    // q 8.
    Everything,
    // W with no digits: the inputs.
    Inputs,
}

// What a line asks for.
#[derive(Clone, Copy)]
pub enum Command {
    // P 0-4: the next move's distance and direction of an axis.
    Distance { axis: u8, minus: bool, length: u32 },
    // A setting by its code: P 8 speed in units of 0.25 Hz, 9 slope in units of 1.25 kHz/s, A dwell in ms, B watch (bit
    // 0 stops the axes, bit 1 clears the outputs), C polarity; Q D and E the low-ON and high-ON settings of the inputs.
    // The code stays a number, here and in an order: `fits` judges every one, and the writer has 19 for each that is
    // none (`has_line` of host).
    Set { code: u8, value: u32 },
    // Q 8: at once, or after the dwell.
    Start { master: u8, waits: bool },
    // An order that names nothing else, by its code: Q 9 stop, A clear status bit 2, B position reset, C carry on
    // (paper 02, 6/14).
    Order(u8),
    // W with six digits: the general outputs.
    Outputs(u32),
    // A reading.
    Read(Reading),
}

// The number from low to high, both taken.
pub fn within(n: u32, low: u32, high: u32) -> bool
    ensures { result ≡ is_within n low high }
{
    low <= n && n <= high
}

// Bits 0-9, 12 and 13 only: none from 14 on, and not 10 or 11.
pub fn input_bits(v: u32) -> bool
    ensures { result ≡ input_bits v }
{
    v / 16384 == 0 && v / 1024 % 4 == 0
}

// A setting's range, by its code.
fn setting_fits(code: u8, v: u32) -> bool
    ensures { result ≡ setting_fits code v }
{
    match code {
        8 => within(v, 1, TOP_SPEED),
        9 => within(v, 1, TOP_SLOPE),
        10 => v <= 16383,
        11 => v <= 3,
        12 => v <= 4095,
        13 | 14 => input_bits(v),
        _ => false,
    }
}

// A reading's axis is one of the five.
fn reading_fits(reading: Reading) -> bool
    ensures { result ≡ reading_fits reading }
{
    match reading {
        Reading::Travel(axis) | Reading::Position(axis) => axis < AXES,
        Reading::Status | Reading::Everything | Reading::Inputs => true,
    }
}

// A distance's axis is one of the five, and it has 19 bits.
fn distance_fits(axis: u8, length: u32) -> bool
    ensures { result ≡ distance_fits axis length }
{
    axis < AXES && length < digits::TOP_BIT
}

// The codes of the orders that name nothing else.
pub fn is_order(code: u32) -> bool
    ensures { result ≡ is_order code }
{
    within(code, 9, 12)
}

// Whether each value of a command is in its range.
pub fn fits(command: Command) -> bool
    ensures { result ≡ fits command }
{
    match command {
        Command::Distance {
            axis,
            minus: _,
            length,
        } => distance_fits(axis, length),
        Command::Set { code, value } => setting_fits(code, value),
        Command::Start { master, waits: _ } => master < AXES,
        Command::Order(code) => is_order(code as u32),
        Command::Outputs(v) => v < digits::SIX_DIGITS,
        Command::Read(reading) => reading_fits(reading),
    }
}

// Whether a reading is of the inputs: W with no digits.
pub fn is_inputs(reading: Reading) -> bool
    ensures { result ≡ is_inputs reading }
{
    matches!(reading, Reading::Inputs)
}

// Whether a command is a W line's, query or not.
pub fn is_w(command: Command) -> bool
    ensures { result ≡ is_w command }
{
    match command {
        Command::Outputs(_) => true,
        Command::Read(reading) => is_inputs(reading),
        _ => false,
    }
}
