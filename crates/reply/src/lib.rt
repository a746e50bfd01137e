// The replies to lines (paper 01, "Lines", Replies; 7.3 to 7.9), written at the front of a lent buffer.
// Every public function is total: it has no premise, and states its result and the whole buffer for every input.
// Assumes nothing.
#![tactic(auto)]

ghost use Rattle.std.specs.Prelude.{◌≡◌};
ghost use Rattle.block.specs.Block.{laid, laid_length};
ghost use Rattle.reply.specs.Reply.{
  told_by,
  reading_of,
  answer_of,
  reply_of,
  refusal_of,
  inputs_of,
};

use crate::numbers::{all_numbers, position_number, status_number, travel_number};
pub use crate::readings::{Position, Readings, Travel};
use block::Block;
use line::command::{Command, Reading};

mod numbers;
pub mod readings;

// The lowest code of a setting whose line Q is echoed.
const ECHOED: u8 = 13;
// The lowest number of a turned-away line that is answered with its identification.
const WITH_IDENT: u8 = 8;

// What a command is answered.
#[derive(Drop)]
enum Answer {
    // One block: its letter, and its six digits as a number.
    One(u8, u32),
    // The twelve of q 8.
    All,
    // Nothing yet: the block of a W line comes with a later tick.
    Later,
}

// What a reading is answered.
fn reading_answer(readings: Readings, reading: Reading) -> Answer
    ensures { result ≡ reading_of (told_by readings) reading }
{
    match reading {
        Reading::Travel(axis) => Answer::One(b'S', travel_number(readings, axis)),
        Reading::Position(axis) => Answer::One(b's', position_number(readings, axis)),
        Reading::Status => Answer::One(b'S', status_number(readings.status)),
        Reading::Everything => Answer::All,
        Reading::Inputs => Answer::Later,
    }
}

// What an accepted command with these six digits is answered.
fn answer_to(readings: Readings, command: Command, digits: u32) -> Answer
    ensures { result ≡ answer_of (told_by readings) command digits }
{
    match command {
        Command::Distance { .. } => Answer::One(b'U', 0),
        Command::Set { code, .. } if code < ECHOED => Answer::One(b'U', 0),
        Command::Set { .. } => Answer::One(b'S', digits),
        Command::Start { .. } | Command::Order(_) => Answer::One(b'S', digits),
        Command::Outputs(_) => Answer::Later,
        Command::Read(reading) => reading_answer(readings, reading),
    }
}

// The reply to an accepted command with these six digits, and its length: nothing and 0 where it has no room.
#[tactic(auto, using(crate::proofs::Replies::laid_none), unfolding(crate::specs::Reply::reply_of))]
pub fn write_reply(
    buf: &mut [u8],
    readings: Readings,
    command: Command,
    digits: u32,
    ident: Option<u8>,
) -> usize
    ensures value { result ≡ laid_length 0 (reply_of (told_by readings) command digits ident) buf.old }
    ensures buf_after { buf.new ≡ laid 0 (reply_of (told_by readings) command digits ident) buf.old }
{
    match answer_to(readings, command, digits) {
        Answer::One(letter, number) => {
            let block = Block {
                letter,
                switch: readings.switch,
                number,
                ident,
            };
            block::write_block(buf, 0, block)
        }
        Answer::All => {
            let numbers = all_numbers(readings);
            block::write_twelve(buf, *b"SSSSSSsssssR", numbers, readings.switch, ident)
        }
        Answer::Later => 0,
    }
}

// The block of a W line, with these inputs, and its length: nothing and 0 where it has no room.
// The letter and the number of each block stand beside the call of the one writer.
#[tactic(auto, unfolding(crate::specs::Reply::inputs_of))]
pub fn write_inputs(buf: &mut [u8], switch: u8, inputs: u32, ident: Option<u8>) -> usize
    ensures value { result ≡ laid_length 0 (inputs_of switch inputs ident) buf.old }
    ensures buf_after { buf.new ≡ laid 0 (inputs_of switch inputs ident) buf.old }
{
    let block = Block {
        letter: b'R',
        switch,
        number: inputs,
        ident,
    };
    block::write_block(buf, 0, block)
}

// The reply to a line turned away by this number, with its identification from 8 on.
#[tactic(auto, unfolding(crate::specs::Reply::refusal_of))]
pub fn write_refusal(buf: &mut [u8], switch: u8, number: u8, ident: Option<u8>) -> usize
    ensures value { result ≡ laid_length 0 (refusal_of switch number ident) buf.old }
    ensures buf_after { buf.new ≡ laid 0 (refusal_of switch number ident) buf.old }
{
    let block = Block {
        letter: b'U',
        switch,
        number: u32::from(number),
        ident: ident.filter(|_| number >= WITH_IDENT),
    };
    block::write_block(buf, 0, block)
}
