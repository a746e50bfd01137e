// Reply blocks (paper 01, "Lines"; chapters 7 and 9), written in a lent buffer: one at a place, twelve in a row, and
// the front part of the buffer that holds a reply.
// Every public function is total: it has no premise, and states its result and the whole buffer for every input.
// Assumes nothing.
#![tactic(auto)]

ghost use Rattle.std.specs.Prelude.{◌≡◌, ◌+◌, ◌≤◌, length};
ghost use Rattle.block.specs.Block.{block_of, row_of, laid, laid_length, over, put, front_of, length_with};

// The least reply buffer: room for twelve blocks with an identification.
pub const REPLY_ROOM: usize = 120;

// What a block says: a letter, a switch (low four bits), a number (low 24 bits), and the identification if given.
#[derive(Drop)]
pub struct Block {
    pub letter: u8,
    pub switch: u8,
    pub number: u32,
    pub ident: Option<u8>,
}

// How long a block is: one byte more with an identification.
fn block_length(ident: Option<u8>) -> usize
    ensures { result ≡ length_with ident }
{
    match ident {
        None => 9,
        Some(_) => 10,
    }
}

// The block at the front of a buffer that has room for it.
// A store for each digit: by `copy_from_slice` the proof did not close.
fn write_front(buf: &mut [u8], block: Block) -> usize
    requires { length (block_of block) ≤ length buf.old }
    ensures { (result ≡ length (block_of block)) × (buf.new ≡ over (block_of block) buf.old) }
{
    let d = digits::six_capitals(block.number);
    buf[0] = block.letter;
    buf[1] = digits::capital(block.switch);
    buf[2] = d[0];
    buf[3] = d[1];
    buf[4] = d[2];
    buf[5] = d[3];
    buf[6] = d[4];
    buf[7] = d[5];
    match block.ident {
        None => {
            buf[8] = digits::END;
            9
        }
        Some(c) => {
            buf[8] = c;
            buf[9] = digits::END;
            10
        }
    }
}

// The block at a place where it has room.
fn write_at(buf: &mut [u8], at: usize, block: Block) -> usize
    requires { at + length (block_of block) ≤ length buf.old }
    ensures { (result ≡ length (block_of block)) × (buf.new ≡ put at (block_of block) buf.old) }
{
    write_front(&mut buf[at..], block)
}

// The block at the place `at`, and the length written: nothing and 0 where it has no room there.
// The test makes no sum of `at`, so that an `at` near 2^64 is answered too.
// 0 and no Option: it is a length, and callers hand it on as it is.
pub fn write_block(buf: &mut [u8], at: usize, block: Block) -> usize
    ensures value { result ≡ laid_length at (block_of block) buf.old }
    ensures buf_after { buf.new ≡ laid at (block_of block) buf.old }
{
    let need = block_length(block.ident);
    if buf.len() < need || buf.len() - need < at {
        return 0;
    }
    write_at(buf, at, block)
}

// Twelve blocks in a row at the front (q 8), and the length written: nothing and 0 where they have no room. The letters
// are one constant and the numbers are made anew, so that pairs would be put together only to be taken apart here.
pub fn write_twelve(
    buf: &mut [u8],
    letters: [u8; 12],
    numbers: [u32; 12],
    switch: u8,
    ident: Option<u8>,
) -> usize
    ensures value { result ≡ laid_length 0 (row_of 12 letters numbers switch ident) buf.old }
    ensures buf_after { buf.new ≡ laid 0 (row_of 12 letters numbers switch ident) buf.old }
{
    if buf.len() < 12 * block_length(ident) {
        return 0;
    }
    let mut at = 0;
    for k in 0..12 {
        let block = Block {
            letter: letters[k],
            switch,
            number: numbers[k],
            ident,
        };
        at += write_at(buf, at, block);
    }
    at
}

// The front part of the buffer that a reply of the length `n` fills: empty for a length past the end.
pub fn front(buf: &[u8], n: usize) -> &[u8]
    ensures { result.now ≡ front_of buf.now n }
{
    buf.get(..n).unwrap_or(&[])
}
