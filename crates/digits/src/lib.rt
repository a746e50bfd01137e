// Hexadecimal digits: one character to and from its value, six to and from a 24-bit number.
// Every public function is total: it has no premise and states its result for every input. Assumes nothing.
#![tactic(auto)]

ghost use Rattle.std.specs.Prelude.{◌≡◌, ◌<◌};
ghost use Rattle.digits.specs.Digits.{five_digits, digit_of, capital_of, six_of, join_of, number_of};
ghost use Rattle.digits.specs.Characters.{OneToOne};

// What four, five and six digits count to.
pub const FOUR_DIGITS: u32 = 65536;

pub const FIVE_DIGITS: u32 = 1048576;

pub const SIX_DIGITS: u32 = 16777216;
// The top bit of five digits: a distance's and a travel's minus, and what a held position has added.
pub const TOP_BIT: u32 = 524288;
// Byte 0D, which ends a line and a block.
pub const END: u8 = 13;

// A hexadecimal digit with its value. The case is told beside the value: data digits ignore it, and an identification
// is returned as the very character.
#[derive(Clone, Copy)]
pub enum Digit {
    // 0-9 or A-F.
    Capital(u8),
    // a-f.
    Small(u8),
}

// What a row of digits is as a number, and whether some letter is small.
#[derive(Clone, Copy)]
pub struct Number {
    pub value: u32,
    pub small: bool,
}

// The character as a digit; none if it is not 0-9, A-F or a-f. That value and case stand for this very character and no
// other is promised here.
#[tactic(auto, using(crate::proofs::CharacterLaws::one_to_one))]
pub fn read_digit(c: u8) -> Option<Digit>
    ensures value { result ≡ digit_of c }
    ensures one_to_one { OneToOne }
{
    match c {
        b'0'..=b'9' => Some(Digit::Capital(c - b'0')),
        b'A'..=b'F' => Some(Digit::Capital(c - b'A' + 10)),
        b'a'..=b'f' => Some(Digit::Small(c - b'a' + 10)),
        _ => None,
    }
}

// The capital digit of the low four bits.
// By hand: `write!` would give a Result that never fails.
pub fn capital(v: u8) -> u8
    ensures { result ≡ capital_of v }
{
    let low = v % 16;
    if low < 10 {
        return 48 + low;
    }
    55 + low
}

// The six capital digits of the low 24 bits, the highest first.
pub fn six_capitals(n: u32) -> [u8; 6]
    ensures { result ≡ six_of n }
{
    [
        capital((n / FIVE_DIGITS % 16) as u8),
        capital((n / FOUR_DIGITS % 16) as u8),
        capital((n / 4096 % 16) as u8),
        capital((n / 256 % 16) as u8),
        capital((n / 16 % 16) as u8),
        capital((n % 16) as u8),
    ]
}

// The number read so far with one digit more.
fn join(prefix: Number, c: u8) -> Option<Number>
    requires { prefix.value < five_digits }
    ensures { result ≡ join_of (Some prefix) c }
{
    let number = match read_digit(c)? {
        Digit::Capital(v) => Number {
            value: prefix.value * 16 + v as u32,
            small: prefix.small,
        },
        Digit::Small(v) => Number {
            value: prefix.value * 16 + v as u32,
            small: true,
        },
    };
    Some(number)
}

// Six characters as a number, the highest digit first; none where some character is no digit.
pub fn read_six(cs: [u8; 6]) -> Option<Number>
    ensures { result ≡ number_of cs }
{
    let mut number = Number {
        value: 0,
        small: false,
    };
    for c in cs {
        number = join(number, c)?;
    }
    Some(number)
}
