// A command's text and its name, and the names of the MD5230D (source document 001, chapter 2 and the table of chapter
// 3). Assumes nothing.
ghost use Rattle.std.specs.Prelude.{◌≡◌};
ghost use Rattle.station.specs.Forms.{text_of, name_of, is_ours};
ghost use Rattle.station.specs.Names.{is_listed};

use text::{SPACE, parts};

// [NULL], which ends a command.
pub(crate) const NULL: u8 = 0;

// What stands before the first 00, or all.
pub(crate) fn text_of(command: &[u8]) -> &[u8]
    ensures { result.now ≡ text_of command.now }
{
    parts::part(command, NULL, 0)
}

// The name runs to the first space or 00.
pub(crate) fn name_of(command: &[u8]) -> &[u8]
    ensures { result.now ≡ name_of command.now }
{
    parts::part(text_of(command), SPACE, 0)
}

// The names, in that table's order.
const NAMES: [&[u8]; 39] = [
    b"PRG", b"PSP", b"EDP", b"PRS", b"PSE", b"ABS", b"ABB", b"INC", b"ICB", b"ABA", b"ICA", b"CNT",
    b"HOM", b"HMB", b"SST", b"IST", b"LNI", b"CWI", b"CCW", b"SPD", b"HOF", b"HON", b"SLP", b"SRP",
    b"SAP", b"SPG", b"RLP", b"RRP", b"ROT", b"RIN", b"RDR", b"RPE", b"RVR", b"OUT", b"OTP", b"SSP",
    b"PST", b"RST", b"ERS",
];

// Whether a name is one of them.
pub(crate) fn is_listed(name: &[u8]) -> bool
    ensures { result ≡ is_listed name.now }
{
    NAMES.contains(&name)
}

// The four that we convert.
const OURS: [&[u8]; 4] = [b"SPD", b"INC", b"LNI", b"SST"];

// Whether a name is one of these.
pub(crate) fn is_ours(name: &[u8]) -> bool
    ensures { result ≡ is_ours name.now }
{
    OURS.contains(&name)
}
