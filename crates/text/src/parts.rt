// Rows of bytes taken apart at a mark, as a line of words at its spaces, and compared. Assumes nothing.
ghost use Rattle.std.specs.Prelude.{◌≡◌, drop};
ghost use Rattle.text.specs.Parts.{part, parts, same, common};

// The part at place k, from 0 on; no byte where there are fewer parts.
pub fn part(bytes: &[u8], mark: u8, k: usize) -> &[u8]
    ensures { result.now ≡ part mark k bytes.now }
{
    bytes.split(|&c| c == mark).nth(k).unwrap_or(&[])
}

// How many parts there are: one more than marks.
#[tactic(auto, using(crate::proofs::PartLaws::count_marks))]
pub fn parts(bytes: &[u8], mark: u8) -> usize
    ensures { result ≡ parts mark bytes.now }
{
    bytes.iter().filter(|&&c| c == mark).count() + 1
}

// Whether two rows of bytes are the same.
// Callers with a byte string ask this: `==` would want two slices.
pub fn same(a: &[u8], b: &[u8]) -> bool
    ensures { result ≡ same a.now b.now }
{
    a == b
}

// All but the first n bytes; none where there are fewer.
pub fn rest(bytes: &[u8], n: usize) -> &[u8]
    ensures { result.now ≡ drop n bytes.now }
{
    bytes.get(n..).unwrap_or(&[])
}

// How many first letters two rows have in common, capitals and small letters alike.
pub fn common(a: &[u8], b: &[u8]) -> usize
    ensures { result ≡ common a.now b.now }
{
    a.iter()
        .zip(b)
        .take_while(|(x, y)| x.eq_ignore_ascii_case(y))
        .count()
}
