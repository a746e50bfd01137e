// Five distances compared, for number 14 and for the master picker (paper 01, "Turned away", "Host end and program").
// Every function is total: it has no premise and states its result for every input. Assumes nothing.
ghost use Rattle.std.specs.Prelude.{◌≡◌};
ghost use Rattle.line.specs.Distances.{some_longer};

// Whether some axis is longer than this length.
pub fn some_longer(distances: [u32; 5], length: u32) -> bool
    ensures { result ≡ some_longer distances length }
{
    distances.iter().any(|&d| length < d)
}
