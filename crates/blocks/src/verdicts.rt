// The verdict on a file, in numbers.
ghost use Rattle.std.specs.Prelude.{◌≡◌};
ghost use Rattle.blocks.specs.Verdicts.{refusal_of, place_of};

use super::{Fault, Verdict};

// The number of the refusal; 0 where the file loads.
pub fn refusal(verdict: Verdict) -> u8
    ensures { result ≡ refusal_of verdict }
{
    match verdict {
        Ok(()) => 0,
        Err(Fault::Length) => 1,
        Err(Fault::Check(_)) => 2,
        Err(Fault::Block(_)) => 3,
        Err(Fault::Record(_)) => 4,
        Err(Fault::Across) => 5,
    }
}

// The block that the refusal names.
pub fn place(verdict: Verdict) -> usize
    ensures { result ≡ place_of verdict }
{
    match verdict {
        Ok(()) | Err(Fault::Length | Fault::Across) => 0,
        Err(Fault::Check(b) | Fault::Block(b) | Fault::Record(b)) => b,
    }
}
