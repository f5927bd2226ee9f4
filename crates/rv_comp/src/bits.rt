//! Bits of a halfword, by their numbers.
ghost use Rattle.std.specs.Prelude.{◌≡◌, ◌+◌, ◌<◌, ◌≤◌};
ghost use Rattle.rv_word.specs.Spelling.{bits};

/// The number that bits `high` to `low` make.
#[tactic(auto, using(crate::proofs::Ranges::masked))]
pub(crate) fn bits(halfword: u16, high: u32, low: u32) -> u16
    requires ordered { low ≤ high }
    requires inside { high < 16 }
    requires few { high < low + 15 }
    ensures { result ≡ bits halfword high low }
{
    halfword >> low & ((1 << (high + 1 - low)) - 1)
}
