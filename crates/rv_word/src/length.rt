//! How long an instruction is.
ghost use Rattle.std.specs.Prelude.{◌≡◌};
ghost use Rattle.rv_word.specs.Spelling.{length_of};

/// The length of an instruction, which its first halfword determines.
#[derive(Clone, Copy, PartialEq, Eq, Debug)]
pub enum Length {
    /// 16 bits.
    Short,
    /// 32 bits.
    Wide,
    /// More than 32 bits.
    Longer,
}

/// The length of the instruction that begins with this halfword.
#[tactic(auto, using(crate::proofs::Words::masks))]
pub fn size_of_first(first: u16) -> Length
    ensures { result ≡ length_of first }
{
    if first & 0b11 != 0b11 {
        Length::Short
    } else if (first >> 2) & 0b111 != 0b111 {
        Length::Wide
    } else {
        Length::Longer
    }
}
