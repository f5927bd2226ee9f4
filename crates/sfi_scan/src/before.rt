//! The instructions directly before a place, and the masked pairs that they may be.
ghost use Rattle.std.specs.Prelude.{◌≡◌, ◌==◌, ◌&&◌, not, List, [], ◌∷◌};
ghost use Rattle.rv_word.specs.declared.instr.Instr.{Instr};
ghost use Rattle.sfi_pairs.specs.Pairs.{is_masking, is_placing};
ghost use Rattle.sfi_formats.specs.Formats.{is_reserved};
ghost use Rattle.sfi_rules.specs.Readings.{follows_pair};
ghost use Rattle.sfi_scan.specs.private.Blocks.{near};

use rv_word::{Instr, Reg, RegOp};
use sfi_formats::{CODE_BASE_REGISTER, CODE_MASK_REGISTER, DATA_BASE_REGISTER, DATA_MASK_REGISTER};
use sfi_pairs::is_reserved;

/// The two instructions directly before a place in its bundle, as far as there are: `second` is the
/// nearer one, `first` the one before it. `specs/private/Blocks` has it as `near`.
#[derive(Clone, Copy)]
pub(crate) struct Before {
    pub(crate) first: Option<Instr>,
    pub(crate) second: Option<Instr>,
}

/// Which reserved registers a masked pair uses, by number. Its two instructions,
/// `and target, a, mask` and `or target, target, base`, put any number into the region of that mask
/// and base.
#[derive(Clone, Copy)]
pub(crate) struct Pair {
    pub(crate) mask: u8,
    pub(crate) base: u8,
}

/// The pair that puts the target into the data: `and target, a, x27`, `or target, target, x26`.
pub(crate) const DATA: Pair = Pair {
    mask: DATA_MASK_REGISTER,
    base: DATA_BASE_REGISTER,
};
/// The pair that puts the target at a bundle start of the code: `and target, a, x25`,
/// `or target, target, x24`.
pub(crate) const CODE: Pair = Pair {
    mask: CODE_MASK_REGISTER,
    base: CODE_BASE_REGISTER,
};

/// Whether a pair on this register counts: it is neither x0 nor reserved.
pub(crate) fn may_be_target(reg: Reg) -> bool
    ensures { result ≡ (not (reg == 0) && not (is_reserved reg)) }
{
    reg.number() != 0 && !is_reserved(reg)
}

/// Whether the instruction is `and target, a, mask`, with any register `a`.
pub(crate) fn is_masking(mask: u8, target: u8, instr: &Instr) -> bool
    ensures { result ≡ is_masking mask target instr.now }
{
    match *instr {
        Instr::Op {
            op: RegOp::And,
            rd,
            rs2,
            ..
        } => rd.number() == target && rs2.number() == mask,
        _ => false,
    }
}

/// Whether the instruction is `or target, target, base`.
pub(crate) fn is_placing(base: u8, target: u8, instr: &Instr) -> bool
    ensures { result ≡ is_placing base target instr.now }
{
    match *instr {
        Instr::Op {
            op: RegOp::Or,
            rd,
            rs1,
            rs2,
        } => { rd.number() == target && rs1.number() == target && rs2.number() == base }
        _ => false,
    }
}

impl Before {
    /// What comes before a bundle's first instruction: none.
    pub(crate) fn nothing() -> Self
        ensures { result ≡ near [] }
    {
        Before {
            first: None,
            second: None,
        }
    }

    /// What comes before the instruction after `instr`, if `self` comes before `instr`.
    pub(crate) fn and_then(self, instr: Instr) -> Self
        ensures { (earlier : List Instr) → near earlier ≡ self →
            result ≡ near (instr ∷ earlier) }
    {
        Before {
            first: self.second,
            second: Some(instr),
        }
    }

    /// Whether the two instructions are `pair` with `target`, which is neither x0 nor reserved. So
    /// `target` lies in that region when control comes to the place, which no jump enters.
    pub(crate) fn is_pair(&self, pair: Pair, target: Reg) -> bool
        ensures { (earlier : List Instr) → near earlier ≡ self.now →
            result ≡ follows_pair pair.mask pair.base target earlier }
    {
        match (&self.first, &self.second) {
            (Some(first), Some(second)) => {
                is_masking(pair.mask, target.number(), first)
                    && is_placing(pair.base, target.number(), second)
                    && may_be_target(target)
            }
            (None, _) | (_, None) => false,
        }
    }
}
