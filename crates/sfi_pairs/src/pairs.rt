//! The masked pairs, as the expansions write them.
ghost use Rattle.std.specs.Prelude.{◌≡◌};
ghost use Rattle.sfi_pairs.specs.Pairs.{pair, data_pair, code_pair};

use rv_word::{Instr, Reg, RegOp};
use sfi_formats::{CODE_BASE_REGISTER, CODE_MASK_REGISTER, DATA_BASE_REGISTER, DATA_MASK_REGISTER};

/// The pair `and target, a, mask`, `or target, target, base`, which puts `target` into the region
/// of the two registers `mask` and `base`, at the offset of `a`.
#[inline]
fn masked_pair(mask: Reg, base: Reg, target: Reg, a: Reg) -> [Instr; 2]
    ensures { result ≡ pair mask base target a }
{
    [
        Instr::Op {
            op: RegOp::And,
            rd: target,
            rs1: a,
            rs2: mask,
        },
        Instr::Op {
            op: RegOp::Or,
            rd: target,
            rs1: target,
            rs2: base,
        },
    ]
}

/// The pair after which the target is an address of the data region, with the offset of `a`.
#[inline]
pub fn data_pair(target: Reg, a: Reg) -> [Instr; 2]
    ensures { result ≡ data_pair target a }
{
    let mask = Reg::numbered(DATA_MASK_REGISTER);
    masked_pair(mask, Reg::numbered(DATA_BASE_REGISTER), target, a)
}

/// The pair after which the target is a bundle start of the code region, with the offset of `a`'s
/// bundle, or in code in words a word's start, with the offset of `a`'s word.
#[inline]
pub fn code_pair(target: Reg, a: Reg) -> [Instr; 2]
    ensures { result ≡ code_pair target a }
{
    let mask = Reg::numbered(CODE_MASK_REGISTER);
    masked_pair(mask, Reg::numbered(CODE_BASE_REGISTER), target, a)
}
