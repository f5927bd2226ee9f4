//! What the form of a halfword does (an `Outline`), without making the form. The cases are those of
//! `decode16`, with which it is proved to agree.
ghost use Rattle.std.specs.Prelude.{◌≡◌, ◌<◌, IfSome, Some};
ghost use Rattle.rv_word.specs.declared.instr.Instr.{Instr};
ghost use Rattle.rv_word.specs.Outlines.{outline};
ghost use Rattle.rv_comp.specs.Fronts.{IsShortSpelling, IsHalfwordThat};
ghost use Rattle.rv_comp.specs.mirror.{row_of, jump, jump_or_stop, outlined};

use super::fields::{branch_offset, jump_offset, long_reg, short_reg};
use crate::bits::bits;
use rv_word::{Outline, Reg};

/// The number of five bits by which `outline_halfword` finds its case: bits 15:13 of `h`, and below
/// them bits 1:0.
#[tactic(auto, unfolding(crate::specs::mirror::row_of))]
fn row_of(h: u16) -> u16
    ensures { result ≡ row_of h }
{
    4 * bits(h, 15, 13) + bits(h, 1, 0)
}

/// The outline of C.JR, C.JALR, C.MV or C.ADD, which the caller knows `h` to be.
#[tactic(auto, unfolding(crate::specs::mirror::jump))]
#[inline(always)]
fn jump(h: u16) -> Outline
    ensures { result ≡ jump h }
{
    let first = long_reg(h, 7);
    if bits(h, 6, 2) == 0 {
        Outline::JumpsTo {
            rd: Reg::numbered(bits(h, 12, 12) as u8),
            base: first,
            imm: 0,
        }
    } else {
        Outline::Computes { rd: first }
    }
}

/// The outline of C.JR, C.JALR, C.MV, C.ADD or C.EBREAK, where the row is theirs; `None` where bits
/// 12:2 are 0.
#[tactic(auto, unfolding(crate::specs::mirror::jump_or_stop))]
#[inline(always)]
fn jump_or_stop(h: u16) -> Option<Outline>
    ensures { result ≡ jump_or_stop h }
{
    if bits(h, 11, 2) != 0 {
        Some(jump(h))
    } else if bits(h, 12, 12) != 0 {
        Some(Outline::Stops)
    } else {
        None
    }
}

/// The outline of a halfword's form, by its quadrant and top three bits; none where it has no form.
#[tactic(auto, unfolding(crate::specs::mirror::outlined))]
#[inline(always)]
fn outline_halfword(h: u16) -> Option<Outline>
    ensures { result ≡ outlined h }
{
    match row_of(h) {
        0b00000 if bits(h, 12, 5) != 0 => Some(Outline::Computes {
            rd: short_reg(h, 2),
        }),
        0b01000 => Some(Outline::Loads {
            rd: short_reg(h, 2),
            base: short_reg(h, 7),
        }),
        0b11000 => Some(Outline::Stores {
            base: short_reg(h, 7),
        }),
        0b00001 | 0b01001 => Some(Outline::Computes { rd: long_reg(h, 7) }),
        0b01101 if bits(h, 6, 2) != 0 || bits(h, 12, 12) != 0 => {
            Some(Outline::Computes { rd: long_reg(h, 7) })
        }
        0b10001 if bits(h, 12, 12) == 0 || bits(h, 11, 10) == 2 => Some(Outline::Computes {
            rd: short_reg(h, 7),
        }),
        0b00101 => Some(Outline::Jumps {
            rd: Reg::numbered(1),
            offset: jump_offset(h),
        }),
        0b10101 => Some(Outline::Jumps {
            rd: Reg::numbered(0),
            offset: jump_offset(h),
        }),
        0b11001 | 0b11101 => Some(Outline::Branches {
            offset: branch_offset(h),
        }),
        0b00010 if bits(h, 12, 12) == 0 => Some(Outline::Computes { rd: long_reg(h, 7) }),
        0b01010 if bits(h, 11, 7) != 0 => Some(Outline::Loads {
            rd: long_reg(h, 7),
            base: Reg::numbered(2),
        }),
        0b10010 => jump_or_stop(h),
        0b11010 => Some(Outline::Stores {
            base: Reg::numbered(2),
        }),
        _ => None,
    }
}

/// What the instruction does that the form of the halfword expands to;
/// `None` where no row gives it.
#[tactic(auto, using(crate::proofs::Exact::outlined_found, crate::proofs::Exact::outlined_only))]
#[inline(always)]
pub fn outline16(h: u16) -> Option<Outline>
    ensures found { IfSome result (IsHalfwordThat h) }
    ensures only { (i : Instr) → IsShortSpelling h i → result ≡ Some (outline i) }
{
    outline_halfword(h)
}
