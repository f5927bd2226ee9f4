//! The tables of the first look at a bundle: which 16-bit instructions compute into a register that
//! may be written, as most do, and the words of the pair that puts a register into the data region.
//! They hold what the reserved registers and the decoding of `rv_comp` imply: where those change,
//! so do these.
ghost use Rattle.std.specs.Prelude.{◌≡◌, List, true};
ghost use Rattle.std.specs.Bool.{OnTrue};
ghost use Rattle.rv_word.specs.declared.instr.Instr.{Instr};
ghost use Rattle.sfi_formats.specs.Formats.{has_stack};
ghost use Rattle.sfi_image.specs.declared.bundle.BundlePlace.{BundlePlace};
ghost use Rattle.sfi_rules.specs.Readings.{follows_data_pair};
ghost use Rattle.sfi_scan.specs.private.Blocks.{AreBefore, IsFreeHalf, near};

use crate::rules::STACK;
use rv_word::Reg;
use sfi_formats::{DATA_BASE_REGISTER, DATA_MASK_REGISTER};

/// Masks, by a halfword's bits 15:9 and 1:0. A halfword that shares a set bit with its mask is a
/// 16-bit instruction that computes into a register that isn't reserved: with mask 3 each is, since
/// its bits 1:0 aren't 00; with 8160 and 124 those whose immediate or register in these bits isn't
/// 0; with 0 none. Beside each line stand bits 15:11; its 16 entries go by bits 10:9, and then by
/// bits 1:0.
const COMPUTING: [u16; 512] = [
    8160, 3, 3, 0, 8160, 3, 3, 0, 8160, 3, 3, 0, 8160, 3, 3, 0, // 00000
    8160, 3, 3, 0, 8160, 3, 3, 0, 8160, 0, 0, 0, 8160, 3, 3, 0, // 00001
    8160, 3, 0, 0, 8160, 3, 0, 0, 8160, 3, 0, 0, 8160, 3, 0, 0, // 00010
    8160, 3, 0, 0, 8160, 3, 0, 0, 8160, 0, 0, 0, 8160, 3, 0, 0, // 00011
    0, 0, 0, 0, 0, 0, 0, 0, 0, 0, 0, 0, 0, 0, 0, 0, // 00100
    0, 0, 0, 0, 0, 0, 0, 0, 0, 0, 0, 0, 0, 0, 0, 0, // 00101
    0, 0, 0, 0, 0, 0, 0, 0, 0, 0, 0, 0, 0, 0, 0, 0, // 00110
    0, 0, 0, 0, 0, 0, 0, 0, 0, 0, 0, 0, 0, 0, 0, 0, // 00111
    0, 3, 0, 0, 0, 3, 0, 0, 0, 3, 0, 0, 0, 3, 0, 0, // 01000
    0, 3, 0, 0, 0, 3, 0, 0, 0, 0, 0, 0, 0, 3, 0, 0, // 01001
    0, 3, 0, 0, 0, 3, 0, 0, 0, 3, 0, 0, 0, 3, 0, 0, // 01010
    0, 3, 0, 0, 0, 3, 0, 0, 0, 0, 0, 0, 0, 3, 0, 0, // 01011
    0, 124, 0, 0, 0, 124, 0, 0, 0, 124, 0, 0, 0, 124, 0, 0, // 01100
    0, 124, 0, 0, 0, 124, 0, 0, 0, 0, 0, 0, 0, 124, 0, 0, // 01101
    0, 3, 0, 0, 0, 3, 0, 0, 0, 3, 0, 0, 0, 3, 0, 0, // 01110
    0, 3, 0, 0, 0, 3, 0, 0, 0, 0, 0, 0, 0, 3, 0, 0, // 01111
    0, 3, 124, 0, 0, 3, 124, 0, 0, 3, 124, 0, 0, 3, 124, 0, // 10000
    0, 3, 124, 0, 0, 3, 124, 0, 0, 3, 0, 0, 0, 3, 124, 0, // 10001
    0, 0, 124, 0, 0, 0, 124, 0, 0, 0, 124, 0, 0, 0, 124, 0, // 10010
    0, 3, 124, 0, 0, 3, 124, 0, 0, 0, 0, 0, 0, 0, 124, 0, // 10011
    0, 0, 0, 0, 0, 0, 0, 0, 0, 0, 0, 0, 0, 0, 0, 0, // 10100
    0, 0, 0, 0, 0, 0, 0, 0, 0, 0, 0, 0, 0, 0, 0, 0, // 10101
    0, 0, 0, 0, 0, 0, 0, 0, 0, 0, 0, 0, 0, 0, 0, 0, // 10110
    0, 0, 0, 0, 0, 0, 0, 0, 0, 0, 0, 0, 0, 0, 0, 0, // 10111
    0, 0, 0, 0, 0, 0, 0, 0, 0, 0, 0, 0, 0, 0, 0, 0, // 11000
    0, 0, 0, 0, 0, 0, 0, 0, 0, 0, 0, 0, 0, 0, 0, 0, // 11001
    0, 0, 0, 0, 0, 0, 0, 0, 0, 0, 0, 0, 0, 0, 0, 0, // 11010
    0, 0, 0, 0, 0, 0, 0, 0, 0, 0, 0, 0, 0, 0, 0, 0, // 11011
    0, 0, 0, 0, 0, 0, 0, 0, 0, 0, 0, 0, 0, 0, 0, 0, // 11100
    0, 0, 0, 0, 0, 0, 0, 0, 0, 0, 0, 0, 0, 0, 0, 0, // 11101
    0, 0, 0, 0, 0, 0, 0, 0, 0, 0, 0, 0, 0, 0, 0, 0, // 11110
    0, 0, 0, 0, 0, 0, 0, 0, 0, 0, 0, 0, 0, 0, 0, 0, // 11111
];

/// Whether the halfword is seen to compute into a register that is neither reserved nor a stack
/// pointer, so that it breaks no rule anywhere; false says nothing. `stack` says whether x2 is a
/// stack pointer: then no halfword with 2 in bits 11:7 is let pass.
#[inline(always)]
pub(crate) fn is_free_half(stack: bool, halfword: u16) -> bool
    ensures { (b : BundlePlace) → stack ≡ has_stack b.format →
        OnTrue result (IsFreeHalf b halfword) }
{
    let place = (halfword >> 9) as usize * 4 + (halfword & 0b11) as usize;
    if halfword & COMPUTING[place] == 0 {
        return false;
    }
    !stack || halfword >> 7 & 0b11111 != STACK as u16
}

/// Bits 19:15 of a word, which name its first operand.
const OPERAND: u32 = 0b11111 << 15;

/// The opcode of both words of a pair: of operations on two registers.
const OP: u32 = 0b011_0011;

// The word of `and target, x0, x27`; of `none` one that no word is whose operand bits are cleared.
macro_rules! masking {
    (none) => {
        u32::MAX
    };
    ($target:tt) => {
        (DATA_MASK_REGISTER as u32) << 20 | 0b111 << 12 | $target << 7 | OP
    };
}

// The word of `or target, target, x26`; of `none` 0, which is never compared.
macro_rules! placing {
    (none) => {
        0
    };
    ($target:tt) => {
        (DATA_BASE_REGISTER as u32) << 20 | $target << 15 | 0b110 << 12 | $target << 7 | OP
    };
}

macro_rules! by_register {
    ($word:ident, $($target:tt)*) => {
        [$($word!($target)),*]
    };
}

/// A data pair's first word without its operand, by the register; none of x0 and the reserved ones.
const MASKING: [u32; 32] = by_register!(
    masking, none 1 2 3 4 5 6 7 8 9 10 11 12 13 14 15 16 17 18 19 20 21 22 23
    none none none none 28 29 30 31
);
/// A data pair's second word, by the register.
const PLACING: [u32; 32] = by_register!(
    placing, none 1 2 3 4 5 6 7 8 9 10 11 12 13 14 15 16 17 18 19 20 21 22 23
    none none none none 28 29 30 31
);

/// Whether `first` and `second`, the words directly before an access, spell the data pair on its
/// base `target`, which is neither x0 nor reserved.
#[inline(always)]
pub(crate) fn are_data_pair(first: u32, second: u32, target: Reg) -> bool
    ensures { (earlier : List Instr) →
        AreBefore (record { first = first; second = second }) (near earlier) →
        OnTrue result (follows_data_pair target earlier ≡ true) }
{
    let place = target.number() as usize;
    if first & !OPERAND != MASKING[place] {
        return false;
    }
    second == PLACING[place]
}
