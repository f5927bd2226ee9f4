//! The accesses that may follow a step of a data register, in code in words, in the place of its
//! mask. A step of d is `addi d, d, imm`.
ghost use Rattle.std.specs.Prelude.{◌≡◌};
ghost use Rattle.sfi_pairs.specs.Pairs.{is_small, uses};

use rv_word::Instr;

const SLACK: i32 = sfi_formats::SLACK as i32;

/// Whether the offset is at most 1020 bytes, up or down.
#[inline]
fn is_small(imm: i32) -> bool
    ensures { result ≡ is_small imm }
{
    -SLACK <= imm && imm <= SLACK
}

/// Whether the instruction is a load, other than into x0, or a store on register `d` with an offset
/// of at most 1020, up or down. A load into x0 is none, as a processor may drop it, and then it
/// doesn't trap in a guard zone.
#[inline]
pub fn is_use(d: u8, instr: &Instr) -> bool
    ensures { result ≡ uses d instr.now }
{
    match *instr {
        Instr::Load { rd, rs1, imm, .. } => {
            rs1.number() == d && is_small(imm) && rd.number() != 0
        }
        Instr::Store { rs1, imm, .. } => rs1.number() == d && is_small(imm),
        _ => false,
    }
}
