//! Words of the formats I, S, B, U and J; `None` where the immediate is one that its bits can't
//! hold: too large or too small, or an odd offset.
ghost use Rattle.std.specs.Prelude.{◌≡◌, ◌^◌, ◌<◌};
ghost use Rattle.std.specs.Option.{SomeIff};
ghost use Rattle.rv_word.specs.Spelling.{modulo};
ghost use Rattle.rv_word.specs.Spelling.{i_format, s_format, b_format, u_format, j_format};
ghost use Rattle.rv_word.specs.Spelling.{IsImm12, IsBranchOffset, IsJumpOffset};

use crate::bits::side_by_side;
use crate::immediate::{branch_offset_bits, imm12_bits, jump_offset_bits};
use crate::reg::Reg;
use crate::word_fields::WordFields;

/// The word of the I format, with an `imm` of -2048 to 2047.
pub(crate) fn i_word(imm: i32, rs1: Reg, funct3: u32, rd: Reg, opcode: u32) -> Option<u32>
    requires funct3_fits { funct3 < 8 }
    requires opcode_fits { opcode < 128 }
    ensures { SomeIff result (IsImm12 imm) (i_format (modulo 12 imm) rs1 funct3 rd opcode) }
{
    unsigned_i_word(imm12_bits(imm)?, rs1, funct3, rd, opcode)
}

/// The word of the I format, with an `imm` that has no sign, below 2^12.
#[tactic(auto, using(crate::proofs::Words::masks))]
pub(crate) fn unsigned_i_word(imm: u32, rs1: Reg, funct3: u32, rd: Reg, opcode: u32) -> Option<u32>
    requires funct3_fits { funct3 < 8 }
    requires opcode_fits { opcode < 128 }
    ensures { SomeIff result (imm < 2 ^ 12) (i_format imm rs1 funct3 rd opcode) }
{
    if imm >= 1 << 12 {
        return None;
    }
    let fields = WordFields {
        opcode,
        rd: rd.field(),
        funct3,
        rs1: rs1.field(),
        rs2: imm & 0b11111,
        funct7: imm >> 5,
    };
    Some(fields.word())
}

/// The word of the S format, with an `imm` of -2048 to 2047.
#[tactic(auto, using(crate::proofs::Words::masks))]
pub(crate) fn s_word(imm: i32, rs2: Reg, rs1: Reg, funct3: u32, opcode: u32) -> Option<u32>
    requires funct3_fits { funct3 < 8 }
    requires opcode_fits { opcode < 128 }
    ensures { SomeIff result (IsImm12 imm) (s_format (modulo 12 imm) rs2 rs1 funct3 opcode) }
{
    let imm = imm12_bits(imm)?;
    let fields = WordFields {
        opcode,
        rd: imm & 0b11111,
        funct3,
        rs1: rs1.field(),
        rs2: rs2.field(),
        funct7: imm >> 5,
    };
    Some(fields.word())
}

/// The word of the B format; `offset` is in bytes and even.
#[tactic(auto, using(crate::proofs::Words::masks))]
pub(crate) fn b_word(offset: i32, rs2: Reg, rs1: Reg, funct3: u32, opcode: u32) -> Option<u32>
    requires funct3_fits { funct3 < 8 }
    requires opcode_fits { opcode < 128 }
    ensures { SomeIff result
        (IsBranchOffset offset) (b_format (modulo 13 offset) rs2 rs1 funct3 opcode) }
{
    let imm = branch_offset_bits(offset)?;
    let fields = WordFields {
        opcode,
        rd: side_by_side((imm >> 1) & 0b1111, 1, (imm >> 11) & 1),
        funct3,
        rs1: rs1.field(),
        rs2: rs2.field(),
        funct7: side_by_side(imm >> 12, 6, (imm >> 5) & 0b111111),
    };
    Some(fields.word())
}

/// The word of the U format, where `imm` is the number in bits 31:12, below 2^20.
#[tactic(auto, using(crate::proofs::Words::u_or))]
pub(crate) fn u_word(imm: u32, rd: Reg, opcode: u32) -> Option<u32>
    requires { opcode < 128 }
    ensures { SomeIff result (imm < 2 ^ 20) (u_format imm rd opcode) }
{
    if imm < 1 << 20 {
        Some(imm << 12 | rd.field() << 7 | opcode)
    } else {
        None
    }
}

/// The word of the J format; `offset` is in bytes and even.
#[tactic(auto, using(crate::proofs::Words::masks))]
pub(crate) fn j_word(offset: i32, rd: Reg, opcode: u32) -> Option<u32>
    requires { opcode < 128 }
    ensures { SomeIff result (IsJumpOffset offset) (j_format (modulo 21 offset) rd opcode) }
{
    let imm = jump_offset_bits(offset)?;
    let high = side_by_side(imm >> 20, 10, (imm >> 1) & 0b1111111111);
    let low = side_by_side((imm >> 11) & 1, 8, (imm >> 12) & 0b11111111);
    u_word(side_by_side(high, 9, low), rd, opcode)
}
