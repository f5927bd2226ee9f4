//! A word cut at the borders of the R format, and the immediates that its fields make.
ghost use Rattle.std.specs.Prelude.{◌≡◌, ◌^◌, ◌<◌};
ghost use Rattle.rv_word.specs.Spelling.{modulo};
ghost use Rattle.rv_word.specs.Spelling.{i_format, s_format, b_format, u_format, j_format};
ghost use Rattle.rv_word.specs.private.{word_of, Fits};
ghost use Rattle.rv_word.specs.Spelling.{IsImm12, IsBranchOffset, IsJumpOffset};

use crate::bits::side_by_side;
use crate::immediate::{signed12, signed13, signed21};

/// A word cut at the borders of the R format.
#[derive(Clone, Copy)]
pub(crate) struct WordFields {
    pub(crate) opcode: u32,
    pub(crate) rd: u32,
    pub(crate) funct3: u32,
    pub(crate) rs1: u32,
    pub(crate) rs2: u32,
    pub(crate) funct7: u32,
}

impl WordFields {
    /// The fields of the word.
    #[tactic(auto, using(crate::proofs::Words::masks))]
    pub(crate) fn from_word(word: u32) -> Self
        ensures sum { word ≡ word_of result }
        ensures fits { Fits result }
    {
        WordFields {
            opcode: word & 0b1111111,
            rd: (word >> 7) & 0b11111,
            funct3: (word >> 12) & 0b111,
            rs1: (word >> 15) & 0b11111,
            rs2: (word >> 20) & 0b11111,
            funct7: word >> 25,
        }
    }

    /// The word that the fields make.
    #[tactic(auto, using(crate::proofs::Words::r_or))]
    pub(crate) fn word(self) -> u32
        requires { Fits self }
        ensures { result ≡ word_of self }
    {
        let (funct7, rs2, rs1) = (self.funct7 << 25, self.rs2 << 20, self.rs1 << 15);
        funct7 | rs2 | rs1 | self.funct3 << 12 | self.rd << 7 | self.opcode
    }

    /// The number in bits 31:20: imm of the I format, without its sign.
    pub(crate) fn i_bits(self) -> u32
        requires { Fits self }
        ensures fits { result < 2 ^ 12 }
        ensures spelled { i_format result self.rs1 self.funct3 self.rd self.opcode ≡ word_of self }
    {
        side_by_side(self.funct7, 5, self.rs2)
    }

    /// The number in bits 31:12: imm of the U format.
    pub(crate) fn upper_bits(self) -> u32
        requires { Fits self }
        ensures fits { result < 2 ^ 20 }
        ensures spelled { u_format result self.rd self.opcode ≡ word_of self }
    {
        let high = side_by_side(self.funct7, 5, self.rs2);
        side_by_side(side_by_side(high, 5, self.rs1), 3, self.funct3)
    }

    /// imm of the I format, signed.
    pub(crate) fn i_imm(self) -> i32
        requires { Fits self }
        ensures range { IsImm12 result }
        ensures spelled { i_format (modulo 12 result) self.rs1 self.funct3 self.rd self.opcode
            ≡ word_of self }
    {
        signed12(self.i_bits())
    }

    /// imm of the S format, signed.
    pub(crate) fn s_imm(self) -> i32
        requires { Fits self }
        ensures range { IsImm12 result }
        ensures spelled { s_format (modulo 12 result) self.rs2 self.rs1 self.funct3 self.opcode
            ≡ word_of self }
    {
        signed12(side_by_side(self.funct7, 5, self.rd))
    }

    /// imm of the B format: an even offset in bytes.
    #[tactic(auto, using(crate::proofs::Words::masks))]
    pub(crate) fn b_offset(self) -> i32
        requires { Fits self }
        ensures range { IsBranchOffset result }
        ensures spelled { b_format (modulo 13 result) self.rs2 self.rs1 self.funct3 self.opcode
            ≡ word_of self }
    {
        let bits_12_11 = side_by_side(self.funct7 >> 6, 1, self.rd & 1);
        let bits_12_5 = side_by_side(bits_12_11, 6, self.funct7 & 0b111111);
        let bits_12_1 = side_by_side(bits_12_5, 4, self.rd >> 1);
        signed13(bits_12_1 << 1)
    }

    /// imm of the J format: an even offset in bytes.
    #[tactic(auto, using(crate::proofs::Words::masks))]
    pub(crate) fn j_offset(self) -> i32
        requires { Fits self }
        ensures range { IsJumpOffset result }
        ensures spelled { j_format (modulo 21 result) self.rd self.opcode ≡ word_of self }
    {
        let bits_20_15 = side_by_side(self.funct7 >> 6, 5, self.rs1);
        let bits_20_12 = side_by_side(bits_20_15, 3, self.funct3);
        let bits_20_11 = side_by_side(bits_20_12, 1, self.rs2 & 1);
        let bits_20_5 = side_by_side(bits_20_11, 6, self.funct7 & 0b111111);
        let bits_20_1 = side_by_side(bits_20_5, 4, self.rs2 >> 1);
        signed21(bits_20_1 << 1)
    }
}
