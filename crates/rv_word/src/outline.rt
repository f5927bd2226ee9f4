//! Outlines: what an instruction does, without the values that it does it with.
ghost use Rattle.std.specs.Prelude.{◌≡◌, IfSome, IfNone, Some};
ghost use Rattle.rv_word.specs.declared.instr.Instr.{Instr};
ghost use Rattle.std.specs.Option.{option_map};
ghost use Rattle.rv_word.specs.Outlines.{outline, IsWordThat};
ghost use Rattle.rv_word.specs.private.{word_of, Fits, SpellsNone};
ghost use Rattle.rv_word.specs.Spelling.{IsWordOf};

use crate::instr::Instr;
use crate::opcode;
use crate::reg::Reg;
use crate::word_fields::WordFields;

/// What an instruction does, without the values that it does it with: whether it computes, accesses
/// memory or jumps, the register that it writes, the base of an access, and where a jump goes. It
/// leaves out which computation it is, the other operands, and the offset and width of an access.
#[derive(Clone, Copy, PartialEq, Eq)]
pub enum Outline {
    /// Computes into `rd`: no memory, no jump.
    Computes { rd: Reg },
    /// Loads into `rd` from an address near that in `base`.
    Loads { rd: Reg, base: Reg },
    /// Stores at an address near that in `base`.
    Stores { base: Reg },
    /// Jumps by `offset` bytes, or runs on.
    Branches { offset: i32 },
    /// Jumps by `offset` bytes, and links `rd`.
    Jumps { rd: Reg, offset: i32 },
    /// Jumps to the address in `base` plus `imm`, and links `rd`.
    JumpsTo { rd: Reg, base: Reg, imm: i32 },
    /// Orders accesses: a fence.
    Orders,
    /// Calls the environment: an `ecall`.
    Calls,
    /// Stops for the debugger: an `ebreak`.
    Stops,
}

/// The outline of the instruction.
pub fn outline_of(instr: Instr) -> Outline
    ensures { result ≡ outline instr }
{
    match instr {
        Instr::Op { rd, .. }
        | Instr::OpImm { rd, .. }
        | Instr::Lui { rd, .. }
        | Instr::Auipc { rd, .. } => Outline::Computes { rd },
        Instr::Load { rd, rs1, .. } => Outline::Loads { rd, base: rs1 },
        Instr::Store { rs1, .. } => Outline::Stores { base: rs1 },
        Instr::Branch { offset, .. } => Outline::Branches { offset },
        Instr::Jal { rd, offset } => Outline::Jumps { rd, offset },
        Instr::Jalr { rd, rs1, imm } => Outline::JumpsTo { rd, base: rs1, imm },
        Instr::Fence { .. } => Outline::Orders,
        Instr::Ecall => Outline::Calls,
        Instr::Ebreak => Outline::Stops,
    }
}

/// The outline of the instruction, if there is an instruction.
fn outline_of_some(instr: Option<Instr>) -> Option<Outline>
    ensures { result ≡ option_map outline instr }
{
    match instr {
        Some(instr) => Some(outline_of(instr)),
        None => None,
    }
}

#[tactic(auto, using(crate::proofs::Outlines::outline_found, crate::proofs::Outlines::outline_none), unfolding(crate::specs::Spelling::spelling, crate::specs::Spelling::InRange))]
impl WordFields {
    /// The outline of the instruction that the fields spell; `None` where they spell none. It has a
    /// case for each opcode, as `to_instr` has, so that what an outline leaves out is never made
    /// once all is inlined.
    #[inline(always)]
    fn outline(self) -> Option<Outline>
        requires { Fits self }
        ensures found { IfSome result (IsWordThat (word_of self)) }
        ensures none { IfNone result (SpellsNone (word_of self)) }
    {
        match self.opcode {
            opcode::LOAD => outline_of_some(self.load()),
            opcode::MISC_MEM => outline_of_some(self.fence()),
            opcode::OP_IMM => outline_of_some(self.op_imm()),
            opcode::AUIPC => outline_of_some(Some(self.auipc())),
            opcode::STORE => outline_of_some(self.store()),
            opcode::OP => outline_of_some(self.op()),
            opcode::LUI => outline_of_some(Some(self.lui())),
            opcode::BRANCH => outline_of_some(self.branch()),
            opcode::JALR => outline_of_some(self.jalr()),
            opcode::JAL => outline_of_some(Some(self.jal())),
            opcode::SYSTEM => outline_of_some(self.system()),
            _ => None,
        }
    }
}

/// The outline of the instruction that the word spells; `None` where it spells none.
#[inline(always)]
pub fn outline32(word: u32) -> Option<Outline>
    ensures found { IfSome result (IsWordThat word) }
    ensures only { (i : Instr) → IsWordOf word i → result ≡ Some (outline i) }
{
    WordFields::from_word(word).outline()
}
