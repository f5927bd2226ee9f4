//! Writing an instruction as its word.
ghost use Rattle.std.specs.Prelude.{◌≡◌};
ghost use Rattle.std.specs.Option.{SomeIff};
ghost use Rattle.rv_word.specs.Spelling.{spelling, InRange, IsWordOf};

use crate::format::{b_word, i_word, j_word, s_word, u_word, unsigned_i_word};
use crate::immediate::shift_bits;
use crate::instr::{ImmOp, Instr, RegOp};
use crate::opcode;
use crate::reg::Reg;
use crate::word_fields::WordFields;

/// The word that spells the instruction; `None` where a field is outside its range.
#[tactic(auto, unfolding(crate::specs::Spelling::spelling, crate::specs::Spelling::InRange))]
pub fn encode32(instr: Instr) -> Option<u32>
    ensures { SomeIff result (InRange instr) (spelling instr) }
{
    match instr {
        Instr::Op { op, rd, rs1, rs2 } => Some(op_word(op, rd, rs1, rs2)),
        Instr::OpImm { op, rd, rs1, imm } => op_imm_word(op, rd, rs1, imm),
        Instr::Load { kind, rd, rs1, imm } => i_word(imm, rs1, kind.funct3(), rd, opcode::LOAD),
        Instr::Store {
            width,
            rs1,
            rs2,
            imm,
        } => s_word(imm, rs2, rs1, width.funct3(), opcode::STORE),
        Instr::Branch {
            cond,
            rs1,
            rs2,
            offset,
        } => b_word(offset, rs2, rs1, cond.funct3(), opcode::BRANCH),
        Instr::Jal { rd, offset } => j_word(offset, rd, opcode::JAL),
        Instr::Jalr { rd, rs1, imm } => i_word(imm, rs1, 0b000, rd, opcode::JALR),
        Instr::Lui { rd, imm } => u_word(imm, rd, opcode::LUI),
        Instr::Auipc { rd, imm } => u_word(imm, rd, opcode::AUIPC),
        Instr::Fence { imm, rd, rs1 } => unsigned_i_word(imm, rs1, 0b000, rd, opcode::MISC_MEM),
        Instr::Ecall => Some(0x0000_0073),
        Instr::Ebreak => Some(0x0010_0073),
    }
}

/// The word of a computation on two registers. There always is one, as no field can be out of
/// range.
#[tactic(auto, unfolding(crate::specs::Spelling::spelling, crate::specs::Spelling::InRange))]
pub fn op_word(op: RegOp, rd: Reg, rs1: Reg, rs2: Reg) -> u32
    ensures { IsWordOf result (Instr.Op op rd rs1 rs2) }
{
    let fields = WordFields {
        opcode: opcode::OP,
        rd: rd.field(),
        funct3: op.funct3(),
        rs1: rs1.field(),
        rs2: rs2.field(),
        funct7: op.funct7(),
    };
    fields.word()
}

/// The word of a computation on an immediate, or on a shift amount; `None` where that is out of
/// range.
#[tactic(auto, unfolding(crate::specs::Spelling::spelling, crate::specs::Spelling::InRange))]
fn op_imm_word(op: ImmOp, rd: Reg, rs1: Reg, imm: i32) -> Option<u32>
    ensures { SomeIff result
        (InRange (Instr.OpImm op rd rs1 imm)) (spelling (Instr.OpImm op rd rs1 imm)) }
{
    let Some(funct7) = op.shift_funct7() else {
        return i_word(imm, rs1, op.funct3(), rd, opcode::OP_IMM);
    };
    let fields = WordFields {
        opcode: opcode::OP_IMM,
        rd: rd.field(),
        funct3: op.funct3(),
        rs1: rs1.field(),
        rs2: shift_bits(imm)?,
        funct7,
    };
    Some(fields.word())
}
