//! The 16-bit forms, and the instructions that they stand for.
use crate::expanded::{
    arithmetic_instr, branch_on_zero_instr, immediate_instr, jump_instr, jump_to_instr,
    load_word_instr, lui_instr, store_word_instr,
};
use rv_word::{Cond, ImmOp, Instr, Reg, RegOp};

/// A 16-bit instruction, by its form's name.
///
/// A row may allow fewer values of its fields than their types do: see [`crate::encode16`]. Offsets
/// count bytes; the immediate of C.LUI is the number that it writes.
#[derive(Clone, Copy)]
pub enum Form16 {
    /// rd becomes x2 plus a multiple of 4 from 4 to 1020.
    CAddi4spn { rd: Reg, imm: i32 },
    /// Loads a word at rs1 plus a multiple of 4 from 0 to 124.
    CLw { rd: Reg, rs1: Reg, imm: i32 },
    /// Stores rs2 at rs1 plus a multiple of 4 from 0 to 124.
    CSw { rs1: Reg, rs2: Reg, imm: i32 },
    /// Adds a number from -32 to 31 to rd.
    CAddi { rd: Reg, imm: i32 },
    /// Jumps by an even offset from -2048 to 2046, and links x1.
    CJal { imm: i32 },
    /// rd becomes a number from -32 to 31.
    CLi { rd: Reg, imm: i32 },
    /// Adds a multiple of 16 from -512 to 496, not 0, to x2.
    CAddi16sp { imm: i32 },
    /// rd, not x2, becomes a multiple of 4096 from -131072 to 126976, not 0.
    CLui { rd: Reg, imm: i32 },
    /// Shifts rd right by 0 to 31, filling with zeros.
    CSrli { rd: Reg, imm: i32 },
    /// Shifts rd right by 0 to 31, filling with its sign.
    CSrai { rd: Reg, imm: i32 },
    /// Ands a number from -32 to 31 into rd.
    CAndi { rd: Reg, imm: i32 },
    /// Subtracts rs2 from rd.
    CSub { rd: Reg, rs2: Reg },
    /// Combines rs2 into rd by exclusive or.
    CXor { rd: Reg, rs2: Reg },
    /// Ors rs2 into rd.
    COr { rd: Reg, rs2: Reg },
    /// Ands rs2 into rd.
    CAnd { rd: Reg, rs2: Reg },
    /// Jumps by an even offset from -2048 to 2046.
    CJ { imm: i32 },
    /// Where rs1 is 0, jumps by an even offset from -256 to 254.
    CBeqz { rs1: Reg, imm: i32 },
    /// Where rs1 isn't 0, jumps by an even offset from -256 to 254.
    CBnez { rs1: Reg, imm: i32 },
    /// Shifts rd left by 0 to 31.
    CSlli { rd: Reg, imm: i32 },
    /// Loads a word into rd, not x0, at x2 plus a multiple of 4 from 0 to 252.
    CLwsp { rd: Reg, imm: i32 },
    /// Jumps to rs1, not x0.
    CJr { rs1: Reg },
    /// Jumps to rs1, not x0, and links x1.
    CJalr { rs1: Reg },
    /// rd becomes rs2, not x0.
    CMv { rd: Reg, rs2: Reg },
    /// Adds rs2, not x0, to rd.
    CAdd { rd: Reg, rs2: Reg },
    /// Traps to the debugger.
    CEbreak,
    /// Stores rs2 at x2 plus a multiple of 4 from 0 to 252.
    CSwsp { rs2: Reg, imm: i32 },
}

impl Form16 {
    ghost use Rattle.std.specs.Prelude.{◌≡◌};
    ghost use Rattle.rv_comp.specs.Table.{expansion};

    /// The 32-bit instruction that the form stands for.
    pub fn expand(&self) -> Instr
        ensures { result ≡ expansion self.now }
    {
        match *self {
            Form16::CAddi4spn { rd, imm } => immediate_instr(
                ImmOp::Addi,
                rd,
                Reg::numbered(2),
                imm,
            ),
            Form16::CLw { rd, rs1, imm } => load_word_instr(rd, rs1, imm),
            Form16::CSw { rs1, rs2, imm } => store_word_instr(rs1, rs2, imm),
            Form16::CAddi { rd, imm } => immediate_instr(ImmOp::Addi, rd, rd, imm),
            Form16::CJal { imm } => jump_instr(Reg::numbered(1), imm),
            Form16::CLi { rd, imm } => immediate_instr(ImmOp::Addi, rd, Reg::numbered(0), imm),
            Form16::CAddi16sp { imm } => immediate_instr(
                ImmOp::Addi,
                Reg::numbered(2),
                Reg::numbered(2),
                imm,
            ),
            Form16::CLui { rd, imm } => lui_instr(rd, imm),
            Form16::CSrli { rd, imm } => immediate_instr(ImmOp::Srli, rd, rd, imm),
            Form16::CSrai { rd, imm } => immediate_instr(ImmOp::Srai, rd, rd, imm),
            Form16::CAndi { rd, imm } => immediate_instr(ImmOp::Andi, rd, rd, imm),
            Form16::CSub { rd, rs2 } => arithmetic_instr(RegOp::Sub, rd, rd, rs2),
            Form16::CXor { rd, rs2 } => arithmetic_instr(RegOp::Xor, rd, rd, rs2),
            Form16::COr { rd, rs2 } => arithmetic_instr(RegOp::Or, rd, rd, rs2),
            Form16::CAnd { rd, rs2 } => arithmetic_instr(RegOp::And, rd, rd, rs2),
            Form16::CJ { imm } => jump_instr(Reg::numbered(0), imm),
            Form16::CBeqz { rs1, imm } => branch_on_zero_instr(Cond::Beq, rs1, imm),
            Form16::CBnez { rs1, imm } => branch_on_zero_instr(Cond::Bne, rs1, imm),
            Form16::CSlli { rd, imm } => immediate_instr(ImmOp::Slli, rd, rd, imm),
            Form16::CLwsp { rd, imm } => load_word_instr(rd, Reg::numbered(2), imm),
            Form16::CJr { rs1 } => jump_to_instr(Reg::numbered(0), rs1),
            Form16::CJalr { rs1 } => jump_to_instr(Reg::numbered(1), rs1),
            Form16::CMv { rd, rs2 } => arithmetic_instr(RegOp::Add, rd, Reg::numbered(0), rs2),
            Form16::CAdd { rd, rs2 } => arithmetic_instr(RegOp::Add, rd, rd, rs2),
            Form16::CEbreak => Instr::Ebreak,
            Form16::CSwsp { rs2, imm } => store_word_instr(Reg::numbered(2), rs2, imm),
        }
    }
}
