//! The operands of a statement, and the instruction that they make with its name.
ghost use Rattle.std.specs.Prelude.{◌≡◌, pos};
ghost use Rattle.sfi_text.specs.Operands.{operand_parts};
ghost use Rattle.sfi_text.specs.private.Reading.{AgreesOn, AllSuit};
ghost use Rattle.sfi_text.specs.private.Reading.{values_of};
ghost use Rattle.sfi_text.specs.Statement.{mnemonic_of, operands_of, operands};

use crate::mnemonic::Mnemonic;
use rv_word::{Instr, Reg};
use sfi_formats::Format;

/// The operands of a statement; those that its form lacks are 0, none or the first format.
#[derive(Clone, Copy)]
pub struct Operands<'a> {
    pub rd: Reg,
    pub rs1: Reg,
    pub rs2: Reg,
    pub number: i64,
    /// The name that a gate or a target has.
    pub name: &'a str,
    /// Whether `rvc` stands after `.option`.
    pub compressed: bool,
    /// What stands after `.format`.
    pub format: Format,
}

/// The register that reads as 0.
pub(crate) fn x0() -> Reg
    ensures { result ≡ 0 }
{
    Reg::numbered(0)
}

impl<'a> Operands<'a> {
    /// Operands of these registers and this number.
    fn new(rd: Reg, rs1: Reg, rs2: Reg, number: i64) -> Self
        ensures { values_of result ≡ operands rd rs1 rs2 number }
    {
        Operands {
            rd,
            rs1,
            rs2,
            number,
            name: "",
            compressed: false,
            format: Format::Sfi1,
        }
    }

    /// No operands.
    pub(crate) fn none() -> Self
        ensures { values_of result ≡ operands 0 0 0 (pos 0) }
    {
        Operands::new(x0(), x0(), x0(), 0)
    }

    /// The instruction's operands.
    pub(crate) fn from_instr(instr: &Instr) -> Self
        ensures { values_of result ≡ operands_of instr.now }
    {
        match *instr {
            Instr::Op { rd, rs1, rs2, .. } => Operands::new(rd, rs1, rs2, 0),
            Instr::OpImm { rd, rs1, imm, .. }
            | Instr::Load { rd, rs1, imm, .. }
            | Instr::Jalr { rd, rs1, imm } => Operands::new(rd, rs1, x0(), i64::from(imm)),
            Instr::Store { rs1, rs2, imm, .. } => Operands::new(x0(), rs1, rs2, i64::from(imm)),
            Instr::Branch {
                rs1,
                rs2,
                offset,
                ..
            } => { Operands::new(x0(), rs1, rs2, i64::from(offset)) }
            Instr::Jal { rd, offset } => Operands::new(rd, x0(), x0(), i64::from(offset)),
            Instr::Lui { rd, imm } | Instr::Auipc { rd, imm } => {
                Operands::new(rd, x0(), x0(), i64::from(imm))
            }
            Instr::Fence { imm, rd, rs1 } => Operands::new(rd, rs1, x0(), i64::from(imm)),
            Instr::Ecall | Instr::Ebreak => Operands::none(),
        }
    }

    /// The instruction of this name with these operands.
    pub(crate) fn instr(self, name: Mnemonic) -> Instr
        requires { AllSuit (values_of self) (operand_parts name) }
        ensures name { mnemonic_of result ≡ name }
        ensures operands { AgreesOn (operand_parts name) (operands_of result) (values_of self.entry) }
    {
        let Operands {
            rd,
            rs1,
            rs2,
            number,
            ..
        } = self;
        match name {
            Mnemonic::Op(op) => Instr::Op { op, rd, rs1, rs2 },
            Mnemonic::OpImm(op) => Instr::OpImm {
                op,
                rd,
                rs1,
                imm: number as i32,
            },
            Mnemonic::Load(kind) => Instr::Load {
                kind,
                rd,
                rs1,
                imm: number as i32,
            },
            Mnemonic::Store(width) => Instr::Store {
                width,
                rs1,
                rs2,
                imm: number as i32,
            },
            Mnemonic::Branch(cond) => Instr::Branch {
                cond,
                rs1,
                rs2,
                offset: number as i32,
            },
            Mnemonic::Jal => Instr::Jal {
                rd,
                offset: number as i32,
            },
            Mnemonic::Jalr => Instr::Jalr {
                rd,
                rs1,
                imm: number as i32,
            },
            Mnemonic::Lui => Instr::Lui {
                rd,
                imm: number as u32,
            },
            Mnemonic::Auipc => Instr::Auipc {
                rd,
                imm: number as u32,
            },
            Mnemonic::Fence => Instr::Fence {
                imm: number as u32,
                rd,
                rs1,
            },
            Mnemonic::Ecall => Instr::Ecall,
            Mnemonic::Ebreak => Instr::Ebreak,
        }
    }
}
