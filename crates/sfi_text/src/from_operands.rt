//! Statements made from their operands.
ghost use Rattle.std.specs.Prelude.{◌≡◌, pos};
ghost use Rattle.rv_word.specs.declared.instr.Instr.TheVariants as instr;
ghost use Rattle.rv_word.specs.declared.instr.ImmOp.TheVariants.{Addi};
ghost use Rattle.sfi_text.specs.private.Reading.{values_of};
ghost use Rattle.sfi_text.specs.private.Reading.{AllSuit};
ghost use Rattle.sfi_text.specs.Keywords.{directive_form, directive_states, pseudo_form, pseudo_states};
ghost use Rattle.sfi_text.specs.SoFar.{within, jump};
ghost use Rattle.sfi_text.specs.private.Lines.{stated};

use crate::constant::constant;
use crate::keyword::{Directive, Pseudo};
use crate::operands::{Operands, x0};
use crate::statement::{SandboxStatement, Statement};
use rv_word::{Cond, ImmOp, Instr, Reg};

impl Directive {
    /// What the directive states with these operands, of which it looks at those that its form has.
    pub(crate) fn statement<'a>(self, o: &Operands<'a>) -> Statement<'a>
        requires { AllSuit (values_of o.now) (directive_form self) }
        ensures { stated result ≡ directive_states self (values_of o.now) }
    {
        match self {
            Directive::Format => Statement::Format(o.format),
            Directive::Sandbox => Statement::Sandbox {
                data_size: o.number as u32,
            },
            Directive::Gate => Statement::Within(SandboxStatement::Gate {
                name: o.name,
                service: o.number as u32,
            }),
            Directive::Option => Statement::Within(SandboxStatement::Compressed(o.compressed)),
            Directive::Data => Statement::Within(SandboxStatement::Data),
            Directive::Zero => Statement::Within(SandboxStatement::Zeros(o.number as u32)),
            Directive::Export => Statement::Within(SandboxStatement::Export(o.name)),
            Directive::Movable => Statement::Within(SandboxStatement::Movable),
            Directive::Import => Statement::Within(SandboxStatement::Import {
                name: o.name,
                service: o.number as u32,
            }),
        }
    }
}

/// An addi of 0: `rd` takes the value of `rs1`.
fn add_zero(rd: Reg, rs1: Reg) -> Instr
    ensures { result ≡ instr.OpImm Addi rd rs1 (pos 0) }
{
    Instr::OpImm {
        op: ImmOp::Addi,
        rd,
        rs1,
        imm: 0,
    }
}

/// A jump to the address in a register, which writes no return address.
fn jump_to_address(rs1: Reg) -> Instr
    ensures { result ≡ instr.Jalr 0 rs1 (pos 0) }
{
    Instr::Jalr {
        rd: x0(),
        rs1,
        imm: 0,
    }
}

/// A jal to a name. Its offset stays 0 until the code is placed.
pub(crate) fn jal_to<'a>(rd: Reg, name: &'a str) -> Statement<'a>
    ensures { stated result ≡ within (jump (instr.Jal rd (pos 0)) name.now) }
{
    let instr = Instr::Jal { rd, offset: 0 };
    Statement::Within(SandboxStatement::Jump { instr, name })
}

/// A branch to a name. Its offset stays 0 until the code is placed.
pub(crate) fn branch_to<'a>(cond: Cond, rs1: Reg, rs2: Reg, name: &'a str) -> Statement<'a>
    ensures { stated result ≡ within (jump (instr.Branch cond rs1 rs2 (pos 0)) name.now) }
{
    let instr = Instr::Branch {
        cond,
        rs1,
        rs2,
        offset: 0,
    };
    Statement::Within(SandboxStatement::Jump { instr, name })
}

/// The register of the return address, x1.
fn ra() -> Reg
    ensures { result ≡ 1 }
{
    Reg::numbered(1)
}

impl Pseudo {
    /// What the pseudo-instruction states with these operands, of which it looks at those that its
    /// form has.
    pub(crate) fn statement<'a>(self, o: &Operands<'a>) -> Statement<'a>
        requires { AllSuit (values_of o.now) (pseudo_form self) }
        ensures { stated result ≡ pseudo_states self (values_of o.now) }
    {
        match self {
            Pseudo::Nop => Statement::Within(SandboxStatement::One(add_zero(x0(), x0()))),
            Pseudo::Ret => Statement::Within(SandboxStatement::One(jump_to_address(ra()))),
            Pseudo::Li => Statement::Within(constant(o.rd, o.number)),
            Pseudo::Mv => Statement::Within(SandboxStatement::One(add_zero(o.rd, o.rs1))),
            Pseudo::Jr => Statement::Within(SandboxStatement::One(jump_to_address(o.rs1))),
            Pseudo::J => jal_to(x0(), o.name),
            Pseudo::Call => jal_to(ra(), o.name),
            Pseudo::Beqz => branch_to(Cond::Beq, o.rs1, x0(), o.name),
            Pseudo::Bnez => branch_to(Cond::Bne, o.rs1, x0(), o.name),
            Pseudo::La => Statement::Within(SandboxStatement::Address {
                rd: o.rd,
                name: o.name,
            }),
        }
    }
}
