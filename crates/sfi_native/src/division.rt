//! Divisions of eax by ecx with RISC-V's results, into eax. Tests lead around the two that x86-64
//! answers with an exception: by 0, and of -2^31 by -1. The numbers of bytes that jumps skip are
//! those of the instructions written next.
ghost use Rattle.std.specs.Prelude.{◌≡◌, ◌++◌, ◌∷◌, [], OnOk};
ghost use Rattle.sfi_native.specs.Code.{avoid_minus_one, avoid_zero, compare_divisor as compare_of, compute, divide_by_one, divide_signed, divide_unsigned, remainder, test_divisor as test_of};
ghost use Rattle.rv_word.specs.declared.instr.RegOp.TheVariants.{Div, Divu, Rem};
ghost use Rattle.x86_instr.specs.declared.instr.Instr.TheVariants.{Divide, Jcc, Mov, MovImm};
ghost use Rattle.x86_instr.specs.declared.instr.Width.TheVariants.{Dword};
ghost use Rattle.x86_instr.specs.declared.operand.Operand.TheVariants.{Reg as InRegister};
ghost use Rattle.x86_instr.specs.declared.operand.Register.TheVariants.{Rax, Rcx, Rdx};
ghost use Rattle.x86_step.specs.Running.{spellings};

use crate::operation::put;
use std::alloc::AllocError;
use x86_instr::{AluOp, Condition, DivideOp, Instr, Operand, Register, UnaryOp, Width};

/// The test whether the divisor is 0.
fn test_divisor() -> Instr
    ensures { result ≡ test_of }
{
    Instr::Test {
        first: Register::Rcx,
        second: Register::Rcx,
    }
}

/// The comparison of the divisor, ecx, with -1.
fn compare_divisor() -> Instr
    ensures { result ≡ compare_of }
{
    Instr::AluImm {
        op: AluOp::Cmp,
        width: Width::Dword,
        dst: Operand::Reg(Register::Rcx),
        imm: 0xffff_ffff,
    }
}

/// A jump over `distance` bytes, where the condition is met.
fn jump_over(condition: Condition, distance: u32) -> Instr
    ensures { result ≡ Jcc condition distance }
{
    Instr::Jcc {
        condition,
        distance,
    }
}

/// The move of a number into a register.
fn number(dst: Register, imm: u32) -> Instr
    ensures { result ≡ MovImm dst imm }
{
    Instr::MovImm { dst, imm }
}

/// The move of the remainder, which a division leaves in edx, into eax.
fn take_remainder() -> Instr
    ensures { result ≡ Mov Dword Rax (InRegister Rdx) }
{
    Instr::Mov {
        width: Width::Dword,
        dst: Register::Rax,
        src: Operand::Reg(Register::Rdx),
    }
}

/// Writes a division of edx:eax by ecx, behind `extension`, which sets edx.
#[tactic(auto, using(crate::proofs::Lists::two_parts))]
fn put_division(out: &mut Vec<u8>, extension: Instr, op: DivideOp) -> Result<(), AllocError>
    ensures { OnOk result (out.new.items ≡ out.old.items ++ spellings (extension ∷ Divide op Rcx ∷ [])) }
{
    put(out, extension)?;
    put(
        out,
        Instr::Divide {
            op,
            src: Register::Rcx,
        },
    )
}

/// Writes the unsigned division of eax, with 0 in edx.
fn put_divide_unsigned(out: &mut Vec<u8>) -> Result<(), AllocError>
    ensures { OnOk result (out.new.items ≡ out.old.items ++ spellings divide_unsigned) }
{
    put_division(out, number(Register::Rdx, 0), DivideOp::Div)
}

/// Writes the signed division of eax, with copies of its sign in edx.
fn put_divide_signed(out: &mut Vec<u8>) -> Result<(), AllocError>
    ensures { OnOk result (out.new.items ≡ out.old.items ++ spellings divide_signed) }
{
    put_division(out, Instr::Cdq, DivideOp::Idiv)
}

/// Writes what makes a division by 0 one of 2^32 - 1 by 1: RISC-V's quotient by 0 has all bits set.
#[tactic(auto, using(crate::proofs::Lists::avoid_zero_parts))]
fn put_avoid_zero(out: &mut Vec<u8>) -> Result<(), AllocError>
    ensures { OnOk result (out.new.items ≡ out.old.items ++ spellings avoid_zero) }
{
    put(out, test_divisor())?;
    put(out, jump_over(Condition::NotEqual, 10))?;
    put(out, number(Register::Rax, 0xffff_ffff))?;
    put(out, number(Register::Rcx, 1))
}

/// Writes what makes a division by -1 one of the negated dividend by 1, which has the same quotient.
#[tactic(auto, using(crate::proofs::Lists::avoid_minus_one_parts))]
fn put_avoid_minus_one(out: &mut Vec<u8>) -> Result<(), AllocError>
    ensures { OnOk result (out.new.items ≡ out.old.items ++ spellings avoid_minus_one) }
{
    put(out, compare_divisor())?;
    put(out, jump_over(Condition::NotEqual, 7))?;
    put(
        out,
        Instr::Unary {
            op: UnaryOp::Neg,
            dst: Operand::Reg(Register::Rax),
        },
    )?;
    put(out, number(Register::Rcx, 1))
}

/// Writes what makes a division by -1 one by 1, which has the same remainder, 0.
#[tactic(auto, using(crate::proofs::Lists::divide_by_one_parts))]
fn put_divide_by_one(out: &mut Vec<u8>) -> Result<(), AllocError>
    ensures { OnOk result (out.new.items ≡ out.old.items ++ spellings divide_by_one) }
{
    put(out, compare_divisor())?;
    put(out, jump_over(Condition::NotEqual, 5))?;
    put(out, number(Register::Rcx, 1))
}

/// Writes the signed remainder. Where the divisor is 0 the division is skipped: RISC-V's remainder by
/// 0 is the dividend, which is in eax. The divisor -1 was avoided before.
#[tactic(auto, using(crate::proofs::Lists::signed_remainder_parts))]
fn put_nonzero_remainder(out: &mut Vec<u8>) -> Result<(), AllocError>
    ensures { OnOk result (out.new.items ≡ out.old.items ++ spellings (remainder divide_signed)) }
{
    put(out, test_divisor())?;
    put(out, jump_over(Condition::Equal, 5))?;
    put_divide_signed(out)?;
    put(out, take_remainder())
}

/// Writes remu of eax and ecx; where the divisor is 0, eax stays.
#[tactic(auto, using(crate::proofs::Lists::unsigned_remainder_parts))]
pub(crate) fn put_unsigned_remainder(out: &mut Vec<u8>) -> Result<(), AllocError>
    ensures { OnOk result (out.new.items ≡ out.old.items ++ spellings (remainder divide_unsigned)) }
{
    put(out, test_divisor())?;
    put(out, jump_over(Condition::Equal, 9))?;
    put_divide_unsigned(out)?;
    put(out, take_remainder())
}

/// Writes rem of eax and ecx.
#[tactic(auto, unfolding(crate::specs::Code::compute), using(crate::proofs::Lists::two_parts))]
pub(crate) fn put_signed_remainder(out: &mut Vec<u8>) -> Result<(), AllocError>
    ensures { OnOk result (out.new.items ≡ out.old.items ++ spellings (compute Rem Rax (InRegister Rcx))) }
{
    put_divide_by_one(out)?;
    put_nonzero_remainder(out)
}

/// Writes divu of eax and ecx.
#[tactic(auto, unfolding(crate::specs::Code::compute), using(crate::proofs::Lists::two_parts))]
pub(crate) fn put_unsigned_quotient(out: &mut Vec<u8>) -> Result<(), AllocError>
    ensures { OnOk result (out.new.items ≡ out.old.items ++ spellings (compute Divu Rax (InRegister Rcx))) }
{
    put_avoid_zero(out)?;
    put_divide_unsigned(out)
}

/// Writes div of eax and ecx.
#[tactic(auto, unfolding(crate::specs::Code::compute), using(crate::proofs::Lists::three_parts))]
pub(crate) fn put_signed_quotient(out: &mut Vec<u8>) -> Result<(), AllocError>
    ensures { OnOk result (out.new.items ≡ out.old.items ++ spellings (compute Div Rax (InRegister Rcx))) }
{
    put_avoid_zero(out)?;
    put_avoid_minus_one(out)?;
    put_divide_signed(out)
}
