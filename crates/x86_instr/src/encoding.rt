//! Writing an instruction's bytes.
ghost use Rattle.std.specs.Prelude.{◌≡◌, ◌++◌, OnOk};
ghost use Rattle.x86_instr.specs.declared.instr.Instr.TheVariants.{AluImm};
ghost use Rattle.x86_instr.specs.Spelling.{spelling};

use crate::fields::{
    alu_digit, condition_digit, divide_digit, extended_opcode, is_byte, shift_digit, unary_digit,
};
use crate::format::{
    put_0f_form, put_byte, put_byte_0f_form, put_byte_form, put_dword, put_form, put_pair,
    put_register_form,
};
use crate::instr::{AluOp, Instr, Width};
use crate::nop::put_nop;
use crate::operand::Operand;
use std::alloc::AllocError;

/// Appends the instruction's bytes to `out`: what `spelling` of specs/Spelling.antt says, clause by
/// clause. The one error is that an allocation was refused.
#[tactic(auto, unfolding(crate::specs::Spelling::spelling))]
pub fn encode(out: &mut Vec<u8>, instr: Instr) -> Result<(), AllocError>
    ensures { OnOk result (out.new.items ≡ out.old.items ++ spelling instr) }
{
    match instr {
        Instr::Mov { width, dst, src } => put_form(out, width, 0x8B, dst.number(), src),
        Instr::MovStore { width, dst, src } => {
            put_form(out, width, 0x89, src.number(), Operand::Mem(dst))
        }
        Instr::MovStoreByte { dst, src } => {
            put_byte_form(out, 0x88, src.number(), Operand::Mem(dst))
        }
        Instr::MovStoreWord { dst, src } => {
            put_byte(out, 0x66)?;
            put_form(out, Width::Dword, 0x89, src.number(), Operand::Mem(dst))
        }
        Instr::MovImm { dst, imm } => {
            put_register_form(out, 0xB8, dst)?;
            put_dword(out, imm)
        }
        Instr::MovExtended {
            extension,
            from,
            dst,
            src,
        } => put_byte_0f_form(out, extended_opcode(extension, from), dst.number(), src),
        Instr::Movsxd { dst, src } => put_form(out, Width::Qword, 0x63, dst.number(), src),
        Instr::Alu {
            op,
            width,
            dst,
            src,
        } => put_form(out, width, alu_digit(op) * 8 + 3, dst.number(), src),
        Instr::AluImm {
            op,
            width,
            dst,
            imm,
        } => put_alu_imm(out, op, width, dst, imm),
        Instr::Test { first, second } => {
            put_form(
                out,
                Width::Dword,
                0x85,
                second.number(),
                Operand::Reg(first),
            )
        }
        Instr::Unary { op, dst } => put_form(out, Width::Dword, 0xF7, unary_digit(op), dst),
        Instr::ShiftImm {
            op,
            width,
            dst,
            amount,
        } => {
            put_form(out, width, 0xC1, shift_digit(op), dst)?;
            put_byte(out, amount)
        }
        Instr::ShiftCl { op, dst } => {
            put_form(out, Width::Dword, 0xD3, shift_digit(op), Operand::Reg(dst))
        }
        Instr::Imul { width, dst, src } => put_0f_form(out, width, 0xAF, dst.number(), src),
        Instr::Divide { op, src } => {
            put_form(out, Width::Dword, 0xF7, divide_digit(op), Operand::Reg(src))
        }
        Instr::Cdq => put_byte(out, 0x99),
        Instr::Setcc { condition, dst } => {
            let opcode = 0x90 + condition_digit(condition);
            put_byte_0f_form(out, opcode, 0, Operand::Reg(dst))
        }
        Instr::Jcc {
            condition,
            distance,
        } => {
            put_pair(out, 0x0F, 0x80 + condition_digit(condition))?;
            put_dword(out, distance)
        }
        Instr::Jmp { distance } => {
            put_byte(out, 0xE9)?;
            put_dword(out, distance)
        }
        Instr::JmpTo { target } => put_form(out, Width::Dword, 0xFF, 4, target),
        Instr::Nop { size } => put_nop(out, size),
    }
}

/// Appends `op` of `dst` and the number `imm`: in one byte (opcode 83) where its sign-extended low byte
/// is the number again, or else in four (opcode 81).
#[tactic(auto, unfolding(crate::specs::Spelling::spelling))]
fn put_alu_imm(
    out: &mut Vec<u8>,
    op: AluOp,
    width: Width,
    dst: Operand,
    imm: u32,
) -> Result<(), AllocError>
    ensures { OnOk result (out.new.items ≡ out.old.items ++ spelling (AluImm op width dst imm)) }
{
    if is_byte(imm) {
        put_form(out, width, 0x83, alu_digit(op), dst)?;
        put_byte(out, (imm % 256) as u8)
    } else {
        put_form(out, width, 0x81, alu_digit(op), dst)?;
        put_dword(out, imm)
    }
}
