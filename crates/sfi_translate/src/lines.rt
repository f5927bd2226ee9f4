//! The line of an instruction, as `line_text` of specs/Translation.antt says.
ghost use Rattle.std.specs.Prelude.{◌≡◌, ◌++◌, OnOk, string_bytes};
ghost use Rattle.rv_word.specs.declared.instr.Instr.TheVariants as instr;
ghost use Rattle.sfi_translate.specs.Translation.{opening, name_field, number_field, signed_field, closing, far, line_text};

use crate::fields::{
    push_address_field, push_closing, push_name_field, push_number_field, push_opening,
    push_register_field, push_signed_field,
};
use rv_word::{Instr, Reg};
use sfi_text::{branch_name, immediate_name, load_name, op_name, store_name};
use std::alloc::AllocError;

/// The most bytes of code that one function of the text (in C) holds. `function_most` of
/// specs/Lines.antt and examples/translate/lines.py have this number, too.
pub const FUNCTION_MOST: u32 = 16384;

/// Appends the fields of two registers.
fn push_two_registers(out: &mut String, first: Reg, second: Reg) -> Result<(), AllocError>
    ensures { OnOk result (string_bytes out.new
        ≡ string_bytes out.old ++ number_field first ++ number_field second) }
{
    push_register_field(out, first)?;
    push_register_field(out, second)
}

/// Appends the rest of a line behind its opening: a name, two registers and a number.
fn push_immediate_line(
    out: &mut String,
    name: &str,
    first: Reg,
    second: Reg,
    number: i32,
) -> Result<(), AllocError>
    ensures { OnOk result (string_bytes out.new ≡ string_bytes out.old ++ name_field name.now
        ++ number_field first ++ number_field second ++ signed_field number ++ closing) }
{
    push_name_field(out, name)?;
    push_two_registers(out, first, second)?;
    push_signed_field(out, number)?;
    push_closing(out)
}

/// What a jump at `at` has behind its form: `_FAR` where the address `to` lies in another function of
/// the text, to which C has no goto; or else nothing.
#[tactic(auto, unfolding(crate::specs::Translation::far))]
fn jump_suffix(at: u32, to: u32) -> &'static str
    ensures { result.now ≡ far at to }
{
    if at / FUNCTION_MOST == to / FUNCTION_MOST {
        ""
    } else {
        "_FAR"
    }
}

/// Appends what the line of a branch or a jal at `at` begins with: `form`, `_FAR` if its target `to`
/// lies in another function of the text, the address and the size, as in `BRANCH_FAR(01003ff0,4`. The
/// caller appends the other fields.
#[tactic(auto, unfolding(crate::specs::Translation::opening))]
fn push_jump_opening(
    out: &mut String,
    form: &str,
    at: u32,
    size: u32,
    to: u32,
) -> Result<(), AllocError>
    ensures { OnOk result (string_bytes out.new
        ≡ string_bytes out.old ++ opening (form.now ++ far at to) at size) }
{
    out.push_str(form)?;
    push_opening(out, jump_suffix(at, to), at, size)
}

/// Appends the line of a lui or an auipc; `number` is the immediate of 20 bits.
fn push_upper_line(
    out: &mut String,
    form: &str,
    at: u32,
    size: u32,
    rd: Reg,
    number: u32,
) -> Result<(), AllocError>
    ensures { OnOk result (string_bytes out.new ≡ string_bytes out.old
        ++ opening form.now at size ++ number_field rd ++ number_field number ++ closing) }
{
    push_opening(out, form, at, size)?;
    push_register_field(out, rd)?;
    push_number_field(out, number as usize)?;
    push_closing(out)
}

/// Appends the line of an instruction that has only an address and a size.
fn push_line_without_fields(
    out: &mut String,
    form: &str,
    at: u32,
    size: u32,
) -> Result<(), AllocError>
    ensures { OnOk result
        (string_bytes out.new ≡ string_bytes out.old ++ opening form.now at size ++ closing) }
{
    push_opening(out, form, at, size)?;
    push_closing(out)
}

/// Appends the line of an instruction of that size at that address.
#[tactic(auto, unfolding(crate::specs::Translation::line_text))]
pub(crate) fn push_instruction_line(
    out: &mut String,
    at: u32,
    size: u32,
    instr: &Instr,
) -> Result<(), AllocError>
    ensures { OnOk result
        (string_bytes out.new ≡ string_bytes out.old ++ line_text at size instr.now) }
{
    match *instr {
        Instr::Op { op, rd, rs1, rs2 } => {
            push_opening(out, "OP", at, size)?;
            push_name_field(out, op_name(op))?;
            push_register_field(out, rd)?;
            push_two_registers(out, rs1, rs2)?;
            push_closing(out)
        }
        Instr::OpImm { op, rd, rs1, imm } => {
            push_opening(out, "OPI", at, size)?;
            push_immediate_line(out, immediate_name(op), rd, rs1, imm)
        }
        Instr::Load { kind, rd, rs1, imm } => {
            push_opening(out, "LOAD", at, size)?;
            push_immediate_line(out, load_name(kind), rd, rs1, imm)
        }
        Instr::Store {
            width,
            rs1,
            rs2,
            imm,
        } => {
            push_opening(out, "STORE", at, size)?;
            push_immediate_line(out, store_name(width), rs1, rs2, imm)
        }
        Instr::Branch {
            cond,
            rs1,
            rs2,
            offset,
        } => {
            let to = at.wrapping_add_signed(offset);
            push_jump_opening(out, "BRANCH", at, size, to)?;
            push_name_field(out, branch_name(cond))?;
            push_two_registers(out, rs1, rs2)?;
            push_address_field(out, to)?;
            push_closing(out)
        }
        Instr::Jal { rd, offset } => {
            let to = at.wrapping_add_signed(offset);
            push_jump_opening(out, "JAL", at, size, to)?;
            push_register_field(out, rd)?;
            push_address_field(out, to)?;
            push_closing(out)
        }
        Instr::Jalr { rd, rs1, imm } => {
            push_opening(out, "JALR", at, size)?;
            push_two_registers(out, rd, rs1)?;
            push_signed_field(out, imm)?;
            push_closing(out)
        }
        Instr::Lui { rd, imm } => push_upper_line(out, "LUI", at, size, rd, imm),
        Instr::Auipc { rd, imm } => push_upper_line(out, "AUIPC", at, size, rd, imm),
        Instr::Fence { .. } => push_line_without_fields(out, "FENCE", at, size),
        Instr::Ecall => push_line_without_fields(out, "ECALL", at, size),
        Instr::Ebreak => push_line_without_fields(out, "EBREAK", at, size),
    }
}
