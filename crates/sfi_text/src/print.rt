//! Printing an instruction.
ghost use Rattle.std.specs.Prelude.{◌≡◌, ◌++◌, OnOk, IfOk, string_bytes};
ghost use Rattle.std.specs.List.{flat_map};
ghost use Rattle.rv_word.specs.Spelling.{InRange};
ghost use Rattle.sfi_text.specs.Tokens.{x_name};
ghost use Rattle.sfi_text.specs.private.Reading.{values_of};
ghost use Rattle.sfi_text.specs.Statement.{mnemonic_of, Means};
ghost use Rattle.sfi_text.specs.Statement.{part_text, format_name, number_text, printed, statement_text};

use crate::form::{NumberKind, OperandPart};
use crate::mnemonic::Mnemonic;
use crate::operands::Operands;
use rv_word::{Instr, Reg};
use sfi_formats::Format;
use std::alloc::{AllocError, Global};

impl Mnemonic {
    /// The instruction's mnemonic.
    fn of_instr(instr: &Instr) -> Self
        ensures { result ≡ mnemonic_of instr.now }
    {
        match *instr {
            Instr::Op { op, .. } => Mnemonic::Op(op),
            Instr::OpImm { op, .. } => Mnemonic::OpImm(op),
            Instr::Load { kind, .. } => Mnemonic::Load(kind),
            Instr::Store { width, .. } => Mnemonic::Store(width),
            Instr::Branch { cond, .. } => Mnemonic::Branch(cond),
            Instr::Jal { .. } => Mnemonic::Jal,
            Instr::Jalr { .. } => Mnemonic::Jalr,
            Instr::Lui { .. } => Mnemonic::Lui,
            Instr::Auipc { .. } => Mnemonic::Auipc,
            Instr::Fence { .. } => Mnemonic::Fence,
            Instr::Ecall => Mnemonic::Ecall,
            Instr::Ebreak => Mnemonic::Ebreak,
        }
    }
}

/// Appends a register to the text.
fn push_register(out: &mut String, register: Reg) -> Result<(), AllocError>
    ensures { OnOk result (string_bytes out.new ≡ string_bytes out.old ++ x_name register) }
{
    let number = register.number();
    write!(out, "x{number}")
}

/// Appends a number of this kind to the text: in hexadecimal if it is `Upper` and not negative, else
/// in decimal.
fn push_number_text(out: &mut String, kind: NumberKind, number: i64) -> Result<(), AllocError>
    ensures { OnOk result (string_bytes out.new ≡ string_bytes out.old ++ number_text kind number) }
{
    match kind {
        NumberKind::Upper => match u64::try_from(number) {
            Ok(n) => write!(out, "0x{n:x}"),
            Err(_) => write!(out, "{number}"),
        },
        _ => write!(out, "{number}"),
    }
}

/// What stands after `.format` for the format. `read_format` of `read.rt` reads it.
fn format_name(format: Format) -> &'static str
    ensures { result.now ≡ format_name format }
{
    match format {
        Format::Sfi1 => "1",
        Format::Sfi2 => "2",
        Format::Sfiw => "words",
        Format::Sfis => "single",
    }
}

/// Appends one of the operands, or a mark, to the text.
fn push_operand_part(out: &mut String, o: &Operands, part: OperandPart) -> Result<(), AllocError>
    ensures { OnOk result
        (string_bytes out.new ≡ string_bytes out.old ++ part_text (values_of o.now) part) }
{
    match part {
        OperandPart::Rd => push_register(out, o.rd),
        OperandPart::Rs1 => push_register(out, o.rs1),
        OperandPart::Rs2 => push_register(out, o.rs2),
        OperandPart::Number(kind) => push_number_text(out, kind, o.number),
        OperandPart::Name => out.push_str(o.name),
        OperandPart::Mode => out.push_str(if o.compressed { "rvc" } else { "norvc" }),
        OperandPart::ImageFormat => out.push_str(format_name(o.format)),
        OperandPart::Comma => out.push_str(", "),
        OperandPart::Open => out.push_str("("),
        OperandPart::Close => out.push_str(")"),
    }
}

/// Appends the operands that this form has, and its marks, to the text.
fn push_operands(out: &mut String, o: &Operands, form: &[OperandPart]) -> Result<(), AllocError>
    ensures { OnOk result (string_bytes out.new
        ≡ string_bytes out.old ++ flat_map (part_text (values_of o.now)) form.now) }
{
    for part in form {
        push_operand_part(out, o, *part)?;
    }
    Ok(())
}

/// Appends a name and its operands to the text.
fn push_statement(out: &mut String, name: Mnemonic, o: &Operands) -> Result<(), AllocError>
    ensures { OnOk result (string_bytes out.new
        ≡ string_bytes out.old ++ statement_text name (values_of o.now)) }
{
    let form = name.form();
    out.push_str(name.name())?;
    if !form.is_empty() {
        out.push_str(" ")?;
    }
    push_operands(out, o, form)
}

/// Appends the text of an instruction, as [`print_instr`] gives it, to the text.
pub fn push_instr(out: &mut String, instr: &Instr) -> Result<(), AllocError>
    ensures { OnOk result (string_bytes out.new ≡ string_bytes out.old ++ printed instr.now) }
{
    let operands = Operands::from_instr(instr);
    push_statement(out, Mnemonic::of_instr(instr), &operands)
}

/// The text of an instruction: its name, a space, and its operands joined by `, `.
///
/// Registers are x0 to x31 and numbers are decimal, those of lui and auipc hexadecimal. A fence
/// prints its three fields as numbers, ecall and ebreak their name alone, and nothing prints as a
/// pseudo-instruction. LLVM's disassembler, with numeric registers and no aliases, prints the text
/// too, but for a fence's fields and for the numbers of lui and auipc, which are decimal there.
pub fn print_instr(alloc: Global, instr: &Instr) -> Result<String, AllocError>
    ensures text { IfOk result (λ text. string_bytes text ≡ printed instr.now) }
    ensures reads_back { IfOk result (λ text.
        InRange instr.now → Means (string_bytes text) instr.now) }
{
    let mut out = String::new(alloc);
    push_instr(&mut out, instr)?;
    Ok(out)
}
