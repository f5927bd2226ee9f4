//! The listing of an image.
ghost use Rattle.std.specs.Prelude.{◌≡◌, ◌+◌, ◌^◌, ◌<◌, ◌≤◌, ◌++◌, ◌⊎◌, OnOk, IfOk, length, string_bytes};
ghost use Rattle.sfi_image.specs.Spelling.{view};
ghost use Rattle.sfi_image.specs.Parts.{IsRightPart};
ghost use Rattle.sfi_report.specs.Listing.{instruction_line, rest_line, sandbox_line, region_text, gate_line, format_line, IsUnitListing, IsCodeListing, IsSandboxListing, IsListing};
ghost use Rattle.sfi_report.specs.private.{Adds};

use crate::digits::{push_eight_digits, push_two_digits, push_word};
use crate::names::push_names;
use rv_comp::{Front, read_front};
use rv_word::Instr;
use sfi_formats::Format;
use sfi_image::{Gate, Image, SandboxPart};
use sfi_text::push_instr;
use std::alloc::{AllocError, Global};

/// Writes the line of an instruction, `ADDRESS HEX INSTRUCTION`: `bytes` are its two or four bytes,
/// and `instr` is what they mean.
pub(crate) fn push_instruction(
    out: &mut String,
    address: u32,
    bytes: &[u8],
    instr: &Instr,
) -> Result<(), AllocError>
    requires { (length bytes.now ≡ 2) ⊎ (length bytes.now ≡ 4) }
    ensures { OnOk result (string_bytes out.new
        ≡ string_bytes out.old ++ instruction_line address bytes.now instr.now) }
{
    push_eight_digits(out, address)?;
    out.push_str(" ")?;
    push_word(out, bytes)?;
    out.push_str(" ")?;
    push_instr(out, instr)?;
    out.push_str("\n")
}

/// Writes the line `ADDRESS .bytes HEX` of the last bytes of a unit, from which no instruction can
/// be read. Each byte has its two digits, in the order of the code.
fn push_unread_bytes(out: &mut String, address: u32, bytes: &[u8]) -> Result<(), AllocError>
    requires { 0 < length bytes.now }
    ensures { OnOk result
        (string_bytes out.new ≡ string_bytes out.old ++ rest_line address bytes.now) }
{
    push_eight_digits(out, address)?;
    out.push_str(" .bytes ")?;
    for byte in bytes {
        push_two_digits(out, *byte)?;
    }
    out.push_str("\n")
}

/// Writes the lines of one unit of code, the bundle or word at the address with these bytes. An
/// instruction that would go on beyond the unit's end is none.
fn list_unit(out: &mut String, address: u32, bytes: &[u8]) -> Result<(), AllocError>
    requires { address + length bytes.now ≤ 2 ^ 32 }
    ensures { OnOk result (Adds (string_bytes out.old) (string_bytes out.new)
        (IsUnitListing address bytes.now)) }
{
    let mut at = 0;
    while at < bytes.len() {
        let rest = &bytes[at..];
        let here = address + at as u32;
        match read_front(rest) {
            Front::Read(instr, size) => {
                let size = size as usize;
                push_instruction(out, here, &rest[..size], &instr)?;
                at += size;
            }
            Front::Short | Front::Bad => return push_unread_bytes(out, here, rest),
        }
    }
    Ok(())
}

/// Writes the region's base, in eight digits, and its size in bytes, as a decimal number.
#[tactic(auto, unfolding(crate::specs::Listing::region_text))]
fn push_region(out: &mut String, base: u32, size: usize) -> Result<(), AllocError>
    ensures { OnOk result (string_bytes out.new ≡ string_bytes out.old ++ region_text base size) }
{
    push_eight_digits(out, base)?;
    write!(out, " {size}")
}

/// Writes the listing's line of the sandbox's fields: its number, regions, start, and how many
/// gates and first data bytes it has.
fn list_fields(out: &mut String, sandbox: u32, part: &SandboxPart) -> Result<(), AllocError>
    ensures { (format : Format) → OnOk result (string_bytes out.new
        ≡ string_bytes out.old ++ sandbox_line sandbox (view format part.now)) }
{
    write!(out, "sandbox {sandbox} code ")?;
    push_region(out, part.code_base, part.code.len())?;
    out.push_str(" data ")?;
    push_region(out, part.data_base, part.data_size as usize)?;
    out.push_str(" start ")?;
    push_eight_digits(out, part.start)?;
    let gates = part.gates.len();
    let init = part.init.len();
    write!(out, " gates {gates} init {init}\n")
}

/// Writes the listing's line of a gate, `gate ADDRESS SERVICE`.
fn list_gate(out: &mut String, gate: &Gate) -> Result<(), AllocError>
    ensures { OnOk result (string_bytes out.new ≡ string_bytes out.old ++ gate_line gate.now) }
{
    out.push_str("gate ")?;
    push_eight_digits(out, gate.address)?;
    let service = gate.service;
    write!(out, " {service}\n")
}

/// Writes the lines of a sandbox, whose number, counted from 0, is `sandbox`.
fn list_sandbox(
    out: &mut String,
    format: Format,
    sandbox: u32,
    part: &SandboxPart,
) -> Result<(), AllocError>
    requires { IsRightPart (view format part.now) }
    ensures { OnOk result (Adds (string_bytes out.old) (string_bytes out.new)
        (IsSandboxListing sandbox (view format part.now))) }
{
    list_fields(out, sandbox, part)?;
    for gate in &part.gates {
        list_gate(out, gate)?;
    }
    push_names(out, part.init)?;
    list_code(out, format, part)
}

/// Writes the lines of a sandbox's code, unit by unit.
fn list_code(out: &mut String, format: Format, part: &SandboxPart) -> Result<(), AllocError>
    requires { IsRightPart (view format part.now) }
    ensures { OnOk result (Adds (string_bytes out.old) (string_bytes out.new)
        (IsCodeListing (view format part.now))) }
{
    let unit = format.unit() as usize;
    let mut at = 0;
    while at < part.code.len() {
        let end = at + unit;
        list_unit(out, part.code_base + at as u32, &part.code[at..end])?;
        at = end;
    }
    Ok(())
}

/// Writes the line of the image's format; an image of the first format has none.
#[tactic(auto, unfolding(crate::specs::Listing::format_line))]
fn push_format(out: &mut String, format: Format) -> Result<(), AllocError>
    ensures { OnOk result (string_bytes out.new ≡ string_bytes out.old ++ format_line format) }
{
    match format {
        Format::Sfi1 => Ok(()),
        Format::Sfi2 => out.push_str("format SFI2\n"),
        Format::Sfiw => out.push_str("format SFIW\n"),
        Format::Sfis => out.push_str("format SFIS\n"),
    }
}

/// The listing of an image: a line of its format, but for the first; then for each sandbox a line
/// of its fields, a line for each gate, lines of the names that the table at the end of its first data
/// tells, if there is one, and a line for each instruction.
///
/// Each unit of code is read from its first byte, as the rules read it. Where reading stops before
/// the unit's end, a line `.bytes` has what is left. The one error is that an allocation was refused.
pub fn listing_text(alloc: Global, image: &Image<'_>) -> Result<String, AllocError>
    ensures text { IfOk result (λ text. IsListing image.now (string_bytes text)) }
{
    let mut out = String::new(alloc);
    let format = image.format();
    push_format(&mut out, format)?;
    for (sandbox, part) in image.parts().iter().enumerate() {
        list_sandbox(&mut out, format, sandbox as u32, part)?;
    }
    Ok(out)
}
