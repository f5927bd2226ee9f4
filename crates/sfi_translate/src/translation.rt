//! The translation of an image. Each `push_` function appends to `out`; its one error is that an
//! allocation was refused.
ghost use Rattle.std.specs.Prelude.{◌≡◌, ◌+◌, ◌^◌, ◌<◌, ◌≤◌, ◌++◌, OnOk, IfOk, length, string_bytes};
ghost use Rattle.sfi_image.specs.Spelling.{view};
ghost use Rattle.sfi_image.specs.Parts.{IsRightPart};
ghost use Rattle.sfi_translate.specs.Translation.{function_line, masks, spelled, sandbox_line, gate_line, data_line, last_line, IsCodeText, IsSandboxText, IsTranslation};
ghost use Rattle.sfi_translate.specs.Lines.{function_lines, entry_lines, head_lines};
ghost use Rattle.sfi_translate.specs.private.{Adds, IsReadingText, IsUnitText};

use crate::entries::ChosenUnits;
use crate::fields::{push_address_field, push_address_line, push_closing, push_number_field};
use crate::lines::{FUNCTION_MOST, push_instruction_line};
use rv_comp::{Front, read_front};
use sfi_formats::Format;
use sfi_image::{Gate, Image, SandboxPart};
use sfi_report::push_eight_digits;
use std::alloc::{AllocError, Global};

/// At each address that is a multiple of this stands a `HEAD` line, where code tests the steps that a
/// turn has left. `head_bytes` of specs/Lines.antt and examples/translate/lines.py have this number,
/// too.
pub const HEAD_BYTES: u32 = 128;

/// Appends the line with which a function of the text begins, `FUNCTION(SANDBOX,ADDRESS)`.
#[tactic(auto, unfolding(crate::specs::Translation::function_line))]
fn push_function_line(out: &mut String, sandbox: u32, at: u32) -> Result<(), AllocError>
    ensures { OnOk result
        (string_bytes out.new ≡ string_bytes out.old ++ function_line sandbox at) }
{
    write!(out, "FUNCTION({sandbox}")?;
    push_address_field(out, at)?;
    push_closing(out)
}

/// Appends the lines with which one function of the text ends, if there is one, and another begins,
/// if that is before the unit at `offset`, in bytes from the code's start; or else nothing. `at` is
/// its address.
fn push_function(out: &mut String, sandbox: u32, offset: usize, at: u32) -> Result<(), AllocError>
    ensures { OnOk result
        (string_bytes out.new ≡ string_bytes out.old ++ spelled (function_lines sandbox offset at)) }
{
    if offset == 0 {
        return push_function_line(out, sandbox, at);
    }
    if offset % FUNCTION_MOST as usize == 0 {
        push_address_line(out, "END", at)?;
        return push_function_line(out, sandbox, at);
    }
    Ok(())
}

/// Appends an `ENTRY` line if the unit at the address was chosen as an entry.
fn push_entry_line(out: &mut String, chosen: bool, at: u32) -> Result<(), AllocError>
    ensures { OnOk result
        (string_bytes out.new ≡ string_bytes out.old ++ spelled (entry_lines chosen at)) }
{
    if chosen {
        return push_address_line(out, "ENTRY", at);
    }
    Ok(())
}

/// Appends a `HEAD` line, where code tests the steps that are left, if one stands at the address.
fn push_head(out: &mut String, at: u32) -> Result<(), AllocError>
    ensures { OnOk result
        (string_bytes out.new ≡ string_bytes out.old ++ spelled (head_lines at)) }
{
    if at % HEAD_BYTES == 0 {
        return push_address_line(out, "HEAD", at);
    }
    Ok(())
}

/// Appends a line for each instruction of a unit, whose bytes are at the address, up to the first place
/// where they make none.
fn push_reading(out: &mut String, address: u32, bytes: &[u8]) -> Result<(), AllocError>
    requires { address + length bytes.now ≤ 2 ^ 32 }
    ensures { OnOk result (Adds (string_bytes out.old) (string_bytes out.new)
        (IsReadingText address bytes.now)) }
{
    let mut at = 0;
    while at < bytes.len() {
        let rest = &bytes[at..];
        match read_front(rest) {
            Front::Read(instr, size) => {
                push_instruction_line(out, address + at as u32, size, &instr)?;
                at += size as usize;
            }
            Front::Short | Front::Bad => return Ok(()),
        }
    }
    Ok(())
}

/// Appends the lines of the unit `bytes`, which is at address `at` and `offset` bytes behind the code's
/// start; `chosen` says whether it is an entry.
fn push_unit_lines(
    out: &mut String,
    sandbox: u32,
    offset: usize,
    at: u32,
    bytes: &[u8],
    chosen: bool,
) -> Result<(), AllocError>
    requires { at + length bytes.now ≤ 2 ^ 32 }
    ensures { OnOk result (Adds (string_bytes out.old) (string_bytes out.new)
        (IsUnitText sandbox offset at bytes.now)) }
{
    push_function(out, sandbox, offset, at)?;
    push_entry_line(out, chosen, at)?;
    push_head(out, at)?;
    push_reading(out, at, bytes)
}

/// Appends the lines of a sandbox's code, unit by unit.
fn push_code_lines(
    out: &mut String,
    format: Format,
    sandbox: u32,
    part: &SandboxPart,
    entries: &ChosenUnits,
) -> Result<(), AllocError>
    requires { IsRightPart (view format part.now) }
    ensures { OnOk result (Adds (string_bytes out.old) (string_bytes out.new)
        (IsCodeText sandbox (view format part.now))) }
{
    let unit = format.unit() as usize;
    let mut at = 0;
    while at < part.code.len() {
        let end = at + unit;
        let here = part.code_base + at as u32;
        let chosen = entries.has(here);
        push_unit_lines(out, sandbox, at, here, &part.code[at..end], chosen)?;
        at = end;
    }
    Ok(())
}

/// What a sandbox's line has behind `SANDBOX`: whether accesses have single masks, so that x26 isn't
/// reserved.
#[tactic(auto, unfolding(crate::specs::Translation::masks))]
fn masks_suffix(format: Format) -> &'static str
    ensures { result.now ≡ masks format }
{
    if format.has_single_mask() {
        "_SINGLE"
    } else {
        ""
    }
}

/// Appends the line of a sandbox's fields, `SANDBOX(..)` or `SANDBOX_SINGLE(..)`.
fn push_sandbox_line(
    out: &mut String,
    format: Format,
    sandbox: u32,
    part: &SandboxPart,
) -> Result<(), AllocError>
    ensures { OnOk result (string_bytes out.new
        ≡ string_bytes out.old ++ sandbox_line sandbox (view format part.now)) }
{
    let suffix = masks_suffix(format);
    write!(out, "SANDBOX{suffix}({sandbox}")?;
    push_number_field(out, format.unit() as usize)?;
    push_address_field(out, part.code_base)?;
    push_number_field(out, part.code.len())?;
    push_address_field(out, part.data_base)?;
    push_number_field(out, part.data_size as usize)?;
    push_address_field(out, part.start)?;
    push_number_field(out, part.gates.len())?;
    push_number_field(out, part.init.len())?;
    push_closing(out)
}

/// Appends the translation's line of a gate, `GATE(ADDRESS, SERVICE)`, which
/// `include/sfi_native.h` reads.
fn push_gate_line(out: &mut String, gate: &Gate) -> Result<(), AllocError>
    ensures { OnOk result (string_bytes out.new ≡ string_bytes out.old ++ gate_line gate.now) }
{
    out.push_str("GATE(")?;
    push_eight_digits(out, gate.address)?;
    push_number_field(out, gate.service as usize)?;
    push_closing(out)
}

/// Appends the line of a sandbox's first data, `DATA(SANDBOX,BYTE,..,0)`: each byte in decimal, and a
/// zero behind them, so that the array in C is never empty.
fn push_data_line(out: &mut String, sandbox: u32, bytes: &[u8]) -> Result<(), AllocError>
    ensures { OnOk result
        (string_bytes out.new ≡ string_bytes out.old ++ data_line sandbox bytes.now) }
{
    write!(out, "DATA({sandbox}")?;
    for byte in bytes {
        push_number_field(out, *byte as usize)?;
    }
    push_number_field(out, 0)?;
    push_closing(out)
}

/// Appends the line that ends a sandbox and the last function of its code.
fn push_last_line(out: &mut String) -> Result<(), AllocError>
    ensures { OnOk result (string_bytes out.new ≡ string_bytes out.old ++ last_line) }
{
    out.push_str("LAST\n")
}

/// Appends the lines of a sandbox.
fn push_sandbox_lines(
    out: &mut String,
    format: Format,
    sandbox: u32,
    part: &SandboxPart,
    entries: &ChosenUnits,
) -> Result<(), AllocError>
    requires { IsRightPart (view format part.now) }
    ensures { OnOk result (Adds (string_bytes out.old) (string_bytes out.new)
        (IsSandboxText sandbox (view format part.now))) }
{
    push_sandbox_line(out, format, sandbox, part)?;
    for gate in &part.gates {
        push_gate_line(out, gate)?;
    }
    push_data_line(out, sandbox, part.init)?;
    push_code_lines(out, format, sandbox, part, entries)?;
    push_last_line(out)
}

/// The translation of an image, as `include/sfi_native.h` reads it: for each sandbox a line of its
/// fields, a line for each gate, a line of its first data, and a line for each instruction.
///
/// Each unit of code is read from its first byte, as the rules read it; in an accepted image nothing
/// is left of it. Which units are entries is chosen so that indirect jumps and turns are fast. The
/// one error is that an allocation was refused.
pub fn translation_text(alloc: Global, image: &Image<'_>) -> Result<String, AllocError>
    ensures text { IfOk result (λ text. IsTranslation image.now (string_bytes text)) }
{
    let mut out = String::new(alloc);
    let format = image.format();
    for (sandbox, part) in image.parts().iter().enumerate() {
        let entries = ChosenUnits::of_sandbox(alloc, format, part)?;
        push_sandbox_lines(&mut out, format, sandbox as u32, part, &entries)?;
    }
    Ok(out)
}
