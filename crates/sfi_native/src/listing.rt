//! The lines of a sandbox's code: those that sfi_translate spells (`AreLines` there), but for
//! entries, which native code doesn't need. A unit is a bundle, or, in formats of words, a word.
ghost use Rattle.std.specs.Prelude.{◌≡◌, ◌+◌, ◌^◌, ◌≤◌, ◌++◌, ◌∷◌, [], OnOk, IfOk, length, map};
ghost use Rattle.sfi_image.specs.Spelling.{view};
ghost use Rattle.sfi_image.specs.Parts.{IsRightPart};
ghost use Rattle.sfi_translate.specs.Lines.{AreLines, AreUnitLines, function_lines, head_lines};
ghost use Rattle.sfi_native.specs.Lines.{line_of};
ghost use Rattle.sfi_native.specs.private.{AddsLines, AreReadingLines};

use crate::line::Line;
use rv_comp::{Front, read_front};
use sfi_formats::Format;
use sfi_image::SandboxPart;
use sfi_translate::{FUNCTION_MOST, HEAD_BYTES};
use std::alloc::{AllocError, Global};

/// Adds a line.
fn add(out: &mut Vec<Line>, line: Line) -> Result<(), AllocError>
    ensures { OnOk result (map line_of out.new.items ≡ map line_of out.old.items ++ line_of line ∷ []) }
{
    out.extend_from_slice(&[line])?;
    Ok(())
}

/// Adds the lines with which a function ends and another begins, if that is before the unit at
/// `offset`, in bytes from the code's start, whose address is `at`; or else nothing.
fn push_function(
    out: &mut Vec<Line>,
    sandbox: u32,
    offset: usize,
    at: u32,
) -> Result<(), AllocError>
    ensures { OnOk result (map line_of out.new.items ≡ map line_of out.old.items ++ function_lines sandbox offset at) }
{
    if offset == 0 {
        add(out, Line::Function { sandbox, at })?;
    } else if offset % FUNCTION_MOST as usize == 0 {
        add(out, Line::End { at })?;
        add(out, Line::Function { sandbox, at })?;
    }
    Ok(())
}

/// Adds the line of a head, where code tests the steps that are left, if one stands at the address.
fn push_head(out: &mut Vec<Line>, at: u32) -> Result<(), AllocError>
    ensures { OnOk result (map line_of out.new.items ≡ map line_of out.old.items ++ head_lines at) }
{
    if at % HEAD_BYTES == 0 {
        add(out, Line::Head { at })?;
    }
    Ok(())
}

/// Adds a line for each instruction of a unit, whose bytes are at the address, up to the first place
/// where they make none.
fn push_reading(out: &mut Vec<Line>, address: u32, bytes: &[u8]) -> Result<(), AllocError>
    requires { address + length bytes.now ≤ 2 ^ 32 }
    ensures { OnOk result (AddsLines out.old.items out.new.items (AreReadingLines address bytes.now)) }
{
    let mut place = 0;
    while place < bytes.len() {
        match read_front(&bytes[place..]) {
            Front::Read(instr, size) => {
                let at = address + place as u32;
                add(out, Line::Does { at, size, instr })?;
                place += size as usize;
            }
            Front::Short | Front::Bad => return Ok(()),
        }
    }
    Ok(())
}

/// Adds the lines of the unit `bytes`, which is at address `at` and `offset` bytes behind the code's
/// start.
fn push_unit(
    out: &mut Vec<Line>,
    sandbox: u32,
    offset: usize,
    at: u32,
    bytes: &[u8],
) -> Result<(), AllocError>
    requires { at + length bytes.now ≤ 2 ^ 32 }
    ensures { OnOk result (AddsLines out.old.items out.new.items (AreUnitLines sandbox offset at bytes.now)) }
{
    push_function(out, sandbox, offset, at)?;
    push_head(out, at)?;
    push_reading(out, at, bytes)
}

/// The lines of the code of the sandbox of that number, without entries.
pub fn lines_of(
    alloc: Global,
    format: Format,
    sandbox: u32,
    part: &SandboxPart<'_>,
) -> Result<Vec<Line>, AllocError>
    requires { IsRightPart (view format part.now) }
    ensures { IfOk result (λ lines. AreLines sandbox (view format part.now) (map line_of lines.items)) }
{
    let unit = format.unit() as usize;
    let mut lines = Vec::new(alloc);
    let mut offset = 0;
    while offset < part.code.len() {
        let end = offset + unit;
        let at = part.code_base + offset as u32;
        push_unit(&mut lines, sandbox, offset, at, &part.code[offset..end])?;
        offset = end;
    }
    Ok(lines)
}
