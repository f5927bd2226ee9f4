//! The file of an image's native code, as specs/File.antt says it and include/sfi_native_code.h reads
//! it. Each `push_` function appends to `out`.
ghost use Rattle.std.specs.Prelude.{◌≡◌, ◌++◌, ◌<◌, List, OnOk, IfOk, IfNone, IfSome, length, map, true, false, ◌+◌, ◌*◌};
ghost use Rattle.std.specs.List.{flat_map};
ghost use Rattle.sfi_image.specs.Spelling.{fields, fields_of, number, view};
ghost use Rattle.sfi_image.specs.Parts.{IsRightPart};
ghost use Rattle.sfi_report.specs.private.{Adds};
ghost use Rattle.sfi_translate.specs.Lines.{AreLines};
ghost use Rattle.sfi_native.specs.Code.{end_size};
ghost use Rattle.sfi_native.specs.Lines.{line_of};
ghost use Rattle.sfi_native.specs.Places.{exit_of};
ghost use Rattle.sfi_native.specs.Registers.{IsRightPlan};
ghost use Rattle.sfi_native.specs.Sizes.{bytes_most};
ghost use Rattle.sfi_native.specs.File.{AreSandboxFiles, IsNativeFile, IsSandboxFile, access_bytes, count, front, place_bytes, sandbox_bytes, sealed};

use crate::byte_sizes::END_BYTES;
use crate::checksum::crc32;
use crate::compilation::{CompiledCode, compile};
use crate::faults::Access;
use crate::line::Line;
use crate::listing::lines_of;
use crate::plan::Plan;
use crate::uses::plan_of;
use sfi_formats::Format;
use sfi_image::{Image, SandboxPart};
use std::alloc::{AllocError, Global};
use x86_instr::Register;

/// Appends the number in four bytes, the lowest first.
#[tactic(auto, unfolding(sfi_image::specs::Spelling::number))]
fn push_number(out: &mut Vec<u8>, n: u32) -> Result<(), AllocError>
    ensures { OnOk result (out.new.items ≡ out.old.items ++ number n) }
{
    out.extend_from_slice(&n.to_le_bytes())?;
    Ok(())
}

/// Appends a count, of which 32 bits are kept.
fn push_count(out: &mut Vec<u8>, n: usize) -> Result<(), AllocError>
    ensures { OnOk result (out.new.items ≡ out.old.items ++ count n) }
{
    push_number(out, (n % 0x1_0000_0000) as u32)
}

/// Appends numbers.
fn push_numbers(out: &mut Vec<u8>, numbers: &[u32]) -> Result<(), AllocError>
    ensures { OnOk result (out.new.items ≡ out.old.items ++ flat_map number numbers.now) }
{
    for n in numbers {
        push_number(out, *n)?;
    }
    Ok(())
}

/// Appends one place where code accesses the data: its offset, pc and owed steps, 12 bytes.
#[tactic(auto, using(std::proofs::Common::append_assoc))]
fn push_access(out: &mut Vec<u8>, one: Access) -> Result<(), AllocError>
    ensures { OnOk result (out.new.items ≡ out.old.items ++ access_bytes one) }
{
    push_number(out, one.offset)?;
    push_number(out, one.pc)?;
    push_number(out, one.owed)
}

/// Appends all places where code accesses the data.
fn push_accesses(out: &mut Vec<u8>, accesses: &[Access]) -> Result<(), AllocError>
    ensures { OnOk result (out.new.items ≡ out.old.items ++ flat_map access_bytes accesses.now) }
{
    for one in accesses {
        push_access(out, *one)?;
    }
    Ok(())
}

/// Appends the seven fields of a sandbox, as the image has them.
#[tactic(auto, using(std::proofs::Common::append_assoc), unfolding(sfi_image::specs::Spelling::fields))]
fn push_fields(out: &mut Vec<u8>, one: &SandboxPart<'_>) -> Result<(), AllocError>
    requires { (format : Format) × IsRightPart (view format one.now) }
    ensures { (format : Format) → OnOk result (out.new.items ≡ out.old.items ++ fields (fields_of (view format one.now))) }
{
    push_number(out, one.code_base)?;
    push_number(out, one.code.len() as u32)?;
    push_number(out, one.data_base)?;
    push_number(out, one.data_size)?;
    push_number(out, one.start)?;
    push_number(out, one.gates.len() as u32)?;
    push_number(out, one.init.len() as u32)
}

/// Appends where one of a sandbox's registers lies, in a byte: the number of the processor's
/// register, or 255 for the frame.
fn push_place(out: &mut Vec<u8>, place: Option<Register>) -> Result<(), AllocError>
    ensures { OnOk result (out.new.items ≡ out.old.items ++ place_bytes place) }
{
    match place {
        Some(q) => out.push(q.number())?,
        None => out.push(255)?,
    }
    Ok(())
}

/// Appends where each of a sandbox's registers lies.
fn push_places(out: &mut Vec<u8>, places: &[Option<Register>]) -> Result<(), AllocError>
    ensures { OnOk result (out.new.items ≡ out.old.items ++ flat_map place_bytes places.now) }
{
    for place in places {
        push_place(out, *place)?;
    }
    Ok(())
}

/// Appends the sandbox `part` with its code, which was compiled by that plan.
#[tactic(auto, using(std::proofs::Common::append_assoc))]
fn push_code(
    out: &mut Vec<u8>,
    part: &SandboxPart<'_>,
    plan: &Plan,
    code: &CompiledCode,
) -> Result<(), AllocError>
    requires { (format : Format) × IsRightPart (view format part.now) }
    ensures { (format : Format) → OnOk result (out.new.items
        ≡ out.old.items ++ sandbox_bytes plan.now (view format part.now) code.now.entries.items code.now.accesses.items code.now.bytes.items) }
{
    push_fields(out, part)?;
    push_places(out, &plan.assigned)?;
    push_count(out, code.bytes.len())?;
    push_count(out, code.accesses.len())?;
    push_numbers(out, &code.entries)?;
    push_accesses(out, &code.accesses)?;
    out.extend_from_slice(&code.bytes)?;
    Ok(())
}

/// Compiles the sandbox of that number by that plan, and appends it. False where its code would have
/// more than 24 bytes (`bytes_most` of specs/Sizes.antt) for each of the sandbox's and `END_BYTES` at
/// its end: then nothing is appended.
#[tactic(auto, using(crate::proofs::CodeSizes::code_few))]
fn push_by(
    out: &mut Vec<u8>,
    alloc: Global,
    format: Format,
    sandbox: u32,
    part: &SandboxPart<'_>,
    plan: &Plan,
    lines: &[Line],
) -> Result<bool, AllocError>
    requires part { IsRightPart (view format part.now) }
    requires plan { IsRightPlan plan.now }
    requires plan_format { plan.now.format ≡ format }
    requires lines { AreLines sandbox (view format part.now) (map line_of lines.now) }
    ensures many { IfOk result (λ ok. ok ≡ false
        → (bytes_most * length (view format part.now).code + end_size < exit_of plan.now (map line_of lines.now)) × (out.new.items ≡ out.old.items)) }
    ensures adds { IfOk result (λ ok. ok ≡ true
        → Adds out.old.items out.new.items (IsSandboxFile sandbox (view format part.now))) }
{
    let Some(code) = compile(alloc, format, part, plan, lines)? else {
        return Ok(false);
    };
    if code.bytes.len() > 24 * part.code.len() + END_BYTES as usize {
        return Ok(false);
    }
    push_code(out, part, plan, &code)?;
    Ok(true)
}

/// Appends the sandbox of that number, without nops if code with them is too large. False if it is
/// too large without them, too, which is proved never to be.
fn push_sandbox(
    out: &mut Vec<u8>,
    alloc: Global,
    format: Format,
    sandbox: u32,
    part: &SandboxPart<'_>,
) -> Result<bool, AllocError>
    requires { IsRightPart (view format part.now) }
    ensures always { IfOk result (λ ok. ok ≡ true) }
    ensures adds { IfOk result (λ ok. ok ≡ true
        → Adds out.old.items out.new.items (IsSandboxFile sandbox (view format part.now))) }
{
    let lines = lines_of(alloc, format, sandbox, part)?;
    let mut plan = plan_of(alloc, format, part, &lines)?;
    if push_by(out, alloc, format, sandbox, part, &plan, &lines)? {
        return Ok(true);
    }
    plan.padding.clear();
    let small = push_by(out, alloc, format, sandbox, part, &plan, &lines)?;
    Ok(small)
}

/// Appends the sandboxes of an image. False if code of one is too large, which is proved never to be.
fn push_sandboxes(out: &mut Vec<u8>, alloc: Global, image: &Image<'_>) -> Result<bool, AllocError>
    ensures always { IfOk result (λ ok. ok ≡ true) }
    ensures adds { IfOk result (λ ok. ok ≡ true → Adds out.old.items out.new.items (AreSandboxFiles 0 image.now)) }
{
    let format = image.format();
    for (sandbox, part) in image.parts().iter().enumerate() {
        if !push_sandbox(out, alloc, format, sandbox as u32, part)? {
            return Ok(false);
        }
    }
    Ok(true)
}

/// Appends the file's first 24 bytes: what it is and its version, 5; length and checksum of `bytes`,
/// which are the image's; its format and how many sandboxes it has. `front` of specs/File.antt and
/// SFI_FRONT of include/sfi_native_code.h say so, too.
fn push_front(out: &mut Vec<u8>, image: &Image<'_>, bytes: &[u8]) -> Result<(), AllocError>
    ensures { OnOk result (out.new.items ≡ out.old.items ++ front bytes.now image.now) }
{
    out.extend_from_slice(b"SFIN")?;
    push_number(out, 5)?;
    push_count(out, bytes.len())?;
    push_number(out, crc32(bytes))?;
    out.extend_from_slice(&image.format().magic())?;
    push_count(out, image.parts().len())
}

/// Appends the file's last 8 bytes: how many come before them, and the checksum of all before it.
fn seal(out: &mut Vec<u8>) -> Result<(), AllocError>
    ensures { OnOk result (out.new.items ≡ sealed out.old.items) }
{
    push_count(out, out.len())?;
    push_number(out, crc32(out))
}

/// The file of the native code of an image, whose bytes are `bytes`. None if a sandbox's code is too
/// large, which is proved never to be.
pub fn native_file(
    alloc: Global,
    image: &Image<'_>,
    bytes: &[u8],
) -> Result<Option<Vec<u8>>, AllocError>
    ensures file { IfOk result (λ file. IfSome file (λ it. IsNativeFile bytes.now image.now it.items)) }
    ensures always { IfOk result (λ file. IfNone file ⊥) }
{
    let mut out = Vec::new(alloc);
    push_front(&mut out, image, bytes)?;
    if !push_sandboxes(&mut out, alloc, image)? {
        return Ok(None);
    }
    seal(&mut out)?;
    Ok(Some(out))
}
