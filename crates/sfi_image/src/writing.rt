//! Writing an image from left to right.
ghost use Rattle.std.specs.Prelude.{◌≡◌, ◌++◌, ◌⊎◌, ◌≤◌, ◌<◌, List, length, OnOk, IfOk, IfErr};
ghost use Rattle.std.specs.List.{All, flat_map};
ghost use Rattle.sfi_formats.specs.Limits.{sandboxes_most};
ghost use Rattle.sfi_formats.specs.declared.format.Format.TheVariants.{Sfi1};
ghost use Rattle.sfi_image.specs.declared.fault.LayoutFault.{LayoutFault};
ghost use Rattle.sfi_image.specs.Spelling.{view, views, number, fields, fields_of, gate, part, spelling};
ghost use Rattle.sfi_image.specs.Numbers.{AreWords};
ghost use Rattle.sfi_image.specs.Parts.{IsRightPart, IsRightLayout};
ghost use Rattle.sfi_image.specs.Faults.{IsFault};
ghost use Rattle.sfi_image.specs.Faults.{HaveFault};
ghost use Rattle.sfi_image.specs.Parts.{IsImage};
ghost use Rattle.sfi_image.specs.Faults.{IfLayout};
ghost use Rattle.sfi_image.specs.private.{Reads};

use crate::fault::ImageFault;
use crate::layout::check_layout;
use crate::part::{Gate, SandboxPart};
use byteorder::{ByteOrder, LittleEndian};
use sfi_formats::Format;
use std::alloc::{AllocError, Global};

#[tactic(auto, unfolding(crate::specs::Spelling::number))]
/// Appends the number in four bytes.
fn push_number(bytes: &mut Vec<u8>, n: u32) -> Result<(), AllocError>
    ensures { OnOk result (bytes.new.items ≡ bytes.old.items ++ number n) }
{
    let mut four = [0; 4];
    LittleEndian::write_u32(&mut four, n);
    bytes.extend_from_slice(&four)?;
    Ok(())
}

#[tactic(auto, using(std::proofs::Common::append_assoc), unfolding(crate::specs::Spelling::gate))]
/// Appends the eight bytes of the gate.
fn push_gate(bytes: &mut Vec<u8>, one: Gate) -> Result<(), AllocError>
    ensures { OnOk result (bytes.new.items ≡ bytes.old.items ++ gate one) }
{
    push_number(bytes, one.address)?;
    push_number(bytes, one.service)?;
    Ok(())
}

/// Appends the gates.
fn push_gates(bytes: &mut Vec<u8>, gates: &[Gate]) -> Result<(), AllocError>
    ensures { OnOk result (bytes.new.items ≡ bytes.old.items ++ flat_map gate gates.now) }
{
    for one in gates {
        push_gate(bytes, *one)?;
    }
    Ok(())
}

#[tactic(auto, using(std::proofs::Common::append_assoc), unfolding(crate::specs::Spelling::fields))]
/// Appends the seven fields of a sandbox, in the order in which `fields_at` of `reading.rt` reads
/// them.
fn push_fields(bytes: &mut Vec<u8>, one: &SandboxPart<'_>) -> Result<(), AllocError>
    requires { (format : Format) × IsRightPart (view format one.now) }
    ensures { (format : Format) → OnOk result
        (bytes.new.items ≡ bytes.old.items ++ fields (fields_of (view format one.now))) }
{
    push_number(bytes, one.code_base)?;
    push_number(bytes, one.code.len() as u32)?;
    push_number(bytes, one.data_base)?;
    push_number(bytes, one.data_size)?;
    push_number(bytes, one.start)?;
    push_number(bytes, one.gates.len() as u32)?;
    push_number(bytes, one.init.len() as u32)?;
    Ok(())
}

#[tactic(auto, using(std::proofs::Common::append_assoc), unfolding(crate::specs::Spelling::part))]
/// Appends the sandbox: its fields, its gates, its code and its first data bytes.
fn push_part(bytes: &mut Vec<u8>, one: &SandboxPart<'_>) -> Result<(), AllocError>
    requires { (format : Format) × IsRightPart (view format one.now) }
    ensures { (format : Format) → OnOk result
        (bytes.new.items ≡ bytes.old.items ++ part (view format one.now)) }
{
    push_fields(bytes, one)?;
    push_gates(bytes, &one.gates)?;
    bytes.extend_from_slice(one.code)?;
    bytes.extend_from_slice(one.init)?;
    Ok(())
}

/// Writes the image of sandboxes whose layout is right.
fn write_valid_parts(
    alloc: Global,
    format: Format,
    parts: &[SandboxPart<'_>],
) -> Result<Vec<u8>, AllocError>
    requires { IsRightLayout (views format parts.now) }
    ensures { IfOk result (λ bytes. bytes.items ≡ spelling (views format parts.now)) }
{
    let mut bytes = Vec::new(alloc);
    bytes.extend_from_slice(&format.magic())?;
    push_number(&mut bytes, parts.len() as u32)?;
    for one in parts {
        push_part(&mut bytes, one)?;
    }
    Ok(bytes)
}

/// The image of these sandboxes, or their fault, or that memory is refused.
fn image_of(alloc: Global, format: Format, parts: &[SandboxPart<'_>]) -> Result<Vec<u8>, ImageFault>
    ensures { Reads (λ bytes. IsImage bytes.items (views format parts.now))
        (HaveFault (views format parts.now)) result }
{
    check_layout(alloc, format, parts)?;
    Ok(write_valid_parts(alloc, format, parts)?)
}

/// Writes an image of this format, or refuses with what reading it would find first. A length above
/// 32 bits fails the test of its field.
pub fn write_image_as(
    alloc: Global,
    format: Format,
    parts: &[SandboxPart<'_>],
) -> Result<Vec<u8>, ImageFault>
    // What each answer means.
    ensures image { IfOk result (λ bytes. IsImage bytes.items (views format parts.now)) }
    ensures fault { IfErr result (λ e. IfLayout e (HaveFault (views format parts.now))) }

    // Which sandboxes get each answer, want of memory aside.
    ensures only_image { IsRightLayout (views format parts.now)
        → IfErr result (λ e. e ≡ ImageFault.Memory) }
    ensures only_fault { (k : LayoutFault) → HaveFault (views format parts.now) k
        → (result ≡ Err (ImageFault.Layout k)) ⊎ (result ≡ Err ImageFault.Memory) }

    // Of no more sandboxes than an image may have, whose numbers all have 32 bits,
    // the fault is that of their bytes.
    ensures as_read { length parts.now ≤ sandboxes_most → All AreWords (views format parts.now)
        → IfErr result (λ e. IfLayout e (λ k. IsFault (spelling (views format parts.now)) k)) }
{
    image_of(alloc, format, parts)
}

/// Writes an image of the first format, or refuses with what reading it would find first. A length
/// above 32 bits fails the test of its field.
pub fn write_image(alloc: Global, parts: &[SandboxPart<'_>]) -> Result<Vec<u8>, ImageFault>
    // What each answer means.
    ensures image { IfOk result (λ bytes. IsImage bytes.items (views Sfi1 parts.now)) }
    ensures fault { IfErr result (λ e. IfLayout e (HaveFault (views Sfi1 parts.now))) }

    // Which sandboxes get each answer, want of memory aside.
    ensures only_image { IsRightLayout (views Sfi1 parts.now)
        → IfErr result (λ e. e ≡ ImageFault.Memory) }
    ensures only_fault { (k : LayoutFault) → HaveFault (views Sfi1 parts.now) k
        → (result ≡ Err (ImageFault.Layout k)) ⊎ (result ≡ Err ImageFault.Memory) }

    // Of no more sandboxes than an image may have, whose numbers all have 32 bits,
    // the fault is that of their bytes.
    ensures as_read { length parts.now ≤ sandboxes_most → All AreWords (views Sfi1 parts.now)
        → IfErr result (λ e. IfLayout e (λ k. IsFault (spelling (views Sfi1 parts.now)) k)) }
{
    write_image_as(alloc, Format::Sfi1, parts)
}
