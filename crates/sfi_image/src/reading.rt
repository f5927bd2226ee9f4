//! Reading an image from left to right.
ghost use Rattle.std.specs.Prelude.{◌≡◌, ◌+◌, ◌≤◌, ◌++◌, ◌≢◌, ◌↔◌, ◌⊎◌, List, length, IsTrue, IfOk, IfErr, IfSome, IfNone};
ghost use Rattle.sfi_formats.specs.Formats.{magic};
ghost use Rattle.sfi_image.specs.declared.fault.LayoutFault.{LayoutFault};
ghost use Rattle.sfi_image.specs.Spelling.{Part, view, number, fields, gate, IsWord};
ghost use Rattle.sfi_image.specs.Numbers.{AreFieldWords, AreGateWords};
ghost use Rattle.sfi_image.specs.Parts.{IsImage};
ghost use Rattle.sfi_image.specs.Faults.{IsFault};
ghost use Rattle.sfi_image.specs.Faults.{IfLayout};
ghost use Rattle.sfi_image.specs.Keeping.{IsViewOf};
ghost use Rattle.sfi_image.specs.private.{Reads};

use crate::cursor::{ImageCursor, PartView};
use crate::fault::{ImageFault, LayoutFault};
use crate::fields::Fields;
use crate::image::Image;
use crate::part::{Gate, SandboxPart};
use byteorder::{ByteOrder, LittleEndian};
use sfi_formats::Format;
use std::alloc::Global;

pub(crate) const MAGIC_BYTES: usize = 4;

// How many bytes a number has.
pub(crate) const NUMBER_BYTES: usize = 4;

// How many bytes the seven fields of a sandbox have.
pub(crate) const FIELDS_BYTES: usize = 28;

// How many bytes a gate has.
pub(crate) const GATE_BYTES: usize = 8;

/// The number at the front, and the bytes after it.
pub(crate) fn number_at(bytes: &[u8]) -> (u32, &[u8])
    requires { NUMBER_BYTES ≤ length bytes.now }
    ensures front { bytes.now ≡ number result.0 ++ result.1.now }
    ensures word { IsWord result.0 }
    ensures len { length result.1.now + NUMBER_BYTES ≡ length bytes.now }
{
    let (front, rest) = bytes.split_at(NUMBER_BYTES);
    (LittleEndian::read_u32(front), rest)
}

/// The seven fields at the front, and the bytes after them.
pub(crate) fn fields_at(format: Format, bytes: &[u8]) -> (Fields, &[u8])
    requires { FIELDS_BYTES ≤ length bytes.now }
    ensures front { bytes.now ≡ fields result.0 ++ result.1.now }
    ensures words { AreFieldWords result.0 }
    ensures format { result.0.format ≡ format }
    ensures len { length result.1.now + FIELDS_BYTES ≡ length bytes.now }
{
    let (code_base, rest) = number_at(bytes);
    let (code_size, rest) = number_at(rest);
    let (data_base, rest) = number_at(rest);
    let (data_size, rest) = number_at(rest);
    let (start, rest) = number_at(rest);
    let (gate_count, rest) = number_at(rest);
    let (init_len, rest) = number_at(rest);
    let fields = Fields {
        format,
        code_base,
        code_size,
        data_base,
        data_size,
        start,
        gate_count,
        init_len,
    };
    (fields, rest)
}

/// The gate at the front, and the bytes after it.
pub(crate) fn gate_at(bytes: &[u8]) -> (Gate, &[u8])
    requires { GATE_BYTES ≤ length bytes.now }
    ensures front { bytes.now ≡ gate result.0 ++ result.1.now }
    ensures words { AreGateWords result.0 }
    ensures len { length result.1.now + GATE_BYTES ≡ length bytes.now }
{
    let (address, rest) = number_at(bytes);
    let (service, rest) = number_at(rest);
    (Gate { address, service }, rest)
}

/// Whether the bytes are the magic of the format.
fn is_magic(format: Format, front: &[u8]) -> bool
    ensures { IsTrue result ↔ (front.now ≡ magic format) }
{
    front == format.magic().as_slice()
}

/// The format of an image that begins with these four bytes; `None` where no format has them.
pub(crate) fn format_at(front: &[u8]) -> Option<Format>
    ensures found { IfSome result (λ format. front.now ≡ magic format) }
    ensures none { IfNone result ((format : Format) → front.now ≢ magic format) }
{
    if is_magic(Format::Sfi1, front) {
        Some(Format::Sfi1)
    } else if is_magic(Format::Sfi2, front) {
        Some(Format::Sfi2)
    } else if is_magic(Format::Sfiw, front) {
        Some(Format::Sfiw)
    } else if is_magic(Format::Sfis, front) {
        Some(Format::Sfis)
    } else {
        None
    }
}

/// The sandbox of a view, with a list of its gates. The only error is that memory is refused.
fn part_of_view<'a>(alloc: Global, found: PartView<'a>) -> Result<SandboxPart<'a>, ImageFault>
    requires { (p : Part) × IsViewOf found p }
    ensures part { IfOk result (λ q. (p : Part) → IsViewOf found.entry p → view p.format q ≡ p) }
    ensures memory { IfErr result (λ e. e ≡ ImageFault.Memory) }
{
    let mut gates = Vec::new(alloc);
    while let Some(gate) = found.gate(gates.len() as u32) {
        gates.push(gate)?;
    }
    Ok(SandboxPart {
        code_base: found.fields.code_base,
        data_base: found.fields.data_base,
        data_size: found.fields.data_size,
        start: found.fields.start,
        gates,
        code: found.code,
        init: found.init,
    })
}

/// The image that the bytes are, or their fault.
fn image_at<'a>(alloc: Global, bytes: &'a [u8]) -> Result<Image<'a>, ImageFault>
    ensures { Reads (IsImage bytes.entry.now) (IsFault bytes.entry.now) result }
{
    let mut cursor = ImageCursor::new(bytes)?;
    let format = cursor.format();
    let mut parts = Vec::new(alloc);
    while let Some(view) = cursor.next_part()? {
        let part = part_of_view(alloc, view)?;
        parts.push(part)?;
    }
    Ok(Image::new(format, parts))
}

/// Reads an image. It is refused with the first fault from the left. The sandboxes borrow their
/// code and their first data bytes; a list of gates is made for each.
pub fn parse_image<'a>(alloc: Global, bytes: &'a [u8]) -> Result<Image<'a>, ImageFault>
    ensures image { IfOk result (λ ps. IsImage bytes.entry.now ps) }
    ensures fault { IfErr result (λ e. IfLayout e (λ k. IsFault bytes.entry.now k)) }
    ensures only_image { (ps : List Part) → IsImage bytes.entry.now ps
        → (result ≡ Ok ps) ⊎ (result ≡ Err ImageFault.Memory) }
    ensures only_fault { (k : LayoutFault) → IsFault bytes.entry.now k
        → (result ≡ Err (ImageFault.Layout k)) ⊎ (result ≡ Err ImageFault.Memory) }
{
    image_at(alloc, bytes)
}
