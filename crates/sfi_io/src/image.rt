//! Input that is an image: its own bytes, or hexadecimal text.

ghost use Rattle.std.specs.Prelude.{◌≡◌, ◌<◌, ◌≤◌, ◌↔◌, ℕ, List, IsTrue, IfOk, IfErr, IfSome, IsErr, length};
ghost use Rattle.std.specs.Io.KnownBytes.{Consumes};
ghost use Rattle.sfi_io.specs.Hexadecimal.{GivesBytes, IsHexStop};
ghost use Rattle.sfi_io.specs.Hexadecimal.{BeginsAsImage, GivesImage, GivesNoImage};
ghost use Rattle.sfi_io.specs.Hexadecimal.{limit};

use crate::hexadecimal::{HexStop, bytes_of};
use crate::streams::ReadStop;
use sfi_formats::Format;
use std::alloc::Global;
use std::io::Read;

/// How many bytes a magic has, the mark of its format with which an image begins.
const MAGIC_BYTES: usize = 4;

/// Whether the input begins with the magic of a format: then it is taken for an image's own bytes,
/// and else for hexadecimal text. A new format is to be added here.
pub fn begins_as_image(input: &[u8]) -> bool
    ensures { IsTrue result ↔ BeginsAsImage input.now }
{
    Format::Sfi1.begins(input)
        || Format::Sfi2.begins(input)
        || Format::Sfiw.begins(input)
        || Format::Sfis.begins(input)
}

/// The bytes of the image that the input is, or those that it spells as hexadecimal text. Where
/// that has two faults, an odd number of digits goes before a byte that is no digit.
pub fn image_bytes(alloc: Global, input: &[u8]) -> Result<Vec<u8>, HexStop>
    requires { length input.now ≤ limit }
    ensures bytes { IfOk result (λ v. GivesImage input.now v.items) }
    ensures stop { IfErr result (IsHexStop input.now) }
    ensures only_bytes { (bytes : List ℕ) → GivesImage input.now bytes → GivesBytes bytes result }
    ensures only_stop { GivesNoImage input.now → IsErr result }
{
    if begins_as_image(input) {
        return Ok(Vec::from_slice(alloc, input)?);
    }
    bytes_of(alloc, input)
}

/// Reads the first bytes, four or a few more, or all where there are fewer: enough to say whether the
/// input begins as an image. Every error of the reader is a failure: none is tried again.
pub fn read_first_bytes<R: Read>(alloc: Global, reader: &mut R) -> Result<Vec<u8>, ReadStop>
    ensures front { IfOk result
        (λ front. Consumes (R.remaining reader.old) (R.remaining reader.new) front.items) }
    ensures begins { IfOk result (λ front. IfSome (R.remaining reader.old)
        (λ input. BeginsAsImage front.items ↔ BeginsAsImage input)) }
{
    let mut front = Vec::new(alloc);
    let mut piece = [0u8; MAGIC_BYTES];
    while front.len() < MAGIC_BYTES {
        let Ok(count) = reader.read(&mut piece) else {
            return Err(ReadStop::Failed);
        };
        if count == 0 {
            return Ok(front);
        }
        front.extend_from_slice(&piece[..count])?;
    }
    Ok(front)
}
