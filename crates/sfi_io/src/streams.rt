//! Reading the input to its end, and writing a text whole.
ghost use Rattle.std.specs.Prelude.{◌≡◌, IfOk};
ghost use Rattle.sfi_io.specs.Hexadecimal.{IsInput, WritesPart};
ghost use Rattle.sfi_io.specs.declared.streams.ReadStop.TheVariants.{Memory};
ghost use Rattle.std.specs.Bool.{OnTrue, OnFalse};
ghost use Rattle.std.specs.Io.KnownBytes.{Appends};

use std::alloc::{AllocError, Global};
use std::io::{Read, Write};

/// The most bytes of an input, a text or an image's own bytes, but for `check --raw`: 128 MiB.
/// `limit` of specs/Hexadecimal, the sentences of the crate `sfi`, tools/second_checker.py,
/// docs/IMAGE.md and tools/suygapid/native/exec.c have the number, too.
pub const INPUT_LIMIT: usize = 134217728;

/// How many bytes are read at a time, at most. They lie on the stack.
const PIECE: usize = 16384;

// The most reads of an input that keeps the limit: each but the last takes a byte or more.
const TURNS: usize = INPUT_LIMIT + 1;

/// All of the input, or the sign that it passes the limit.
#[derive(Drop)]
pub enum Input {
    Whole(Vec<u8>),
    TooLarge,
}

/// Why there is no input: a read failed, or an allocation was refused.
#[derive(Drop)]
pub enum ReadStop {
    Failed,
    Memory,
}

impl From<AllocError> for ReadStop {
    ghost from_gives = { λ _ e. e ≡ Memory };

    fn from(_e: AllocError) -> ReadStop {
        ReadStop::Memory
    }
}

/// Reads to the end, or past the limit, where `TooLarge` is the answer and what was read is
/// dropped. Every error of the reader is a failure: none is tried again.
pub fn read_input<R: Read>(alloc: Global, reader: &mut R) -> Result<Input, ReadStop>
    ensures { IfOk result (IsInput (R.remaining reader.old)) }
{
    let mut input = Vec::new(alloc);
    let mut piece = [0u8; PIECE];
    for _ in 0..TURNS {
        let Ok(count) = reader.read(&mut piece) else {
            return Err(ReadStop::Failed);
        };
        if count == 0 {
            return Ok(Input::Whole(input));
        }
        if count > INPUT_LIMIT - input.len() {
            return Ok(Input::TooLarge);
        }
        input.extend_from_slice(&piece[..count])?;
    }
    Ok(Input::TooLarge)
}

/// Writes the text, and says whether all of it was taken. A write that fails, or that takes nothing
/// of what is left, ends it: then the answer is `false`, and a part may have been written.
pub fn write_out<W: Write>(writer: &mut W, text: &[u8]) -> bool
    ensures whole { OnTrue result
        (Appends (W.contents writer.old) (W.contents writer.new) text.now) }
    ensures part { OnFalse result
        (WritesPart (W.contents writer.old) (W.contents writer.new) text.now) }
{
    let mut rest = text;
    while !rest.is_empty() {
        match writer.write(rest) {
            Ok(0) => return false,
            Ok(count) => {
                let (_, after) = rest.split_at(count);
                rest = after;
            }
            Err(_) => return false,
        }
    }
    true
}
