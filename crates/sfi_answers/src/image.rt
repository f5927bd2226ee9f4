//! The command `check` on an image that is read: its own bytes, or its text.

ghost use Rattle.std.specs.Prelude.{◌≡◌, ◌<◌, ◌≤◌, false, IfOk, IfSome};
ghost use Rattle.sfi_answers.specs.Answers.{on_image};
ghost use Rattle.sfi_answers.specs.Answers.{check};
ghost use Rattle.sfi_answers.specs.FaultTexts.{IsFaultLine};

use crate::own_bytes::OwnBytes;
use crate::pieces::pieces_answer;
use crate::verdict::Answer;
use sfi_io::{HexReader, ReadStop, begins_as_image, read_first_bytes};
use std::alloc::Global;
use std::io::Read;

/// The verdict on the image that the reader gives, as an image's bytes or as hexadecimal text, or
/// the line of a fault of the input. One piece is held at a time. Input is read to its end or past
/// its limit, since its fault goes before the verdict. `Err` is for a read that failed, or for
/// memory.
pub fn image_answer<R: Read>(alloc: Global, reader: &mut R) -> Result<Answer, ReadStop>
    ensures statuses { IfOk result (λ a. a.status ≤ 2) }
    ensures says { IfOk result (λ a. a.status < 2 → IfSome (R.remaining reader.old)
        (λ input. (on_image (check false)).says input a.status a.output.items)) }
    ensures line { IfOk result (λ a. a.status ≡ 2 → IfSome (R.remaining reader.old)
        (λ input. IsFaultLine (on_image (check false)) input a.output.items)) }
{
    let front = read_first_bytes(alloc, reader)?;
    let mut whole = front.as_slice().chain(reader);
    if begins_as_image(&front) {
        pieces_answer(alloc, OwnBytes::new(&mut whole))
    } else {
        pieces_answer(alloc, HexReader::new(&mut whole))
    }
}
