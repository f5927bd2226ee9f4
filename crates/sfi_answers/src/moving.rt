//! The command `move`.

ghost use Rattle.std.specs.Prelude.{ℕ, List, IfErr, IfOk, IsErr};
ghost use Rattle.sfi_places.specs.Moving.{IsMoved, IsMoveFault};
ghost use Rattle.sfi_places.specs.declared.moving.MoveFault.{MoveFault};
ghost use Rattle.sfi_answers.specs.Answers.{Answers};
ghost use Rattle.sfi_answers.specs.Moving.{move};
ghost use Rattle.sfi_answers.specs.private.{IsMovedCopy, IsMovedOrMemory, IsMoveStop};

use crate::checking::refusal_answer;
use crate::fault::{InputFault, Stop};
use crate::verdict::{Answer, image_output};
use sfi_check::check;
use sfi_formats::Place;
use sfi_places::{MoveFault, move_sandbox};
use std::alloc::Global;

/// A copy of the image's bytes with sandbox `number`, counted from 0, at the place `to`; or why it
/// can't lie there.
fn moved_copy(alloc: Global, bytes: &[u8], number: u32, to: Place) -> Result<Vec<u8>, Stop>
    ensures moved { IfOk result (λ now. IsMovedCopy bytes.now number to now.items) }
    ensures stop { IfErr result (IsMoveStop bytes.now number to) }
    ensures only_moved { (now : List ℕ) → IsMoved bytes.now number to now
        → IsMovedOrMemory result }
    ensures only_fault { (e : MoveFault) → IsMoveFault bytes.now number to e → IsErr result }
{
    let mut image = Vec::new(alloc);
    image.extend_from_slice(bytes)?;
    match move_sandbox(&mut image, number, to) {
        Ok(()) => Ok(image),
        Err(MoveFault::NoImage(fault)) => Err(Stop::Layout(fault)),
        Err(MoveFault::NoSandbox) => Err(Stop::Input(InputFault::NoSandbox)),
        Err(MoveFault::NoPlace) => Err(Stop::Input(InputFault::NoPlace)),
    }
}

/// The image with these bytes and sandbox `number` at the place `to`, as bytes where `raw` says so,
/// and else in hexadecimal digits on one line; or the verdict where it has findings.
pub fn move_answer(
    alloc: Global,
    raw: bool,
    number: u32,
    to: Place,
    bytes: &[u8],
) -> Result<Answer, Stop>
    ensures { Answers (move raw number to) bytes.now result }
{
    match check(alloc, bytes) {
        Ok(_) => {
            let image = moved_copy(alloc, bytes, number, to)?;
            Ok(Answer {
                status: 0,
                output: image_output(alloc, raw, image)?,
            })
        }
        Err(refusal) => refusal_answer(alloc, false, bytes, refusal),
    }
}
