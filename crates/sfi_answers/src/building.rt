//! The command `build`.
ghost use Rattle.std.specs.Prelude.{◌≡◌, ◌≤◌, IfErr, IfOk, IsUtf8, length};
ghost use Rattle.sfi_answers.specs.Building.{IsSourceText, build};
ghost use Rattle.sfi_answers.specs.Answers.{Answers};
ghost use Rattle.sfi_answers.specs.declared.fault.InputFault.TheVariants.{Utf8};
ghost use Rattle.sfi_answers.specs.declared.fault.Stop.TheVariants.{Input};
ghost use Rattle.sfi_io.specs.Hexadecimal.{limit};

use crate::fault::{InputFault, Stop};
use crate::verdict::{Answer, image_output};
use sfi_build::build_at;
use sfi_formats::Place;
use std::alloc::Global;

/// The source text that was read, or the fault `Utf8` where the bytes are no UTF-8.
pub(crate) fn source_text(text: &[u8]) -> Result<&str, Stop>
    requires { length text.now ≤ limit }
    ensures text { IfOk result (λ source. (source.now ≡ text.now) × IsSourceText source.now) }
    ensures stop { IfErr result (λ why. (why ≡ Input Utf8) × ¬ IsUtf8 text.now) }
{
    match std::str::from_utf8(text) {
        Ok(source) => Ok(source),
        Err(_) => Err(Stop::Input(InputFault::Utf8)),
    }
}

/// The image that the source text makes with its sandboxes at these places, as bytes where `raw`
/// says so, and else in hexadecimal digits on one line; or why it makes none.
pub fn build_answer(alloc: Global, raw: bool, places: &[Place], text: &[u8]) -> Result<Answer, Stop>
    requires { length text.now ≤ limit }
    ensures { Answers (build raw places.now) text.now result }
{
    let source = source_text(text)?;
    let bytes = build_at(alloc, source, places)?;
    Ok(Answer {
        status: 0,
        output: image_output(alloc, raw, bytes)?,
    })
}
