//! The command `translate`.

ghost use Rattle.std.specs.Prelude.{◌≡◌, IfOk, string_bytes};
ghost use Rattle.sfi_answers.specs.Answers.{Answers};
ghost use Rattle.sfi_answers.specs.Answers.{IsTranslationText, back_text, front_text, translate};

use crate::checking::refusal_answer;
use crate::fault::Stop;
use crate::verdict::Answer;
use crate::whole_program::WHOLE_FRONT;
use sfi_check::check;
use sfi_image::Image;
use sfi_translate::translation_text;
use std::alloc::{AllocError, Global};

/// What stands before the lines of the translation: for a `whole` program the text of its headers
/// and console, which ends in `#else`, and for a host the include of `sfi_native.h`.
#[tactic(auto, unfolding(crate::specs::Answers::front_text))]
fn front_text(whole: bool) -> &'static str
    ensures { result.now ≡ front_text whole }
{
    if whole {
        WHOLE_FRONT
    } else {
        "#include \"sfi_native.h\"\n"
    }
}

/// What stands after the lines: for a `whole` program the end of the `#if` that its front opens.
#[tactic(auto, unfolding(crate::specs::Answers::back_text))]
fn back_text(whole: bool) -> &'static str
    ensures { result.now ≡ back_text whole }
{
    if whole { "#endif\n" } else { "" }
}

/// The translation of an image to C, as a `whole` program or for a host.
fn translated_text(alloc: Global, whole: bool, image: &Image<'_>) -> Result<String, AllocError>
    ensures { IfOk result (λ text. IsTranslationText whole image.now (string_bytes text)) }
{
    let mut text = String::from_str(alloc, front_text(whole))?;
    text.push_str(&translation_text(alloc, image)?)?;
    text.push_str(back_text(whole))?;
    Ok(text)
}

/// The image with these bytes as C, as a `whole` program or for a host; or the verdict where it has
/// findings.
pub fn translation_answer(alloc: Global, whole: bool, bytes: &[u8]) -> Result<Answer, Stop>
    ensures { Answers (translate whole) bytes.now result }
{
    match check(alloc, bytes) {
        Ok(accepted) => Ok(Answer::lines(0, translated_text(alloc, whole, accepted.image())?)),
        Err(refusal) => refusal_answer(alloc, false, bytes, refusal),
    }
}
