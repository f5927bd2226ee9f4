//! The command `convert`.

ghost use Rattle.std.specs.Prelude.{◌≡◌, ◌≢◌, [], IfOk, string_bytes};
ghost use Rattle.sfi_check.specs.declared.conversion.ConvertFault.TheVariants.{Refused};
ghost use Rattle.sfi_answers.specs.private.{AnswersConvertFault, HoldsSome};
ghost use Rattle.sfi_answers.specs.Answers.{Answers};
ghost use Rattle.sfi_answers.specs.Answers.{refused_line};
ghost use Rattle.sfi_answers.specs.Building.{convert};

use crate::fault::{InputFault, Stop};
use crate::verdict::{Answer, image_output, refused_line};
use sfi_check::{ConvertFault, Refusal, convert};
use sfi_rules::Finding;
use std::alloc::{AllocError, Global};

/// The verdict's line on these findings: how many they are, and the first.
fn findings_line(alloc: Global, findings: &[Finding]) -> Result<String, AllocError>
    requires { findings.now ≢ [] }
    ensures { IfOk result (λ line. string_bytes line ≡ refused_line findings.now) }
{
    refused_line(alloc, findings.len(), findings[0])
}

/// What the command answers where `check` doesn't accept the image: a verdict for findings, and a
/// `Stop` where the bytes are no image or memory ran out.
fn refused_answer(alloc: Global, refusal: Refusal) -> Result<Answer, Stop>
    requires { HoldsSome (Refused refusal) }
    ensures { AnswersConvertFault (Refused refusal) result }
{
    match refusal {
        Refusal::Layout(fault) => Err(Stop::Layout(fault)),
        Refusal::Findings(found) => Ok(Answer::lines(1, findings_line(alloc, found.as_slice())?)),
        Refusal::Memory => Err(Stop::Memory),
    }
}

/// What the command answers on bytes that are not converted: a verdict where the code breaks a rule
/// of the first format or of the second (`Stack`), else a `Stop`.
fn fault_answer(alloc: Global, fault: ConvertFault) -> Result<Answer, Stop>
    requires { HoldsSome fault }
    ensures { AnswersConvertFault fault result }
{
    match fault {
        ConvertFault::Refused(refusal) => refused_answer(alloc, refusal),
        ConvertFault::NotOld => Err(Stop::Input(InputFault::NotOld)),
        ConvertFault::Stack(found) => Ok(Answer::lines(1, findings_line(alloc, found.as_slice())?)),
        ConvertFault::Memory => Err(Stop::Memory),
        ConvertFault::Words => Err(Stop::Input(InputFault::Words)),
    }
}

/// The image with these bytes in the second format, as bytes where `raw` says so, and else in
/// hexadecimal digits on one line; or the verdict where it breaks a rule of either format.
pub fn conversion_answer(alloc: Global, raw: bool, bytes: &[u8]) -> Result<Answer, Stop>
    ensures { Answers (convert raw) bytes.now result }
{
    match convert(alloc, bytes) {
        Ok(new) => Ok(Answer {
            status: 0,
            output: image_output(alloc, raw, new)?,
        }),
        Err(fault) => fault_answer(alloc, fault),
    }
}
