//! What a command answers.

ghost use Rattle.std.specs.Prelude.{◌≡◌, IfOk, string_bytes};
ghost use Rattle.sfi_answers.specs.Answers.{accepted_text, refused_text};
ghost use Rattle.sfi_answers.specs.Building.{digits_line, image_output};

use sfi_report::push_eight_digits;
use sfi_rules::Finding;
use std::alloc::{AllocError, Global};

/// What a command answers: the status to end with, and what is printed.
#[derive(Debug, Drop)]
pub struct Answer {
    /// 0 where the job was done, 1 where the image has findings, 2 for a fault of the input.
    pub status: u8,
    /// Whole lines, each of which ends in LF, or an image's bytes.
    pub output: Vec<u8>,
}

impl Answer {
    ghost use Rattle.std.specs.Prelude.{◌≡◌, string_bytes};

    /// The answer of whole lines, each of which ends in LF.
    pub fn lines(status: u8, text: String) -> Answer
        ensures status { result.status ≡ status }
        ensures output { result.output.items ≡ string_bytes text }
    {
        Answer {
            status,
            output: text.into_bytes(),
        }
    }
}

/// The verdict's line on an image without findings, with its counts of sandboxes and of bundles: of
/// 16 bytes of code each, also in code in words.
pub(crate) fn accepted_line(
    alloc: Global,
    sandboxes: usize,
    bundles: usize,
) -> Result<String, AllocError>
    ensures { IfOk result (λ line. string_bytes line ≡ accepted_text sandboxes bundles) }
{
    format!(in alloc; "accepted sandboxes={sandboxes} bundles={bundles}\n")
}

/// The verdict's line on an image with `count` findings, of which `first` is the first.
pub(crate) fn refused_line(
    alloc: Global,
    count: usize,
    first: Finding,
) -> Result<String, AllocError>
    ensures { IfOk result (λ line. string_bytes line ≡ refused_text count first) }
{
    let Finding {
        sandbox,
        address,
        rule,
    } = first;
    let number = rule.number();
    let mut line = format!(in alloc;
        "refused findings={count} first=V{number} sandbox={sandbox} at="
    )?;
    push_eight_digits(&mut line, address)?;
    line.push_str("\n")?;
    Ok(line)
}

/// The bytes in lower-case hexadecimal digits, on one line.
fn digits_line(alloc: Global, bytes: &[u8]) -> Result<String, AllocError>
    ensures { IfOk result (λ line. string_bytes line ≡ digits_line bytes.now) }
{
    let mut line = hex::encode(alloc, bytes)?;
    line.push_str("\n")?;
    Ok(line)
}

/// What is printed of an image: its bytes as they are, where `raw` says so, or else lower-case
/// hexadecimal digits on one line.
pub(crate) fn image_output(alloc: Global, raw: bool, bytes: Vec<u8>) -> Result<Vec<u8>, AllocError>
    ensures { IfOk result (λ output. output.items ≡ image_output raw bytes.items) }
{
    if raw {
        return Ok(bytes);
    }
    Ok(digits_line(alloc, &bytes)?.into_bytes())
}
