//! The command `native`.

ghost use Rattle.std.specs.Prelude.{◌≡◌, IfErr, IfOk};
ghost use Rattle.sfi_answers.specs.declared.fault.Stop.TheVariants.{Memory};
ghost use Rattle.sfi_answers.specs.Answers.{Answers, native};
ghost use Rattle.sfi_native.specs.File.{IsNativeFile};

use crate::checking::refusal_answer;
use crate::fault::Stop;
use crate::verdict::Answer;
use sfi_check::check;
use sfi_image::Image;
use sfi_native::native_file;
use std::alloc::Global;

/// The file of native code of an accepted image, whose bytes these are. No image's code is so long
/// that there is none (law `EachCodeFits`); if it were, that would be want of memory.
fn file_of(alloc: Global, image: &Image<'_>, bytes: &[u8]) -> Result<Vec<u8>, Stop>
    ensures file { IfOk result (λ it. IsNativeFile bytes.now image.now it.items) }
    ensures memory { IfErr result (λ stop. stop ≡ Memory) }
{
    match native_file(alloc, image, bytes)? {
        Some(file) => Ok(file),
        None => Err(Stop::Memory),
    }
}

/// The native code of the image with these bytes, as a file; or the verdict where it has findings.
pub fn native_answer(alloc: Global, bytes: &[u8]) -> Result<Answer, Stop>
    ensures { Answers native bytes.now result }
{
    match check(alloc, bytes) {
        Ok(accepted) => Ok(Answer {
            status: 0,
            output: file_of(alloc, accepted.image(), bytes)?,
        }),
        Err(refusal) => refusal_answer(alloc, false, bytes, refusal),
    }
}
