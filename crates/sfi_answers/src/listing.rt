//! The command `dis`.

ghost use Rattle.sfi_answers.specs.Answers.{Answers, dis};

use crate::fault::Stop;
use crate::verdict::Answer;
use sfi_image::{ImageFault, parse_image};
use sfi_report::listing_text;
use std::alloc::Global;

/// The listing of the image with these bytes.
pub fn listing_answer(alloc: Global, bytes: &[u8]) -> Result<Answer, Stop>
    ensures { Answers dis bytes.now result }
{
    match parse_image(alloc, bytes) {
        Ok(image) => Ok(Answer::lines(0, listing_text(alloc, &image)?)),
        Err(ImageFault::Layout(fault)) => Err(Stop::Layout(fault)),
        Err(ImageFault::Memory) => Err(Stop::Memory),
    }
}
