//! The command `check --raw`.

ghost use Rattle.std.specs.Prelude.{◌≡◌, ◌<◌, ◌≤◌, ℕ, List, Bool, false, IfOk, IfSome};
ghost use Rattle.sfi_check.specs.Verdict.{IsVerdictOn};
ghost use Rattle.sfi_answers.specs.Answers.{check};
ghost use Rattle.sfi_answers.specs.FaultTexts.{IsFaultLine};
ghost use Rattle.sfi_answers.specs.private.{IsJudged};

use crate::fault_lines::layout_line;
use crate::verdict::{Answer, accepted_line, refused_line};
use sfi_check::{StreamAnswer, check_stream};
use sfi_image::ReaderSource;
use sfi_io::ReadStop;
use std::alloc::Global;
use std::io::Read;

/// The answer for the verdict on a stream, an image that was read in pieces; `Err` where a read
/// failed or memory ran out.
pub(crate) fn stream_answer(alloc: Global, verdict: StreamAnswer) -> Result<Answer, ReadStop>
    requires { (bytes : List ℕ) × (ends : Bool) × IsVerdictOn bytes ends verdict }
    ensures statuses { IfOk result (λ a. a.status ≤ 2) }
    ensures says { IfOk result (λ a. a.status < 2 → (all : List ℕ) → IsJudged verdict all
        → (check false).says all a.status a.output.items) }
    ensures line { IfOk result (λ a. a.status ≡ 2 → (all : List ℕ) → IsJudged verdict all
        → IsFaultLine (check false) all a.output.items) }
{
    match verdict {
        StreamAnswer::Accepted { sandboxes, bundles } => Ok(Answer::lines(
            0,
            accepted_line(alloc, sandboxes as usize, bundles as usize)?,
        )),
        StreamAnswer::Findings { count, first } => Ok(Answer::lines(
            1,
            refused_line(alloc, count as usize, first)?,
        )),
        StreamAnswer::Layout(fault) => Ok(Answer::lines(2, layout_line(alloc, fault)?)),
        StreamAnswer::ReadFault => Err(ReadStop::Failed),
    }
}

/// The verdict on the image whose own bytes the reader gives, of which nothing is taken for digits
/// and no limit is kept. Memory is taken for its line alone, however long the image is.
pub fn raw_answer<R: Read>(alloc: Global, reader: &mut R) -> Result<Answer, ReadStop>
    ensures statuses { IfOk result (λ a. a.status ≤ 2) }
    ensures says { IfOk result (λ a. a.status < 2
        → IfSome (R.remaining reader.old)
        (λ bytes. (check false).says bytes a.status a.output.items)) }
    ensures line { IfOk result (λ a. a.status ≡ 2 → IfSome (R.remaining reader.old)
        (λ bytes. IsFaultLine (check false) bytes a.output.items)) }
{
    let mut source = ReaderSource::new(reader);
    let verdict = check_stream(&mut source);
    stream_answer(alloc, verdict)
}
