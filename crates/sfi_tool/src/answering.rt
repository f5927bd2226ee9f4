//! What a job answers on what was read.

ghost use Rattle.std.specs.Prelude.{◌≡◌, ◌≤◌, ◌<◌, false, length, IfOk};
ghost use Rattle.sfi_answers.specs.FaultTexts.{IsFaultLine};
ghost use Rattle.sfi_answers.specs.declared.fault.Stop.{Stop};
ghost use Rattle.sfi_command.specs.Command.{is_raw};
ghost use Rattle.sfi_io.specs.Hexadecimal.{limit};
ghost use Rattle.sfi_tool.specs.Says.{HasInputFault, IsDone, IsRefused, Says, meaning_of};
ghost use Rattle.sfi_answers.specs.Answers.{Answers};

use crate::running::run_answer;
use sfi_answers::{
    Answer, InputFault, Stop, build_answer, check_answer, conversion_answer, listing_answer,
    map_answer, move_answer, native_answer, stop_answer, translation_answer,
};
use sfi_command::Job;
use sfi_io::{INPUT_LIMIT, image_bytes};
use std::alloc::{AllocError, Global};

/// What the job answers on `text`, which has at most `INPUT_LIMIT` bytes, or the fault that it has. A
/// new command gets its line here. `exec` has none of its own: it reads a file, and `exec` of
/// `execution.rt` runs it.
fn job_answer(alloc: Global, job: &Job, text: &[u8]) -> Result<Answer, Stop>
    requires reads_text { is_raw job.now ≡ false }
    requires within_limit { length text.now ≤ limit }
    ensures { Answers (meaning_of job.now) text.now result }
{
    match job {
        Job::Check { report, .. } => check_answer(alloc, *report, &image_bytes(alloc, text)?),
        Job::Dis => listing_answer(alloc, &image_bytes(alloc, text)?),
        Job::Build { raw, places } => build_answer(alloc, *raw, places, text),
        Job::Map { places } => map_answer(alloc, places, text),
        Job::Run(options) => run_answer(alloc, options, &image_bytes(alloc, text)?),
        Job::Exec { .. } => Err(Stop::Input(InputFault::NoFile)),
        Job::Convert { raw } => conversion_answer(alloc, *raw, &image_bytes(alloc, text)?),
        Job::Move {
            raw,
            sandbox,
            place,
        } => move_answer(alloc, *raw, *sandbox, *place, &image_bytes(alloc, text)?),
        Job::Translate { whole } => translation_answer(alloc, *whole, &image_bytes(alloc, text)?),
        Job::Native => native_answer(alloc, &image_bytes(alloc, text)?),
    }
}

/// What the job answers on what was read: what it was to print, or the line of a fault. A check of
/// raw bytes (`--raw`) isn't asked for here: it is made as they are read (`tool.rt`).
///
/// Of several faults the first of these is told: more than 134217728 bytes; of an image in digits an
/// odd number of them, then the first byte that is no digit; of an image the layout; of a source
/// that it is no UTF-8, and then its own faults. The one error is that an allocation was refused.
#[tactic(auto, using(crate::proofs::Jobs::not_done, crate::proofs::Jobs::not_refused))]
pub fn answer_job(alloc: Global, job: &Job, text: &[u8]) -> Result<Answer, AllocError>
    requires { is_raw job.now ≡ false }

    // What each answer means.
    ensures statuses { IfOk result (λ a. a.status ≤ 2) }
    ensures says { IfOk result (λ a. a.status < 2
        → Says job.now text.now a.status a.output.items) }
    ensures line { IfOk result
        (λ a. a.status ≡ 2 → IsFaultLine (meaning_of job.now) text.now a.output.items) }

    // Which text gets it.
    ensures only_done { IsDone job.now text.now → IfOk result (λ a. a.status ≡ 0) }
    ensures only_refused { IsRefused job.now text.now → IfOk result (λ a. a.status ≡ 1) }
    ensures only_fault { (fault : Stop) → HasInputFault job.now text.now fault
        → IfOk result (λ a. a.status ≡ 2) }
{
    if text.len() > INPUT_LIMIT {
        return stop_answer(alloc, Stop::Input(InputFault::TooLarge));
    }
    match job_answer(alloc, job, text) {
        Ok(answer) => Ok(answer),
        Err(stop) => stop_answer(alloc, stop),
    }
}
