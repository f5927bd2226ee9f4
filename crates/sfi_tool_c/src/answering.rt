//! The call that C makes.
ghost use Rattle.std.specs.Prelude.{◌≡◌, ◌≢◌, ◌⊎◌, ◌≤◌, ◌<◌, ℕ, List, IfOk};
ghost use Rattle.sfi_command.specs.Command.{number_of};
ghost use Rattle.sfi_answers.specs.FaultTexts.{IsFaultLine};
ghost use Rattle.sfi_tool.specs.Says.{Says, hex_line, meaning_of};
ghost use Rattle.sfi_tool_c.specs.CommandAnswers.{IsAnswer, IsAnswerWritten, IsFaultAnswer, IsFaultWritten, IsTextWritten, SpellsNoCommand};

use crate::output::write_front;
use crate::words::{WordsFault, words_of};
use sfi_answers::{Answer, check_or_fault_answer};
use sfi_command::{HEX_LINE, Job, JobFault, job_of};
use sfi_tool::answer_job;
use std::alloc::{AllocError, Global};

/// What is answered, with status 3, where the bytes spell no words.
const NO_TEXT: &str = "error: the words are not UTF-8, or the last one is not ended\n";

/// What the job answers on `input`. A raw check takes that as the bytes of an image, however it
/// begins; `answer_job`, which takes no raw check, answers all else. An error means that memory ran
/// out.
fn answer_to(alloc: Global, job: &Job, input: &[u8]) -> Result<Answer, AllocError>
    ensures statuses { IfOk result (λ a. a.status ≤ 2) }
    ensures says { IfOk result (λ a. a.status < 2
        → Says job.now input.now a.status a.output.items) }
    ensures line { IfOk result
        (λ a. a.status ≡ 2 → IsFaultLine (meaning_of job.now) input.now a.output.items) }
{
    match job {
        Job::Check { raw: true, report } => check_or_fault_answer(alloc, *report, input),
        _ => answer_job(alloc, job, input),
    }
}

/// What is answered to words that ask for no job: a text with status 3, or with status 2 the line on
/// an `--input` that spells no bytes. An error means that memory ran out.
fn answer_to_fault(alloc: Global, fault: JobFault) -> Result<Answer, AllocError>
    ensures statuses { IfOk result (λ a. (2 ≤ a.status) × (a.status ≤ 3)) }
    ensures hex { IfOk result (λ a. a.status ≡ 2 → number_of fault ≡ 2) }
    ensures line { IfOk result (λ a. a.status ≡ 2 → a.output.items ≡ hex_line) }
    ensures usage { IfOk result (λ a. a.status ≡ 3 → number_of fault ≡ 1) }
{
    match fault {
        JobFault::Usage(text) => Ok(Answer::lines(3, text)),
        JobFault::Hex => Ok(Answer::lines(2, String::from_str(alloc, HEX_LINE)?)),
        JobFault::Memory => Err(AllocError),
    }
}

/// What the program answers to the words, each followed by a zero byte, on the input that it would
/// read. An error means that memory ran out.
fn answer_to_words(alloc: Global, words: &[u8], input: &[u8]) -> Result<Answer, AllocError>
    ensures statuses { IfOk result (λ a. a.status ≤ 3) }
    ensures says { IfOk result (λ a. a.status < 2
        → IsAnswer words.now input.now a.status a.output.items) }
    ensures line { IfOk result
        (λ a. a.status ≡ 2 → IsFaultAnswer words.now input.now a.output.items) }
    ensures usage { IfOk result (λ a. a.status ≡ 3 → SpellsNoCommand words.now) }
    ensures only_usage { SpellsNoCommand words.now → IfOk result (λ a. a.status ≡ 3) }
{
    let words = match words_of(alloc, words) {
        Ok(words) => words,
        Err(WordsFault::Memory) => return Err(AllocError),
        Err(WordsFault::NoWords) => {
            return Ok(Answer::lines(3, String::from_str(alloc, NO_TEXT)?));
        }
    };
    match job_of(alloc, &words) {
        Ok(job) => answer_to(alloc, &job, input),
        Err(fault) => answer_to_fault(alloc, fault),
    }
}

/// Answers the command that the words ask for, on what it reads: writes the front of the answer to
/// the array `output`, as much as it holds, and the length of the whole answer to `length`. Returns
/// a number of `enum sfi_tool_status` in include/sfi_tool.h; with 4, where memory ran out, `length`
/// is 0.
#[unsafe(no_mangle)]
pub extern "C" fn sfi_tool_answer(
    alloc: Global,
    words: &[u8],
    input: &[u8],
    output: &mut [u8],
    length: &mut usize,
) -> u32
    ensures statuses { result ≤ 4 }
    ensures says { result < 2
        → IsAnswerWritten words.now input.now result output.old output.new length.new }
    ensures line { result ≡ 2
        → IsFaultWritten words.now input.now output.old output.new length.new }
    ensures usage { result ≡ 3 → SpellsNoCommand words.now }
    ensures only_usage { SpellsNoCommand words.now → (result ≡ 3) ⊎ (result ≡ 4) }
    ensures written { result ≢ 4 → (text : List ℕ)
        × IsTextWritten text output.old output.new length.new }
    ensures memory { result ≡ 4 → output.new ≡ output.old }
    ensures no_length { result ≡ 4 → length.new ≡ 0 }
{
    match answer_to_words(alloc, words, input) {
        Ok(answer) => {
            write_front(&answer.output, output);
            *length = answer.output.len();
            answer.status as u32
        }
        Err(_) => {
            *length = 0;
            4
        }
    }
}
