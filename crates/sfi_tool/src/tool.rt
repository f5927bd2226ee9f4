//! A run of the program, over its reader and writer.

ghost use Rattle.std.specs.Prelude.{◌≡◌, ◌<◌, ◌≤◌, ◌≢◌, ℕ, List, Option, IfOk, Some, map, string_bytes, false, true};
ghost use Rattle.std.specs.Io.KnownBytes.{Appends};
ghost use Rattle.sfi_command.specs.Command.{Asks, AsksNothing, is_raw, number_of};
ghost use Rattle.sfi_command.specs.declared.job.Job.{Job};
ghost use Rattle.sfi_command.specs.declared.job.Job.TheVariants.{Check};
ghost use Rattle.sfi_tool.specs.Says.{WritesAnswer, WritesFault, OnlyAppends, hex_line};
ghost use Rattle.sfi_tool.specs.private.{IsAnswered, Runs};

use crate::answering::answer_job;
use sfi_answers::{Answer, TOO_LARGE_LINE, image_answer, raw_answer};
use sfi_command::{HEX_LINE, Job, JobFault, job_of};
use sfi_io::{Input, ReadStop, read_input, write_out};
use std::alloc::Global;
use std::io::{Read, Write};

/// Writes the output, and gives `status`, with which the program is to end; 5 where a write failed.
fn status_after_writing<W: Write>(writer: &mut W, status: u8, output: &[u8]) -> u8
    ensures status { result ≢ 5 → result ≡ status }
    ensures whole { result ≢ 5 → Appends (W.contents writer.old) (W.contents writer.new) output.now }
    ensures appends { OnlyAppends (W.contents writer.old) (W.contents writer.new) }
{
    if write_out(writer, output) { status } else { 5 }
}

/// Writes what is printed for words that ask for no job, and gives the status: 3 after a text for usage, help
/// or version, 2 after the line on `--input`, 5 where that write failed; 4 where memory ran out, and then
/// nothing is written.
fn status_of_fault<W: Write>(writer: &mut W, fault: &JobFault) -> u8
    ensures statuses { (2 ≤ result) × (result ≤ 5) }
    ensures hex { result ≡ 2 → number_of fault.now ≡ 2 }
    ensures line { result ≡ 2 → Appends (W.contents writer.old) (W.contents writer.new) hex_line }
    ensures usage { result ≡ 3 → number_of fault.now ≡ 1 }
    ensures memory { result ≡ 4 → writer.new ≡ writer.old }
    ensures appends { OnlyAppends (W.contents writer.old) (W.contents writer.new) }
{
    match fault {
        JobFault::Usage(text) => status_after_writing(writer, 3, text.as_bytes()),
        JobFault::Hex => status_after_writing(writer, 2, HEX_LINE.as_bytes()),
        JobFault::Memory => 4,
    }
}

/// Writes the answer, if there is one, and gives its status; else 4, where memory ran out, or 5,
/// where a read failed, and nothing is written. 5, too, where a write failed.
fn status_of_answer<W: Write>(writer: &mut W, answered: Result<Answer, ReadStop>) -> u8
    requires { IfOk answered (λ a. a.status ≤ 2) }
    ensures runs { (job : Job) (input : Option (List ℕ)) → IsAnswered job input answered
        → Runs job input (W.contents writer.old) (W.contents writer.new) result }
    ensures memory { result ≡ 4 → writer.new ≡ writer.old }
{
    match answered {
        Ok(answer) => status_after_writing(writer, answer.status, &answer.output),
        Err(ReadStop::Memory) => 4,
        Err(ReadStop::Failed) => 5,
    }
}

/// Runs a job on what was read, writes the answer, and gives the status, as of `run_tool`.
fn run_job_on_text<W: Write>(alloc: Global, job: &Job, text: &[u8], writer: &mut W) -> u8
    requires { is_raw job.now ≡ false }
    ensures runs { Runs job.now (Some text.now) (W.contents writer.old) (W.contents writer.new)
        result }
    ensures memory { result ≡ 4 → writer.new ≡ writer.old }
{
    match answer_job(alloc, job, text) {
        Ok(answer) => status_after_writing(writer, answer.status, &answer.output),
        Err(_) => 4,
    }
}

/// Runs a job. Its reader is read to its end or past the limit. Without a report `check` holds one piece of
/// its input at a time; where it judges raw bytes, that reading stops at a fault of the layout is only tested.
fn run_job<R: Read, W: Write>(alloc: Global, job: &Job, reader: &mut R, writer: &mut W) -> u8
    requires { is_raw job.now ≡ true → job.now ≡ Check true false }
    ensures runs { Runs job.now (R.remaining reader.old)
        (W.contents writer.old) (W.contents writer.new) result }
    ensures memory { result ≡ 4 → writer.new ≡ writer.old }
{
    if job.is_raw() {
        return status_of_answer(writer, raw_answer(alloc, reader));
    }
    if let Job::Check { report: false, .. } = job {
        return status_of_answer(writer, image_answer(alloc, reader));
    }
    match read_input(alloc, reader) {
        Ok(Input::Whole(text)) => run_job_on_text(alloc, job, &text, writer),
        Ok(Input::TooLarge) => status_after_writing(writer, 2, TOO_LARGE_LINE.as_bytes()),
        Err(ReadStop::Memory) => 4,
        Err(ReadStop::Failed) => 5,
    }
}

/// Runs the command that the words ask for, and answers the status to end with:
///
/// - 0: accepted, built, mapped, listed, converted, moved, translated or run; 1: findings;
/// - 2: a fault of the input, or a text of `--input` that spells no bytes, which the text names;
/// - 3: the words don't parse, have an `--at` that is no place, ask for both `--raw` and `--report`, or
///   for help or the version: what to print for them was written;
/// - 4: an allocation was refused, and nothing was written;
/// - 5: a read or a write failed. After a failed read nothing was written; after a failed write a
///   beginning of the text.
///
/// Words that ask for no job are answered before anything is read. The text is made whole before
/// its first byte is written.
pub fn run_tool<R: Read, W: Write>(
    alloc: Global,
    words: &[String],
    reader: &mut R,
    writer: &mut W,
) -> u8
    ensures statuses { result ≤ 5 }
    ensures says { result < 2 → WritesAnswer (map string_bytes words.now) (R.remaining reader.old)
        (W.contents writer.old) (W.contents writer.new) result }
    ensures line { result ≡ 2 → WritesFault (map string_bytes words.now) (R.remaining reader.old)
        (W.contents writer.old) (W.contents writer.new) }
    ensures usage { result ≡ 3 → AsksNothing (map string_bytes words.now) }
    ensures unread { ((job : Job) → ¬ Asks (map string_bytes words.now) job)
        → reader.new ≡ reader.old }
    ensures memory { result ≡ 4 → writer.new ≡ writer.old }
    ensures appends { OnlyAppends (W.contents writer.old) (W.contents writer.new) }
{
    match job_of(alloc, words) {
        Ok(job) => run_job(alloc, &job, reader, writer),
        Err(fault) => status_of_fault(writer, &fault),
    }
}
