//! The command `exec`, over what was read of an image, and a process's streams.

ghost use Rattle.std.specs.Prelude.{◌≡◌, ◌≢◌, ◌⊎◌, IfErr, IfOk, false};
ghost use Rattle.sfi_answers.specs.Answers.{IsAcceptedImage, Refuses, check};
ghost use Rattle.sfi_answers.specs.FaultTexts.{stop_text};
ghost use Rattle.sfi_answers.specs.declared.fault.InputFault.TheVariants.{TooLarge};
ghost use Rattle.sfi_answers.specs.declared.fault.Stop.TheVariants as stops;
ghost use Rattle.sfi_tool.specs.Executing.{Begins, Executes, HasBegun, HasExecuted, IsAcceptedThat, IsRefusalLine, OfText, Tells, TellsOf, number_of};
ghost use Rattle.sfi_io.specs.Hexadecimal.{IsInput};
ghost use Rattle.sfi_tool.specs.declared.execution.ExecFault.TheVariants.{Image, Interrupted};
ghost use Rattle.sfi_tool.specs.declared.serving.Interruption.TheVariants.{Memory};

use crate::executing::execute_sandboxes;
use crate::serving::{BUFFER, Interruption, flush_output};
use crate::stopping::{first_nonzero_status, stop_text};
use rv_mem::Pages;
use sfi_answers::{Stop, TOO_LARGE_LINE, refusal_answer, stop_answer};
use sfi_check::{Accepted, Refusal, check};
use sfi_host::{Console, World};
use sfi_io::{INPUT_LIMIT, Input, ReadStop, image_bytes, read_input, write_out};
use std::alloc::{AllocError, Global};
use std::fmt;
use std::io::{Read, Write};

/// What a run of an image's sandboxes came to.
#[derive(Clone, Copy, Debug, Drop, PartialEq, Eq)]
pub struct Ended {
    /// The status to end with.
    pub status: u8,
    /// Whether all that is to be said of the run was written to the writer of errors; if not, a
    /// beginning of it was.
    pub told: bool,
}

/// Why a run of an image's sandboxes didn't come to its end. Its text is a bare name.
#[derive(Clone, Copy, Debug, Drop, PartialEq, Eq)]
pub enum ExecFault {
    /// The image can't be run. What was said tells why: the verdict on an image with findings, or the
    /// line of a fault.
    NotAccepted,
    /// The image can't be read.
    Image,
    /// The reading of the image, or the run, was broken off.
    Interrupted(Interruption),
}

impl fmt::Display for ExecFault {
    fn fmt<W: fmt::Write>(&self, f: &mut fmt::Formatter<W>) -> fmt::Result {
        match self {
            ExecFault::Interrupted(interruption) => fmt::Debug::fmt(interruption, f),
            ExecFault::NotAccepted | ExecFault::Image => fmt::Debug::fmt(self, f),
        }
    }
}

impl ExecFault {
    /// The number by which a fault is known, from 1 to 5, as in the line `exec fault 3 Memory`. The
    /// help of `exec` (`sfi_command` src/commands/exec.rt) and specs/Executing have the same ones.
    pub fn number(self) -> u32
        ensures { result ≡ number_of self }
    {
        match self {
            ExecFault::NotAccepted => 1,
            ExecFault::Image => 2,
            ExecFault::Interrupted(Interruption::Memory) => 3,
            ExecFault::Interrupted(Interruption::Read) => 4,
            ExecFault::Interrupted(Interruption::Write) => 5,
        }
    }
}

impl From<AllocError> for Interruption {
    ghost use Rattle.sfi_tool.specs.declared.serving.Interruption.TheVariants.{Memory};

    ghost from_gives = { λ _ e. e ≡ Memory };

    fn from(_e: AllocError) -> Interruption {
        Interruption::Memory
    }
}

impl From<Interruption> for ExecFault {
    ghost from_gives = { λ interruption fault. fault ≡ Interrupted interruption };

    fn from(interruption: Interruption) -> ExecFault {
        ExecFault::Interrupted(interruption)
    }
}

/// Writes a text, by which an image isn't accepted, to the writer of errors. The result is the fault
/// to end with: `NotAccepted`, or that the text can't be written.
fn say<E: Write>(errors: &mut E, text: &[u8]) -> ExecFault
    ensures { Tells ⊥ (λ line. line ≡ text.now) (errors.new ≡ errors.old)
        (E.contents errors.old) (E.contents errors.new) result }
{
    if write_out(errors, text) {
        ExecFault::NotAccepted
    } else {
        ExecFault::Interrupted(Interruption::Write)
    }
}

/// Runs the sandboxes of an accepted image. What they put before a fault is written, too. That what
/// is said of their end can't be written is no error: `told` is `false` then.
fn execute_accepted<R: Read, W: Write, E: Write>(
    alloc: Global,
    accepted: &Accepted<'_>,
    budget: u64,
    reader: &mut R,
    writer: &mut W,
    errors: &mut E,
) -> Result<Ended, Interruption>
    ensures ran { IfOk result (Executes budget accepted.now (R.remaining reader.old)
        (R.remaining reader.new) (W.contents writer.old) (W.contents writer.new)
        (E.contents errors.old) (E.contents errors.new)) }
    ensures begins { IfErr result (λ e. Begins budget accepted.now (R.remaining reader.old)
        (W.contents writer.old) (W.contents writer.new)) }
    ensures silent { IfErr result (λ e. errors.new ≡ errors.old) }
{
    let count = accepted.sandbox_count() as u32;
    let mut world = World::load(alloc, accepted, Pages::new(alloc))?;
    let mut console = Console::new(alloc, count, &[])?;
    let mut buffer = vec![in alloc; 0u8; BUFFER]?;
    let ran = execute_sandboxes(
        &mut world,
        &mut console,
        count,
        budget,
        &mut buffer,
        reader,
        writer,
    );
    flush_output(writer)?;
    ran?;
    let text = stop_text(alloc, accepted.image().parts(), &world)?;
    let told = write_out(errors, text.as_bytes());
    let status = first_nonzero_status(&world, count);
    Ok(Ended { status, told })
}

/// Writes the line of the fault for which there is no run, and gives the fault to end with. Where
/// memory ran out nothing is written.
fn say_stop<E: Write>(alloc: Global, stop: Stop, errors: &mut E) -> ExecFault
    ensures { Tells ⊥ (λ line. (stop ≢ stops.Memory) × (line ≡ stop_text stop))
        (errors.new ≡ errors.old) (E.contents errors.old) (E.contents errors.new) result }
{
    match stop_answer(alloc, stop) {
        Ok(answer) => say(errors, &answer.output),
        Err(_) => ExecFault::Interrupted(Interruption::Memory),
    }
}

/// Writes the line of the verdict, or of the fault, for which the image with these bytes is refused,
/// and gives the fault to end with.
fn say_refusal<E: Write>(alloc: Global, bytes: &[u8], refusal: Refusal, errors: &mut E) -> ExecFault
    requires { Refuses bytes.now refusal }
    ensures { Tells ⊥
        (λ line. (¬ IsAcceptedImage bytes.now) × IsRefusalLine (check false) bytes.now line)
        (errors.new ≡ errors.old) (E.contents errors.old) (E.contents errors.new) result }
{
    match refusal_answer(alloc, false, bytes, refusal) {
        Ok(answer) => say(errors, &answer.output),
        Err(stop) => say_stop(alloc, stop, errors),
    }
}

/// Writes the line that says that the text is longer than `INPUT_LIMIT` bytes, and gives the fault to
/// end with.
fn say_too_large<E: Write>(errors: &mut E) -> ExecFault
    ensures { Tells ⊥ (λ line. line ≡ stop_text (stops.Input TooLarge)) (errors.new ≡ errors.old)
        (E.contents errors.old) (E.contents errors.new) result }
{
    say(errors, TOO_LARGE_LINE.as_bytes())
}

/// Runs the sandboxes of the image with these bytes, if it is accepted; else says why not.
fn execute_image<R: Read, W: Write, E: Write>(
    alloc: Global,
    bytes: &[u8],
    budget: u64,
    reader: &mut R,
    writer: &mut W,
    errors: &mut E,
) -> Result<Ended, ExecFault>
    ensures ran { IfOk result (λ ended. IsAcceptedThat (λ ps. Executes budget ps
        (R.remaining reader.old) (R.remaining reader.new) (W.contents writer.old)
        (W.contents writer.new) (E.contents errors.old) (E.contents errors.new) ended) bytes.now) }
    ensures tells { IfErr result (Tells (IsAcceptedImage bytes.now)
        (λ line. (¬ IsAcceptedImage bytes.now) × IsRefusalLine (check false) bytes.now line)
        (errors.new ≡ errors.old) (E.contents errors.old) (E.contents errors.new)) }
    ensures begins { IfErr result (λ e. ((reader.new ≡ reader.old) × (writer.new ≡ writer.old))
        ⊎ IsAcceptedThat (λ ps. Begins budget ps (R.remaining reader.old)
        (W.contents writer.old) (W.contents writer.new)) bytes.now) }
{
    match check(alloc, bytes) {
        Ok(accepted) => Ok(execute_accepted(alloc, &accepted, budget, reader, writer, errors)?),
        Err(refusal) => Err(say_refusal(alloc, bytes, refusal, errors)),
    }
}

/// Runs the sandboxes of the image that the text is, or spells by hexadecimal digits, if it is
/// accepted; else says why not.
fn execute_text<R: Read, W: Write, E: Write>(
    alloc: Global,
    text: &[u8],
    budget: u64,
    reader: &mut R,
    writer: &mut W,
    errors: &mut E,
) -> Result<Ended, ExecFault>
    ensures executes { IfOk result (λ ended. HasExecuted budget (R.remaining reader.old)
        (R.remaining reader.new) (W.contents writer.old) (W.contents writer.new)
        (E.contents errors.old) (E.contents errors.new) ended text.now) }
    ensures tells { IfErr result (λ fault. TellsOf (errors.new ≡ errors.old)
        (E.contents errors.old) (E.contents errors.new) fault text.now) }
    ensures begins { IfErr result (λ fault. ((reader.new ≡ reader.old) × (writer.new ≡ writer.old))
        ⊎ HasBegun budget (R.remaining reader.old) (W.contents writer.old)
        (W.contents writer.new) text.now) }
{
    if text.len() > INPUT_LIMIT {
        return Err(say_too_large(errors));
    }
    match image_bytes(alloc, text) {
        Ok(bytes) => execute_image(alloc, &bytes, budget, reader, writer, errors),
        Err(stop) => Err(say_stop(alloc, Stop::from(stop), errors)),
    }
}

/// Reads an image to its end or past the limit, and lets go of its reader: a file is closed then.
pub fn read_image<I: Read + Drop>(alloc: Global, image: I) -> Result<Input, ExecFault>
    ensures reads { IfOk result (IsInput (I.remaining image)) }
    ensures fault { IfErr result (λ e. (e ≡ Image) ⊎ (e ≡ Interrupted Memory)) }
{
    let mut image = image;
    match read_input(alloc, &mut image) {
        Ok(input) => Ok(input),
        Err(ReadStop::Failed) => Err(ExecFault::Image),
        Err(ReadStop::Memory) => Err(ExecFault::Interrupted(Interruption::Memory)),
    }
}

/// Runs the sandboxes of the image that was read, one after another, each for at most `budget`
/// steps. They get their input from `reader`, and `writer` gets what they put. To `errors` goes what
/// is said of those that don't exit, or why the image isn't accepted. Each clause speaks of the text
/// that was read.
pub fn exec<R: Read, W: Write, E: Write>(
    alloc: Global,
    budget: u64,
    image: &Input,
    reader: &mut R,
    writer: &mut W,
    errors: &mut E,
) -> Result<Ended, ExecFault>
    // With a status: it is an accepted image, of which this was run, put and said.
    ensures executes { IfOk result (λ ended. OfText image.now (HasExecuted budget
        (R.remaining reader.old) (R.remaining reader.new) (W.contents writer.old)
        (W.contents writer.new) (E.contents errors.old) (E.contents errors.new) ended)) }

    // With a fault: when each comes, and what is said then.
    ensures tells { IfErr result (λ fault. OfText image.now (TellsOf (errors.new ≡ errors.old)
        (E.contents errors.old) (E.contents errors.new) fault)) }

    // Then nothing of the input is read and nothing is put, or it is an accepted image, whose run
    // was begun.
    ensures begins { IfErr result (λ fault. OfText image.now (λ text.
        ((reader.new ≡ reader.old) × (writer.new ≡ writer.old))
        ⊎ HasBegun budget (R.remaining reader.old) (W.contents writer.old)
        (W.contents writer.new) text)) }
{
    match image {
        Input::Whole(text) => execute_text(alloc, text, budget, reader, writer, errors),
        Input::TooLarge => Err(say_too_large(errors)),
    }
}
