//! The command `run`, and the turns of a run.
ghost use Rattle.std.specs.Prelude.{◌≡◌, IfOk, OnOk, string_bytes, length};
ghost use Rattle.sfi_host.specs.Worlds.{slots_of};
ghost use Rattle.sfi_tool.specs.Running.{round_of, IsRunText, IsRunTextOf, run};
ghost use Rattle.sfi_tool.specs.private.{AreTaken};
ghost use Rattle.sfi_answers.specs.Answers.{Answers};

use crate::run_lines::run_lines;
use crate::states::push_states;
use rv_mem::{Memory, Pages};
use sfi_answers::{Answer, Stop, refusal_answer};
use sfi_check::{Accepted, check};
use sfi_command::RunOptions;
use sfi_host::{Console, RunAnswer, Turn, World};
use std::alloc::{AllocError, Global};

/// One turn of `quantum` steps for each of the first `count` sandboxes, in order.
fn round_of(alloc: Global, quantum: u32, count: u32) -> Result<Vec<Turn>, AllocError>
    ensures { IfOk result (λ turns. turns.items ≡ round_of quantum count) }
{
    let mut turns = Vec::with_capacity(alloc, count as usize)?;
    for sandbox in 0..count {
        turns.push(Turn {
            sandbox,
            steps: quantum,
        })?;
    }
    Ok(turns)
}

/// Takes `rounds` rounds of turns: in each the first `count` sandboxes, in order, have a turn of at
/// most `quantum` steps. Where the console has no memory for a reply, no further turn is taken, and
/// this is an error.
pub(crate) fn take_rounds<M: Memory>(
    alloc: Global,
    rounds: u32,
    quantum: u32,
    count: u32,
    world: &mut World<M>,
    console: &mut Console,
) -> Result<(), AllocError>
    ensures { OnOk result (AreTaken rounds quantum count
        (slots_of world.old) console.old (slots_of world.new) console.new) }
{
    let round = round_of(alloc, quantum, count)?;
    for _ in 0..rounds {
        match world.run_plan(&round, console) {
            RunAnswer::Done => {}
            RunAnswer::Memory { .. } => return Err(AllocError),
        }
    }
    Ok(())
}

/// The lines of the sandboxes of an image, `count` of them, and with a report the states (pc and
/// registers) of those that have not exited.
fn run_text<M: Memory>(
    alloc: Global,
    accepted: &Accepted<'_>,
    report: bool,
    count: u32,
    world: &World<M>,
    console: &Console,
) -> Result<String, AllocError>
    requires { count ≡ length accepted.now }
    ensures { IfOk result (λ text. IsRunTextOf report accepted.now (slots_of world.now) console.now
        (string_bytes text)) }
{
    let mut text = run_lines(alloc, count, world, console)?;
    if !report {
        return Ok(text);
    }
    push_states(alloc, &mut text, accepted.image().parts(), world)?;
    Ok(text)
}

/// Runs the sandboxes of an accepted image, and says what became of each: with a report, its pc and
/// registers, too.
fn run_and_report(
    alloc: Global,
    accepted: &Accepted<'_>,
    options: &RunOptions,
) -> Result<String, AllocError>
    ensures { IfOk result
        (λ text. IsRunText options.now accepted.now (string_bytes text)) }
{
    let count = accepted.sandbox_count() as u32;
    let mut world = World::load(alloc, accepted, Pages::new(alloc))?;
    let mut console = Console::new(alloc, count, &options.input)?;
    take_rounds(
        alloc,
        options.rounds,
        options.quantum,
        count,
        &mut world,
        &mut console,
    )?;
    run_text(alloc, accepted, options.report, count, &world, &console)
}

/// What `run` answers on the image with these bytes: the verdict where it has findings, and else what
/// became of its sandboxes. It stops at a fault of the layout, or where memory ran out.
pub(crate) fn run_answer(alloc: Global, options: &RunOptions, bytes: &[u8]) -> Result<Answer, Stop>
    ensures { Answers (run options.now) bytes.now result }
{
    match check(alloc, bytes) {
        Ok(accepted) => Ok(Answer::lines(0, run_and_report(alloc, &accepted, options)?)),
        Err(refusal) => refusal_answer(alloc, false, bytes, refusal),
    }
}
