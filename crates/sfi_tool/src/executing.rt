//! Sandboxes that run one after another, each to its end: the inside of the command `exec`.
//!
//! `budget` is how many steps each sandbox may do in all. `buffer` has 65536 bytes (`BUFFER`), room
//! for what one call hands over. `reader` and `writer` are the sandboxes' input and output;
//! `console` answers all services but put and get.
//!
//! On Linux on x86-64 `sfi exec` may run an image of one sandbox by native code instead:
//! `sfi_run_serve_watched` of sfi_run_serve.h (in `sfi_run`) and tools/suygapid/native/exec.c have to end
//! a run alike, also that a reply is a step. tools/test_exec.py compares both.

ghost use Rattle.std.specs.Prelude.{◌≡◌, ◌≢◌, ◌≤◌, ℕ, List, Option, None, IfErr, IfOk, IfSome, length, slice_get};
ghost use Rattle.sfi_host.specs.Consoles.{ConsoleState};
ghost use Rattle.sfi_host.specs.Worlds.{slots_of};
ghost use Rattle.sfi_tool.specs.private.{AreCut, AreStreamed, AreWithin, HasLess, IsAsked, IsCutTurn, Streamed, left_by, left_of};

use crate::serving::{Interruption, flush_output, serve_call};
use rv_mem::Memory;
use sfi_host::{Console, Request, Status, Turn, World};
use std::io::{Read, Write};

/// How many steps a sandbox of that status, which did `steps`, may still do; 0 if it has stopped.
fn left_by(budget: u64, status: Status, steps: u64) -> u64
    ensures { result ≡ left_by budget status steps }
{
    match status {
        Status::Ready => budget.saturating_sub(steps),
        Status::Exited(_) | Status::Trapped(_, _) | Status::Stopped => 0,
    }
}

/// How many steps sandbox `sandbox` may still do; 0 if it has stopped, or there is none.
fn steps_left<M: Memory>(world: &World<M>, sandbox: u32, budget: u64) -> u64
    ensures { result ≡ left_of budget (slice_get (slots_of world.now) sandbox) }
{
    let Some(status) = world.status(sandbox) else {
        return 0;
    };
    let Some(steps) = world.steps(sandbox) else {
        return 0;
    };
    left_by(budget, status, steps)
}

/// How many steps a turn has at most. What was put is written after one without a call. `STEPS_BETWEEN` of
/// exec.c, the help of `exec` (`sfi_command` src/commands/exec.rt) and docs/sfi.1 have this number, too.
const MOST_STEPS: u64 = 10_000_000;

/// How many steps the next turn may do, if `left` are left.
fn turn_steps(left: u64) -> u32
    ensures most { result ≤ left }
    ensures some { left ≢ 0 → result ≢ 0 }
{
    left.min(MOST_STEPS) as u32
}

/// Runs a sandbox up to its next call, and says what that asks. `None` where the turn ended in
/// another way, or no step is left: to answer a call is a step, too.
fn run_to_request<M: Memory>(world: &mut World<M>, sandbox: u32, budget: u64) -> Option<Request>
    requires { AreWithin budget (slots_of world.old) }
    ensures streamed { (c : ConsoleState) (known told : Option (List ℕ)) → Streamed sandbox
        (slots_of world.old) c (slots_of world.new) c known known told told }
    ensures within { AreWithin budget (slots_of world.new) }
    ensures less { result ≡ None → HasLess budget sandbox (slots_of world.old)
        (slots_of world.new) }
    ensures no_more { left_of budget (slice_get (slots_of world.new) sandbox)
        ≤ left_of budget (slice_get (slots_of world.old) sandbox) }
    ensures asked { IfSome result (IsAsked budget sandbox (slots_of world.new)) }
{
    let left = steps_left(world, sandbox, budget);
    let turn = Turn {
        sandbox,
        steps: turn_steps(left),
    };
    let request = world.run_to_call(turn)?;
    if steps_left(world, sandbox, budget) == 0 {
        return None;
    }
    Some(request)
}

/// Runs a sandbox up to its next call, and answers that, if there is a step left for it. The writer
/// is flushed where the turn ends in another way, and before a call is answered, but for a put, or a
/// get that is refused: a reader of the output then sees all that was put.
fn run_and_serve_call<M: Memory, R: Read, W: Write>(
    world: &mut World<M>,
    console: &mut Console,
    sandbox: u32,
    budget: u64,
    buffer: &mut [u8],
    reader: &mut R,
    writer: &mut W,
) -> Result<(), Interruption>
    requires buffer { length buffer.old ≡ 65536 }
    requires within { AreWithin budget (slots_of world.old) }
    ensures streamed { IfOk result (λ u. Streamed sandbox (slots_of world.old) console.old
        (slots_of world.new) console.new (R.remaining reader.old) (R.remaining reader.new)
        (W.contents writer.old) (W.contents writer.new)) }
    ensures within { IfOk result (λ u. AreWithin budget (slots_of world.new)) }
    ensures less { IfOk result (λ u. HasLess budget sandbox (slots_of world.old)
        (slots_of world.new)) }
    ensures cut { IfErr result (λ e. IsCutTurn budget sandbox (slots_of world.old) console.old
        (R.remaining reader.old) (W.contents writer.old) (W.contents writer.new)) }
{
    let Some(request) = run_to_request(world, sandbox, budget) else {
        return flush_output(writer);
    };
    serve_call(world, request, console, buffer, reader, writer)
}

/// Runs a sandbox until it has stopped or its steps are used up. Each time through the loop at least
/// one step less is left, so that `budget` times are enough.
fn execute_sandbox<M: Memory, R: Read, W: Write>(
    world: &mut World<M>,
    console: &mut Console,
    sandbox: u32,
    budget: u64,
    buffer: &mut [u8],
    reader: &mut R,
    writer: &mut W,
) -> Result<(), Interruption>
    requires buffer { length buffer.old ≡ 65536 }
    requires within { AreWithin budget (slots_of world.old) }
    ensures streamed { IfOk result (λ u. Streamed sandbox (slots_of world.old) console.old
        (slots_of world.new) console.new (R.remaining reader.old) (R.remaining reader.new)
        (W.contents writer.old) (W.contents writer.new)) }
    ensures within { IfOk result (λ u. AreWithin budget (slots_of world.new)) }
    ensures ended { IfOk result
        (λ u. left_of budget (slice_get (slots_of world.new) sandbox) ≡ 0) }
    ensures cut { IfErr result (λ e. IsCutTurn budget sandbox (slots_of world.old) console.old
        (R.remaining reader.old) (W.contents writer.old) (W.contents writer.new)) }
{
    for _ in 0..budget {
        if steps_left(world, sandbox, budget) == 0 {
            return Ok(());
        }
        run_and_serve_call(world, console, sandbox, budget, buffer, reader, writer)?;
    }
    Ok(())
}

/// Runs the sandboxes of the numbers below `count`, one after another. An error breaks the run off.
pub(crate) fn execute_sandboxes<M: Memory, R: Read, W: Write>(
    world: &mut World<M>,
    console: &mut Console,
    count: u32,
    budget: u64,
    buffer: &mut [u8],
    reader: &mut R,
    writer: &mut W,
) -> Result<(), Interruption>
    requires buffer { length buffer.old ≡ 65536 }
    requires within { AreWithin budget (slots_of world.old) }
    ensures streamed { IfOk result (λ u. AreStreamed budget count (slots_of world.old) console.old
        (slots_of world.new) console.new (R.remaining reader.old) (R.remaining reader.new)
        (W.contents writer.old) (W.contents writer.new)) }
    ensures within { IfOk result (λ u. AreWithin budget (slots_of world.new)) }
    ensures cut { IfErr result (λ e. AreCut budget (slots_of world.old) console.old
        (R.remaining reader.old) (W.contents writer.old) (W.contents writer.new)) }
{
    for sandbox in 0..count {
        execute_sandbox(world, console, sandbox, budget, buffer, reader, writer)?;
    }
    Ok(())
}
