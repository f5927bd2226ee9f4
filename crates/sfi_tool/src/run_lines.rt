//! The lines that say what became of the sandboxes of a run.

ghost use Rattle.std.specs.Prelude.{◌≡◌, ◌++◌, OnOk, IfOk, slice_get, string_bytes};
ghost use Rattle.sfi_host.specs.Consoles.{output_of};
ghost use Rattle.sfi_host.specs.Worlds.{slots_of};
ghost use Rattle.sfi_tool.specs.Running.{cause_name, line_of, run_line, run_lines, status_text};

use rv_mem::Memory;
use rv_step::Cause;
use sfi_host::{Console, Status, World};
use sfi_report::push_eight_digits;
use std::alloc::{AllocError, Global};

/// The word that is printed for the cause of a trap. `cause_name` of specs/Running has the same
/// words, and docs/GATES.md explains them.
fn cause_name(cause: Cause) -> &'static str
    ensures { result.now ≡ cause_name cause }
{
    match cause {
        Cause::Fetch => "Fetch",
        Cause::Illegal => "Illegal",
        Cause::Break => "Break",
        Cause::Load => "Load",
        Cause::Store => "Store",
    }
}

/// Appends a sandbox's status, as the line of a run has it: `ready`, `exit=D`, `stopped` or
/// `trap=Cause at=AAAAAAAA`. An error means here, as below, that memory ran out.
pub(crate) fn push_status(out: &mut String, status: Status) -> Result<(), AllocError>
    ensures { OnOk result (string_bytes out.new ≡ string_bytes out.old ++ status_text status) }
{
    match status {
        Status::Ready => out.push_str("ready"),
        Status::Exited(number) => write!(out, "exit={number}"),
        Status::Trapped(cause, address) => {
            let name = cause_name(cause);
            write!(out, "trap={name} at=")?;
            push_eight_digits(out, address)
        }
        Status::Stopped => out.push_str("stopped"),
    }
}

/// Appends the line `sandbox=S STATUS steps=K out=HEX` of a sandbox that has put the bytes `output`.
fn push_run_line(
    alloc: Global,
    out: &mut String,
    sandbox: u32,
    status: Status,
    steps: u64,
    output: &[u8],
) -> Result<(), AllocError>
    ensures { OnOk result (string_bytes out.new
        ≡ string_bytes out.old ++ run_line sandbox status steps output.now) }
{
    let digits = hex::encode(alloc, output)?;
    write!(out, "sandbox={sandbox} ")?;
    push_status(out, status)?;
    write!(out, " steps={steps} out={digits}\n")
}

/// Appends the line of sandbox `sandbox`; nothing where there is no such sandbox.
fn push_line_of<M: Memory>(
    alloc: Global,
    out: &mut String,
    sandbox: u32,
    world: &World<M>,
    console: &Console,
) -> Result<(), AllocError>
    ensures { OnOk result (string_bytes out.new ≡ string_bytes out.old
        ++ line_of sandbox (slice_get (slots_of world.now) sandbox)
        (output_of console.now sandbox)) }
{
    let Some(status) = world.status(sandbox) else {
        return Ok(());
    };
    let Some(steps) = world.steps(sandbox) else {
        return Ok(());
    };
    let Some(output) = console.output(sandbox) else {
        return Ok(());
    };
    push_run_line(alloc, out, sandbox, status, steps, output)
}

/// The lines of the first `count` sandboxes, in order.
pub(crate) fn run_lines<M: Memory>(
    alloc: Global,
    count: u32,
    world: &World<M>,
    console: &Console,
) -> Result<String, AllocError>
    ensures { IfOk result
        (λ text. string_bytes text ≡ run_lines count (slots_of world.now) console.now) }
{
    let mut text = String::new(alloc);
    for sandbox in 0..count {
        push_line_of(alloc, &mut text, sandbox, world, console)?;
    }
    Ok(text)
}
