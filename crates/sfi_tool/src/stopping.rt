//! What `exec` says of the sandboxes that have not exited, and the status with which it ends. The
//! numbers are those of `end_status` in specs/Executing, of the help of `exec` and of docs/sfi.1.

ghost use Rattle.std.specs.Prelude.{◌≡◌, ◌++◌, ◌<◌, ◌^◌, IfOk, OnOk, length, slice_get, string_bytes};
ghost use Rattle.sfi_host.specs.Worlds.{slots_of};
ghost use Rattle.sfi_image.specs.Spelling.{views};
ghost use Rattle.sfi_formats.specs.declared.format.Format.{Format};
ghost use Rattle.sfi_tool.specs.Executing.{IsStopText, end_status, status_among, status_of, stop_line, stop_line_of, stop_lines};

use crate::run_lines::push_status;
use crate::states::push_states;
use rv_mem::Memory;
use sfi_host::{Status, World};
use sfi_image::SandboxPart;
use std::alloc::{AllocError, Global};

/// The status where the budget was used up.
const BUDGET_USED: u8 = 124;

/// The status of a trap.
const TRAPPED: u8 = 126;

/// The status of `exec` that a sandbox of this status comes to: the low 8 bits of its exit's number,
/// or 126 for a trap, or 124. None is `Stopped` there.
fn exit_status(status: Status) -> u8
    ensures { result ≡ end_status status }
{
    match status {
        Status::Ready | Status::Stopped => BUDGET_USED,
        Status::Exited(number) => (number % 256) as u8,
        Status::Trapped(_, _) => TRAPPED,
    }
}

/// The status of `exec` that sandbox `sandbox` comes to; 0 where there is none.
fn exit_status_of<M: Memory>(world: &World<M>, sandbox: u32) -> u8
    ensures { result ≡ status_of (slice_get (slots_of world.now) sandbox) }
{
    match world.status(sandbox) {
        Some(status) => exit_status(status),
        None => 0,
    }
}

/// The status of the first of the sandboxes below `count` whose status isn't 0; 0 where all are.
pub(crate) fn first_nonzero_status<M: Memory>(world: &World<M>, count: u32) -> u8
    ensures { result ≡ status_among count (slots_of world.now) }
{
    let mut first = 0;
    for sandbox in 0..count {
        if first == 0 {
            first = exit_status_of(world, sandbox);
        }
    }
    first
}

/// Appends the line `sandbox=S STATUS steps=K`, which says how sandbox `sandbox` ended.
fn push_stop_line(
    out: &mut String,
    sandbox: u32,
    status: Status,
    steps: u64,
) -> Result<(), AllocError>
    ensures { OnOk result (string_bytes out.new
        ≡ string_bytes out.old ++ stop_line sandbox status steps) }
{
    write!(out, "sandbox={sandbox} ")?;
    push_status(out, status)?;
    write!(out, " steps={steps}\n")
}

/// Appends the line of sandbox `sandbox`; nothing where it has exited, or there is none.
fn push_stop_line_of<M: Memory>(
    out: &mut String,
    sandbox: u32,
    world: &World<M>,
) -> Result<(), AllocError>
    ensures { OnOk result (string_bytes out.new ≡ string_bytes out.old
        ++ stop_line_of sandbox (slice_get (slots_of world.now) sandbox)) }
{
    let Some(status) = world.status(sandbox) else {
        return Ok(());
    };
    let Some(steps) = world.steps(sandbox) else {
        return Ok(());
    };
    match status {
        Status::Exited(_) => Ok(()),
        Status::Ready | Status::Trapped(_, _) | Status::Stopped => {
            push_stop_line(out, sandbox, status, steps)
        }
    }
}

/// The lines of those sandboxes of the numbers below `count` that have not exited, in order.
fn stop_lines<M: Memory>(alloc: Global, count: u32, world: &World<M>) -> Result<String, AllocError>
    ensures { IfOk result
        (λ text. string_bytes text ≡ stop_lines count (slots_of world.now)) }
{
    let mut text = String::new(alloc);
    for sandbox in 0..count {
        push_stop_line_of(&mut text, sandbox, world)?;
    }
    Ok(text)
}

/// What is said of the sandboxes that have not exited: their lines, and then their states.
pub(crate) fn stop_text<M: Memory>(
    alloc: Global,
    parts: &[SandboxPart<'_>],
    world: &World<M>,
) -> Result<String, AllocError>
    requires { length parts.now < 2 ^ 32 }
    ensures { (format : Format) → IfOk result (λ text. IsStopText (views format parts.now)
        (slots_of world.now) (string_bytes text)) }
{
    let mut text = stop_lines(alloc, parts.len() as u32, world)?;
    push_states(alloc, &mut text, parts, world)?;
    Ok(text)
}
