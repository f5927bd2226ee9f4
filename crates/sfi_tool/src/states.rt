//! The states of the sandboxes that have not exited: pc and registers, five lines each.

ghost use Rattle.std.specs.Prelude.{◌<◌, ◌^◌, Some, OnOk, length, slice_get, string_bytes};
ghost use Rattle.sfi_host.specs.Worlds.{slots_of};
ghost use Rattle.sfi_image.specs.Spelling.{view, views};
ghost use Rattle.sfi_formats.specs.declared.format.Format.{Format};
ghost use Rattle.sfi_report.specs.State.{IsStateText};
ghost use Rattle.sfi_tool.specs.Running.{AreStates, IsStateOfSandbox};
ghost use Rattle.sfi_report.specs.private.{Adds};

use rv_mem::Memory;
use rv_step::Cpu;
use sfi_host::{Status, World};
use sfi_image::SandboxPart;
use sfi_report::state_text;
use std::alloc::{AllocError, Global};

/// Writes the state of sandbox `sandbox`, which is this part of an image.
fn push_state(
    alloc: Global,
    out: &mut String,
    sandbox: u32,
    part: &SandboxPart<'_>,
    cpu: &Cpu,
) -> Result<(), AllocError>
    ensures { (format : Format) → OnOk result (Adds (string_bytes out.old) (string_bytes out.new)
        (IsStateText sandbox (view format part.now) cpu.now)) }
{
    let state = state_text(alloc, sandbox, part, cpu)?;
    out.push_str(state.as_str())
}

/// Writes the state of sandbox `sandbox`, which is this part of an image, unless it has exited.
fn push_state_unless_exited<M: Memory>(
    alloc: Global,
    out: &mut String,
    sandbox: u32,
    part: &SandboxPart<'_>,
    world: &World<M>,
) -> Result<(), AllocError>
    ensures { (format : Format) → OnOk result (Adds (string_bytes out.old) (string_bytes out.new)
        (IsStateOfSandbox sandbox (Some (view format part.now)) (slice_get (slots_of world.now) sandbox))) }
{
    let Some(status) = world.status(sandbox) else {
        return Ok(());
    };
    let Some(cpu) = world.cpu(sandbox) else {
        return Ok(());
    };
    match status {
        Status::Exited(_) => Ok(()),
        Status::Ready | Status::Trapped(_, _) | Status::Stopped => {
            push_state(alloc, out, sandbox, part, cpu)
        }
    }
}

/// Writes the state of each sandbox of an image that has not exited, in order.
pub(crate) fn push_states<M: Memory>(
    alloc: Global,
    out: &mut String,
    parts: &[SandboxPart<'_>],
    world: &World<M>,
) -> Result<(), AllocError>
    requires { length parts.now < 2 ^ 32 }
    ensures { (format : Format) → OnOk result (Adds (string_bytes out.old) (string_bytes out.new)
        (AreStates (length (views format parts.now)) (views format parts.now) (slots_of world.now))) }
{
    for (sandbox, part) in parts.iter().enumerate() {
        push_state_unless_exited(alloc, out, sandbox as u32, part, world)?;
    }
    Ok(())
}
