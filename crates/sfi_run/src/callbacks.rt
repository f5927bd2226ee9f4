//! Calls of C back into a sandbox that waits at a call of its own.
ghost use Rattle.std.specs.Prelude.{◌≡◌, Some};
ghost use Rattle.std.specs.Bool.{OnTrue, OnFalse};
ghost use Rattle.rv_step.specs.State.{Hart};
ghost use Rattle.sfi_host.specs.Slots.{hart_at};
ghost use Rattle.sfi_host.specs.Worlds.{Sandboxes, slots_of};
ghost use Rattle.sfi_host.specs.Sessions.{CallBack};
ghost use Rattle.sfi_run.specs.Changes.{IsCall, IsHeldCall, HasCalledBack};
ghost use Rattle.sfi_run.specs.Snapshots.{AreRegistersOf};

use crate::holding::SfiRunWorld;
use crate::snapshots::SfiRunRegisters;
use rv_mem::Pages;
use sfi_host::World;
use std::alloc::Global;

/// Calls a sandbox back at `pc`, and writes to `kept` the pc and the registers of the call at which
/// it waited; `false`, and nothing changed or is written, where `World::call_back` refuses.
fn call_sandbox_back(
    world: &mut World<Pages>,
    sandbox: u32,
    pc: u32,
    arguments: &[u32; 8],
    kept: &mut SfiRunRegisters,
) -> bool
    ensures call { IsCall result world.old world.new sandbox (CallBack pc arguments.now)
        (HasCalledBack world.old world.new sandbox pc arguments.now) }
    ensures kept { OnTrue result ((h : Hart) → hart_at (slots_of world.old) sandbox ≡ Some h
        → AreRegistersOf h kept.new) }
    ensures untold { OnFalse result (kept.new ≡ kept.old) }
{
    let before = match world.cpu(sandbox) {
        Some(cpu) => Some(SfiRunRegisters::from_cpu(cpu)),
        None => None,
    };
    if !world.call_back(sandbox, pc, arguments) {
        return false;
    }
    if let Some(registers) = before {
        *kept = registers;
    }
    true
}

/// Calls back a sandbox that waits at a call: it is ready then at `pc`, where a bundle or word of
/// its code begins, with the arguments in a0 to a7, and with its other registers but x1 as they
/// were. Writes to `kept` the pc and the registers of the call that waits, for
/// `sfi_run_set_registers` afterwards. `false`, and nothing changed or is written, if there is no
/// world, or `World::call_back` refuses.
#[unsafe(no_mangle)]
pub extern "C" fn sfi_run_call_back(
    alloc: Global,
    world: &mut SfiRunWorld,
    sandbox: u32,
    pc: u32,
    arguments: &[u32; 8],
    kept: &mut SfiRunRegisters,
) -> bool
    ensures call { IsHeldCall result world.old.inner.world world.new.inner.world sandbox
        (CallBack pc arguments.now) (λ w n. HasCalledBack w n sandbox pc arguments.now) }
    ensures kept { OnTrue result ((w : Sandboxes) (h : Hart) → world.old.inner.world ≡ Some w
        → hart_at (slots_of w) sandbox ≡ Some h → AreRegistersOf h kept.new) }
    ensures untold { OnFalse result (kept.new ≡ kept.old) }
{
    let Some(mut boxed) = world.take(alloc) else {
        return false;
    };
    let done = call_sandbox_back(&mut boxed, sandbox, pc, arguments, kept);
    world.put(boxed);
    done
}
