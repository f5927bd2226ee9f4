//! Sandboxes that begin anew for C.
ghost use Rattle.sfi_host.specs.Sessions.{Reset};
ghost use Rattle.sfi_run.specs.Changes.{IsCall, IsHeldCall, HasBeenReset};

use crate::holding::SfiRunWorld;
use rv_mem::Pages;
use sfi_host::World;
use std::alloc::Global;

/// Takes a sandbox back to its first state; `false`, and nothing changed, if there is none.
fn reset_sandbox(world: &mut World<Pages>, sandbox: u32) -> bool
    ensures call { IsCall result world.old world.new sandbox Reset
        (HasBeenReset world.old world.new sandbox) }
{
    world.reset(sandbox)
}

/// Takes a sandbox back to what it was when its world was loaded or it was added, whatever it did:
/// its data, pc, registers and count of steps are those of then, and it is ready. `false`, and
/// nothing changed, if there is no world or no such sandbox.
#[unsafe(no_mangle)]
pub extern "C" fn sfi_run_reset(alloc: Global, world: &mut SfiRunWorld, sandbox: u32) -> bool
    ensures call { IsHeldCall result world.old.inner.world world.new.inner.world sandbox
        Reset (λ w n. HasBeenReset w n sandbox) }
{
    let Some(mut boxed) = world.take(alloc) else {
        return false;
    };
    let done = reset_sandbox(&mut boxed, sandbox);
    world.put(boxed);
    done
}
