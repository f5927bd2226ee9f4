//! Runs a sandbox up to one of some addresses.
ghost use Rattle.std.specs.Prelude.{◌≡◌, ◌≢◌, ◌⊎◌, ◌↔◌, ℕ, IsTrue};
ghost use Rattle.std.specs.Bool.{OnFalse};
ghost use Rattle.std.specs.List.{Contains};
ghost use Rattle.sfi_host.specs.Worlds.{seat_of};
ghost use Rattle.sfi_host.specs.private.Sandboxes.{IsSafeWith};
ghost use Rattle.sfi_host.specs.private.Sandboxes.{slot_in, StaysSafe};
ghost use Rattle.sfi_host.specs.private.Turns.{IsTurnUntil};

use crate::sandbox::Sandbox;
use crate::status::Status;
use crate::turn::{Pause, run_quietly};
use rv_mem::Memory;
use sfi_decoded::Program;

/// Whether the address is one of the stops.
fn is_stop(stops: &[u32], pc: u32) -> bool
    ensures { IsTrue result ↔ Contains stops.now pc }
{
    stops.contains(&pc)
}

/// Whether the sandbox can go on after a step that ended in `pause`: it is at no call, and has not
/// stopped.
fn may_step_on(pause: Pause, sandbox: &Sandbox) -> bool
    ensures { OnFalse result
        (((left : ℕ) × (pause ≡ Pause.Call left)) ⊎ (sandbox.now.status ≢ Status.Ready)) }
{
    match pause {
        Pause::Over => sandbox.is_ready(),
        Pause::Call { .. } => false,
    }
}

/// Runs a sandbox for at most `steps` steps, up to its next call, and no further than to one of the
/// stops, after one step at least. Each step is a turn of its own.
pub(crate) fn run_until<M: Memory>(
    memory: &mut M,
    program: &Program,
    sandbox: &mut Sandbox,
    steps: u32,
    stops: &[u32],
)
    requires { IsSafeWith (M.bytes memory.old) (seat_of sandbox.old) program.now }
    ensures stays { StaysSafe (M.bytes memory.old) (seat_of sandbox.old)
        (M.bytes memory.new) (seat_of sandbox.new) }
    ensures until { IsTurnUntil stops.now steps (slot_in (M.bytes memory.old) sandbox.old)
        (slot_in (M.bytes memory.new) sandbox.new) }
{
    for done in 0..steps {
        let pause = run_quietly(memory, program, sandbox, 1);
        if is_stop(stops, sandbox.cpu.pc()) {
            return;
        }
        if !may_step_on(pause, sandbox) {
            return;
        }
    }
}
