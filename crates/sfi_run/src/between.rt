//! What C does between turns: reads and writes data and registers, enters and stops sandboxes.
ghost use Rattle.std.specs.Prelude.{◌≡◌, ◌↔◌, ◌≤◌, ℕ, length, take, drop, Some, None, IsSome, IsTrue, false, slice_get};
ghost use Rattle.std.specs.Bool.{OnTrue, OnFalse};
ghost use Rattle.rv_step.specs.State.{Hart};
ghost use Rattle.sfi_host.specs.Changing.{data_bytes_of};
ghost use Rattle.sfi_host.specs.Slots.{hart_at, data_region_at};
ghost use Rattle.sfi_host.specs.Changing.{hart_of};
ghost use Rattle.sfi_host.specs.Worlds.{Sandboxes, slots_of, steps_at};
ghost use Rattle.sfi_host.specs.Sessions.{Write, Enter, Stop, SetRegisters};
ghost use Rattle.sfi_run.specs.Changes.{IsCall, IsHeldCall, HasWritten, HasEntered, HasBeenStopped, HasRegisters};
ghost use Rattle.sfi_run.specs.Snapshots.{region_span, AreRegistersOf};

use crate::holding::SfiRunWorld;
use crate::snapshots::{SfiRunRegion, SfiRunRegisters};
use rv_mem::Pages;
use sfi_host::{Status, World};
use std::alloc::Global;

/// Copies `count` data bytes of a sandbox from the address `at` on to the first of `room`; `false`,
/// and nothing is written, where `sfi_run_read` says so.
fn read_data(world: &World<Pages>, sandbox: u32, at: u32, count: usize, room: &mut [u8]) -> bool
    ensures there { IsTrue result ↔ ((count ≤ length room.old)
        × IsSome (data_bytes_of (slice_get (slots_of world.now) sandbox) at count)) }
    ensures done { OnTrue result (data_bytes_of (slice_get (slots_of world.now) sandbox) at count
        ≡ Some (take count room.new)) }
    ensures rest { drop count room.new ≡ drop count room.old }
    ensures refused { OnFalse result (room.new ≡ room.old) }
{
    if count > room.len() {
        return false;
    }
    world.read(sandbox, at, &mut room[..count])
}

/// Copies `count` data bytes of a sandbox from the address `at` on to the first of `room`. `false`,
/// and nothing is written, if there is no world or no such sandbox, `room` is shorter, or one of
/// these addresses isn't in its data; where `count` is 0 any address will do.
#[unsafe(no_mangle)]
pub extern "C" fn sfi_run_read(
    alloc: Global,
    world: &mut SfiRunWorld,
    sandbox: u32,
    at: u32,
    count: usize,
    room: &mut [u8],
) -> bool
    ensures same { world.new.inner.world ≡ world.old.inner.world }
    ensures there { (w : Sandboxes) → world.old.inner.world ≡ Some w
        → (IsTrue result ↔ ((count ≤ length room.old)
        × IsSome (data_bytes_of (slice_get (slots_of w) sandbox) at count))) }
    ensures done { OnTrue result ((w : Sandboxes) → world.old.inner.world ≡ Some w
        → data_bytes_of (slice_get (slots_of w) sandbox) at count ≡ Some (take count room.new)) }
    ensures rest { drop count room.new ≡ drop count room.old }
    ensures refused { OnFalse result (room.new ≡ room.old) }
    ensures none { world.old.inner.world ≡ None → result ≡ false }
{
    let Some(boxed) = world.take(alloc) else {
        return false;
    };
    let done = read_data(&boxed, sandbox, at, count, room);
    world.put(boxed);
    done
}

/// Writes all of `bytes` to the data of a sandbox from the address `at` on; `false`, and nothing
/// changed, if there is no such sandbox, or one of these addresses isn't in its data.
fn write_data(world: &mut World<Pages>, sandbox: u32, at: u32, bytes: &[u8]) -> bool
    ensures call { IsCall result world.old world.new sandbox (Write at bytes.now)
        (HasWritten world.old world.new sandbox at bytes.now) }
{
    world.write(sandbox, at, bytes)
}

/// Writes all of `bytes` to the data of a sandbox from the address `at` on. `false`, and nothing
/// changed, if there is no world or no such sandbox, or one of these addresses isn't in its data.
#[unsafe(no_mangle)]
pub extern "C" fn sfi_run_write(
    alloc: Global,
    world: &mut SfiRunWorld,
    sandbox: u32,
    at: u32,
    bytes: &[u8],
) -> bool
    ensures call { IsHeldCall result world.old.inner.world world.new.inner.world sandbox
        (Write at bytes.now) (λ w n. HasWritten w n sandbox at bytes.now) }
{
    let Some(mut boxed) = world.take(alloc) else {
        return false;
    };
    let done = write_data(&mut boxed, sandbox, at, bytes);
    world.put(boxed);
    done
}

/// Enters a sandbox at `pc` with the arguments in a0 to a7; `false`, and nothing changed, where
/// `World::enter` refuses.
fn enter_sandbox(world: &mut World<Pages>, sandbox: u32, pc: u32, arguments: &[u32; 8]) -> bool
    ensures call { IsCall result world.old world.new sandbox (Enter pc arguments.now)
        (HasEntered world.old world.new sandbox pc arguments.now) }
{
    world.enter(sandbox, pc, arguments)
}

/// Makes a sandbox that has stopped ready at `pc`, as a function that the host calls, with the
/// arguments in a0 to a7; nothing runs yet. `false`, and nothing changed, if there is no world or no
/// such sandbox, it hasn't stopped, or no bundle or word of its code begins at `pc`.
#[unsafe(no_mangle)]
pub extern "C" fn sfi_run_enter(
    alloc: Global,
    world: &mut SfiRunWorld,
    sandbox: u32,
    pc: u32,
    arguments: &[u32; 8],
) -> bool
    ensures call { IsHeldCall result world.old.inner.world world.new.inner.world sandbox
        (Enter pc arguments.now) (λ w n. HasEntered w n sandbox pc arguments.now) }
{
    let Some(mut boxed) = world.take(alloc) else {
        return false;
    };
    let done = enter_sandbox(&mut boxed, sandbox, pc, arguments);
    world.put(boxed);
    done
}

/// Stops a sandbox; `false`, and nothing changed, if there is none or it has stopped already.
fn stop_sandbox(world: &mut World<Pages>, sandbox: u32) -> bool
    ensures call { IsCall result world.old world.new sandbox Stop
        (HasBeenStopped world.old world.new sandbox) }
{
    world.stop(sandbox)
}

/// Stops a sandbox that is ready, also where it waits at a call: no turn runs it then, it takes no
/// reply, and it may be entered again. Its data, registers and count of steps stay. `false`, and
/// nothing changed, if there is no world or no such sandbox, or it has stopped already.
#[unsafe(no_mangle)]
pub extern "C" fn sfi_run_stop(alloc: Global, world: &mut SfiRunWorld, sandbox: u32) -> bool
    ensures call { IsHeldCall result world.old.inner.world world.new.inner.world sandbox
        Stop (λ w n. HasBeenStopped w n sandbox) }
{
    let Some(mut boxed) = world.take(alloc) else {
        return false;
    };
    let done = stop_sandbox(&mut boxed, sandbox);
    world.put(boxed);
    done
}

/// How many steps a sandbox has done, at most 2^64 - 1; 0 where there is no such sandbox or no world.
#[unsafe(no_mangle)]
pub extern "C" fn sfi_run_steps(alloc: Global, world: &mut SfiRunWorld, sandbox: u32) -> u64
    ensures same { world.new.inner.world ≡ world.old.inner.world }
    ensures steps { (w : Sandboxes) (n : ℕ) → world.old.inner.world ≡ Some w
        → steps_at (slots_of w) sandbox ≡ Some n → result ≡ n }
    ensures no_sandbox { (w : Sandboxes) → world.old.inner.world ≡ Some w
        → steps_at (slots_of w) sandbox ≡ None → result ≡ 0 }
    ensures none { world.old.inner.world ≡ None → result ≡ 0 }
{
    let Some(boxed) = world.take(alloc) else {
        return 0;
    };
    let steps = match boxed.steps(sandbox) {
        None => 0,
        Some(steps) => steps,
    };
    world.put(boxed);
    steps
}

/// Writes the pc and the registers of a sandbox to `registers`; `false`, and nothing is written, if
/// there is none.
fn tell_registers(world: &World<Pages>, sandbox: u32, registers: &mut SfiRunRegisters) -> bool
    ensures there { IsTrue result ↔ IsSome (hart_at (slots_of world.now) sandbox) }
    ensures done { OnTrue result ((h : Hart) → hart_at (slots_of world.now) sandbox ≡ Some h
        → AreRegistersOf h registers.new) }
    ensures refused { OnFalse result (registers.new ≡ registers.old) }
{
    let Some(cpu) = world.cpu(sandbox) else {
        return false;
    };
    *registers = SfiRunRegisters::from_cpu(cpu);
    true
}

/// Writes the pc and the registers of a sandbox to `registers`. `false`, and nothing is written, if
/// there is no world or no such sandbox.
#[unsafe(no_mangle)]
pub extern "C" fn sfi_run_registers(
    alloc: Global,
    world: &mut SfiRunWorld,
    sandbox: u32,
    registers: &mut SfiRunRegisters,
) -> bool
    ensures same { world.new.inner.world ≡ world.old.inner.world }
    ensures there { (w : Sandboxes) → world.old.inner.world ≡ Some w
        → (IsTrue result ↔ IsSome (hart_at (slots_of w) sandbox)) }
    ensures done { OnTrue result ((w : Sandboxes) (h : Hart) → world.old.inner.world ≡ Some w
        → hart_at (slots_of w) sandbox ≡ Some h → AreRegistersOf h registers.new) }
    ensures refused { OnFalse result (registers.new ≡ registers.old) }
    ensures none { world.old.inner.world ≡ None → result ≡ false }
{
    let Some(boxed) = world.take(alloc) else {
        return false;
    };
    let done = tell_registers(&boxed, sandbox, registers);
    world.put(boxed);
    done
}

/// Makes a sandbox ready with this pc and these registers; `false`, and nothing changed, where
/// `World::set_registers` refuses.
fn set_sandbox_registers(
    world: &mut World<Pages>,
    sandbox: u32,
    registers: &SfiRunRegisters,
) -> bool
    ensures call { IsCall result world.old world.new sandbox (SetRegisters registers.now.pc registers.now.x)
        (HasRegisters world.old world.new sandbox (hart_of registers.now.pc registers.now.x)) }
{
    world.set_registers(sandbox, registers.pc, &registers.x)
}

/// Makes a sandbox ready with this pc and these registers, whatever it did. `false`, and nothing
/// changed, if there is no world or no such sandbox, or it may not be entered with them.
#[unsafe(no_mangle)]
pub extern "C" fn sfi_run_set_registers(
    alloc: Global,
    world: &mut SfiRunWorld,
    sandbox: u32,
    registers: &SfiRunRegisters,
) -> bool
    ensures call { IsHeldCall result world.old.inner.world world.new.inner.world sandbox
        (SetRegisters registers.now.pc registers.now.x) (λ w n. HasRegisters w n sandbox (hart_of registers.now.pc registers.now.x)) }
{
    let Some(mut boxed) = world.take(alloc) else {
        return false;
    };
    let done = set_sandbox_registers(&mut boxed, sandbox, registers);
    world.put(boxed);
    done
}

/// Writes where the data of a sandbox lie to `region`; `false`, and nothing is written, if there is
/// none.
fn tell_data(world: &World<Pages>, sandbox: u32, region: &mut SfiRunRegion) -> bool
    ensures there { IsTrue result ↔ IsSome (data_region_at (slots_of world.now) sandbox) }
    ensures done { OnTrue result (data_region_at (slots_of world.now) sandbox
        ≡ Some (region_span region.new)) }
    ensures refused { OnFalse result (region.new ≡ region.old) }
{
    let Some(data) = world.data_region(sandbox) else {
        return false;
    };
    *region = SfiRunRegion::from_region(data);
    true
}

/// Writes where the data of a sandbox lie to `region`. `false`, and nothing is written, if there is
/// no world or no such sandbox.
#[unsafe(no_mangle)]
pub extern "C" fn sfi_run_data(
    alloc: Global,
    world: &mut SfiRunWorld,
    sandbox: u32,
    region: &mut SfiRunRegion,
) -> bool
    ensures same { world.new.inner.world ≡ world.old.inner.world }
    ensures there { (w : Sandboxes) → world.old.inner.world ≡ Some w
        → (IsTrue result ↔ IsSome (data_region_at (slots_of w) sandbox)) }
    ensures done { OnTrue result ((w : Sandboxes) → world.old.inner.world ≡ Some w
        → data_region_at (slots_of w) sandbox ≡ Some (region_span region.new)) }
    ensures refused { OnFalse result (region.new ≡ region.old) }
    ensures none { world.old.inner.world ≡ None → result ≡ false }
{
    let Some(boxed) = world.take(alloc) else {
        return false;
    };
    let done = tell_data(&boxed, sandbox, region);
    world.put(boxed);
    done
}
