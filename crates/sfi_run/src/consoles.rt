//! The console of `sfi run` for C: made, as the host of a turn, and what was written to it.
ghost use Rattle.std.specs.Prelude.{◌≡◌, ◌↔◌, ◌≤◌, ◌+◌, Some, None, IsSome, IsTrue, length, take, drop, false, List, ℕ};
ghost use Rattle.std.specs.Bool.{OnTrue, OnFalse};
ghost use Rattle.std.specs.Option.{option_map};
ghost use Rattle.sfi_host.specs.Consoles.{ConsoleState, new_console, output_of};
ghost use Rattle.sfi_host.specs.Worlds.{Sandboxes, IsSafeWorld};
ghost use Rattle.sfi_run.specs.Changes.{HasServed, HasRunShort};
ghost use Rattle.sfi_run.specs.Held.{flag_of};

use crate::held_console::HeldConsole;
use crate::holding::SfiRunWorld;
use rv_mem::Pages;
use sfi_host::{Console, RunAnswer, Turn, World};
use std::alloc::Global;
use std::mem::replace;

/// A console, or none: `struct sfi_run_console`. C begins with zeros, and only moves it then.
/// During a call there is none in it, as with a world.
#[repr(C)]
#[derive(Drop)]
pub struct SfiRunConsole {
    held: u32,
    pub inner: HeldConsole,
    ghost flag: { held ≡ flag_of inner.console },
}

impl SfiRunConsole {
    /// Takes the console out, for a call or to free it; `None` if there is none.
    pub(crate) fn take(&mut self, alloc: Global) -> Option<Box<Console>>
        ensures taken { option_map (λ b. b.value) result ≡ self.old.inner.console }
        ensures none { self.new.inner.console ≡ None }
    {
        let none = SfiRunConsole {
            held: 0,
            inner: HeldConsole::none(alloc),
        };
        let SfiRunConsole { held, inner } = replace(self, none);
        if held == 0 {
            None
        } else {
            Some(inner.into_box())
        }
    }

    /// Puts a console in, where there is none: one that was there would never be freed.
    pub(crate) fn put(&mut self, console: Box<Console>)
        requires { self.old.inner.console ≡ None }
        ensures { self.new.inner.console ≡ Some console.value }
    {
        *self = SfiRunConsole {
            held: 1,
            inner: HeldConsole::from_box(console),
        };
    }
}

/// Frees the console.
#[unsafe(no_mangle)]
pub extern "C" fn sfi_run_console_free(alloc: Global, console: &mut SfiRunConsole)
    ensures { console.new.inner.console ≡ None }
{
    drop(console.take(alloc));
}

/// Frees the console that was there, and makes one for `sandboxes` sandboxes, numbered from 0, with
/// that input, of which it keeps a copy. `false` if memory runs out, and then there is none.
#[unsafe(no_mangle)]
pub extern "C" fn sfi_run_console_new(
    alloc: Global,
    sandboxes: u32,
    input: &[u8],
    console: &mut SfiRunConsole,
) -> bool
    ensures made { OnTrue result
        (console.new.inner.console ≡ Some (new_console sandboxes input.now)) }
    ensures none { OnFalse result (console.new.inner.console ≡ None) }
{
    sfi_run_console_free(alloc, console);
    let Ok(made) = Console::new(alloc, sandboxes, input) else {
        return false;
    };
    let Ok(boxed) = Box::new(alloc, made) else {
        return false;
    };
    console.put(boxed);
    true
}

/// A turn of a sandbox, for at most `steps` steps, each call of which the console answers. `false` if
/// there was no memory for what a put appends, which ended the turn at that call.
fn turn(world: &mut World<Pages>, console: &mut Console, sandbox: u32, steps: u32) -> bool
    ensures served { OnTrue result
        (HasServed world.old world.new console.old console.new sandbox steps) }
    ensures short { OnFalse result
        (HasRunShort world.old world.new console.old console.new sandbox steps) }
    ensures safe { IsSafeWorld world.new }
{
    match world.run_plan(&[Turn { sandbox, steps }], console) {
        RunAnswer::Done => true,
        RunAnswer::Memory { .. } => false,
    }
}

/// A turn of a sandbox, for at most `steps` steps, each call of which the console answers. `false`
/// where there is no world or no console, or a put for which there was no memory ended the turn.
#[unsafe(no_mangle)]
pub extern "C" fn sfi_run_console_turn(
    alloc: Global,
    console: &mut SfiRunConsole,
    world: &mut SfiRunWorld,
    sandbox: u32,
    steps: u32,
) -> bool
    ensures served { OnTrue result ((w n : Sandboxes) (c d : ConsoleState)
        → world.old.inner.world ≡ Some w → world.new.inner.world ≡ Some n
        → console.old.inner.console ≡ Some c → console.new.inner.console ≡ Some d
        → HasServed w n c d sandbox steps) }
    ensures short { OnFalse result ((w n : Sandboxes) (c d : ConsoleState)
        → world.old.inner.world ≡ Some w → world.new.inner.world ≡ Some n
        → console.old.inner.console ≡ Some c → console.new.inner.console ≡ Some d
        → HasRunShort w n c d sandbox steps) }
    ensures held { IsSome world.old.inner.world ↔ IsSome world.new.inner.world }
    ensures kept { IsSome console.old.inner.console ↔ IsSome console.new.inner.console }
    ensures no_world { world.old.inner.world ≡ None → result ≡ false }
    ensures no_console { console.old.inner.console ≡ None → result ≡ false }
    ensures alone { console.old.inner.console ≡ None
        → world.new.inner.world ≡ world.old.inner.world }
    ensures no_turn { world.old.inner.world ≡ None
        → console.new.inner.console ≡ console.old.inner.console }
{
    let Some(mut host) = console.take(alloc) else {
        return false;
    };
    let Some(mut boxed) = world.take(alloc) else {
        console.put(host);
        return false;
    };
    let done = turn(&mut boxed, &mut host, sandbox, steps);
    world.put(boxed);
    console.put(host);
    done
}

/// How many bytes a sandbox has written to the console; 0 where there is no such sandbox.
#[unsafe(no_mangle)]
pub extern "C" fn sfi_run_console_written(
    alloc: Global,
    console: &mut SfiRunConsole,
    sandbox: u32,
) -> usize
    ensures same { console.new.inner.console ≡ console.old.inner.console }
    ensures written { (c : ConsoleState) (bytes : List ℕ) → console.old.inner.console ≡ Some c
        → output_of c sandbox ≡ Some bytes → result ≡ length bytes }
    ensures no_sandbox { (c : ConsoleState) → console.old.inner.console ≡ Some c
        → output_of c sandbox ≡ None → result ≡ 0 }
    ensures none { console.old.inner.console ≡ None → result ≡ 0 }
{
    let Some(boxed) = console.take(alloc) else {
        return 0;
    };
    let written = match boxed.output(sandbox) {
        None => 0,
        Some(bytes) => bytes.len(),
    };
    console.put(boxed);
    written
}

/// Fills all of `room` with what a sandbox has written, from byte `from` of it on; `false`, and
/// nothing is written, where there is no such sandbox, or it has written less.
fn read_output(console: &Console, sandbox: u32, from: usize, room: &mut [u8]) -> bool
    ensures there { (bytes : List ℕ) → output_of console.now sandbox ≡ Some bytes
        → (IsTrue result ↔ (from + length room.old ≤ length bytes)) }
    ensures done { OnTrue result ((bytes : List ℕ) → output_of console.now sandbox ≡ Some bytes
        → room.new ≡ take (length room.old) (drop from bytes)) }
    ensures refused { OnFalse result (room.new ≡ room.old) }
    ensures no_sandbox { output_of console.now sandbox ≡ None → result ≡ false }
{
    let Some(bytes) = console.output(sandbox) else {
        return false;
    };
    if from > bytes.len() || room.len() > bytes.len() - from {
        return false;
    }
    room.copy_from_slice(&bytes[from..from + room.len()]);
    true
}

/// Fills all of `room` with what a sandbox has written to the console, from byte `from` of it on.
/// `false`, and nothing is written, if there is no console or no such sandbox, or it has written
/// less.
#[unsafe(no_mangle)]
pub extern "C" fn sfi_run_console_read(
    alloc: Global,
    console: &mut SfiRunConsole,
    sandbox: u32,
    from: usize,
    room: &mut [u8],
) -> bool
    ensures same { console.new.inner.console ≡ console.old.inner.console }
    ensures there { (c : ConsoleState) (bytes : List ℕ) → console.old.inner.console ≡ Some c
        → output_of c sandbox ≡ Some bytes
        → (IsTrue result ↔ (from + length room.old ≤ length bytes)) }
    ensures done { OnTrue result ((c : ConsoleState) (bytes : List ℕ)
        → console.old.inner.console ≡ Some c → output_of c sandbox ≡ Some bytes
        → room.new ≡ take (length room.old) (drop from bytes)) }
    ensures refused { OnFalse result (room.new ≡ room.old) }
    ensures no_sandbox { (c : ConsoleState) → console.old.inner.console ≡ Some c
        → output_of c sandbox ≡ None → result ≡ false }
    ensures none { console.old.inner.console ≡ None → result ≡ false }
{
    let Some(boxed) = console.take(alloc) else {
        return false;
    };
    let done = read_output(&boxed, sandbox, from, room);
    console.put(boxed);
    done
}
