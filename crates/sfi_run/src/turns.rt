//! Turns up to a call, replies, and functions that are called.
ghost use Rattle.std.specs.Prelude.{◌≡◌, ◌↔◌, Some, None, IsSome, IsTrue, false};
ghost use Rattle.std.specs.Bool.{OnTrue, OnFalse};
ghost use Rattle.sfi_host.specs.Loading.{MayEnterAt};
ghost use Rattle.sfi_host.specs.Worlds.{Sandboxes, slots_of, IsSafeWorld};
ghost use Rattle.sfi_host.specs.Sessions.{GiveReply};
ghost use Rattle.sfi_run.specs.Changes.{IsCall, IsHeldCall, HasRunToCall, HasRunToStop, HasReplied, HasCalled};
ghost use Rattle.sfi_run.specs.Snapshots.{none_event, IsEventOf};

use crate::holding::SfiRunWorld;
use crate::snapshots::SfiRunEvent;
use rv_mem::Pages;
use sfi_host::{Later, Turn, World};
use std::alloc::Global;

/// Runs a sandbox up to its next call, for at most `steps` steps. The answer is how it stands then.
fn event_after_run(world: &mut World<Pages>, sandbox: u32, steps: u32) -> SfiRunEvent
    ensures ran { HasRunToCall world.old world.new sandbox steps }
    ensures event { IsEventOf (slots_of world.new) sandbox result }
{
    let waiting = world.run_to_call(Turn { sandbox, steps });
    SfiRunEvent::from_world(world, sandbox, waiting)
}

/// Runs a sandbox up to its next call or one of the addresses `stops`, for at most `steps` steps, as
/// `sfi_run_until` says. The answer is how it stands then.
fn event_after_run_to_stop(
    world: &mut World<Pages>,
    sandbox: u32,
    stops: &[u32],
    steps: u32,
) -> SfiRunEvent
    ensures ran { HasRunToStop world.old world.new sandbox steps stops.now }
    ensures event { IsEventOf (slots_of world.new) sandbox result }
{
    let waiting = world.run_until(Turn { sandbox, steps }, stops);
    SfiRunEvent::from_world(world, sandbox, waiting)
}

/// How a sandbox stands.
fn event_of(world: &World<Pages>, sandbox: u32) -> SfiRunEvent
    ensures { IsEventOf (slots_of world.now) sandbox result }
{
    let waiting = world.waiting(sandbox);
    SfiRunEvent::from_world(world, sandbox, waiting)
}

/// Gives a sandbox that waits at a call this reply; `false`, and nothing changed, if it waits at
/// none.
fn reply_to_call(world: &mut World<Pages>, sandbox: u32, later: Later) -> bool
    ensures call { IsCall result world.old world.new sandbox (GiveReply later)
        (HasReplied world.old world.new sandbox later) }
{
    world.reply(sandbox, later)
}

/// Enters a sandbox and runs it up to its next call, for at most `steps` steps. `false` where it may
/// not be entered, and then it is as before. In both cases writes to `event` how it stands then.
fn call_sandbox(
    world: &mut World<Pages>,
    sandbox: u32,
    pc: u32,
    arguments: &[u32; 8],
    steps: u32,
    event: &mut SfiRunEvent,
) -> bool
    ensures may { IsTrue result ↔ MayEnterAt (slots_of world.old) sandbox pc }
    ensures called { OnTrue result
        (HasCalled world.old world.new sandbox pc arguments.now steps) }
    ensures refused { OnFalse result (world.new ≡ world.old) }
    ensures event { IsEventOf (slots_of world.new) sandbox event.new }
    ensures safe { IsSafeWorld world.new }
{
    if !world.enter(sandbox, pc, arguments) {
        world.stays_safe();
        *event = event_of(world, sandbox);
        return false;
    }
    *event = event_after_run(world, sandbox, steps);
    true
}

/// Runs a sandbox up to its next call, for at most `steps` steps. Writes to `event` how it stands
/// then, and returns the event's kind. One that waits at a call or has stopped does no step.
#[unsafe(no_mangle)]
pub extern "C" fn sfi_run_turn(
    alloc: Global,
    world: &mut SfiRunWorld,
    sandbox: u32,
    steps: u32,
    event: &mut SfiRunEvent,
) -> u32
    ensures kind { result ≡ event.new.kind }
    ensures held { IsSome world.old.inner.world ↔ IsSome world.new.inner.world }
    ensures ran { (w n : Sandboxes) → world.old.inner.world ≡ Some w
        → world.new.inner.world ≡ Some n → HasRunToCall w n sandbox steps }
    ensures event { (n : Sandboxes) → world.new.inner.world ≡ Some n
        → IsEventOf (slots_of n) sandbox event.new }
    ensures none { world.old.inner.world ≡ None → event.new ≡ none_event }
{
    let Some(mut boxed) = world.take(alloc) else {
        *event = SfiRunEvent::none();
        return event.kind;
    };
    *event = event_after_run(&mut boxed, sandbox, steps);
    world.put(boxed);
    event.kind
}

/// Runs a sandbox as `sfi_run_turn` does, but no further than to one of the addresses `stops`: the
/// turn ends before the instruction there. The first step is done also where it stands at a stop
/// already, so that a debugger goes on from one. Writes to `event` how it stands then, and returns
/// the event's kind.
#[unsafe(no_mangle)]
pub extern "C" fn sfi_run_until(
    alloc: Global,
    world: &mut SfiRunWorld,
    sandbox: u32,
    stops: &[u32],
    steps: u32,
    event: &mut SfiRunEvent,
) -> u32
    ensures kind { result ≡ event.new.kind }
    ensures held { IsSome world.old.inner.world ↔ IsSome world.new.inner.world }
    ensures ran { (w n : Sandboxes) → world.old.inner.world ≡ Some w
        → world.new.inner.world ≡ Some n → HasRunToStop w n sandbox steps stops.now }
    ensures event { (n : Sandboxes) → world.new.inner.world ≡ Some n
        → IsEventOf (slots_of n) sandbox event.new }
    ensures none { world.old.inner.world ≡ None → event.new ≡ none_event }
{
    let Some(mut boxed) = world.take(alloc) else {
        *event = SfiRunEvent::none();
        return event.kind;
    };
    *event = event_after_run_to_stop(&mut boxed, sandbox, stops, steps);
    world.put(boxed);
    event.kind
}

/// Calls a function of a sandbox that has stopped: enters it as `sfi_run_enter` does at `pc`, with
/// the arguments in a0 to a7, and runs it up to its next call, for at most `steps` steps. `false`
/// where it isn't entered, and then nothing changed. In both cases writes to `event` how it stands
/// then.
#[unsafe(no_mangle)]
pub extern "C" fn sfi_run_call(
    alloc: Global,
    world: &mut SfiRunWorld,
    sandbox: u32,
    pc: u32,
    arguments: &[u32; 8],
    steps: u32,
    event: &mut SfiRunEvent,
) -> bool
    ensures may { (w : Sandboxes) → world.old.inner.world ≡ Some w
        → (IsTrue result ↔ MayEnterAt (slots_of w) sandbox pc) }
    ensures called { OnTrue result ((w n : Sandboxes) → world.old.inner.world ≡ Some w
        → world.new.inner.world ≡ Some n → HasCalled w n sandbox pc arguments.now steps) }
    ensures refused { OnFalse result (world.new.inner.world ≡ world.old.inner.world) }
    ensures event { (n : Sandboxes) → world.new.inner.world ≡ Some n
        → IsEventOf (slots_of n) sandbox event.new }
    ensures no_world { world.old.inner.world ≡ None → event.new ≡ none_event }
    ensures safe { (n : Sandboxes) → world.new.inner.world ≡ Some n → IsSafeWorld n }
    ensures held { IsSome world.old.inner.world ↔ IsSome world.new.inner.world }
    ensures none { world.old.inner.world ≡ None → result ≡ false }
{
    let Some(mut boxed) = world.take(alloc) else {
        *event = SfiRunEvent::none();
        return false;
    };
    let done = call_sandbox(&mut boxed, sandbox, pc, arguments, steps, event);
    world.put(boxed);
    done
}

/// Writes to `event` how a sandbox stands, and returns the event's kind. Nothing runs.
#[unsafe(no_mangle)]
pub extern "C" fn sfi_run_event(
    alloc: Global,
    world: &mut SfiRunWorld,
    sandbox: u32,
    event: &mut SfiRunEvent,
) -> u32
    ensures kind { result ≡ event.new.kind }
    ensures same { world.new.inner.world ≡ world.old.inner.world }
    ensures event { (w : Sandboxes) → world.old.inner.world ≡ Some w
        → IsEventOf (slots_of w) sandbox event.new }
    ensures none { world.old.inner.world ≡ None → event.new ≡ none_event }
{
    let Some(boxed) = world.take(alloc) else {
        *event = SfiRunEvent::none();
        return event.kind;
    };
    *event = event_of(&boxed, sandbox);
    world.put(boxed);
    event.kind
}

/// Gives a sandbox that waits at a call its reply: a0 and a1. It goes on after the call, in its
/// next turn. `false`, and nothing changed, if there is no world, or it waits at no call.
#[unsafe(no_mangle)]
pub extern "C" fn sfi_run_reply(
    alloc: Global,
    world: &mut SfiRunWorld,
    sandbox: u32,
    a0: u32,
    a1: u32,
) -> bool
    ensures call { IsHeldCall result world.old.inner.world world.new.inner.world sandbox
        (GiveReply (record { a0 = a0; a1 = a1; exit = None })) (λ w n. HasReplied w n sandbox (record { a0 = a0; a1 = a1; exit = None })) }
{
    let Some(mut boxed) = world.take(alloc) else {
        return false;
    };
    let done = reply_to_call(&mut boxed, sandbox, Later { a0, a1, exit: None });
    world.put(boxed);
    done
}

/// The other reply: stops a sandbox that waits at a call, with a number. Its a0 becomes the number,
/// a1 becomes 0, and pc stays at the call. `false` as of `sfi_run_reply`.
#[unsafe(no_mangle)]
pub extern "C" fn sfi_run_exit(
    alloc: Global,
    world: &mut SfiRunWorld,
    sandbox: u32,
    number: u32,
) -> bool
    ensures call { IsHeldCall result world.old.inner.world world.new.inner.world sandbox
        (GiveReply (record { a0 = number; a1 = 0; exit = Some number })) (λ w n. HasReplied w n sandbox (record { a0 = number; a1 = 0; exit = Some number })) }
{
    let Some(mut boxed) = world.take(alloc) else {
        return false;
    };
    let later = Later {
        a0: number,
        a1: 0,
        exit: Some(number),
    };
    let done = reply_to_call(&mut boxed, sandbox, later);
    world.put(boxed);
    done
}
