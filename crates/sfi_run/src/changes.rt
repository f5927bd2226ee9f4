//! Sandboxes that come into a world, and that leave it, for C.
ghost use Rattle.std.specs.Prelude.{◌≡◌, ◌≢◌, ◌↔◌, ◌≤◌, ◌⊎◌, List, Some, None, Err, IsSome, IfOk, OnOk, OnErr, length, slice_get};
ghost use Rattle.sfi_image.specs.Spelling.{Part};
ghost use Rattle.sfi_host.specs.Adding.{MeetsSome, AreTooMany};
ghost use Rattle.sfi_host.specs.Worlds.{Sandboxes, slots_of, IsSafeWorld};
ghost use Rattle.sfi_run.specs.Changes.{HasAdded, HasLost};
ghost use Rattle.sfi_run.specs.Held.{add_number, remove_number, no_world_number, no_module_number};

use crate::holding::SfiRunWorld;
use crate::modules::SfiRunModule;
use rv_mem::Pages;
use sfi_host::{AddError, Module, RemoveError, World};
use std::alloc::Global;

// The numbers by which C knows that there is no world, or no module. Those of the errors below are
// others. All are those of `enum sfi_run_change` in include/sfi_run.h and of specs/Held, and 0 is
// none.
const NO_WORLD: u32 = 1;

const NO_MODULE: u32 = 2;

/// The number of `enum sfi_run_change` by which C knows the error.
fn number_of_add(error: AddError) -> u32
    ensures { result ≡ add_number error }
{
    match error {
        AddError::Meets => 4,
        AddError::Full => 5,
        AddError::Memory => 6,
    }
}

/// The number of `enum sfi_run_change` by which C knows the error.
fn number_of_remove(error: RemoveError) -> u32
    ensures { result ≡ remove_number error }
{
    match error {
        RemoveError::Missing => 3,
        RemoveError::Memory => 6,
    }
}

/// What `sfi_run_add` returns: 0, and then the number of the first sandbox that was added is written
/// to `first`; or the error's number, and nothing is written.
fn status_of_add(added: Result<u32, AddError>, first: &mut u32) -> u32
    ensures meets { (result ≡ add_number AddError.Meets) ↔ (added ≡ Err AddError.Meets) }
    ensures full { (result ≡ add_number AddError.Full) ↔ (added ≡ Err AddError.Full) }
    ensures others { (result ≢ no_world_number) × (result ≢ no_module_number)
        × (result ≢ remove_number RemoveError.Missing) }
    ensures known { result ≤ add_number AddError.Memory }
    ensures done { IfOk added (λ number. (result ≡ 0) × (first.new ≡ number)) }
    ensures refused { OnErr added ((result ≢ 0) × (first.new ≡ first.old)) }
{
    match added {
        Ok(number) => {
            *first = number;
            0
        }
        Err(error) => number_of_add(error),
    }
}

/// What `sfi_run_remove` returns: 0, or the error's number.
fn status_of_remove(removed: Result<(), RemoveError>) -> u32
    ensures missing { (result ≡ remove_number RemoveError.Missing)
        ↔ (removed ≡ Err RemoveError.Missing) }
    ensures known { (result ≡ 0) ⊎ (result ≡ remove_number RemoveError.Missing)
        ⊎ (result ≡ remove_number RemoveError.Memory) }
    ensures done { OnOk removed (result ≡ 0) }
    ensures refused { OnErr removed (result ≢ 0) }
{
    match removed {
        Ok(()) => 0,
        Err(error) => number_of_remove(error),
    }
}

/// Adds the sandboxes of a module to the world. The answer is the number of the first.
fn add_module(alloc: Global, world: &mut World<Pages>, from: &Module) -> Result<u32, AddError>
    ensures meets { (result ≡ Err AddError.Meets) ↔ MeetsSome world.old from.now }
    ensures full { (result ≡ Err AddError.Full)
        ↔ ((MeetsSome world.old from.now → ⊥) × AreTooMany world.old from.now) }
    ensures first { IfOk result (λ first. first ≡ length world.old.seats) }
    ensures added { OnOk result (HasAdded world.old from.now world.new) }
    ensures refused { OnErr result (world.new ≡ world.old) }
    ensures safe { IsSafeWorld world.new }
{
    world.add(alloc, from, Pages::new(alloc))
}

/// Removes a sandbox from the world. On an error the world is what it was.
fn remove_sandbox(alloc: Global, world: &mut World<Pages>, sandbox: u32) -> Result<(), RemoveError>
    ensures missing { (result ≡ Err RemoveError.Missing)
        ↔ (slice_get (slots_of world.old) sandbox ≡ None) }
    ensures removed { OnOk result (HasLost world.old sandbox world.new) }
    ensures refused { OnErr result (world.new ≡ world.old) }
    ensures safe { IsSafeWorld world.new }
{
    world.remove(alloc, sandbox, Pages::new(alloc))
}

/// Adds the sandboxes of a module to a world, each as at its start, after those that are there, and
/// writes the number of the first to `first`. The world's bytes are copied first: if memory runs out
/// there, the world stays as it was. Returns 0, or another number of `enum sfi_run_change`, and then
/// nothing changed.
#[unsafe(no_mangle)]
pub extern "C" fn sfi_run_add(
    alloc: Global,
    world: &mut SfiRunWorld,
    from: &mut SfiRunModule,
    first: &mut u32,
) -> u32
    // When each status comes.
    ensures no_world { (result ≡ no_world_number) ↔ (world.old.inner.world ≡ None) }
    ensures no_module { (result ≡ no_module_number)
        ↔ (IsSome world.old.inner.world × (from.old.inner.parts ≡ None)) }
    ensures meets { (w : Sandboxes) (ps : List Part) → world.old.inner.world ≡ Some w
        → from.old.inner.parts ≡ Some ps
        → ((result ≡ add_number AddError.Meets) ↔ MeetsSome w ps) }
    ensures full { (w : Sandboxes) (ps : List Part) → world.old.inner.world ≡ Some w
        → from.old.inner.parts ≡ Some ps
        → ((result ≡ add_number AddError.Full) ↔ ((MeetsSome w ps → ⊥) × AreTooMany w ps)) }
    ensures known { result ≤ add_number AddError.Memory }
    ensures others { result ≢ remove_number RemoveError.Missing }

    // What it comes to.
    ensures added { result ≡ 0 → (w n : Sandboxes) (ps : List Part)
        → world.old.inner.world ≡ Some w → world.new.inner.world ≡ Some n
        → from.old.inner.parts ≡ Some ps → HasAdded w ps n }
    ensures first { result ≡ 0 → (w : Sandboxes) → world.old.inner.world ≡ Some w
        → first.new ≡ length w.seats }
    ensures refused { result ≢ 0 → world.new.inner.world ≡ world.old.inner.world }
    ensures not_first { result ≢ 0 → first.new ≡ first.old }
    ensures same { from.new.inner.parts ≡ from.old.inner.parts }
    ensures held { IsSome world.old.inner.world ↔ IsSome world.new.inner.world }
    ensures safe { (n : Sandboxes) → world.new.inner.world ≡ Some n → IsSafeWorld n }
{
    let Some(mut boxed) = world.take(alloc) else {
        return NO_WORLD;
    };
    let Some(shared) = from.take(alloc) else {
        boxed.stays_safe();
        world.put(boxed);
        return NO_MODULE;
    };
    let added = add_module(alloc, &mut boxed, &shared);
    world.put(boxed);
    from.put(shared);
    status_of_add(added, first)
}

/// Removes a sandbox from a world, whatever it did. Each one of a higher number has a number less
/// by one then. What is left of the world's bytes is copied first: if memory runs out there, the
/// world stays as it was. Returns 0, or another number of `enum sfi_run_change`, and then nothing
/// changed.
#[unsafe(no_mangle)]
pub extern "C" fn sfi_run_remove(alloc: Global, world: &mut SfiRunWorld, sandbox: u32) -> u32
    // When each status comes.
    ensures no_world { (result ≡ no_world_number) ↔ (world.old.inner.world ≡ None) }
    ensures missing { (w : Sandboxes) → world.old.inner.world ≡ Some w
        → ((result ≡ remove_number RemoveError.Missing)
        ↔ (slice_get (slots_of w) sandbox ≡ None)) }
    ensures known { (result ≡ 0) ⊎ (result ≡ no_world_number)
        ⊎ (result ≡ remove_number RemoveError.Missing)
        ⊎ (result ≡ remove_number RemoveError.Memory) }

    // What it comes to.
    ensures removed { result ≡ 0 → (w n : Sandboxes) → world.old.inner.world ≡ Some w
        → world.new.inner.world ≡ Some n → HasLost w sandbox n }
    ensures refused { result ≢ 0 → world.new.inner.world ≡ world.old.inner.world }
    ensures held { IsSome world.old.inner.world ↔ IsSome world.new.inner.world }
    ensures safe { (n : Sandboxes) → world.new.inner.world ≡ Some n → IsSafeWorld n }
{
    let Some(mut boxed) = world.take(alloc) else {
        return NO_WORLD;
    };
    let removed = remove_sandbox(alloc, &mut boxed, sandbox);
    world.put(boxed);
    status_of_remove(removed)
}
