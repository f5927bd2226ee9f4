//! Modules for C: images that are checked and decoded once, and the worlds of one.
ghost use Rattle.std.specs.Prelude.{◌≡◌, ◌≢◌, ◌↔◌, ◌⊎◌, ◌≤◌, List, Some, None, IsSome, false};
ghost use Rattle.std.specs.Bool.{OnTrue, OnFalse};
ghost use Rattle.std.specs.Option.{option_map};
ghost use Rattle.sfi_image.specs.declared.fault.LayoutFault.{LayoutFault};
ghost use Rattle.sfi_image.specs.Faults.{IsFault};
ghost use Rattle.sfi_image.specs.Spelling.{Part};
ghost use Rattle.sfi_rules.specs.declared.finding.Finding.{Finding};
ghost use Rattle.sfi_check.specs.Verdict.{HasFindings};
ghost use Rattle.sfi_check.specs.ForC.{IsVerdictForC};
ghost use Rattle.sfi_safety.specs.Clean.{IsAccepted};
ghost use Rattle.sfi_host.specs.Worlds.{Sandboxes, IsSafeWorld};
ghost use Rattle.sfi_host.specs.Sessions.{IsSoundWorld};
ghost use Rattle.sfi_run.specs.Held.{flag_of};
ghost use Rattle.sfi_run.specs.Held.{first_world, fault_number};

use crate::held_module::HeldModule;
use crate::holding::SfiRunWorld;
use crate::worlds::{LoadFault, module_of, new_instance, sfi_run_free};
use sfi_check::{SfiVerdict, judge};
use sfi_host::Module;
use std::alloc::Global;
use std::mem::replace;

/// A module, or none: `struct sfi_run_module`. C begins with zeros, and only moves it then. During
/// a call there is none in it, as with a world.
#[repr(C)]
#[derive(Drop)]
pub struct SfiRunModule {
    held: u32,
    pub inner: HeldModule,
    ghost flag: { held ≡ flag_of inner.parts },
}

impl SfiRunModule {
    /// Takes the module out, for a call or to free it; `None` if there is none.
    pub(crate) fn take(&mut self, alloc: Global) -> Option<Box<Module>>
        ensures taken { option_map (λ b. b.value) result ≡ self.old.inner.parts }
        ensures none { self.new.inner.parts ≡ None }
    {
        let none = SfiRunModule {
            held: 0,
            inner: HeldModule::none(alloc),
        };
        let SfiRunModule { held, inner } = replace(self, none);
        if held == 0 {
            None
        } else {
            Some(inner.into_box())
        }
    }

    /// Puts a module in, where there is none: one that was there would never be freed.
    pub(crate) fn put(&mut self, boxed: Box<Module>)
        requires { self.old.inner.parts ≡ None }
        ensures { self.new.inner.parts ≡ Some boxed.value }
    {
        *self = SfiRunModule {
            held: 1,
            inner: HeldModule::from_box(boxed),
        };
    }
}

/// Frees the module. Worlds that were made of it stay what they are.
#[unsafe(no_mangle)]
pub extern "C" fn sfi_run_module_free(alloc: Global, from: &mut SfiRunModule)
    ensures { from.new.inner.parts ≡ None }
{
    drop(from.take(alloc));
}

/// Frees the module that was there, writes the verdict on the image to `verdict`, as `sfi_run_load`
/// does, and makes the image's module, if it is accepted. Only that takes memory. Returns 0, or the
/// number of a [`LoadFault`], and then there is no module.
#[unsafe(no_mangle)]
pub extern "C" fn sfi_run_module_new(
    alloc: Global,
    image: &[u8],
    from: &mut SfiRunModule,
    verdict: &mut SfiVerdict,
) -> u32
    // What each status means, and which bytes get it.
    ensures made { result ≡ 0 → (ps : List Part) × IsAccepted image.now ps
        × (from.new.inner.parts ≡ Some ps) }
    ensures refused { (result ≡ fault_number LoadFault.Refused)
        ↔ ((found : List Finding) × HasFindings image.now found) }
    ensures no_image { (result ≡ fault_number LoadFault.NoImage)
        ↔ ((k : LayoutFault) × IsFault image.now k) }
    ensures memory { result ≡ fault_number LoadFault.Memory
        → (ps : List Part) × IsAccepted image.now ps }
    ensures only_loaded { (ps : List Part) → IsAccepted image.now ps
        → (result ≡ 0) ⊎ (result ≡ fault_number LoadFault.Memory) }
    ensures known { result ≤ fault_number LoadFault.Memory }
    ensures none { result ≢ 0 → from.new.inner.parts ≡ None }

    // The verdict: what each of its statuses means, and which bytes get it.
    ensures verdict { IsVerdictForC image.now verdict.new }
{
    sfi_run_module_free(alloc, from);
    let answer = judge(image);
    *verdict = SfiVerdict::from_answer(answer);
    match module_of(alloc, image, answer) {
        Ok(boxed) => {
            from.put(boxed);
            0
        }
        Err(fault) => fault.number(),
    }
}

/// Frees the world that was there, and makes one of the module: what `sfi_run_load` makes of the
/// image, with nothing checked or decoded anew. `false` if there is no module or memory runs out,
/// and then there is no world.
#[unsafe(no_mangle)]
pub extern "C" fn sfi_run_instance(
    alloc: Global,
    from: &mut SfiRunModule,
    world: &mut SfiRunWorld,
) -> bool
    ensures same { from.new.inner.parts ≡ from.old.inner.parts }
    ensures made { OnTrue result ((ps : List Part) → from.old.inner.parts ≡ Some ps
        → world.new.inner.world ≡ Some (first_world ps)) }
    ensures there { OnTrue result (IsSome from.old.inner.parts) }
    ensures none { OnFalse result (world.new.inner.world ≡ None) }
    ensures no_module { from.old.inner.parts ≡ None → result ≡ false }
    ensures safe { (n : Sandboxes) → world.new.inner.world ≡ Some n → IsSafeWorld n }
    ensures sound { (n : Sandboxes) → world.new.inner.world ≡ Some n → IsSoundWorld n }
{
    sfi_run_free(alloc, world);
    let Some(shared) = from.take(alloc) else {
        return false;
    };
    let made = new_instance(alloc, &shared);
    from.put(shared);
    let Ok(found) = made else {
        return false;
    };
    found.stays_safe();
    world.put(found);
    true
}
