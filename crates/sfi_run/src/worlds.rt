//! Worlds: loaded, freed, and how many sandboxes one has.
ghost use Rattle.std.specs.Prelude.{◌≡◌, ◌↔◌, List, IfOk, IfErr, ◌≢◌, ◌⊎◌, ◌≤◌, length, Some, None, true};
ghost use Rattle.sfi_image.specs.declared.fault.LayoutFault.{LayoutFault};
ghost use Rattle.sfi_image.specs.Faults.{IsFault};
ghost use Rattle.sfi_image.specs.Spelling.{Part};
ghost use Rattle.sfi_rules.specs.declared.finding.Finding.{Finding};
ghost use Rattle.sfi_check.specs.Verdict.{HasFindings, IsVerdictOn};
ghost use Rattle.sfi_check.specs.ForC.{IsVerdictForC};
ghost use Rattle.sfi_safety.specs.Clean.{IsAccepted};
ghost use Rattle.sfi_host.specs.Worlds.{Sandboxes, slots_of, IsSafeWorld};
ghost use Rattle.sfi_host.specs.Sessions.{IsSoundWorld};
ghost use Rattle.sfi_run.specs.Held.{first_world, fault_number, Means};

use crate::holding::SfiRunWorld;
use rv_mem::Pages;
use sfi_check::{SfiVerdict, StreamAnswer, accept, judge};
use sfi_host::{Module, World};
use std::alloc::{AllocError, Global};

/// Why there is no world.
#[derive(Clone, Copy, PartialEq, Eq, Debug)]
pub enum LoadFault {
    /// Rules are broken in the image.
    Refused,
    /// The bytes are no image.
    NoImage,
    /// The image is accepted, but memory ran out.
    Memory,
}

impl LoadFault {
    /// The number by which C knows it: that of `enum sfi_run_status` in include/sfi_run.h and of
    /// `fault_number` in specs/Held. 0 means there is no fault.
    pub(crate) fn number(self) -> u32
        ensures { result ≡ fault_number self }
    {
        match self {
            LoadFault::Refused => 1,
            LoadFault::NoImage => 2,
            LoadFault::Memory => 3,
        }
    }
}

/// The module of an accepted image, in its box. An error means that memory ran out.
fn boxed(alloc: Global, image: &[u8]) -> Result<Box<Module>, AllocError>
    requires { (ps : List Part) × IsAccepted image.now ps }
    ensures { IfOk result (λ b. IsAccepted image.now b.value) }
{
    let accepted = accept(alloc, image)?;
    let made = Module::from_accepted(alloc, &accepted)?;
    let Ok(boxed) = Box::new(alloc, made) else {
        return Err(AllocError);
    };
    Ok(boxed)
}

/// The module of the image, whose verdict is `answer`, if that accepts it; else why there is none.
/// The answer `ReadFault` never comes: the image is in memory.
pub(crate) fn module_of(
    alloc: Global,
    image: &[u8],
    answer: StreamAnswer,
) -> Result<Box<Module>, LoadFault>
    requires judged { IsVerdictOn image.now true answer }
    requires read { answer ≢ StreamAnswer.ReadFault }
    ensures made { IfOk result (λ b. IsAccepted image.now b.value) }
    ensures fault { IfErr result (Means image.now) }
{
    match answer {
        StreamAnswer::Accepted { .. } => match boxed(alloc, image) {
            Ok(boxed) => Ok(boxed),
            Err(_) => Err(LoadFault::Memory),
        },
        StreamAnswer::Findings { .. } => Err(LoadFault::Refused),
        StreamAnswer::Layout(_) => Err(LoadFault::NoImage),
        StreamAnswer::ReadFault => unreachable!(),
    }
}

/// A world of a module, in its box. An error means that memory ran out.
pub(crate) fn new_instance(alloc: Global, from: &Module) -> Result<Box<World<Pages>>, AllocError>
    ensures made { IfOk result (λ b. b.value ≡ first_world from.now) }
    ensures sound { IfOk result (λ b. IsSoundWorld b.value) }
{
    let Ok(world) = from.instance(alloc, Pages::new(alloc)) else {
        return Err(AllocError);
    };
    let Ok(boxed) = Box::new(alloc, world) else {
        return Err(AllocError);
    };
    Ok(boxed)
}

/// The world of the image, before any turn, if its verdict `answer` accepts it; else why there is
/// none. It can't be `ReadFault`, as of `module_of`.
pub(crate) fn load_world(
    alloc: Global,
    image: &[u8],
    answer: StreamAnswer,
) -> Result<Box<World<Pages>>, LoadFault>
    requires judged { IsVerdictOn image.now true answer }
    requires read { answer ≢ StreamAnswer.ReadFault }
    ensures loaded { IfOk result (λ b. (ps : List Part) × IsAccepted image.now ps
        × (b.value ≡ first_world ps)) }
    ensures sound { IfOk result (λ b. IsSoundWorld b.value) }
    ensures fault { IfErr result (Means image.now) }
{
    match module_of(alloc, image, answer) {
        Ok(from) => match new_instance(alloc, &from) {
            Ok(world) => Ok(world),
            Err(_) => Err(LoadFault::Memory),
        },
        Err(fault) => Err(fault),
    }
}

/// Frees the world that was there, writes the verdict on the image to `verdict`, as `sfi_c_check` of
/// `sfi_c` does, and loads the image's world, if it is accepted. Only that takes memory. Returns 0,
/// or the number of a [`LoadFault`], and then there is no world.
#[unsafe(no_mangle)]
pub extern "C" fn sfi_run_load(
    alloc: Global,
    image: &[u8],
    world: &mut SfiRunWorld,
    verdict: &mut SfiVerdict,
) -> u32
    // What each status means, and which bytes get it.
    ensures loaded { result ≡ 0 → (ps : List Part) × IsAccepted image.now ps
        × (world.new.inner.world ≡ Some (first_world ps)) }
    ensures refused { (result ≡ fault_number LoadFault.Refused)
        ↔ ((found : List Finding) × HasFindings image.now found) }
    ensures no_image { (result ≡ fault_number LoadFault.NoImage)
        ↔ ((k : LayoutFault) × IsFault image.now k) }
    ensures memory { result ≡ fault_number LoadFault.Memory
        → (ps : List Part) × IsAccepted image.now ps }
    ensures only_loaded { (ps : List Part) → IsAccepted image.now ps
        → (result ≡ 0) ⊎ (result ≡ fault_number LoadFault.Memory) }
    ensures known { result ≤ fault_number LoadFault.Memory }
    ensures none { result ≢ 0 → world.new.inner.world ≡ None }
    ensures safe { (n : Sandboxes) → world.new.inner.world ≡ Some n → IsSafeWorld n }
    ensures sound { (n : Sandboxes) → world.new.inner.world ≡ Some n → IsSoundWorld n }

    // The verdict: what each of its statuses means, and which bytes get it.
    ensures verdict { IsVerdictForC image.now verdict.new }
{
    sfi_run_free(alloc, world);
    let answer = judge(image);
    *verdict = SfiVerdict::from_answer(answer);
    match load_world(alloc, image, answer) {
        Ok(boxed) => {
            boxed.stays_safe();
            world.put(boxed);
            0
        }
        Err(fault) => fault.number(),
    }
}

/// Frees the world; where there is none, nothing happens.
#[unsafe(no_mangle)]
pub extern "C" fn sfi_run_free(alloc: Global, world: &mut SfiRunWorld)
    ensures { world.new.inner.world ≡ None }
{
    drop(world.take(alloc));
}

/// How many sandboxes there are; 0 where there is no world.
#[unsafe(no_mangle)]
pub extern "C" fn sfi_run_count(alloc: Global, world: &mut SfiRunWorld) -> usize
    ensures same { world.new.inner.world ≡ world.old.inner.world }
    ensures count { (w : Sandboxes) → world.old.inner.world ≡ Some w
        → result ≡ length (slots_of w) }
    ensures none { world.old.inner.world ≡ None → result ≡ 0 }
{
    let Some(boxed) = world.take(alloc) else {
        return 0;
    };
    let count = boxed.len();
    world.put(boxed);
    count
}
