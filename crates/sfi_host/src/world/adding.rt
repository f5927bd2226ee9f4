//! Sandboxes of another image that come into a world.
ghost use Rattle.std.specs.Prelude.{◌≡◌, ◌+◌, ◌^◌, ◌<◌, ◌↔◌, ◌++◌, Err, IfOk, IfSome, None, OnErr, OnOk, length};
ghost use Rattle.std.specs.FinMap.{empty};
ghost use Rattle.sfi_host.specs.Adding.{MeetsSome, AreTooMany, with_image, EarlierAreSame};
ghost use Rattle.sfi_host.specs.Changing.{AreChanges};
ghost use Rattle.sfi_host.specs.Joint.{Machine, IsMachine};
ghost use Rattle.sfi_host.specs.Loading.{AreEntered, HaveFirstData};
ghost use Rattle.sfi_host.specs.Sessions.{IsAction, Add};
ghost use Rattle.sfi_host.specs.Worlds.{IsSafeWorld};

use crate::copying::copy_all_sandboxes;
use crate::modules::Module;
use crate::sandbox::Sandbox;
use crate::world::World;
use rv_mem::Memory;
use sfi_decoded::Program;
use std::alloc::{AllocError, Global};
use std::sync::Arc;

/// Why no sandboxes were added to a world: the first of these that applies.
#[derive(Clone, Copy, Debug, PartialEq, Eq)]
pub enum AddError {
    /// A code region or data with their guard zones of the image have an address in common with
    /// those of a sandbox of the world; or those of either with the other's zone at zero.
    Meets,
    /// There would be more sandboxes than numbers of 32 bits.
    Full,
    /// An allocation was refused.
    Memory,
}

/// The number of the first of `more` sandboxes that come after those that are `there`; `None` where a
/// number of one of them would need more than 32 bits.
fn first_number(there: usize, more: usize) -> Option<u32>
    requires { 0 < more }
    ensures number { IfSome result (λ first. first ≡ there) }
    ensures none { (result ≡ None) ↔ (2 ^ 32 < there + more) }
{
    let count = (there as u64).saturating_add(more as u64);
    if count > 1 << 32 {
        return None;
    }
    Some(there as u32)
}

/// Appends sandboxes and their programs, or neither if an allocation is refused.
fn append_both(
    sandboxes: &mut Vec<Sandbox>,
    programs: &mut Vec<Arc<Program>>,
    mut more: Vec<Sandbox>,
    mut more_programs: Vec<Arc<Program>>,
) -> Result<(), AllocError>
    ensures sandboxes { OnOk result
        (sandboxes.new.items ≡ sandboxes.old.items ++ more.items) }
    ensures programs { OnOk result
        (programs.new.items ≡ programs.old.items ++ more_programs.items) }
    ensures refused { OnErr result (sandboxes.new.items ≡ sandboxes.old.items) }
    ensures programs_refused { OnErr result (programs.new.items ≡ programs.old.items) }
{
    let count = programs.len();
    programs.append(&mut more_programs)?;
    if sandboxes.append(&mut more).is_err() {
        programs.truncate(count);
        return Err(AllocError);
    }
    Ok(())
}

impl<M: Memory> World<M> {
    /// Adds the sandboxes of another image, which may be of another format: each as
    /// [`Module::instance`] makes it, after those that are there, in the image's order. The answer
    /// is the number of the first. The world's bytes are copied to the memory handed in, which
    /// becomes the world's: so on an error the world is what it was. A console has to be made for
    /// the greater number of sandboxes.
    pub fn add(&mut self, alloc: Global, module: &Module, memory: M) -> Result<u32, AddError>
        requires { M.bytes memory ≡ empty }

        // When each answer comes.
        ensures meets { (result ≡ Err AddError.Meets) ↔ MeetsSome self.old module.now }
        ensures full { (result ≡ Err AddError.Full)
            ↔ ((MeetsSome self.old module.now → ⊥) × AreTooMany self.old module.now) }
        ensures first { IfOk result (λ first. first ≡ length self.old.seats) }
        ensures added { OnOk result (self.new ≡ with_image self.old module.now) }
        ensures refused { OnErr result (self.new ≡ self.old) }
        ensures action { OnOk result ((machine : Machine) → IsMachine machine
            → IsAction machine self.old (Add module.now) self.new) }

        // What that comes to for those that were added, as `load` says of a first world.
        ensures entered { OnOk result (AreEntered module.now self.new.bytes) }
        ensures first_data { OnOk result (HaveFirstData module.now self.new.bytes) }

        // Each earlier sandbox is what it was. In the theorem's words it is a change by others; so
        // the world is safe as before, and what is said of plans holds of those that follow.
        ensures earlier { EarlierAreSame self.old self.new }
        ensures changes { AreChanges self.old self.new }
        ensures safe { IsSafeWorld self.new }
    {
        if module.meets(&self.sandboxes) {
            return Err(AddError::Meets);
        }
        match first_number(self.sandboxes.len(), module.len()) {
            None => Err(AddError::Full),
            Some(first) => match self.extend(alloc, module, memory) {
                Ok(()) => Ok(first),
                Err(_) => Err(AddError::Memory),
            },
        }
    }

    /// Adds the module's sandboxes, which meet none of the world's, as `add` says. An error means that
    /// memory ran out, and then the world is what it was.
    fn extend(&mut self, alloc: Global, module: &Module, memory: M) -> Result<(), AllocError>
        requires apart { MeetsSome self.old module.now → ⊥ }
        requires empty { M.bytes memory ≡ empty }
        ensures added { OnOk result (self.new ≡ with_image self.old module.now) }
        ensures refused { OnErr result (self.new ≡ self.old) }
        ensures entered { OnOk result (AreEntered module.now self.new.bytes) }
        ensures first_data { OnOk result (HaveFirstData module.now self.new.bytes) }
        ensures earlier { EarlierAreSame self.old self.new }
        ensures changes { AreChanges self.old self.new }
        ensures safe { IsSafeWorld self.new }
    {
        let mut memory = memory;
        copy_all_sandboxes(alloc, &self.sandboxes, &self.memory, &mut memory)?;
        let sandboxes = module.load(alloc, &mut memory)?;
        let programs = module.programs(alloc)?;
        append_both(&mut self.sandboxes, &mut self.programs, sandboxes, programs)?;
        self.memory = memory;
        Ok(())
    }
}
