//! A sandbox that leaves a world.
ghost use Rattle.std.specs.Prelude.{◌≡◌, ◌↔◌, ◌<◌, Err, None, OnErr, OnOk, length, slice_get};
ghost use Rattle.std.specs.FinMap.{empty};
ghost use Rattle.sfi_host.specs.Adding.{without, RestIsSame, AreChangesToRest};
ghost use Rattle.sfi_host.specs.Joint.{Machine, IsMachine};
ghost use Rattle.sfi_host.specs.Owning.{AreOwned};
ghost use Rattle.sfi_host.specs.Sessions.{IsAction, Remove};
ghost use Rattle.sfi_host.specs.Worlds.{slots_of, IsSafeWorld};

use crate::copying::copy_other_sandboxes;
use crate::world::World;
use rv_mem::Memory;
use std::alloc::{AllocError, Global};

/// Why no sandbox was removed from a world.
#[derive(Clone, Copy, Debug, PartialEq, Eq)]
pub enum RemoveError {
    /// The world has no sandbox of the number.
    Missing,
    /// An allocation was refused.
    Memory,
}

impl<M: Memory> World<M> {
    /// Removes sandbox `i`, whatever it did: its code and data are gone, and sandboxes
    /// that lie there may be added. Each later sandbox has a number less by one then: a host that
    /// keeps something of each by its number removes the same place from what it keeps, and a
    /// console has to be made anew. What is left of the world's bytes is copied to the memory
    /// handed in, which becomes the world's: so on an error the world is what it was. A world may
    /// have no sandboxes left.
    pub fn remove(&mut self, alloc: Global, i: u32, memory: M) -> Result<(), RemoveError>
        requires { M.bytes memory ≡ empty }
        ensures missing { (result ≡ Err RemoveError.Missing)
            ↔ (slice_get (slots_of self.old) i ≡ None) }
        ensures removed { OnOk result (self.new ≡ without self.old i) }
        ensures refused { OnErr result (self.new ≡ self.old) }

        ensures action { OnOk result ((machine : Machine) → IsMachine machine
            → IsAction machine self.old (Remove i) self.new) }

        // Nothing else is left: each byte is one of another sandbox's code or data.
        ensures owned { AreOwned self.new }

        // Each other sandbox is what it was. In the theorem's words it is a change by others; so
        // the world is safe as before, and what is said of plans holds of those that follow.
        ensures rest { OnOk result (RestIsSame self.old i self.new) }
        ensures changes { OnOk result (AreChangesToRest self.old i self.new) }
        ensures safe { IsSafeWorld self.new }
    {
        let place = i as usize;
        if place >= self.sandboxes.len() {
            return Err(RemoveError::Missing);
        }
        match self.leave_out(alloc, place, memory) {
            Ok(()) => Ok(()),
            Err(_) => Err(RemoveError::Memory),
        }
    }

    /// Removes sandbox `place`, as `remove` says. An error means that memory ran out, and then the
    /// world is what it was.
    fn leave_out(&mut self, alloc: Global, place: usize, memory: M) -> Result<(), AllocError>
        requires there { place < length self.old.seats }
        requires empty { M.bytes memory ≡ empty }
        ensures removed { OnOk result (self.new ≡ without self.old place) }
        ensures refused { OnErr result (self.new ≡ self.old) }
        ensures owned { AreOwned self.new }
        ensures rest { OnOk result (RestIsSame self.old place self.new) }
        ensures changes { OnOk result (AreChangesToRest self.old place self.new) }
        ensures safe { IsSafeWorld self.new }
    {
        let mut memory = memory;
        copy_other_sandboxes(alloc, &self.sandboxes, place, &self.memory, &mut memory)?;
        self.sandboxes.remove(place);
        self.programs.remove(place);
        self.memory = memory;
        Ok(())
    }
}
