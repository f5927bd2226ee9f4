//! A sandbox of a world that begins anew.
ghost use Rattle.std.specs.Prelude.{◌≡◌, ◌↔◌, IsSome, IsTrue, slice_get};
ghost use Rattle.std.specs.Bool.{OnTrue, OnFalse};
ghost use Rattle.sfi_host.specs.Changing.{OthersAreSame};
ghost use Rattle.sfi_host.specs.Loading.{IsAtEntry};
ghost use Rattle.sfi_host.specs.Joint.{Machine, IsMachine};
ghost use Rattle.sfi_host.specs.Loading.{with_reset};
ghost use Rattle.sfi_host.specs.Sessions.{IsAction, On, Reset};
ghost use Rattle.sfi_host.specs.Worlds.{slots_of, IsSafeWorld, StaysOutsideData};

use crate::world::World;
use rv_mem::Memory;

impl<M: Memory> World<M> {
    /// Takes sandbox `i` back to what `load` made of it, whatever it did: its data are the
    /// image's and then zeros, its pc and registers are those of its start, it is ready, and has
    /// done no step. `false` where there is no such sandbox, and then nothing changed. The work is
    /// that of writing its data; nothing is checked or decoded anew, and no memory is taken. What a
    /// console keeps of the sandbox stays, and registers that `call_back` kept are not to be set
    /// after this.
    pub fn reset(&mut self, i: u32) -> bool
        ensures may { IsTrue result ↔ IsSome (slice_get (slots_of self.old) i) }
        ensures done { OnTrue result (self.new ≡ with_reset self.old i) }
        ensures refused { OnFalse result (self.new ≡ self.old) }
        ensures action { (machine : Machine) → IsMachine machine
            → IsAction machine self.old (On i Reset) self.new }

        // No other sandbox has changed, nor a byte that lies in no sandbox's data.
        ensures others { OthersAreSame self.old i self.new }
        ensures outside { StaysOutsideData self.old self.new.bytes }

        // It is an entry of the theorem; so the world is safe as before, and what is said of plans
        // holds of those that follow.
        ensures entry { OnTrue result (IsAtEntry self.new i) }
        ensures safe { IsSafeWorld self.new }
    {
        // What the contract rests on: this call does nothing.
        self.stays_safe();

        let place = i as usize;
        if place >= self.sandboxes.len() {
            return false;
        }
        self.sandboxes[place].reset(&mut self.memory);
        true
    }
}
