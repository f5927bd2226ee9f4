//! A sandbox of a world that waits at a call is called back.
ghost use Rattle.std.specs.Prelude.{◌≡◌, ◌↔◌, IsTrue};
ghost use Rattle.std.specs.Bool.{OnTrue, OnFalse};
ghost use Rattle.sfi_host.specs.Changing.{MayCallBackAt, with_callback};
ghost use Rattle.sfi_host.specs.Changing.{OthersAreSame};
ghost use Rattle.sfi_host.specs.Joint.{Machine, IsMachine};
ghost use Rattle.sfi_host.specs.Loading.{IsAtEntry};
ghost use Rattle.sfi_host.specs.Sessions.{IsAction, On, CallBack};
ghost use Rattle.sfi_host.specs.Worlds.{slots_of, IsSafeWorld};

use crate::world::World;
use rv_mem::Memory;

impl<M: Memory> World<M> {
    /// Calls back sandbox `i`, which waits at a call: makes it ready at `pc`, with the
    /// arguments in a0 to a7 and the return address x1 that `enter` sets. Its other registers, x2
    /// too, are those of the call, so that the frames of the callback lie below the caller's; its
    /// data stay, and its steps are counted on. `false` where it waits at no call, no bundle or
    /// word of its code begins at `pc`, or a reserved or typed register holds what it mustn't, and
    /// then nothing changed. Once the callback has stopped, `set_registers` with the pc and
    /// registers that `cpu` gave before it takes the sandbox back to its call. A callback may call,
    /// too, and be called back.
    pub fn call_back(&mut self, i: u32, pc: u32, arguments: &[u32; 8]) -> bool
        ensures may { IsTrue result ↔ MayCallBackAt (slots_of self.old) i pc arguments.now }
        ensures done { OnTrue result (self.new ≡ with_callback self.old i pc arguments.now) }
        ensures refused { OnFalse result (self.new ≡ self.old) }
        ensures action { (machine : Machine) → IsMachine machine
            → IsAction machine self.old (On i (CallBack pc arguments.now)) self.new }

        // No other sandbox has changed.
        ensures others { OthersAreSame self.old i self.new }

        // It is an entry of the theorem; so the world is safe as before, and what is said of plans
        // holds of those that follow.
        ensures entry { OnTrue result (IsAtEntry self.new i) }
        ensures safe { IsSafeWorld self.new }
    {
        // What the contract rests on: this call does nothing.
        self.stays_safe();

        let Some(_) = self.waiting(i) else {
            return false;
        };
        let Some(sandbox) = self.find(i) else {
            return false;
        };
        let Some(cpu) = sandbox.called_back(pc, arguments) else {
            return false;
        };
        self.set_cpu(i, cpu)
    }
}
