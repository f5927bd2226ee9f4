//! The pc and the registers of a sandbox of a world are set.
ghost use Rattle.std.specs.Prelude.{◌≡◌, ◌↔◌, IsTrue};
ghost use Rattle.std.specs.Bool.{OnTrue, OnFalse};
ghost use Rattle.rv_step.specs.State.{IsHart};
ghost use Rattle.sfi_host.specs.Changing.{OthersAreSame};
ghost use Rattle.sfi_host.specs.Joint.{Machine, IsMachine};
ghost use Rattle.sfi_host.specs.Loading.{IsAtEntry};
ghost use Rattle.sfi_host.specs.Sessions.{IsAction, On, SetRegisters};
ghost use Rattle.sfi_host.specs.Changing.{hart_of, with_hart, MaySetAt};
ghost use Rattle.sfi_host.specs.Worlds.{slots_of, IsSafeWorld};

use crate::setting::cpu_of;
use crate::world::World;
use rv_mem::Memory;
use rv_step::Cpu;

impl<M: Memory> World<M> {
    /// Makes sandbox `i` ready at `pc` with these registers, x0 to x31, of which x0 stays
    /// 0, whatever it did before; `false` where there is no such sandbox, no bundle or word of its
    /// code begins at `pc`, or a reserved or typed register would hold what it mustn't, and then
    /// nothing changed. Its data stay, and its steps are counted on. So the registers of one that
    /// waits at a call, which lies where a bundle or word begins, may be put aside and put back.
    pub fn set_registers(&mut self, i: u32, pc: u32, registers: &[u32; 32]) -> bool
        ensures may { IsTrue result ↔ MaySetAt (slots_of self.old) i (hart_of pc registers.now) }
        ensures done { OnTrue result (self.new ≡ with_hart self.old i (hart_of pc registers.now)) }
        ensures refused { OnFalse result (self.new ≡ self.old) }
        ensures action { (machine : Machine) → IsMachine machine
            → IsAction machine self.old (On i (SetRegisters pc registers.now)) self.new }

        // No other sandbox has changed.
        ensures others { OthersAreSame self.old i self.new }

        // It is an entry of the theorem; so the world is safe as before, and what is said of plans
        // holds of those that follow.
        ensures entry { OnTrue result (IsAtEntry self.new i) }
        ensures safe { IsSafeWorld self.new }
    {
        // What the contract rests on: this call does nothing.
        self.stays_safe();

        let Some(cpu) = cpu_of(pc, registers) else {
            return false;
        };
        self.set_cpu(i, cpu)
    }

    /// Makes sandbox `i` ready with this pc and these registers; `false` where there is none or it may
    /// not be entered with them, and then nothing changed.
    pub(super) fn set_cpu(&mut self, i: u32, cpu: Cpu) -> bool
        requires hart { IsHart cpu }
        ensures may { IsTrue result ↔ MaySetAt (slots_of self.old) i cpu }
        ensures done { OnTrue result (self.new ≡ with_hart self.old i cpu) }
        ensures refused { OnFalse result (self.new ≡ self.old) }
        ensures others { OthersAreSame self.old i self.new }
        ensures entry { OnTrue result (IsAtEntry self.new i) }
        ensures safe { IsSafeWorld self.new }
    {
        let place = i as usize;
        if place >= self.sandboxes.len() {
            return false;
        }
        if !self.sandboxes[place].may_hold(&cpu) {
            return false;
        }
        self.sandboxes[place].resume(cpu);
        true
    }
}
