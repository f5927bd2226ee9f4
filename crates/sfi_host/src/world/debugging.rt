//! What a debugger asks of a world.
ghost use Rattle.std.specs.Prelude.{◌≡◌, ◌↔◌, ℕ, [], IfSome, IsSome};
ghost use Rattle.sfi_host.specs.Joint.{Machine, IsMachine};
ghost use Rattle.sfi_host.specs.private.Sandboxes.{bounds_in};
ghost use Rattle.sfi_host.specs.Sessions.{IsAction, On, Run};
ghost use Rattle.sfi_host.specs.Waiting.{IsUpToStop, HasRunUntil};
ghost use Rattle.sfi_host.specs.Waiting.{AsksAtGate, IsAtCall, Waits};
ghost use Rattle.sfi_host.specs.Worlds.{slots_of, HaveStoppedThemselves, IsSafeWorld, StaysOutsideData};

use crate::guest::Request;
use crate::turn::Turn;
use crate::until::run_until;
use crate::world::World;
use rv_mem::Memory;

impl<M: Memory> World<M> {
    /// Takes a turn up to the next call, as `run_to_call`, and no further than to one of the addresses
    /// `stops`: it ends before the instruction there. Its first step is done in any case, so that it
    /// goes on from a stop at which it stands.
    pub fn run_until(&mut self, turn: Turn, stops: &[u32]) -> Option<Request>
        // It is a turn that ends after the first step that leads its sandbox to a stop.
        ensures ran { HasRunUntil stops.now turn self.old self.new }

        // It is this action of a session, with the steps that it did.
        ensures action { (count : ℕ) × ((machine : Machine) → IsMachine machine
            → IsAction machine self.old (On turn.sandbox (Run count [])) self.new) }

        // The answer is as that of `waiting`.
        ensures waits { IfSome result (λ r. Waits (slots_of self.new) turn.sandbox r) }
        ensures there { IsSome result ↔ IsAtCall (slots_of self.new) turn.sandbox }
        ensures gate { IfSome result (λ r. AsksAtGate (slots_of self.new) turn.sandbox r) }

        // As after a plan.
        ensures safe { IsSafeWorld self.new }
        ensures stops { HaveStoppedThemselves self.new }
        ensures outside { StaysOutsideData self.old self.new.bytes }
    {
        // What the contract rests on: this call does nothing.
        self.stays_safe();

        self.take_turn_until(turn, stops);
        self.waiting(turn.sandbox)
    }

    /// Takes a turn up to the next call or stop; without such a sandbox nothing changes.
    fn take_turn_until(&mut self, turn: Turn, stops: &[u32])
        ensures until { (count : ℕ) × IsUpToStop stops.now turn self.old self.new count }
        ensures safe { IsSafeWorld self.new }
        ensures bounds { bounds_in self.new ≡ bounds_in self.old }
        ensures outside { StaysOutsideData self.old self.new.bytes }
    {
        let place = turn.sandbox as usize;
        if place >= self.sandboxes.len() {
            return;
        }
        run_until(
            &mut self.memory,
            &*self.programs[place],
            &mut self.sandboxes[place],
            turn.steps,
            stops,
        );
    }
}
