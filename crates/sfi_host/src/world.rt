//! A world: the sandboxes of images in one memory, and their turns.
ghost use Rattle.std.specs.Prelude.{◌≡◌, ◌≢◌, ◌↔◌, ◌<◌, ℕ, [], ◌∷◌, length, map, slice_get, slice_set, IfOk, IfSome, IsTrue, IsSome, Some, None};
ghost use Rattle.std.specs.Bool.{OnTrue, OnFalse};
ghost use Rattle.std.specs.FinMap.{empty};
ghost use Rattle.std.specs.Option.{option_map};
ghost use Rattle.sfi_image.specs.Spelling.{Holds};
ghost use Rattle.sfi_host.specs.Changing.{data_bytes_of, with_world_bytes, OthersAreSame, AreChanges};
ghost use Rattle.sfi_host.specs.Loading.{AreEnterable, MayEnterAt, with_entry, IsAtEntry};
ghost use Rattle.sfi_host.specs.Joint.{Machine, IsMachine, call_of, joint, replied};
ghost use Rattle.sfi_host.specs.WorldSteps.{HaveRun, HaveRunJointly};
ghost use Rattle.sfi_host.specs.Owning.{AreOwned};
ghost use Rattle.sfi_host.specs.Plans.{IsJoint, IsCutJoint};
ghost use Rattle.sfi_host.specs.private.Sandboxes.{bounds_in, slot_in};
ghost use Rattle.sfi_host.specs.Slots.{hart_at, data_region_at};
ghost use Rattle.sfi_host.specs.Modules.{programs_of, AreDecoded};
ghost use Rattle.sfi_host.specs.Slots.{span_of};
ghost use Rattle.sfi_host.specs.Worlds.{world_of};
ghost use Rattle.sfi_host.specs.Slots.{Slot};
ghost use Rattle.sfi_host.specs.Changing.{with_stop};
ghost use Rattle.sfi_host.specs.Loading.{first_seat, with_parts, AreEntered, HaveFirstData};
ghost use Rattle.sfi_host.specs.Sessions.{IsAction, IsSoundWorld, On, Run, GiveReply, Write, Stop, Enter};
ghost use Rattle.sfi_host.specs.Waiting.{AsksAtGate, IsAtCall, Waits, to_call, later_reply, later_answer};
ghost use Rattle.sfi_host.specs.Worlds.{slots_of, status_at, steps_at, data_byte_of, HaveStoppedThemselves, IsSafeWorld, StaysOutsideData};

mod adding;
mod calling_back;
mod debugging;
mod removing;
mod resetting;
mod setting;

use crate::calls::{ask, asked_by};
use crate::gates::Gates;
use crate::guest::Request;
use crate::modules::Module;
use crate::region::Region;
use crate::sandbox::Sandbox;
use crate::status::Status;
use crate::turn::{RunAnswer, StepResult, Turn, run_quietly, run_turn};
use crate::waiting::Later;
pub use adding::AddError;
pub use removing::RemoveError;
use rv_mem::Memory;
use rv_step::Cpu;
use sfi_check::Accepted;
use sfi_decoded::Program;
use std::alloc::{AllocError, Global};
use std::marker::Model;
use std::sync::Arc;

/// The sandboxes of accepted images, in one memory. Contracts see the memory's bytes and what
/// there is of each sandbox beside them; the type keeps that each is safe,
/// whatever it does and whatever the others do.
#[derive(Drop)]
pub struct World<M: Memory> {
    memory: M,
    sandboxes: Vec<Sandbox>,
    programs: Vec<Arc<Program>>,
}

impl<M: Memory> Model for World<M> {
    ghost use Rattle.std.specs.Coded.{codes, coded_ℕ};
    ghost use Rattle.std.specs.FinMap as map;
    ghost use Rattle.std.specs.Ordering.{nat_cmp};
    ghost use Rattle.sfi_host.specs.Worlds.{Sandboxes};

    ghost Value = { Sandboxes };

    ghost coded = { Prim.hlevel (codes, map.code {R = nat_cmp} coded_ℕ coded_ℕ) };

    ghost use Rattle.sfi_host.specs.Worlds.{world_of};
    ghost use Rattle.sfi_host.specs.Modules.{programs_of, AreDecoded};
    ghost use Rattle.sfi_host.specs.Worlds.{IsSafeWorld};
    ghost use Rattle.sfi_host.specs.Loading.{AreEnterable};
    ghost use Rattle.sfi_host.specs.Owning.{AreOwned};

    ghost view = { λ w. world_of (M.bytes w.memory) w.sandboxes.items };

    ghost invariant = { λ w. IsSafeWorld (world_of (M.bytes w.memory) w.sandboxes.items)
        × AreDecoded (world_of (M.bytes w.memory) w.sandboxes.items)
        (programs_of w.programs.items)
        × AreEnterable (world_of (M.bytes w.memory) w.sandboxes.items)
        × AreOwned (world_of (M.bytes w.memory) w.sandboxes.items) };
}

impl<M: Memory> World<M> {
    /// The world of an image, before any turn. If memory runs out there is none, and the
    /// memory handed in is given up.
    pub fn load(alloc: Global, accepted: &Accepted<'_>, memory: M) -> Result<World<M>, AllocError>
        requires { M.bytes memory ≡ empty }
        ensures seats { IfOk result (λ w. w.seats ≡ map first_seat accepted.now) }
        ensures bytes { IfOk result (λ w. w.bytes ≡ with_parts empty accepted.now) }

        // What that comes to: each sandbox is where it may be entered, so its code is the image's,
        // its guard zones are empty, and its typed registers hold what their types say.
        ensures entered { IfOk result (λ w. AreEntered accepted.now w.bytes) }
        ensures first_data { IfOk result (λ w. HaveFirstData accepted.now w.bytes) }

        // Each sandbox is safe, and its data lie outside each other one:
        // the premise of the laws on steps and neighbours.
        ensures safe { IfOk result (λ w. IsSafeWorld w) }

        // The premise of the laws on sessions.
        ensures sound { IfOk result (λ w. IsSoundWorld w) }
    {
        let module = Module::from_accepted(alloc, accepted)?;
        module.instance(alloc, memory)
    }

    /// A world of sandboxes that are safe in their memory, with the programs of their code.
    pub(crate) fn of_parts(
        memory: M,
        sandboxes: Vec<Sandbox>,
        programs: Vec<Arc<Program>>,
    ) -> World<M>
        requires safe { IsSafeWorld (world_of (M.bytes memory) sandboxes.items) }
        requires decoded { AreDecoded (world_of (M.bytes memory) sandboxes.items)
            (programs_of programs.items) }
        requires enterable { AreEnterable (world_of (M.bytes memory) sandboxes.items) }
        requires owned { AreOwned (world_of (M.bytes memory) sandboxes.items) }
        ensures { result ≡ world_of (M.bytes memory) sandboxes.items }
    {
        World {
            memory,
            sandboxes,
            programs,
        }
    }

    /// Takes the turns of a plan in their order. A turn repeats steps of its sandbox until its
    /// allowance is used, the sandbox is ready no more, or the host answers Yield. Where the host
    /// has no memory for a reply the plan ends in that turn, at that call, and all that was done
    /// before stands. What is said of runs holds of the machine, which is one function.
    pub fn run_plan<G: Gates>(&mut self, plan: &[Turn], gates: &mut G) -> RunAnswer
        ensures done { result ≡ RunAnswer.Done → (machine : Machine) → IsMachine machine
            → IsJoint machine G.answer plan.now (slots_of self.old) gates.old
            (slots_of self.new) gates.new }
        ensures memory { (turn : ℕ) → result ≡ RunAnswer.Memory turn
            → (machine : Machine) → IsMachine machine
            → IsCutJoint machine G.answer G.may_refuse plan.now (slots_of self.old) gates.old turn
            (slots_of self.new) gates.new }

        // However the plan ended: the joint run, with each call answered or as many as `memory`
        // says, is a list of world steps in the one memory that lead from the world before to the
        // world after, in the plan's order and with its replies. Each is one step that its sandbox
        // takes alone; to each sandbox they are a run, and where it was ready a safe one.
        ensures runs { (machine : Machine) → IsMachine machine
            → HaveRunJointly result machine G.answer G.may_refuse plan.now self.old gates.old
            self.new gates.new }

        // Each sandbox is safe as before, and its data lie outside each other one.
        ensures safe { IsSafeWorld self.new }

        // Each one that has exited or trapped is at its own instruction that did it: the ecall of
        // one of its gates if it exited (`done` and `memory` say that the host answered so), an
        // ebreak, or a load or store that touches its guard zones. No other trap stops a sandbox.
        // Of one that `World::stop` stopped it says nothing; no plan stops one so
        // (`laws::turns_are_bounded`: `stops_none`).
        ensures stops { HaveStoppedThemselves self.new }

        // No byte has changed that lies in no sandbox's data.
        ensures outside { StaysOutsideData self.old self.new.bytes }

        // The turn that ended so is one of the plan.
        ensures place { (turn : ℕ) → result ≡ RunAnswer.Memory turn → turn < length plan.now }
    {
        // What the contract rests on: this call does nothing.
        self.stays_safe();

        for place in 0..plan.len() {
            match self.take_turn(plan[place], gates) {
                StepResult::Continue | StepResult::TurnEnds => {}
                StepResult::RunEnds => return RunAnswer::Memory { turn: place },
            }
        }
        RunAnswer::Done
    }

    /// Takes a turn up to the next call: as a turn of a plan, but a call ends it, and leaves its
    /// sandbox at the call as if it had not called. The answer is what it asks, if it stands at a
    /// call then; so it does, too, where its steps were used just before the call. It waits there
    /// for a `reply` or a `stop`: until then each further turn up to a call comes to nothing, and a
    /// turn of a plan asks that plan's host.
    pub fn run_to_call(&mut self, turn: Turn) -> Option<Request>
        // What the turn comes to with a host that answers no call.
        ensures ran { (machine : Machine) → IsMachine machine
            → slots_of self.new ≡ (to_call machine (turn ∷ []) (slots_of self.old)).slots }

        // It is a list of world steps in the one memory, as in `run_plan`.
        ensures runs { (machine : Machine) → IsMachine machine
            → HaveRun machine (turn ∷ []) self.old self.new
            (λ plan. to_call machine plan (slots_of self.old)) }

        // The answer is as that of `waiting`.
        ensures waits { IfSome result (λ r. Waits (slots_of self.new) turn.sandbox r) }
        ensures there { IsSome result ↔ IsAtCall (slots_of self.new) turn.sandbox }
        ensures gate { IfSome result (λ r. AsksAtGate (slots_of self.new) turn.sandbox r) }

        // It is this action of a session.
        ensures action { (machine : Machine) → IsMachine machine
            → IsAction machine self.old (On turn.sandbox (Run turn.steps [])) self.new }

        // As after a plan.
        ensures safe { IsSafeWorld self.new }
        ensures stops { HaveStoppedThemselves self.new }
        ensures outside { StaysOutsideData self.old self.new.bytes }
    {
        // What the contract rests on: this call does nothing.
        self.stays_safe();

        self.take_quiet_turn(turn);
        self.waiting(turn.sandbox)
    }

    /// Takes a turn up to the next call; without such a sandbox nothing changes.
    fn take_quiet_turn(&mut self, turn: Turn)
        ensures ran { (machine : Machine) → IsMachine machine
            → slots_of self.new ≡ (to_call machine (turn ∷ []) (slots_of self.old)).slots }
        ensures safe { IsSafeWorld self.new }
        ensures bounds { bounds_in self.new ≡ bounds_in self.old }
        ensures outside { StaysOutsideData self.old self.new.bytes }
    {
        let place = turn.sandbox as usize;
        if place >= self.sandboxes.len() {
            return;
        }
        run_quietly(
            &mut self.memory,
            &*self.programs[place],
            &mut self.sandboxes[place],
            turn.steps,
        );
    }

    /// What sandbox `i` asks, if it waits at a call; else `None`, as where there is none.
    pub fn waiting(&self, i: u32) -> Option<Request>
        ensures waits { IfSome result (λ r. Waits (slots_of self.now) i r) }
        ensures there { IsSome result ↔ IsAtCall (slots_of self.now) i }

        // It stands at one of its gates, and asks that gate's service.
        ensures gate { IfSome result (λ r. AsksAtGate (slots_of self.now) i r) }
    {
        let place = i as usize;
        if place >= self.sandboxes.len() {
            return None;
        }
        asked_by(&self.memory, &self.sandboxes[place], i)
    }

    /// Gives sandbox `i` its reply, if it waits at a call: a0, a1 and, if it is to
    /// go on, pc after the ecall. `false` where it doesn't wait, and then nothing changed.
    pub fn reply(&mut self, i: u32, reply: Later) -> bool
        ensures may { IsTrue result ↔ IsAtCall (slots_of self.old) i }
        ensures done { OnTrue result ((machine : Machine) → IsMachine machine
            → IsJoint machine later_answer (record { sandbox = i; steps = 1 } ∷ [])
            (slots_of self.old) reply (slots_of self.new) reply) }
        ensures replied { OnTrue result ((slot : Slot)
            → slice_get (slots_of self.old) i ≡ Some slot
            → slots_of self.new ≡ slice_set (slots_of self.old) i
            (replied slot (later_reply reply (call_of i slot)))) }
        ensures refused { OnFalse result (self.new ≡ self.old) }

        ensures action { (machine : Machine) → IsMachine machine
            → IsAction machine self.old (On i (GiveReply reply)) self.new }

        // It is one world step in the one memory, as in `run_plan`: the theorem's reply to the
        // ecall, or, if the sandbox is to stop, its last step.
        ensures runs { OnTrue result ((machine : Machine) → IsMachine machine
            → HaveRun machine (record { sandbox = i; steps = 1 } ∷ []) self.old self.new
            (λ plan. joint machine later_answer plan (slots_of self.old) reply None)) }

        // No other sandbox has changed.
        ensures others { OthersAreSame self.old i self.new }
        ensures safe { IsSafeWorld self.new }
        ensures stops { HaveStoppedThemselves self.new }
        ensures outside { StaysOutsideData self.old self.new.bytes }
    {
        let place = i as usize;
        if place >= self.sandboxes.len() {
            return false;
        }
        let Some(_) = asked_by(&self.memory, &self.sandboxes[place], i) else {
            return false;
        };
        let mut host = reply;
        ask(&mut self.memory, &mut self.sandboxes[place], i, &mut host);
        true
    }

    /// Takes one turn: what a plan of it alone comes to. Without such a sandbox nothing changes.
    fn take_turn<G: Gates>(&mut self, turn: Turn, gates: &mut G) -> StepResult
        ensures safe { IsSafeWorld self.new }
        ensures bounds { bounds_in self.new ≡ bounds_in self.old }
        ensures outside { StaysOutsideData self.old self.new.bytes }
        ensures whole { result ≢ StepResult.RunEnds → (machine : Machine) → IsMachine machine
            → IsJoint machine G.answer (turn ∷ []) (slots_of self.old) gates.old
            (slots_of self.new) gates.new }
        ensures refused { result ≡ StepResult.RunEnds → (machine : Machine) → IsMachine machine
            → IsCutJoint machine G.answer G.may_refuse (turn ∷ []) (slots_of self.old) gates.old 0
            (slots_of self.new) gates.new }
    {
        let place = turn.sandbox as usize;
        if place >= self.sandboxes.len() {
            return StepResult::TurnEnds;
        }
        run_turn(
            &mut self.memory,
            &*self.programs[place],
            &mut self.sandboxes[place],
            turn.sandbox,
            turn.steps,
            gates,
        )
    }

    /// Reminds the prover that a world is safe at any time: each sandbox is, and its data lie
    /// outside each other one. It does nothing.
    pub fn stays_safe(&self)
        ensures { IsSafeWorld self.now }
    {
        let _ = &self.memory;
    }

    /// Sandbox `i`; `None` where there is none.
    fn find(&self, i: u32) -> Option<&Sandbox>
        ensures { option_map (λ s. slot_in self.now.bytes s.now) result
            ≡ slice_get (slots_of self.now) i }
    {
        let sandbox = self.sandboxes.get(i as usize)?;
        Some(sandbox)
    }

    /// What sandbox `i` may still do; `None` where there is none.
    pub fn status(&self, i: u32) -> Option<Status>
        ensures { result ≡ status_at (slots_of self.now) i }
    {
        let sandbox = self.find(i)?;
        Some(sandbox.status)
    }

    /// How many steps sandbox `i` did, at most 2^64 - 1; `None` where there is none.
    pub fn steps(&self, i: u32) -> Option<u64>
        ensures { result ≡ steps_at (slots_of self.now) i }
    {
        let sandbox = self.find(i)?;
        Some(sandbox.steps)
    }

    /// The byte at an address of its data region; `None` where there is no such sandbox,
    /// or the address lies elsewhere.
    pub fn data_byte(&self, i: u32, at: u32) -> Option<u8>
        ensures value { result ≡ data_byte_of (slice_get (slots_of self.now) i) at }
        ensures there { IsSome result
            ↔ ((s : Slot) × (slice_get (slots_of self.now) i ≡ Some s) × Holds s.bounds.data at) }
    {
        let sandbox = self.sandboxes.get(i as usize)?;
        sandbox.data.byte(&self.memory, at)
    }

    /// Fills `bytes` with the data bytes of sandbox `i` from `at` on; `false` where
    /// there is no such sandbox or one of these addresses isn't in its data region, and then
    /// nothing changed. None is asked for where `bytes` is empty.
    pub fn read(&self, i: u32, at: u32, bytes: &mut [u8]) -> bool
        ensures there { IsTrue result
            ↔ IsSome (data_bytes_of (slice_get (slots_of self.now) i) at (length bytes.old)) }
        ensures done { OnTrue result (data_bytes_of (slice_get (slots_of self.now) i) at
            (length bytes.old) ≡ Some bytes.new) }
        ensures refused { OnFalse result (bytes.new ≡ bytes.old) }
    {
        let Some(sandbox) = self.sandboxes.get(i as usize) else {
            return false;
        };
        sandbox.data.read(&self.memory, at, bytes)
    }

    /// Writes all of `bytes` into the data of sandbox `i` from `at` on; `false`
    /// where there is no such sandbox or one of these addresses isn't in its data region, and then
    /// nothing changed. Whether the sandbox has stopped or stands within its code makes no
    /// difference.
    pub fn write(&mut self, i: u32, at: u32, bytes: &[u8]) -> bool
        ensures there { IsTrue result
            ↔ IsSome (data_bytes_of (slice_get (slots_of self.old) i) at (length bytes.now)) }
        ensures done { OnTrue result (self.new ≡ with_world_bytes self.old at bytes.now) }
        ensures refused { OnFalse result (self.new ≡ self.old) }
        ensures action { (machine : Machine) → IsMachine machine
            → IsAction machine self.old (On i (Write at bytes.now)) self.new }

        // No other sandbox has changed, nor a byte that lies in no sandbox's data.
        ensures others { OthersAreSame self.old i self.new }
        ensures outside { StaysOutsideData self.old self.new.bytes }

        // In the theorem's words it is a change by others; so the world is safe as before,
        // and what is said of plans holds of those that follow.
        ensures changes { AreChanges self.old self.new }
        ensures safe { IsSafeWorld self.new }
    {
        let place = i as usize;
        if place >= self.sandboxes.len() {
            return false;
        }
        let data = self.sandboxes[place].data;
        if !data.covers(at, bytes.len() as u64) {
            return false;
        }
        data.write(&mut self.memory, at, bytes);
        true
    }

    /// Makes sandbox `i` ready at `pc`, with the arguments in a0 to a7, as a
    /// function is called; `false` where there is no such sandbox, it hasn't stopped, or no bundle
    /// or word of its code begins at `pc`, and then nothing changed. The return address x1 is that
    /// of the first gate of service 0, if one is listed, so that a function that returns calls that
    /// gate. The stack pointer x2 is lower than `load` sets it by the room that the image asks for.
    /// The other registers are as `load` sets them: x24 to x27 hold what is theirs, where code is in
    /// words x3, x4 and x29 hold the data base and x30 holds pc, and all that is left is 0. Its data
    /// stay, and its steps are counted on.
    pub fn enter(&mut self, i: u32, pc: u32, arguments: &[u32; 8]) -> bool
        ensures may { IsTrue result ↔ MayEnterAt (slots_of self.old) i pc }
        ensures done { OnTrue result (self.new ≡ with_entry self.old i pc arguments.now) }
        ensures refused { OnFalse result (self.new ≡ self.old) }
        ensures action { (machine : Machine) → IsMachine machine
            → IsAction machine self.old (On i (Enter pc arguments.now)) self.new }

        // No other sandbox has changed.
        ensures others { OthersAreSame self.old i self.new }

        // It is an entry of the theorem; so the world is safe as before, and what is said of plans
        // holds of those that follow.
        ensures entry { OnTrue result (IsAtEntry self.new i) }
        ensures safe { IsSafeWorld self.new }
    {
        let place = i as usize;
        if place >= self.sandboxes.len() {
            return false;
        }
        if !self.sandboxes[place].may_enter(pc) {
            return false;
        }
        self.sandboxes[place].enter(pc, arguments);
        true
    }

    /// Stops sandbox `i`, if it is ready, wherever it stands, also where it waits at
    /// a call: no turn does anything with it then, and it takes no reply. `false` where there is no
    /// such sandbox or it has stopped already, and then nothing changed. All else of it stays: its
    /// pc, registers, data and steps. It may be entered again, as after an exit or a trap.
    pub fn stop(&mut self, i: u32) -> bool
        ensures may { IsTrue result ↔ (status_at (slots_of self.old) i ≡ Some Status.Ready) }

        // Of all that the world is, this sandbox's status alone changes.
        ensures done { OnTrue result (self.new ≡ with_stop self.old i) }
        ensures refused { OnFalse result (self.new ≡ self.old) }
        ensures action { (machine : Machine) → IsMachine machine
            → IsAction machine self.old (On i Stop) self.new }
        ensures others { OthersAreSame self.old i self.new }

        // The world is safe as before, and what is said of plans holds of those that follow.
        ensures safe { IsSafeWorld self.new }
    {
        let place = i as usize;
        if place >= self.sandboxes.len() {
            return false;
        }
        if !self.sandboxes[place].is_ready() {
            return false;
        }
        self.sandboxes[place].stop();
        true
    }

    /// How many sandboxes there are.
    pub fn len(&self) -> usize
        ensures { result ≡ length (slots_of self.now) }
    {
        self.sandboxes.len()
    }

    /// The pc and registers of sandbox `i`; `None` where there is none.
    pub fn cpu(&self, i: u32) -> Option<&Cpu>
        ensures { option_map (λ cpu. cpu.now) result ≡ hart_at (slots_of self.now) i }
    {
        let sandbox = self.find(i)?;
        Some(&sandbox.cpu)
    }

    /// The data region of sandbox `i`; `None` where there is none.
    pub fn data_region(&self, i: u32) -> Option<Region>
        ensures { option_map span_of result ≡ data_region_at (slots_of self.now) i }
    {
        let sandbox = self.find(i)?;
        Some(sandbox.data)
    }

    /// The memory with the code and data of all sandboxes.
    pub fn into_memory(self) -> M
        ensures { M.bytes result ≡ self.bytes }
    {
        self.memory
    }
}
