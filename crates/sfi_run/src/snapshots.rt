//! What C reads of a sandbox: how it stands, its pc and registers, and where its data lie.
ghost use Rattle.std.specs.Prelude.{◌≡◌, ◌↔◌, IfSome, IsSome};
ghost use Rattle.sfi_host.specs.Waiting.{AsksAtGate, IsAtCall};
ghost use Rattle.sfi_host.specs.Worlds.{slots_of};

use rv_mem::Pages;
use rv_step::{Cause, Cpu};
use rv_word::Reg;
use sfi_host::{Region, Request, Status, World, registers_of};

/// How a sandbox stands: `struct sfi_run_event`. Fields that its kind does not use are 0.
#[repr(C)]
#[derive(Clone, Copy, PartialEq, Eq, Debug)]
pub struct SfiRunEvent {
    /// 0: there is no such sandbox, or no world; 1: it is ready; 2: it waits at a call; 3: it has
    /// exited; 4: it has trapped; 5: its host stopped it. `enum sfi_run_kind` of include/sfi_run.h
    /// and specs/Snapshots have the same numbers.
    pub kind: u32,
    /// The gate's service, the number with which it exited, or that of the trap's cause.
    pub number: u32,
    /// The gate of a call, by its place among the sandbox's gates.
    pub gate: u32,
    /// The pc, where there is a sandbox.
    pub pc: u32,
    /// a0 of a call, or the address of a trap.
    pub a0: u32,
    /// a1 of a call, and so on.
    pub a1: u32,
    pub a2: u32,
    pub a3: u32,
    pub a4: u32,
    pub a5: u32,
    pub a6: u32,
    pub a7: u32,
}

impl SfiRunEvent {
    ghost use Rattle.sfi_run.specs.Snapshots.{cause_number, plain_event, call_event, status_event, none_event, IsEventOf};

    /// An event that is no call: its gate and a1 to a7 are 0. `kind` and `number` are those of the
    /// fields; `a0` is the address of a trap, and else 0.
    fn plain(kind: u32, number: u32, pc: u32, a0: u32) -> SfiRunEvent
        ensures { result ≡ plain_event kind number pc a0 }
    {
        SfiRunEvent {
            kind,
            number,
            gate: 0,
            pc,
            a0,
            a1: 0,
            a2: 0,
            a3: 0,
            a4: 0,
            a5: 0,
            a6: 0,
            a7: 0,
        }
    }

    /// The event of a call at gate number `gate`, with a0 to a7 from `cpu`.
    fn of_call(gate: u32, service: u32, cpu: &Cpu) -> SfiRunEvent
        ensures { result ≡ call_event gate service cpu.now }
    {
        SfiRunEvent {
            kind: 2,
            number: service,
            gate,
            pc: cpu.pc(),
            a0: cpu.reg(Reg::numbered(10)),
            a1: cpu.reg(Reg::numbered(11)),
            a2: cpu.reg(Reg::numbered(12)),
            a3: cpu.reg(Reg::numbered(13)),
            a4: cpu.reg(Reg::numbered(14)),
            a5: cpu.reg(Reg::numbered(15)),
            a6: cpu.reg(Reg::numbered(16)),
            a7: cpu.reg(Reg::numbered(17)),
        }
    }

    /// The number by which C knows the cause of a trap, 1 to 5: that of `enum sfi_run_cause`.
    fn cause_number(cause: Cause) -> u32
        ensures { result ≡ cause_number cause }
    {
        match cause {
            Cause::Fetch => 1,
            Cause::Illegal => 2,
            Cause::Break => 3,
            Cause::Load => 4,
            Cause::Store => 5,
        }
    }

    /// The event of a sandbox of this status and pc that waits at no call.
    fn of_status(status: Status, pc: u32) -> SfiRunEvent
        ensures { result ≡ status_event status pc }
    {
        match status {
            Status::Ready => SfiRunEvent::plain(1, 0, pc, 0),
            Status::Exited(number) => SfiRunEvent::plain(3, number, pc, 0),
            Status::Trapped(cause, at) => {
                SfiRunEvent::plain(4, SfiRunEvent::cause_number(cause), pc, at)
            }
            Status::Stopped => SfiRunEvent::plain(5, 0, pc, 0),
        }
    }

    /// The event where there is no such sandbox, or no world: all fields are 0.
    pub(crate) fn none() -> SfiRunEvent
        ensures { result ≡ none_event }
    {
        SfiRunEvent::plain(0, 0, 0, 0)
    }

    /// The event of sandbox `sandbox`; `waiting` is what it asks, if it waits at a call.
    pub(crate) fn from_world(
        world: &World<Pages>,
        sandbox: u32,
        waiting: Option<Request>,
    ) -> SfiRunEvent
        requires there { IsSome waiting ↔ IsAtCall (slots_of world.now) sandbox }
        requires gate { IfSome waiting (λ r. AsksAtGate (slots_of world.now) sandbox r) }
        ensures { IsEventOf (slots_of world.now) sandbox result }
    {
        let Some(cpu) = world.cpu(sandbox) else {
            return SfiRunEvent::none();
        };
        let Some(status) = world.status(sandbox) else {
            return SfiRunEvent::none();
        };
        match waiting {
            Some(request) => SfiRunEvent::of_call(request.gate as u32, request.service, cpu),
            None => SfiRunEvent::of_status(status, cpu.pc()),
        }
    }
}

/// pc, and x0 to x31: `struct sfi_run_registers`.
#[repr(C)]
#[derive(Clone, Copy, PartialEq, Eq, Debug)]
pub struct SfiRunRegisters {
    pub pc: u32,
    pub x: [u32; 32],
}

impl SfiRunRegisters {
    ghost use Rattle.sfi_run.specs.Snapshots.{AreRegistersOf};

    /// Copies pc and the registers of `cpu`.
    pub(crate) fn from_cpu(cpu: &Cpu) -> SfiRunRegisters
        ensures { AreRegistersOf cpu.now result }
    {
        SfiRunRegisters {
            pc: cpu.pc(),
            x: registers_of(cpu),
        }
    }
}

/// `size` addresses from `base` on: `struct sfi_run_region`.
#[repr(C)]
#[derive(Clone, Copy, PartialEq, Eq, Debug)]
pub struct SfiRunRegion {
    pub base: u32,
    pub size: u32,
}

impl SfiRunRegion {
    ghost use Rattle.sfi_host.specs.Slots.{span_of};
    ghost use Rattle.sfi_run.specs.Snapshots.{region_span};

    /// The same addresses, as C has them.
    pub(crate) fn from_region(region: Region) -> SfiRunRegion
        ensures { region_span result ≡ span_of region }
    {
        SfiRunRegion {
            base: region.base,
            size: region.size,
        }
    }
}
