//! A sandbox of a world, and how it is entered.
ghost use Rattle.std.specs.Prelude.{◌≡◌, ◌%◌, ◌+◌, ◌<◌, ◌≤◌, ◌^◌, ◌↔◌, IsTrue};
ghost use Rattle.rv_step.specs.State.{IsHart, with_register};
ghost use Rattle.sfi_formats.specs.Formats.{return_register};
ghost use Rattle.sfi_host.specs.Hosts.{a0_register};
ghost use Rattle.sfi_host.specs.Loading.{MayEnter, fresh_hart, typed_for, with_registers, exit_gate, entry_stack, entered_seat};
ghost use Rattle.sfi_host.specs.Slots.{span_of};
ghost use Rattle.sfi_host.specs.Worlds.{seat_of};
ghost use Rattle.sfi_host.specs.Changing.{stopped_seat};

use crate::region::Region;
use crate::session::EXIT;
use crate::status::Status;
use rv_step::Cpu;
use rv_word::Reg;
use sfi_formats::{
    CODE_BASE_REGISTER, CODE_MASK_REGISTER, CODE_REGISTER, DATA_BASE_REGISTER, DATA_MASK_REGISTER,
    FIRST_FRAME, Format, STACK_POINTER,
};
use sfi_image::{Gate, data_mask_of};
use sfi_names::room_at_end;
use std::sync::ArcSlice;

/// Where a sandbox lies, what it begins with, its pc and registers, what it may still do, and how many
/// steps it did. Its bytes lie in the world's memory; `init` are the first of its data bytes, as the
/// image has them, which other worlds of the image share.
#[derive(Drop)]
pub struct Sandbox {
    pub format: Format,
    pub code: Region,
    pub data: Region,
    pub gates: Vec<Gate>,
    pub start: u32,
    pub init: ArcSlice<u8>,
    pub cpu: Cpu,
    pub status: Status,
    pub steps: u64,
}

/// x10, which is a0: the first argument register of the calling convention, and a result register
/// (RISC-V ABIs Specification, the psABI, "Integer Register Convention").
pub const A0_REGISTER: u8 = 10;

/// x11, which is a1: the second argument register, and the second result register.
pub const A1_REGISTER: u8 = 11;

// x1: the return address (as above).
const RETURN_REGISTER: u8 = 1;

/// Gives the typed registers what they hold at an entry at `pc`: where code is in words, the data base
/// to x3, x4 and x29, and `pc` to x30. Where it is in bundles nothing changes. x26, which is typed in
/// the fourth format, is set by `fresh_cpu`. `typed_for` of specs/Loading says the same.
fn set_typed(format: Format, data_at: Region, pc: u32, cpu: &mut Cpu)
    requires pc { cpu.old.pc ≡ pc }
    requires hart { IsHart cpu.old }
    ensures typed { cpu.new ≡ typed_for format (span_of data_at) cpu.old }
    ensures hart { IsHart cpu.new }
{
    if !format.has_words() {
        return;
    }
    cpu.set_reg(Reg::numbered(3), data_at.base);
    cpu.set_reg(Reg::numbered(4), data_at.base);
    cpu.set_reg(Reg::numbered(29), data_at.base);
    cpu.set_reg(Reg::numbered(CODE_REGISTER), pc);
}

/// The pc and registers at an entry at `pc` without arguments: x2 is 16 bytes below the data's end, x24
/// to x27 hold the bases and masks of the code and the data, the typed registers what `set_typed`
/// gives, and all others 0. `fresh_hart` of specs/Loading says the same, and docs/GATES.md tells users.
pub(crate) fn fresh_cpu(format: Format, code_at: Region, data_at: Region, pc: u32) -> Cpu
    requires even { pc % 2 ≡ 0 }
    requires code_size { 16 ≤ code_at.size }
    requires data_size { 16 ≤ data_at.size }
    requires data_end { data_at.base + data_at.size < 2 ^ 32 }
    ensures fresh { result ≡ fresh_hart format (span_of code_at) (span_of data_at) pc }
    ensures hart { IsHart result }
{
    let mut cpu = Cpu::at(pc).unwrap();
    set_typed(format, data_at, pc, &mut cpu);
    cpu.set_reg(
        Reg::numbered(STACK_POINTER),
        data_at.base + data_at.size - FIRST_FRAME,
    );
    cpu.set_reg(Reg::numbered(CODE_BASE_REGISTER), code_at.base);
    cpu.set_reg(
        Reg::numbered(CODE_MASK_REGISTER),
        code_at.size - format.unit(),
    );
    cpu.set_reg(Reg::numbered(DATA_BASE_REGISTER), data_at.base);
    cpu.set_reg(
        Reg::numbered(DATA_MASK_REGISTER),
        data_mask_of(format, data_at.base, data_at.size),
    );
    cpu
}

/// Puts the arguments into the registers a0 to a7.
fn set_arguments(cpu: &mut Cpu, arguments: &[u32; 8])
    requires hart { IsHart cpu.old }
    ensures put { cpu.new ≡ with_registers cpu.old a0_register arguments.now }
    ensures hart { IsHart cpu.new }
{
    for k in 0..8 {
        cpu.set_reg(Reg::numbered(A0_REGISTER + k), arguments[k as usize]);
    }
}

/// The address of the first gate of service 0; 0 where none is listed.
fn exit_gate(gates: &[Gate]) -> u32
    ensures { result ≡ exit_gate gates.now }
{
    for gate in gates {
        if gate.service == EXIT {
            return gate.address;
        }
    }
    0
}

impl Sandbox {
    /// Whether it has stopped, and a unit of its code, a bundle or a word, begins at the address.
    pub(crate) fn may_enter(&self, pc: u32) -> bool
        ensures { IsTrue result ↔ MayEnter (seat_of self.now).bounds self.now.status pc }
    {
        match self.status {
            Status::Ready => return false,
            Status::Exited(_) => {}
            Status::Trapped(_, _) => {}
            Status::Stopped => {}
        }
        self.code.holds(pc) && pc % self.format.unit() == 0
    }

    /// Whether it runs when it gets a turn.
    pub(crate) fn is_ready(&self) -> bool
        ensures { IsTrue result ↔ (self.now.status ≡ Status.Ready) }
    {
        matches!(self.status, Status::Ready)
    }

    /// Stops it where it stands, for its host: only its status changes.
    pub(crate) fn stop(&mut self)
        ensures { seat_of self.new ≡ stopped_seat (seat_of self.old) }
    {
        self.status = Status::Stopped;
    }

    /// Sets the registers of `cpu` for a call of a function by the host: x1, the return address, to the
    /// gate of exit, so that a function that returns calls exit; and a0 to a7 to the arguments.
    pub(crate) fn set_call(&self, cpu: &mut Cpu, arguments: &[u32; 8])
        requires hart { IsHart cpu.old }
        ensures put { cpu.new ≡ with_registers
            (with_register cpu.old return_register (exit_gate self.now.gates.items))
            a0_register arguments.now }
        ensures hart { IsHart cpu.new }
    {
        cpu.set_reg(Reg::numbered(RETURN_REGISTER), exit_gate(&self.gates));
        set_arguments(cpu, arguments);
    }

    /// The stack pointer of a function that the host calls: 16 bytes below the data's end, and lower by
    /// the room that the image's table of names asks for (`.room`), if the data are large enough.
    /// `entry_stack` of specs/Loading says the same.
    fn entry_stack(&self) -> u32
        requires data_size { 16 ≤ self.now.data.size }
        requires data_end { self.now.data.base + self.now.data.size < 2 ^ 32 }
        ensures { result ≡ entry_stack (seat_of self.now).bounds }
    {
        let frames = self.data.size - FIRST_FRAME;
        let room = room_at_end(&self.init);
        if room > frames {
            return self.data.base + frames;
        }
        self.data.base + (frames - room)
    }

    /// Makes it ready at `pc`, as a function that returns to the gate of exit. Its data stay, and its
    /// steps are counted on. `may_enter` is tested before.
    pub(crate) fn enter(&mut self, pc: u32, arguments: &[u32; 8])
        requires even { pc % 2 ≡ 0 }
        requires code_size { 16 ≤ self.old.code.size }
        requires data_size { 16 ≤ self.old.data.size }
        requires data_end { self.old.data.base + self.old.data.size < 2 ^ 32 }
        ensures entered { seat_of self.new ≡ entered_seat (seat_of self.old) pc arguments.now }
        ensures hart { IsHart self.new.cpu }
    {
        let mut cpu = fresh_cpu(self.format, self.code, self.data, pc);
        cpu.set_reg(Reg::numbered(STACK_POINTER), self.entry_stack());
        self.set_call(&mut cpu, arguments);
        self.cpu = cpu;
        self.status = Status::Ready;
    }
}
