//! Registers that are set from outside, and whether a sandbox may be entered with them. The *typed*
//! registers of code in words are those on whose values the checker relies: the data registers hold an
//! address in or near the data, x30 the start of a word of the code, and x31, where masks have two
//! steps, an offset in the data. `AreWordsTyped` of `sfi_safe_runs` says the same.
ghost use Rattle.std.specs.Prelude.{◌≡◌, ◌≢◌, ◌%◌, ◌+◌, ◌<◌, ◌≤◌, ◌^◌, ◌↔◌, IfSome, IsTrue, None, true, false};
ghost use Rattle.rv_step.specs.State.{IsHart, register};
ghost use Rattle.sfi_formats.specs.Formats.{has_stack, has_words, has_single_mask, code_register, data_base_register, offset_register, stack_pointer, unit};
ghost use Rattle.sfi_formats.specs.Limits.{slack};
ghost use Rattle.sfi_image.specs.Spelling.{Holds, IsNear, IsNearIn, IsNearZero};
ghost use Rattle.sfi_image.specs.Parts.{IsStart, IsWordStart, HasReserved, reserved_for};
ghost use Rattle.sfi_safe_runs.specs.Runs.{AreWordsTyped};
ghost use Rattle.sfi_host.specs.Changing.{called_back_hart};
ghost use Rattle.sfi_host.specs.Loading.{with_registers};
ghost use Rattle.sfi_host.specs.Slots.{span_of};
ghost use Rattle.sfi_host.specs.Worlds.{seat_of};
ghost use Rattle.sfi_host.specs.private.Setting.{LieNear};
ghost use Rattle.sfi_host.specs.Changing.{hart_of, IsEntryHart, set_seat};

use crate::region::Region;
use crate::sandbox::Sandbox;
use crate::status::Status;
use rv_step::Cpu;
use rv_word::Reg;
use sfi_formats::{
    CODE_BASE_REGISTER, CODE_MASK_REGISTER, CODE_REGISTER, DATA_BASE_REGISTER, DATA_MASK_REGISTER,
    Format, OFFSET_REGISTER, SLACK, STACK_POINTER,
};
use sfi_image::data_mask_of;

/// Puts values into the registers from x0 on.
fn set_all(cpu: &mut Cpu, registers: &[u32; 32])
    requires hart { IsHart cpu.old }
    ensures put { cpu.new ≡ with_registers cpu.old 0 registers.now }
    ensures hart { IsHart cpu.new }
{
    for k in 0..32 {
        cpu.set_reg(Reg::numbered(k), registers[k as usize]);
    }
}

/// A state with this pc and these registers from x0 on, of which x0 stays 0; `None` where the pc is
/// odd.
pub(crate) fn cpu_of(pc: u32, registers: &[u32; 32]) -> Option<Cpu>
    ensures some { IfSome result (λ cpu. cpu ≡ hart_of pc registers.now) }
    ensures hart { IfSome result IsHart }
    ensures odd { result ≡ None → pc % 2 ≢ 0 }
{
    let mut cpu = Cpu::at(pc)?;
    set_all(&mut cpu, registers);
    Some(cpu)
}

/// The values of the registers, from x0 on.
pub fn registers_of(cpu: &Cpu) -> [u32; 32]
    ensures { result ≡ cpu.now.registers }
{
    // The value of x0 stands for each that isn't read yet.
    let mut registers = [cpu.reg(Reg::numbered(0)); 32];
    for number in 0..32 {
        registers[number] = cpu.reg(Reg::numbered(number as u8));
    }
    registers
}

/// Whether the address lies in the region, or at most `SLACK` bytes outside it.
fn is_near(region: Region, at: u32) -> bool
    ensures { IsTrue result ↔ IsNear (span_of region) slack at }
{
    let (at, slack) = (u64::from(at), u64::from(SLACK));
    let end = u64::from(region.base) + u64::from(region.size);
    u64::from(region.base) <= at + slack && at < end + slack
}

/// Whether the address is one of the first `size`, or at most `SLACK` bytes outside them, modulo 2^32.
fn is_near_zero(size: u32, at: u32) -> bool
    ensures { IsTrue result ↔ IsNearZero size slack at }
{
    let (at, slack) = (u64::from(at), u64::from(SLACK));
    at < u64::from(size) + slack || (1 << 32) <= at + slack
}

/// Whether a data register of code in words of this format may hold the address.
fn may_be_data(format: Format, region: Region, at: u32) -> bool
    ensures { IsTrue result ↔ IsNearIn format (span_of region) slack at }
{
    is_near(region, at) || (format.has_single_mask() && is_near_zero(region.size, at))
}

/// Whether each data register of code in words holds an address in or near the data `region`: x2, x3,
/// x4 and x29, and in the fourth format x26 and x31, too.
fn lie_near(format: Format, region: Region, cpu: &Cpu) -> bool
    ensures { IsTrue result ↔ LieNear format (span_of region) cpu.now.registers }
{
    may_be_data(format, region, cpu.reg(Reg::numbered(2)))
        && may_be_data(format, region, cpu.reg(Reg::numbered(3)))
        && may_be_data(format, region, cpu.reg(Reg::numbered(4)))
        && may_be_data(format, region, cpu.reg(Reg::numbered(29)))
        && (!format.has_single_mask()
            || (may_be_data(format, region, cpu.reg(Reg::numbered(DATA_BASE_REGISTER)))
                && may_be_data(format, region, cpu.reg(Reg::numbered(OFFSET_REGISTER)))))
}

impl Sandbox {
    /// Whether a unit of the sandbox's code begins at the address.
    fn begins_at(&self, pc: u32) -> bool
        ensures { IsTrue result ↔ IsStart (unit self.now.format) (span_of self.now.code) pc }
    {
        self.code.holds(pc) && pc % self.format.unit() == 0
    }

    /// Whether the reserved registers x24 to x27 hold the bases and masks of the sandbox's regions; x26
    /// may hold anything here where it is a data register. `fresh_cpu` sets these values.
    fn holds_reserved(&self, cpu: &Cpu) -> bool
        requires code_size { 16 ≤ self.now.code.size }
        requires data_size { 16 ≤ self.now.data.size }
        requires data_end { self.now.data.base + self.now.data.size < 2 ^ 32 }
        ensures { IsTrue result ↔ HasReserved self.now.format
            (reserved_for self.now.format (span_of self.now.code) (span_of self.now.data))
            cpu.now.registers }
    {
        let mask = data_mask_of(self.format, self.data.base, self.data.size);
        cpu.reg(Reg::numbered(CODE_BASE_REGISTER)) == self.code.base
            && cpu.reg(Reg::numbered(CODE_MASK_REGISTER)) == self.code.size - self.format.unit()
            && self.holds_data_base(cpu)
            && cpu.reg(Reg::numbered(DATA_MASK_REGISTER)) == mask
    }

    /// Whether x26 holds the data base. In the fourth format it is a data register, and this is `true`
    /// whatever it holds: `lie_near` tests it.
    fn holds_data_base(&self, cpu: &Cpu) -> bool
        ensures { IsTrue result ↔ (has_single_mask self.now.format ≡ false
            → register cpu.now data_base_register ≡ self.now.data.base) }
    {
        if self.format.has_single_mask() {
            return true;
        }
        cpu.reg(Reg::numbered(DATA_BASE_REGISTER)) == self.data.base
    }

    /// Whether x31 is an offset in the data, below their size. In the fourth format it is a data
    /// register, and this is `true` whatever it holds: `lie_near` tests it.
    fn holds_offset(&self, cpu: &Cpu) -> bool
        ensures { IsTrue result ↔ (has_single_mask self.now.format ≡ false
            → register cpu.now offset_register < self.now.data.size) }
    {
        if self.format.has_single_mask() {
            return true;
        }
        cpu.reg(Reg::numbered(OFFSET_REGISTER)) < self.data.size
    }

    /// Whether the code register holds the start of a word of the code.
    fn holds_word_start(&self, cpu: &Cpu) -> bool
        ensures { IsTrue result
            ↔ IsWordStart (span_of self.now.code) (register cpu.now code_register) }
    {
        let code = cpu.reg(Reg::numbered(CODE_REGISTER));
        self.code.holds(code) && code % 4 == 0
    }

    /// Whether the typed registers of code in words hold what their types say.
    #[tactic(auto, using(crate::proofs::FromOutside::all_near, crate::proofs::FromOutside::typed_near))]
    fn holds_typed_if_words(&self, cpu: &Cpu) -> bool
        ensures { IsTrue result
            ↔ AreWordsTyped self.now.format (span_of self.now.code) (span_of self.now.data) cpu.now.registers }
    {
        if !lie_near(self.format, self.data, cpu) {
            return false;
        }
        if !self.holds_word_start(cpu) {
            return false;
        }
        self.holds_offset(cpu)
    }

    /// Whether the stack pointer lies in the data; `true` in a format that has none.
    fn holds_stack(&self, cpu: &Cpu) -> bool
        ensures { IsTrue result ↔ (has_stack self.now.format ≡ true
            → Holds (span_of self.now.data) (register cpu.now stack_pointer)) }
    {
        if !self.format.has_stack() {
            return true;
        }
        self.data.holds(cpu.reg(Reg::numbered(STACK_POINTER)))
    }

    /// Whether the typed registers hold what their types say; `true` where code is in bundles.
    fn holds_words(&self, cpu: &Cpu) -> bool
        ensures { IsTrue result ↔ (has_words self.now.format ≡ true
            → AreWordsTyped self.now.format (span_of self.now.code) (span_of self.now.data) cpu.now.registers) }
    {
        if !self.format.has_words() {
            return true;
        }
        self.holds_typed_if_words(cpu)
    }

    /// Whether the sandbox may be entered with this pc and these registers.
    pub(crate) fn may_hold(&self, cpu: &Cpu) -> bool
        requires code_size { 16 ≤ self.now.code.size }
        requires data_size { 16 ≤ self.now.data.size }
        requires data_end { self.now.data.base + self.now.data.size < 2 ^ 32 }
        ensures { IsTrue result ↔ IsEntryHart (seat_of self.now).bounds cpu.now }
    {
        self.begins_at(cpu.pc())
            && self.holds_reserved(cpu)
            && self.holds_stack(cpu)
            && self.holds_words(cpu)
    }

    /// The sandbox's pc and registers as at a call of the function at `pc` by its host, while it
    /// waits at a call of its own; `None` where `pc` is odd.
    pub(crate) fn called_back(&self, pc: u32, arguments: &[u32; 8]) -> Option<Cpu>
        ensures some { IfSome result (λ cpu. cpu
            ≡ called_back_hart (seat_of self.now).bounds self.now.cpu pc arguments.now) }
        ensures hart { IfSome result IsHart }
        ensures odd { result ≡ None → pc % 2 ≢ 0 }
    {
        let mut cpu = cpu_of(pc, &registers_of(&self.cpu))?;
        self.set_call(&mut cpu, arguments);
        Some(cpu)
    }

    /// Makes the sandbox ready with this pc and these registers, which `may_hold` has allowed.
    pub(crate) fn resume(&mut self, cpu: Cpu)
        ensures { seat_of self.new ≡ set_seat (seat_of self.old) cpu }
    {
        self.cpu = cpu;
        self.status = Status::Ready;
    }
}
