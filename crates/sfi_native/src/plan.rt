//! What code is free to choose: which of the sandbox's registers lie in the processor's, which steps it counts late, and where nops
//! stand.
ghost use Rattle.std.specs.Prelude.{◌≡◌, ℕ, ◌<◌, ◌↔◌, [], None, Some, IsTrue};
ghost use Rattle.sfi_native.specs.Registers.{IsRightPlan, IsUnpadded, nop as nop_at, assigned, owed as owed_at, is_assignable as is_assignable_register, is_fixed as is_fixed_register};
ghost use Rattle.sfi_native.specs.private.{IsRightAt};

use rv_word::Reg;
use sfi_formats::Format;
use sfi_pairs::is_reserved_in;
use std::alloc::Global;
use x86_instr::{NopSize, Register};

/// Which of the sandbox's registers lie in registers of the processor (the others lie in a frame in memory), which steps
/// code counts late, and before which instructions nops stand.
#[derive(Drop)]
pub struct Plan {
    /// The format of the image whose code it is for, which says the registers that no line writes.
    pub format: Format,
    /// For x0 to x31 the processor's register; none: it lies in the frame.
    pub assigned: [Option<Register>; 32],
    /// The address from which `owed` and `padding` go.
    pub code_base: u32,
    /// For each two bytes from there on how many steps, modulo 63, are done and not yet counted before the instruction there; 0
    /// where there is no byte.
    pub owed: Vec<u8>,
    /// For each two bytes from there on the nop that stands before the instruction there, if one does.
    pub padding: Vec<Option<NopSize>>,
}

/// Whether register `r` keeps one value in code of that format, so that no line writes it: x0 and the
/// reserved registers. They lie in the frame. `SFI_FIXED` of include/sfi_native_code.h has the same, x26
/// apart, which is fixed only where masks have two steps.
pub(crate) fn is_fixed(format: Format, r: Reg) -> bool
    ensures { result ≡ is_fixed_register format r }
{
    r.number() == 0 || is_reserved_in(format, r)
}

/// Whether code has no other use for a register of the processor, so that one of the sandbox's may
/// lie in it. `ASSIGNABLE` of uses.rt, and `SFI_ASSIGNABLE` and `SFI_PLACED` of
/// include/sfi_native_code.h, have the same ten.
fn is_assignable(q: Register) -> bool
    ensures { result ≡ is_assignable_register q }
{
    match q {
        Register::Rbx
        | Register::Rbp
        | Register::Rsi
        | Register::Rdi
        | Register::R8
        | Register::R9
        | Register::R10
        | Register::R11
        | Register::R12
        | Register::R13 => true,
        _ => false,
    }
}

impl Plan {
    /// The simplest plan: all registers lie in the frame, each step is counted at once, and no nops
    /// stand anywhere.
    pub fn in_frame(alloc: Global, format: Format) -> Plan
        ensures right { IsRightPlan result }
        ensures format { result.format ≡ format }
        ensures none { (r : ℕ) → assigned result r ≡ None }
        ensures at_once { result.owed.items ≡ [] }
        ensures unpadded { IsUnpadded result }
    {
        Plan {
            format,
            assigned: [None; 32],
            code_base: 0,
            owed: Vec::new(alloc),
            padding: Vec::new(alloc),
        }
    }

    /// How many steps code owes before the instruction at that address: done, but not yet subtracted
    /// from r14. 0 where the plan has no number for the address.
    pub(crate) fn owed(&self, at: u32) -> u32
        ensures is { result ≡ owed_at self.now at }
        ensures few { result < 63 }
    {
        let place = at.wrapping_sub(self.code_base) / 2;
        match self.owed.get(place as usize) {
            Some(owed) => u32::from(*owed % 63),
            None => 0,
        }
    }

    /// The nop that stands before the instruction at that address, if one does.
    pub(crate) fn nop(&self, at: u32) -> Option<NopSize>
        ensures { result ≡ nop_at self.now at }
    {
        let place = at.wrapping_sub(self.code_base) / 2;
        match self.padding.get(place as usize) {
            Some(nop) => *nop,
            None => None,
        }
    }

    /// The processor's register that a register lies in; None if it lies in the frame.
    pub(crate) fn of(&self, r: Reg) -> Option<Register>
        ensures { result ≡ assigned self.now r }
    {
        self.assigned[usize::from(r.number())]
    }

    /// Whether the sandbox's register `r` lies in the processor's `q`.
    fn lies_in(&self, r: usize, q: Register) -> bool
        requires { r < 32 }
        ensures { IsTrue result ↔ (assigned self.now r ≡ Some q) }
    {
        match self.assigned[r] {
            Some(other) => other.number() == q.number(),
            None => false,
        }
    }

    /// Whether one of the sandbox's registers below `n` lies in the processor's `q`.
    fn has_before(&self, n: usize, q: Register) -> bool
        requires { n < 32 }
        ensures { IsTrue result ↔ ((r : ℕ) × (r < n) × (assigned self.now r ≡ Some q)) }
    {
        for r in 0..n {
            if self.lies_in(r, q) {
                return true;
            }
        }
        false
    }

    /// Whether register `n` lies in the frame, or isn't fixed and lies in a register that code has no
    /// other use for and no register below `n` lies in.
    fn is_right_at(&self, n: usize) -> bool
        requires { n < 32 }
        ensures { IsTrue result ↔ IsRightAt self.now n }
    {
        let Some(q) = self.assigned[n] else {
            return true;
        };
        is_assignable(q) && !is_fixed(self.format, Reg::numbered(n as u8)) && !self.has_before(n, q)
    }

    /// Whether code can be made by this plan: each of the sandbox's registers lies in the frame or in one of
    /// the ten registers of `is_assignable`, none that no line writes (`is_fixed`) lies in one, and no two
    /// lie in the same. Any `owed` and `padding` will do. `sfi_hold_registers` of
    /// include/sfi_native_code.h tests the same of a file.
    pub fn is_right(&self) -> bool
        ensures { IsTrue result ↔ IsRightPlan self.now }
    {
        for n in 0..32 {
            if !self.is_right_at(n) {
                return false;
            }
        }
        true
    }
}
