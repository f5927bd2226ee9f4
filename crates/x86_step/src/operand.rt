//! Values of operands, and results into them.
ghost use Rattle.std.specs.Prelude.{IfOk, IfErr, ◌≡◌, ◌<◌, ◌≤◌, ◌%◌, ◌^◌};
ghost use Rattle.x86_instr.specs.Spelling.{number, scale_number};
ghost use Rattle.x86_step.specs.Held.{core_of, Leaves};
ghost use Rattle.x86_step.specs.State.{with_register};
ghost use Rattle.x86_step.specs.Step.{address as address_of, bytes_of as byte_count, extended as extended_narrow, finished, immediate as immediate_of, indexed as indexed_by, low as low_bits, narrow_value as narrow_of, put as put_into, register as register_of, sign_extended as extended_dword, value as value_of};

use crate::machine::{Core, Flags, Stop};
use x86_instr::{Address, Extension, Narrow, Operand, Register, Scale, Width};

/// The low 32 or 64 bits of a number, as the width says.
pub(crate) fn low(width: Width, n: u64) -> u64
    ensures { result ≡ low_bits width n }
{
    match width {
        Width::Dword => n % 0x1_0000_0000,
        Width::Qword => n,
    }
}

/// How many bytes of memory an operand of that width has.
pub(crate) fn bytes_of(width: Width) -> usize
    ensures value { result ≡ byte_count width }
    ensures some { 0 < result }
    ensures few { result ≤ 8 }
{
    match width {
        Width::Dword => 4,
        Width::Qword => 8,
    }
}

/// 32 bits, sign-extended to 64.
pub(crate) fn sign_extended(n: u32) -> u64
    ensures { result ≡ extended_dword n }
{
    if n < 0x8000_0000 {
        u64::from(n)
    } else {
        u64::from(n) + 0xFFFF_FFFF_0000_0000
    }
}

/// What an immediate of 32 bits is as an operand of that width: sign-extended where that is 64.
pub(crate) fn immediate(width: Width, n: u32) -> u64
    ensures { result ≡ immediate_of width n }
{
    match width {
        Width::Dword => u64::from(n),
        Width::Qword => sign_extended(n),
    }
}

/// `n`, a number of 8 or 16 bits as `from` says, extended to 32 bits.
pub(crate) fn extended(extension: Extension, from: Narrow, n: u64) -> u64
    requires { n < 2 ^ 16 }
    ensures { result ≡ extended_narrow extension from n }
{
    match (extension, from) {
        (Extension::Zero, _) => n,
        (Extension::Sign, Narrow::Byte) => { if n < 0x80 { n } else { n + 0xFFFF_FF00 } }
        (Extension::Sign, Narrow::Word) => { if n < 0x8000 { n } else { n + 0xFFFF_0000 } }
    }
}

/// By what an index of that scale is multiplied.
fn factor_of(scale: Scale) -> u64
    ensures value { result ≡ 2 ^ scale_number scale }
{
    match scale {
        Scale::One => 1,
        Scale::Two => 2,
        Scale::Four => 4,
        Scale::Eight => 8,
    }
}

impl Core {
    /// All 64 bits of a register.
    pub(crate) fn register(&self, register: Register) -> u64
        ensures { result ≡ register_of (core_of self.now) register }
    {
        self.registers[register.number() as usize]
    }

    /// Sets all 64 bits of a register, so that a result of 32 clears the upper half.
    pub(crate) fn set(&mut self, register: Register, value: u64)
        ensures set { core_of self.new ≡ with_register (core_of self.old) (number register) value }
    {
        self.registers[register.number() as usize] = value;
    }

    /// The index times its scale, modulo 2^64; 0 for rsp (4), which means that there is no index.
    fn indexed(&self, address: Address) -> u64
        ensures { result ≡ indexed_by (core_of self.now) address % 2 ^ 64 }
    {
        if address.index.number() == 4 {
            0
        } else {
            self.register(address.index)
                .wrapping_mul(factor_of(address.scale))
        }
    }

    /// The address of an operand in memory: base, index times scale and displacement, summed modulo
    /// 2^64.
    pub fn address(&self, address: Address) -> u64
        ensures { result ≡ address_of (core_of self.now) address }
    {
        self.register(address.base)
            .wrapping_add(self.indexed(address))
            .wrapping_add(sign_extended(address.displacement))
    }

    /// The low bits of a register, or what memory has at the address; `Fault` where a byte isn't there.
    #[tactic(auto, using(crate::proofs::Bytes::fits_width))]
    pub(crate) fn value(&self, width: Width, operand: Operand) -> Result<u64, Stop>
        ensures value { result ≡ value_of (core_of self.now) width operand }
        ensures in_range { IfOk result (λ n. n ≡ low_bits width n) }
    {
        match operand {
            Operand::Reg(register) => Ok(low(width, self.register(register))),
            Operand::Mem(address) => self.load(bytes_of(width), self.address(address)),
        }
    }

    /// The same of 8 or 16 bits.
    pub(crate) fn narrow_value(&self, from: Narrow, operand: Operand) -> Result<u64, Stop>
        ensures value { result ≡ narrow_of (core_of self.now) from operand }
        ensures in_range { IfOk result (λ n. n < 2 ^ 16) }
    {
        match (from, operand) {
            (Narrow::Byte, Operand::Reg(register)) => Ok(self.register(register) % 0x100),
            (Narrow::Word, Operand::Reg(register)) => Ok(self.register(register) % 0x1_0000),
            (Narrow::Byte, Operand::Mem(address)) => self.load(1, self.address(address)),
            (Narrow::Word, Operand::Mem(address)) => self.load(2, self.address(address)),
        }
    }

    /// Writes a value into an operand: into all 64 bits of a register, or into as many bytes of
    /// memory as the width has. `Fault` where one of these isn't there.
    pub(crate) fn put(&mut self, width: Width, operand: Operand, value: u64) -> Result<(), Stop>
        ensures value { Leaves result self.new (put_into (core_of self.old) width operand value) }
        ensures kept { IfErr result (λ e. self.new ≡ self.old) }
    {
        match operand {
            Operand::Reg(register) => {
                self.set(register, value);
                Ok(())
            }
            Operand::Mem(address) => self.store(bytes_of(width), self.address(address), value),
        }
    }

    /// Writes an operation's result into its operand, and then the flags; neither where that faults.
    pub(crate) fn finish(
        &mut self,
        width: Width,
        operand: Operand,
        value: u64,
        flags: Flags,
    ) -> Result<(), Stop>
        ensures value { Leaves result self.new (finished (core_of self.old) width operand (record { result = value; flags = flags })) }
        ensures kept { IfErr result (λ e. self.new ≡ self.old) }
    {
        self.put(width, operand, value)?;
        self.flags = flags;
        Ok(())
    }
}
