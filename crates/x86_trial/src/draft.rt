//! An instruction's operands, chosen at random, and the state before it, in which addresses of operands
//! mostly lie in the memory.

use crate::random::Random;
use x86_instr::{Address, Operand, Register, Scale, Width};
use x86_step::Core;

const REGISTERS: [Register; 16] = [
    Register::Rax,
    Register::Rcx,
    Register::Rdx,
    Register::Rbx,
    Register::Rsp,
    Register::Rbp,
    Register::Rsi,
    Register::Rdi,
    Register::R8,
    Register::R9,
    Register::R10,
    Register::R11,
    Register::R12,
    Register::R13,
    Register::R14,
    Register::R15,
];

const SCALES: [Scale; 4] = [Scale::One, Scale::Two, Scale::Four, Scale::Eight];

/// The number of rsp, which is no index.
const NO_INDEX: u8 = 4;
/// How many bytes of memory a case has.
const PAGE: u64 = 4096;

/// The state before an instruction, while the instruction is chosen.
#[derive(Drop)]
pub(crate) struct Draft {
    pub(crate) random: Random,
    pub(crate) core: Core,
    /// Where the instruction begins.
    pub(crate) code: u64,
}

impl Draft {
    /// A random register.
    pub(crate) fn register(&mut self) -> Register {
        self.random.one_of(&REGISTERS)
    }

    /// A random address: mostly in the memory, now and then across one of its ends, or anywhere.
    fn place(&mut self) -> u64 {
        let base = self.core.memory.base;
        match self.random.below(16) {
            0 => self.random.number(),
            1 => base.wrapping_add(self.random.below(16)).wrapping_sub(8),
            2 | 3 => base.wrapping_add(PAGE).wrapping_sub(self.random.below(16)),
            _ => base.wrapping_add(self.random.below(PAGE)),
        }
    }

    /// An address to jump to: near the instruction, or anywhere.
    fn target(&mut self) -> u64 {
        match self.random.below(4) {
            0 => self.random.number(),
            1 => self.random.word() >> 17,
            _ => self
                .code
                .wrapping_add(self.random.below(512))
                .wrapping_sub(256),
        }
    }

    /// An operand in memory. The base register is set so that the operand's address is a random `place`,
    /// and mostly a random number is stored there.
    pub(crate) fn address(&mut self) -> Address {
        let scale = self.random.below(4);
        let address = Address {
            base: self.register(),
            index: self.register(),
            scale: SCALES[scale as usize],
            displacement: self.random.dword(),
        };
        let place = self.place();
        self.lead(address, 1u32 << scale, place);
        if !self.random.once_in(4) {
            let number = self.random.number();
            self.store_number(place, number);
        }
        address
    }

    /// Sets the base register so that the operand's address is `place`. `factor` is its scale, by
    /// which the index is multiplied: where the base is also the index, the address is one near
    /// `place`.
    fn lead(&mut self, address: Address, factor: u32, place: u64) {
        let (base, index) = (address.base.number(), address.index.number());
        let count = if base == index && index != NO_INDEX {
            1 + i64::from(factor)
        } else {
            1
        };
        self.core.registers[base as usize] = 0;
        let missing = place.wrapping_sub(self.core.address(address)).cast_signed();
        self.core.registers[base as usize] = (missing / count).cast_unsigned();
    }

    /// Stores the 8 bytes of a number at the place; if one of them would lie outside the case's memory,
    /// nothing changes.
    fn store_number(&mut self, place: u64, number: u64) {
        let _ = self.core.store(8, place, number);
    }

    /// A random register, or an operand in memory.
    pub(crate) fn operand(&mut self) -> Operand {
        if self.random.once_in(2) {
            Operand::Reg(self.register())
        } else {
            Operand::Mem(self.address())
        }
    }

    /// The operand of an indirect jump: a register or memory, in which a random target is put.
    pub(crate) fn jump_operand(&mut self) -> Operand {
        let operand = self.operand();
        let target = self.target();
        match operand {
            Operand::Reg(register) => self.core.registers[register.number() as usize] = target,
            Operand::Mem(address) => {
                let place = self.core.address(address);
                self.store_number(place, target);
            }
        }
        operand
    }

    /// A distance of a jump, in two's complement: -2048 to 2047, or any.
    pub(crate) fn distance(&mut self) -> u32 {
        if self.random.once_in(2) {
            self.random.dword()
        } else {
            (self.random.below(4096) as u32).wrapping_sub(2048)
        }
    }

    /// Sets edx:eax to the divisor, with or without its sign, times a random quotient, plus less than
    /// 16: so that the quotient of the division often just fits in 32 bits, or just doesn't.
    pub(crate) fn lead_division(&mut self, divisor: Register) {
        let by = (self.core.registers[divisor.number() as usize] % 0x1_0000_0000) as u32;
        let by = if self.random.once_in(2) {
            i64::from(by.cast_signed()).cast_unsigned()
        } else {
            u64::from(by)
        };
        let quotient = self.random.number();
        let dividend = quotient
            .wrapping_mul(by)
            .wrapping_add(self.random.below(16));
        self.core.registers[0] = dividend % 0x1_0000_0000;
        self.core.registers[2] = dividend / 0x1_0000_0000;
    }
}
