//! The pc and the registers.
ghost use Rattle.std.specs.Prelude.{◌≡◌, ◌%◌, ◌↔◌, IsSome, IfSome, replicate};
ghost use Rattle.rv_step.specs.State.{Hart, IsHart, register, with_register, with_pc, past};

use rv_word::Reg;
use std::marker::Model;

/// The pc, which is even, and the 32 registers, of which x0 is 0.
#[derive(Drop)]
pub struct Cpu {
    pc: u32,
    registers: [u32; 32],
}

impl Model for Cpu {
    ghost use Rattle.rv_step.specs.State.{Hart, IsHart};

    ghost Value = { Hart };

    ghost view = { λ c. record { pc = c.pc; registers = c.registers } };

    ghost invariant = { λ c. IsHart (record { pc = c.pc; registers = c.registers }) };
}

impl Cpu {
    /// A machine at this pc whose registers are 0; `None` where the pc is odd.
    pub fn at(pc: u32) -> Option<Cpu>
        ensures even { IsSome result ↔ (pc % 2 ≡ 0) }
        ensures fresh { IfSome result (λ c. c ≡ record { pc = pc; registers = replicate 32 0 }) }
        ensures hart { IfSome result IsHart }
    {
        if pc % 2 == 0 {
            Some(Cpu {
                pc,
                registers: [0; 32],
            })
        } else {
            None
        }
    }

    /// The address of the instruction that the next step executes.
    #[inline(always)]
    pub fn pc(&self) -> u32
        ensures value { result ≡ self.now.pc }
        ensures hart { IsHart self.now }
    {
        self.pc
    }

    /// The value of a register.
    #[inline(always)]
    pub fn reg(&self, r: Reg) -> u32
        ensures value { result ≡ register self.now r }
        ensures hart { IsHart self.now }
    {
        self.registers[r.number() as usize]
    }

    /// Writes a register. x0 stays 0.
    #[inline(always)]
    pub fn set_reg(&mut self, r: Reg, value: u32)
        ensures written { self.new ≡ with_register self.old r value }
        ensures hart { IsHart self.new }
    {
        let place = r.number() as usize;
        if place != 0 {
            self.registers[place] = value;
        }
    }

    /// Goes to an even address. The registers stay.
    #[inline(always)]
    pub fn go_to(&mut self, pc: u32)
        requires { pc % 2 ≡ 0 }
        ensures gone { self.new ≡ with_pc self.old pc }
        ensures hart { IsHart self.new }
    {
        self.pc = pc;
    }
}

/// Goes on after the ecall at pc, once the caller has done what it calls for: an ecall has 4 bytes.
pub fn after_call(cpu: &mut Cpu)
    ensures gone { cpu.new ≡ past cpu.old 4 }
    ensures hart { IsHart cpu.new }
{
    cpu.go_to(cpu.pc().wrapping_add(4));
}
