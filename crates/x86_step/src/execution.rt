//! What an instruction does, as `effect` of specs/Step.antt says. A method that stops (`Err`) leaves
//! all as it was. `x86_trial` and fuzz/processor.py try it beside a real processor.
ghost use Rattle.std.specs.Prelude.{◌≡◌, IfErr, Ok};
ghost use Rattle.x86_instr.specs.declared.instr.Instr.TheVariants.{Test, ShiftCl, Setcc};
ghost use Rattle.x86_step.specs.Held.{Comes, Leaves, core_of};
ghost use Rattle.x86_step.specs.Step.{alu as alu_of, alu_finished, computes, effect, goes_to, jumped as jump_target, landed as landed_at, low as low_bits};

use crate::alu::{alu, is_negative, logical, product, unary};
use crate::divide::is_met;
use crate::machine::{Core, Stop};
use crate::operand::{bytes_of, extended, immediate, low, sign_extended};
use crate::shift::shift;
use x86_instr::{AluOp, Condition, Instr, Operand, Register, ShiftOp, Width};

impl Core {
    /// Does `op` on `a`, which is the value of `dst`, and `b`: the result goes into `dst`, but cmp
    /// writes flags alone.
    fn operate(&mut self, op: AluOp, width: Width, dst: Operand, a: u64, b: u64) -> Result<(), Stop>
        requires a { a ≡ low_bits width a }
        requires b { b ≡ low_bits width b }
        ensures value { Leaves result self.new (alu_finished op (core_of self.old) width dst (alu_of op width a b)) }
        ensures kept { IfErr result (λ e. self.new ≡ self.old) }
    {
        let computed = alu(op, width, a, b);
        if let AluOp::Cmp = op {
            self.flags = computed.flags;
            return Ok(());
        }
        self.finish(width, dst, computed.result, computed.flags)
    }

    /// What an instruction does with registers, flags and memory. A jump does nothing to these: `target`
    /// says where it goes. A new form needs a clause of `computes` in specs/Step.antt.
    #[tactic(auto, unfolding(crate::specs::Step::computes))]
    fn compute(&mut self, instr: Instr) -> Result<(), Stop>
        ensures value { Leaves result self.new (computes instr (core_of self.old)) }
        ensures kept { IfErr result (λ e. self.new ≡ self.old) }
    {
        match instr {
            Instr::Mov { width, dst, src } => {
                let value = self.value(width, src)?;
                self.set(dst, value);
                Ok(())
            }
            Instr::MovStore { width, dst, src } => {
                self.store(bytes_of(width), self.address(dst), self.register(src))
            }
            Instr::MovStoreByte { dst, src } => {
                self.store(1, self.address(dst), self.register(src))
            }
            Instr::MovStoreWord { dst, src } => {
                self.store(2, self.address(dst), self.register(src))
            }
            Instr::MovImm { dst, imm } => {
                self.set(dst, u64::from(imm));
                Ok(())
            }
            Instr::MovExtended {
                extension,
                from,
                dst,
                src,
            } => {
                let value = self.narrow_value(from, src)?;
                self.set(dst, extended(extension, from, value));
                Ok(())
            }
            Instr::Movsxd { dst, src } => {
                let value = self.value(Width::Dword, src)?;
                self.set(dst, sign_extended(value as u32));
                Ok(())
            }
            Instr::Alu {
                op,
                width,
                dst,
                src,
            } => {
                let b = self.value(width, src)?;
                let a = low(width, self.register(dst));
                self.operate(op, width, Operand::Reg(dst), a, b)
            }
            Instr::AluImm {
                op,
                width,
                dst,
                imm,
            } => {
                let a = self.value(width, dst)?;
                self.operate(op, width, dst, a, immediate(width, imm))
            }
            Instr::Test { first, second } => {
                self.test(first, second);
                Ok(())
            }
            Instr::Unary { op, dst } => {
                let a = self.value(Width::Dword, dst)?;
                let computed = unary(op, a);
                self.finish(Width::Dword, dst, computed.result, computed.flags)
            }
            Instr::ShiftImm {
                op,
                width,
                dst,
                amount,
            } => {
                let a = self.value(width, dst)?;
                let computed = shift(op, width, a, amount, self.flags);
                self.finish(width, dst, computed.result, computed.flags)
            }
            Instr::ShiftCl { op, dst } => self.shift_cl(op, dst),
            Instr::Imul { width, dst, src } => {
                let b = self.value(width, src)?;
                let computed = product(width, low(width, self.register(dst)), b);
                self.finish(width, Operand::Reg(dst), computed.result, computed.flags)
            }
            Instr::Divide { op, src } => {
                let high = low(Width::Dword, self.register(Register::Rdx));
                let a = high * 0x1_0000_0000 + low(Width::Dword, self.register(Register::Rax));
                self.divide(op, a, low(Width::Dword, self.register(src)))
            }
            Instr::Cdq => {
                let a = low(Width::Dword, self.register(Register::Rax));
                let high = if is_negative(Width::Dword, a) {
                    0xFFFF_FFFF
                } else {
                    0
                };
                self.set(Register::Rdx, high);
                Ok(())
            }
            Instr::Setcc { condition, dst } => self.set_byte(condition, dst),
            Instr::Jcc { .. } | Instr::Jmp { .. } | Instr::JmpTo { .. } | Instr::Nop { .. } => {
                Ok(())
            }
        }
    }

    /// Test: sets flags by the bitwise and of the low 32 bits of two registers.
    #[tactic(auto, unfolding(crate::specs::Step::computes))]
    fn test(&mut self, first: Register, second: Register)
        ensures { computes (Test first second) (core_of self.old) ≡ Ok (core_of self.new) }
    {
        let both = low(Width::Dword, self.register(first))
            & low(Width::Dword, self.register(second));
        self.flags = logical(Width::Dword, both).flags;
    }

    /// Shifts the low 32 bits of `dst` by cl, the low byte of rcx, which counts modulo 32.
    #[tactic(auto, unfolding(crate::specs::Step::computes))]
    fn shift_cl(&mut self, op: ShiftOp, dst: Register) -> Result<(), Stop>
        ensures value { Leaves result self.new (computes (ShiftCl op dst) (core_of self.old)) }
        ensures kept { IfErr result (λ e. self.new ≡ self.old) }
    {
        let a = low(Width::Dword, self.register(dst));
        let amount = (self.register(Register::Rcx) % 256) as u8;
        let computed = shift(op, Width::Dword, a, amount, self.flags);
        self.finish(
            Width::Dword,
            Operand::Reg(dst),
            computed.result,
            computed.flags,
        )
    }

    /// Setcc: writes 1 into the low byte of `dst` where the condition holds, or else 0; the other
    /// seven bytes stay.
    #[tactic(auto, unfolding(crate::specs::Step::computes))]
    fn set_byte(&mut self, condition: Condition, dst: Register) -> Result<(), Stop>
        ensures value { Leaves result self.new (computes (Setcc condition dst) (core_of self.old)) }
        ensures kept { IfErr result (λ e. self.new ≡ self.old) }
    {
        let Some(met) = is_met(condition, self.flags) else {
            return Err(Stop::UnknownFlag);
        };
        let old = self.register(dst);
        self.set(dst, old - old % 256 + u64::from(met));
        Ok(())
    }

    /// The address of the instruction that comes next, where this one ends at `after`: there, or the
    /// target of a jump.
    fn target(&self, instr: Instr, after: u64) -> Result<u64, Stop>
        ensures { result ≡ goes_to instr after (core_of self.now) }
    {
        match instr {
            Instr::Jcc {
                condition,
                distance,
            } => match is_met(condition, self.flags) {
                None => Err(Stop::UnknownFlag),
                Some(true) => landed(jumped(after, distance)),
                Some(false) => Ok(after),
            },
            Instr::Jmp { distance } => landed(jumped(after, distance)),
            Instr::JmpTo { target } => landed(self.value(Width::Qword, target)?),
            _ => Ok(after),
        }
    }
}

/// The address that lies `distance`, 32 bits in two's complement, from `after`, the instruction's end,
/// modulo 2^64.
fn jumped(after: u64, distance: u32) -> u64
    ensures { result ≡ jump_target after distance }
{
    after.wrapping_add(sign_extended(distance))
}

/// A jump's target, if it is canonical (its bits 63 to 47 are equal), or else a fault.
fn landed(to: u64) -> Result<u64, Stop>
    ensures { result ≡ landed_at to }
{
    if to < 0x8000_0000_0000 || to >= 0xFFFF_8000_0000_0000 {
        Ok(to)
    } else {
        Err(Stop::Fault)
    }
}

/// Executes an instruction whose end is at address `after`, and says where the next one is. What stops
/// leaves all as it was.
pub fn execute(core: &mut Core, instr: Instr, after: u64) -> Result<u64, Stop>
    ensures value { Comes result core.new (effect instr after (core_of core.old)) }
    ensures kept { IfErr result (λ e. core.new ≡ core.old) }
{
    let to = core.target(instr, after)?;
    core.compute(instr)?;
    Ok(to)
}
