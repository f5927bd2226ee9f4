//! Divisions, and conditions on flags.
ghost use Rattle.std.specs.Prelude.{true, IfErr, ◌≡◌, ◌<◌, ◌^◌};
ghost use Rattle.x86_step.specs.Held.{core_of, Leaves};
ghost use Rattle.std.specs.Int.{IsNonZero, cast_unsigned, w32, w64};
ghost use Rattle.x86_instr.specs.declared.instr.Width.TheVariants.{Dword};
ghost use Rattle.x86_step.specs.Step.{divided, fits, is_met as is_met_by, parts, signed_quotient};

use crate::alu::UNKNOWN;
use crate::machine::{Core, Flags, Stop};
use x86_instr::{Condition, DivideOp, Register};

/// The 32 bits of a signed number that they hold, in two's complement.
fn low_half(z: i64) -> u64
    requires { fits Dword z ≡ true }
    ensures { result ≡ cast_unsigned w32 z }
{
    u64::from((z as i32).cast_unsigned())
}

/// Whether 32 bits hold the number in two's complement.
fn has_32_bits(z: i64) -> bool
    ensures { result ≡ fits Dword z }
{
    z >= -0x8000_0000 && z <= 0x7FFF_FFFF
}

/// Quotient, towards 0, and remainder of signed numbers, each in 32 bits of two's complement. None where
/// 32 bits don't hold the quotient.
fn signed_parts(a: i64, b: i64) -> Option<(u64, u64)>
    requires some { IsNonZero w64 b }
    requires fits { fits Dword b ≡ true }
    ensures { result ≡ signed_quotient a b }
{
    let quotient = a.checked_div(b)?;
    let remainder = a.checked_rem(b)?;
    if !has_32_bits(quotient) {
        return None;
    }
    Some((low_half(quotient), low_half(remainder)))
}

/// Quotient and remainder of 64 bits by 32. None where `b` is 0 or 32 bits don't hold the quotient:
/// then a processor raises an exception.
fn parts_of(op: DivideOp, a: u64, b: u64) -> Option<(u64, u64)>
    requires { b < 2 ^ 32 }
    ensures { result ≡ parts op a b }
{
    if b == 0 {
        return None;
    }
    match op {
        DivideOp::Div if a / b < 0x1_0000_0000 => Some((a / b, a % b)),
        DivideOp::Div => None,
        DivideOp::Idiv => signed_parts(a.cast_signed(), i64::from((b as u32).cast_signed())),
    }
}

impl Core {
    /// Divides `a`, the value of edx:eax, by `b`: the quotient goes to eax, the remainder to edx, and
    /// each flag becomes unknown. `DivideError`, where `parts_of` has nothing, leaves all as it was.
    pub(crate) fn divide(&mut self, op: DivideOp, a: u64, b: u64) -> Result<(), Stop>
        requires { b < 2 ^ 32 }
        ensures value { Leaves result self.new (divided (core_of self.old) (parts op a b)) }
        ensures kept { IfErr result (λ e. self.new ≡ self.old) }
    {
        let Some((quotient, remainder)) = parts_of(op, a, b) else {
            return Err(Stop::DivideError);
        };
        self.set(Register::Rax, quotient);
        self.set(Register::Rdx, remainder);
        self.flags = UNKNOWN;
        Ok(())
    }
}

/// Whether the condition holds; None where a flag that it reads is unknown.
pub(crate) fn is_met(condition: Condition, flags: Flags) -> Option<bool>
    ensures { result ≡ is_met_by condition flags }
{
    match condition {
        Condition::Below => flags.carry,
        Condition::AboveOrEqual => Some(!flags.carry?),
        Condition::Equal => flags.zero,
        Condition::NotEqual => Some(!flags.zero?),
        Condition::BelowOrEqual => Some(flags.carry? | flags.zero?),
        Condition::Above => Some(!(flags.carry? | flags.zero?)),
        Condition::Less => Some(flags.sign? != flags.overflow?),
        Condition::GreaterOrEqual => Some(flags.sign? == flags.overflow?),
        Condition::LessOrEqual => Some(flags.zero? | (flags.sign? != flags.overflow?)),
        Condition::Greater => Some(!(flags.zero? | (flags.sign? != flags.overflow?))),
    }
}
