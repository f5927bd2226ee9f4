//! Shifts, with their flags.
ghost use Rattle.std.specs.Prelude.{◌≡◌, ◌<◌};
ghost use Rattle.x86_step.specs.Step.{bits_of as bit_count, low as low_bits, shift as shift_of, shift_overflow as overflow_of, shifted as shifted_by, shifted_out as last_out};

use crate::alu::{flagged, is_negative};
use crate::machine::{Computed, Flags};
use crate::operand::low;
use x86_instr::{ShiftOp, Width};

/// How many bits a number of that width has.
fn bits_of(width: Width) -> u32
    ensures { result ≡ bit_count width }
{
    match width {
        Width::Dword => 32,
        Width::Qword => 64,
    }
}

/// `a`, of that width, shifted by `n` bits.
fn shifted(op: ShiftOp, width: Width, a: u64, n: u32) -> u64
    requires a { a ≡ low_bits width a }
    requires n { n < bit_count width }
    ensures { result ≡ shifted_by op width a n }
{
    match (op, width) {
        (ShiftOp::Shl, _) => low(width, a << n),
        (ShiftOp::Shr, _) => a >> n,
        (ShiftOp::Sar, Width::Dword) => u64::from(((a as u32).cast_signed() >> n).cast_unsigned()),
        (ShiftOp::Sar, Width::Qword) => (a.cast_signed() >> n).cast_unsigned(),
    }
}

/// The last bit that is shifted out, which is the carry flag.
fn shifted_out(op: ShiftOp, width: Width, a: u64, n: u32) -> bool
    requires a { a ≡ low_bits width a }
    requires some { 0 < n }
    requires n { n < bit_count width }
    ensures { result ≡ last_out op width a n }
{
    match op {
        ShiftOp::Shl => (a >> (bits_of(width) - n)) % 2 == 1,
        ShiftOp::Shr | ShiftOp::Sar => (a >> (n - 1)) % 2 == 1,
    }
}

/// The overflow flag after a shift by 1 (after others it is undefined): shl changed the sign; shr had a
/// negative number.
fn shift_overflow(op: ShiftOp, width: Width, a: u64) -> bool
    requires a { a ≡ low_bits width a }
    ensures { result ≡ overflow_of op width a }
{
    match op {
        ShiftOp::Shl => is_negative(width, a) != is_negative(width, low(width, a << 1)),
        ShiftOp::Shr => is_negative(width, a),
        ShiftOp::Sar => false,
    }
}

/// Shifts `a` by `amount`, taken modulo the bits of the width. By 0, `flags` stay.
pub(crate) fn shift(op: ShiftOp, width: Width, a: u64, amount: u8, flags: Flags) -> Computed
    requires a { a ≡ low_bits width a }
    ensures { result ≡ shift_of op width a amount flags }
{
    let n = u32::from(amount) % bits_of(width);
    if n == 0 {
        return Computed { result: a, flags };
    }
    let overflow = if n == 1 {
        Some(shift_overflow(op, width, a))
    } else {
        None
    };
    flagged(
        width,
        Some(shifted_out(op, width, a, n)),
        overflow,
        shifted(op, width, a, n),
    )
}
