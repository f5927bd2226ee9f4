//! Sums, differences, logical operations and products, with their flags. Operands and results are
//! numbers of the width: below 2^32 for `Dword`. Each function mirrors a definition of specs/Step.antt.
ghost use Rattle.std.specs.Prelude.{◌≡◌, ◌<◌, ◌^◌, ◌+ℤ◌, ◌-ℤ◌, ◌*ℤ◌, not};
ghost use Rattle.x86_step.specs.Step.{alu as alu_of, difference as difference_of, fits, flagged as flagged_by, is_negative as is_below_zero, logical as logical_of, low, product as product_of, signed, sum as sum_of, unary as unary_of};

use crate::machine::{Computed, Flags};
use crate::operand::low;
use x86_instr::{AluOp, UnaryOp, Width};

/// Each flag is undefined, as after a division.
pub(crate) const UNKNOWN: Flags = Flags {
    carry: None,
    zero: None,
    sign: None,
    overflow: None,
};

/// The sign bit of a number of that width.
pub(crate) fn is_negative(width: Width, n: u64) -> bool
    ensures { result ≡ is_below_zero width n }
{
    match width {
        Width::Dword => n >= 0x8000_0000,
        Width::Qword => n >= 0x8000_0000_0000_0000,
    }
}

/// A result with its flags: zero and sign are what `value` says, carry and overflow as given, `None`
/// where the manual leaves them undefined.
pub(crate) fn flagged(
    width: Width,
    carry: Option<bool>,
    overflow: Option<bool>,
    value: u64,
) -> Computed
    ensures { result ≡ flagged_by width carry overflow value }
{
    Computed {
        result: value,
        flags: Flags {
            carry,
            zero: Some(value == 0),
            sign: Some(is_negative(width, value)),
            overflow,
        },
    }
}

/// Whether the signed sum doesn't fit the width: the overflow flag of an addition.
fn sum_overflows(width: Width, a: u64, b: u64) -> bool
    requires a { a ≡ low width a }
    requires b { b ≡ low width b }
    ensures { result ≡ not (fits width (signed width a +ℤ signed width b)) }
{
    match width {
        Width::Dword => {
            let (a, b) = (a as u32, b as u32);
            a.cast_signed().checked_add(b.cast_signed()).is_none()
        }
        Width::Qword => a.cast_signed().checked_add(b.cast_signed()).is_none(),
    }
}

/// `a` + `b`, modulo the width. The carry says that the unsigned sum doesn't fit.
fn sum(width: Width, a: u64, b: u64) -> Computed
    requires a { a ≡ low width a }
    requires b { b ≡ low width b }
    ensures { result ≡ sum_of width a b }
{
    let r = low(width, a.wrapping_add(b));
    flagged(width, Some(r < a), Some(sum_overflows(width, a, b)), r)
}

/// Whether the signed difference doesn't fit the width: the overflow flag of a subtraction.
fn difference_overflows(width: Width, a: u64, b: u64) -> bool
    requires a { a ≡ low width a }
    requires b { b ≡ low width b }
    ensures { result ≡ not (fits width (signed width a -ℤ signed width b)) }
{
    match width {
        Width::Dword => {
            let (a, b) = (a as u32, b as u32);
            a.cast_signed().checked_sub(b.cast_signed()).is_none()
        }
        Width::Qword => a.cast_signed().checked_sub(b.cast_signed()).is_none(),
    }
}

/// `a` - `b`, modulo the width. The carry is the borrow: unsigned, `a` is below `b`.
fn difference(width: Width, a: u64, b: u64) -> Computed
    requires a { a ≡ low width a }
    requires b { b ≡ low width b }
    ensures { result ≡ difference_of width a b }
{
    let r = low(width, a.wrapping_sub(b));
    let overflow = difference_overflows(width, a, b);
    flagged(width, Some(a < b), Some(overflow), r)
}

/// The result `r` of and, or, xor or test, with its flags: these clear carry and overflow.
pub(crate) fn logical(width: Width, r: u64) -> Computed
    ensures { result ≡ logical_of width r }
{
    flagged(width, Some(false), Some(false), r)
}

/// `a` op `b`, with all four flags: `a` is the first operand, in which the result goes, `b` the second.
/// Sub and cmp both are `a` - `b` with the flags of the difference; that cmp drops the result is the
/// caller's business (`operate`). Or, and and xor clear carry and overflow. Zero and sign are the
/// result's. As the instructions' pages of Intel's manual, volume 2, say; `alu` of specs/Step.antt
/// says the same.
pub(crate) fn alu(op: AluOp, width: Width, a: u64, b: u64) -> Computed
    requires a { a ≡ low width a }
    requires b { b ≡ low width b }
    ensures { result ≡ alu_of op width a b }
{
    match op {
        AluOp::Add => sum(width, a, b),
        AluOp::Or => logical(width, a | b),
        AluOp::And => logical(width, a & b),
        AluOp::Sub | AluOp::Cmp => difference(width, a, b),
        AluOp::Xor => logical(width, a ^ b),
    }
}

/// Neg: 0 - `a`, of 32 bits, with the flags of that difference.
pub(crate) fn unary(op: UnaryOp, a: u64) -> Computed
    requires { a < 2 ^ 32 }
    ensures { result ≡ unary_of op a }
{
    match op {
        UnaryOp::Neg => difference(Width::Dword, 0, a),
    }
}

/// Whether the signed product doesn't fit the width: the carry and the overflow flag of imul.
fn product_overflows(width: Width, a: u64, b: u64) -> bool
    requires a { a ≡ low width a }
    requires b { b ≡ low width b }
    ensures { result ≡ not (fits width (signed width a *ℤ signed width b)) }
{
    match width {
        Width::Dword => {
            let (a, b) = (a as u32, b as u32);
            a.cast_signed().checked_mul(b.cast_signed()).is_none()
        }
        Width::Qword => a.cast_signed().checked_mul(b.cast_signed()).is_none(),
    }
}

/// Imul: the low half of the product, of as many bits as the width has. Zero and sign are undefined.
pub(crate) fn product(width: Width, a: u64, b: u64) -> Computed
    requires a { a ≡ low width a }
    requires b { b ≡ low width b }
    ensures { result ≡ product_of width a b }
{
    let lost = product_overflows(width, a, b);
    Computed {
        result: low(width, a.wrapping_mul(b)),
        flags: Flags {
            carry: Some(lost),
            zero: None,
            sign: None,
            overflow: Some(lost),
        },
    }
}
