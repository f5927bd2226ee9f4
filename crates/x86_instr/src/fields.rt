//! The numbers that fields of instructions have for operations and conditions. Each function mirrors a
//! definition of specs/Spelling.antt.
ghost use Rattle.std.specs.Prelude.{◌≡◌, ◌<◌};
ghost use Rattle.x86_instr.specs.Spelling.{alu_number, condition_number, divide_number, extension_opcode, is_short, rex_w, shift_number, unary_number};

use crate::instr::{AluOp, Condition, DivideOp, Extension, Narrow, ShiftOp, UnaryOp, Width};

/// The bit W of REX: 1 for operands of 64 bits.
pub(crate) fn width_bit(width: Width) -> u8
    ensures value { result ≡ rex_w width }
    ensures in_range { result < 2 }
{
    match width {
        Width::Dword => 0,
        Width::Qword => 1,
    }
}

/// The operation's number: bits 3 to 5 of opcodes 00 to 3F, and ModRM.reg of opcodes 81 and 83.
pub(crate) fn alu_digit(op: AluOp) -> u8
    ensures value { result ≡ alu_number op }
    ensures in_range { result < 8 }
{
    match op {
        AluOp::Add => 0,
        AluOp::Or => 1,
        AluOp::And => 4,
        AluOp::Sub => 5,
        AluOp::Xor => 6,
        AluOp::Cmp => 7,
    }
}

/// The operation's number in ModRM.reg of opcode F7.
pub(crate) fn unary_digit(op: UnaryOp) -> u8
    ensures value { result ≡ unary_number op }
    ensures in_range { result < 8 }
{
    match op {
        UnaryOp::Neg => 3,
    }
}

/// The division's number in ModRM.reg of opcode F7.
pub(crate) fn divide_digit(op: DivideOp) -> u8
    ensures value { result ≡ divide_number op }
    ensures in_range { result < 8 }
{
    match op {
        DivideOp::Div => 6,
        DivideOp::Idiv => 7,
    }
}

/// The shift's number in ModRM.reg of opcodes C1 (by a number) and D3 (by cl).
pub(crate) fn shift_digit(op: ShiftOp) -> u8
    ensures value { result ≡ shift_number op }
    ensures in_range { result < 8 }
{
    match op {
        ShiftOp::Shl => 4,
        ShiftOp::Shr => 5,
        ShiftOp::Sar => 7,
    }
}

/// The condition's number: the low four bits of the opcodes of jcc (0F 8x) and setcc (0F 9x).
pub(crate) fn condition_digit(condition: Condition) -> u8
    ensures value { result ≡ condition_number condition }
    ensures in_range { result < 16 }
{
    match condition {
        Condition::Below => 2,
        Condition::AboveOrEqual => 3,
        Condition::Equal => 4,
        Condition::NotEqual => 5,
        Condition::BelowOrEqual => 6,
        Condition::Above => 7,
        Condition::Less => 12,
        Condition::GreaterOrEqual => 13,
        Condition::LessOrEqual => 14,
        Condition::Greater => 15,
    }
}

/// The opcode's byte after 0F, of movzx (`Extension::Zero`) or movsx from 8 or 16 bits.
pub(crate) fn extended_opcode(extension: Extension, from: Narrow) -> u8
    ensures { result ≡ extension_opcode extension from }
{
    match (extension, from) {
        (Extension::Zero, Narrow::Byte) => 0xB6,
        (Extension::Zero, Narrow::Word) => 0xB7,
        (Extension::Sign, Narrow::Byte) => 0xBE,
        (Extension::Sign, Narrow::Word) => 0xBF,
    }
}

/// Whether the low byte of `n`, sign-extended to 32 bits, is `n` again: then one byte is enough for
/// it as an immediate or a displacement.
pub(crate) fn is_byte(n: u32) -> bool
    ensures { result ≡ is_short n }
{
    let low = n % 256;
    let extended = if low < 128 { low } else { low + 0xFFFF_FF00 };
    extended == n
}
