//! The forms of instructions.

use crate::operand::{Address, Operand, Register};

/// How many bits an operation has.
#[derive(Clone, Copy)]
pub enum Width {
    /// 32: a result in a register clears the upper half.
    Dword,
    /// 64.
    Qword,
}

/// A width below 32 bits.
#[derive(Clone, Copy)]
pub enum Narrow {
    /// 8 bits.
    Byte,
    /// 16 bits.
    Word,
}

/// How a narrow value becomes one of 32 bits.
#[derive(Clone, Copy)]
pub enum Extension {
    /// With zeros: movzx.
    Zero,
    /// With copies of the sign: movsx.
    Sign,
}

/// An operation of two operands, by opcodes 00 to 3F.
#[derive(Clone, Copy)]
pub enum AluOp {
    Add,
    Or,
    And,
    Sub,
    Xor,
    /// Writes flags alone.
    Cmp,
}

/// An operation of one operand.
#[derive(Clone, Copy)]
pub enum UnaryOp {
    Neg,
}

/// A shift.
#[derive(Clone, Copy)]
pub enum ShiftOp {
    /// Left.
    Shl,
    /// Right, with zeros.
    Shr,
    /// Right, with copies of the sign.
    Sar,
}

/// A division of edx:eax, with the quotient in eax and the remainder in edx.
#[derive(Clone, Copy)]
pub enum DivideOp {
    /// Unsigned.
    Div,
    /// Signed.
    Idiv,
}

/// What flags say of the last comparison: Below and Above of unsigned numbers, Less and Greater of
/// signed ones.
#[derive(Clone, Copy)]
pub enum Condition {
    Below,
    AboveOrEqual,
    Equal,
    NotEqual,
    BelowOrEqual,
    Above,
    Less,
    GreaterOrEqual,
    LessOrEqual,
    Greater,
}

/// How many bytes a nop has.
#[derive(Clone, Copy)]
pub enum NopSize {
    One,
    Two,
    Three,
    Four,
    Five,
    Six,
    Seven,
    Eight,
    Nine,
}

/// An instruction, one variant a form. Numbers are in two's complement; operands have 32 bits where
/// no width is said. A new form also needs clauses in specs/Spelling.antt and specs/Decoding.antt,
/// and in specs/Step.antt of x86_step.
#[derive(Clone, Copy)]
pub enum Instr {
    Mov {
        width: Width,
        dst: Register,
        src: Operand,
    },
    MovStore {
        width: Width,
        dst: Address,
        src: Register,
    },
    MovStoreByte {
        dst: Address,
        src: Register,
    },
    MovStoreWord {
        dst: Address,
        src: Register,
    },
    MovImm {
        dst: Register,
        imm: u32,
    },
    /// movzx and movsx.
    MovExtended {
        extension: Extension,
        from: Narrow,
        dst: Register,
        src: Operand,
    },
    /// 32 bits with their sign, to 64.
    Movsxd {
        dst: Register,
        src: Operand,
    },
    Alu {
        op: AluOp,
        width: Width,
        dst: Register,
        src: Operand,
    },
    /// With 64 bits, `imm` is 32 bits with their sign.
    AluImm {
        op: AluOp,
        width: Width,
        dst: Operand,
        imm: u32,
    },
    /// Sets flags by the bitwise and of the two, and writes no register.
    Test {
        first: Register,
        second: Register,
    },
    Unary {
        op: UnaryOp,
        dst: Operand,
    },
    ShiftImm {
        op: ShiftOp,
        width: Width,
        dst: Operand,
        amount: u8,
    },
    /// By cl.
    ShiftCl {
        op: ShiftOp,
        dst: Register,
    },
    /// The low half of the product.
    Imul {
        width: Width,
        dst: Register,
        src: Operand,
    },
    Divide {
        op: DivideOp,
        src: Register,
    },
    /// eax with its sign, to edx:eax.
    Cdq,
    /// 1 where the condition holds, or else 0, into the low byte; the other bytes stay.
    Setcc {
        condition: Condition,
        dst: Register,
    },
    /// `distance` is from the instruction's end.
    Jcc {
        condition: Condition,
        distance: u32,
    },
    /// `distance` is from the instruction's end.
    Jmp {
        distance: u32,
    },
    /// To the address that 64 bits hold.
    JmpTo {
        target: Operand,
    },
    Nop {
        size: NopSize,
    },
}
