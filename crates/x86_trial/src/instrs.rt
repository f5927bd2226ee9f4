//! Random instructions of each form.

use crate::draft::Draft;
use x86_instr::{
    AluOp, Condition, DivideOp, Extension, Instr, Narrow, NopSize, ShiftOp, UnaryOp, Width,
};

/// How many variants `Instr` has. fuzz/processor.c has this number and the next, too.
pub(crate) const FORMS: u64 = 21;
/// A multiple of the number of operations of each form, each in each width.
pub(crate) const OPERATIONS: u64 = 180;

const WIDTHS: [Width; 2] = [Width::Dword, Width::Qword];

const NARROWS: [Narrow; 2] = [Narrow::Byte, Narrow::Word];

const EXTENSIONS: [Extension; 2] = [Extension::Zero, Extension::Sign];

const ALU_OPS: [AluOp; 6] = [
    AluOp::Add,
    AluOp::Or,
    AluOp::And,
    AluOp::Sub,
    AluOp::Xor,
    AluOp::Cmp,
];

const SHIFT_OPS: [ShiftOp; 3] = [ShiftOp::Shl, ShiftOp::Shr, ShiftOp::Sar];

const DIVIDE_OPS: [DivideOp; 2] = [DivideOp::Div, DivideOp::Idiv];

const CONDITIONS: [Condition; 10] = [
    Condition::Below,
    Condition::AboveOrEqual,
    Condition::Equal,
    Condition::NotEqual,
    Condition::BelowOrEqual,
    Condition::Above,
    Condition::Less,
    Condition::GreaterOrEqual,
    Condition::LessOrEqual,
    Condition::Greater,
];

const NOP_SIZES: [NopSize; 9] = [
    NopSize::One,
    NopSize::Two,
    NopSize::Three,
    NopSize::Four,
    NopSize::Five,
    NopSize::Six,
    NopSize::Seven,
    NopSize::Eight,
    NopSize::Nine,
];

impl Draft {
    /// An instruction of a form, by its place in `Instr`, and of an operation: the remainder by 2 says the
    /// width where the form has one, and the rest the operation.
    pub(crate) fn instr(&mut self, form: u64, operation: usize) -> Instr {
        if form < 7 {
            self.moving(form, operation)
        } else if form < 16 {
            self.computing(form, operation)
        } else {
            self.leading(form, operation)
        }
    }

    /// Forms 0 to 6: moves, loads and stores.
    fn moving(&mut self, form: u64, operation: usize) -> Instr {
        let width = WIDTHS[operation % 2];
        match form {
            0 => Instr::Mov {
                width,
                dst: self.register(),
                src: self.operand(),
            },
            1 => Instr::MovStore {
                width,
                dst: self.address(),
                src: self.register(),
            },
            2 => Instr::MovStoreByte {
                dst: self.address(),
                src: self.register(),
            },
            3 => Instr::MovStoreWord {
                dst: self.address(),
                src: self.register(),
            },
            4 => Instr::MovImm {
                dst: self.register(),
                imm: self.random.dword(),
            },
            5 => Instr::MovExtended {
                extension: EXTENSIONS[operation / 2 % 2],
                from: NARROWS[operation % 2],
                dst: self.register(),
                src: self.operand(),
            },
            _ => Instr::Movsxd {
                dst: self.register(),
                src: self.operand(),
            },
        }
    }

    /// Forms 7 to 15: instructions that compute.
    fn computing(&mut self, form: u64, operation: usize) -> Instr {
        let width = WIDTHS[operation % 2];
        match form {
            7 => Instr::Alu {
                op: ALU_OPS[operation / 2 % 6],
                width,
                dst: self.register(),
                src: self.operand(),
            },
            8 => Instr::AluImm {
                op: ALU_OPS[operation / 2 % 6],
                width,
                dst: self.operand(),
                imm: self.random.dword(),
            },
            9 => Instr::Test {
                first: self.register(),
                second: self.register(),
            },
            10 => Instr::Unary {
                op: UnaryOp::Neg,
                dst: self.operand(),
            },
            11 => Instr::ShiftImm {
                op: SHIFT_OPS[operation / 2 % 3],
                width,
                dst: self.operand(),
                amount: self.random.below(0x100) as u8,
            },
            12 => Instr::ShiftCl {
                op: SHIFT_OPS[operation % 3],
                dst: self.register(),
            },
            13 => Instr::Imul {
                width,
                dst: self.register(),
                src: self.operand(),
            },
            14 => {
                let src = self.register();
                self.lead_division(src);
                Instr::Divide {
                    op: DIVIDE_OPS[operation % 2],
                    src,
                }
            }
            _ => Instr::Cdq,
        }
    }

    /// Forms 16 to 20: those that read a condition, jump, or do nothing.
    fn leading(&mut self, form: u64, operation: usize) -> Instr {
        match form {
            16 => Instr::Setcc {
                condition: CONDITIONS[operation % 10],
                dst: self.register(),
            },
            17 => Instr::Jcc {
                condition: CONDITIONS[operation % 10],
                distance: self.distance(),
            },
            18 => Instr::Jmp {
                distance: self.distance(),
            },
            19 => Instr::JmpTo {
                target: self.jump_operand(),
            },
            _ => Instr::Nop {
                size: NOP_SIZES[operation % 9],
            },
        }
    }
}
