//! The instructions of x86-64 that a generator of native code writes, and no others, and the bytes
//! that spell them, by Intel 64 and IA-32 Architectures Software Developer's Manual, volume 2,
//! "Instruction Format" and "Instruction Set Reference".
//!
//! [`encode`] writes an instruction's spelling, `specs/Spelling.antt`, a line a form. A decoder is
//! given as a definition, `specs/Decoding.antt`: what is written decodes to itself, whatever
//! follows it.
#![tactic(auto)]

mod encoding;
mod fields;
mod format;
pub mod instr;
mod nop;
pub mod operand;

pub use encoding::encode;
pub use instr::{
    AluOp, Condition, DivideOp, Extension, Instr, Narrow, NopSize, ShiftOp, UnaryOp, Width,
};
pub use operand::{Address, Operand, Register, Scale};
