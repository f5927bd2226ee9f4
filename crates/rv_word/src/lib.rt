//! The 32-bit instructions of RISC-V's RV32IM and the words that spell them, by the RISC-V
//! Unprivileged ISA, chapters "RV32I Base Integer Instruction Set", "'M' Extension for Integer
//! Multiplication and Division" and "RV32/64G Instruction Set Listings".
//!
//! [`decode32`] reads a word, [`encode32`] writes one, and both are exact: a word decodes to the
//! instruction that it spells, and to `None` exactly where it spells none. The spelling itself is
//! `specs/Spelling.antt`.
#![tactic(auto)]

mod access;
mod bits;
mod computing;
mod decode;
mod encode;
mod format;
mod funct;
mod immediate;
pub mod instr;
pub mod length;
mod opcode;
pub mod outline;
pub mod reg;
mod word_fields;

pub use access::{Access, access32};
pub use computing::computes32;
pub use decode::decode32;
pub use encode::{encode32, op_word};
pub use instr::{Cond, ImmOp, Instr, LoadKind, RegOp, StoreWidth};
pub use length::{Length, size_of_first};
pub use outline::{Outline, outline_of, outline32};
pub use reg::Reg;
