//! One step of a processor of x86-64, at the instructions of `x86_instr` and no others.
//!
//! `specs/Step.antt` says what each instruction does, a line a form, by Intel's manual. [`execute`]
//! computes it, so that tests can run it beside a processor.
#![tactic(auto)]

mod alu;
mod divide;
mod execution;
pub mod machine;
mod operand;
mod region;
mod shift;

pub use execution::execute;
pub use machine::{Core, Flags, Region, Stop};
