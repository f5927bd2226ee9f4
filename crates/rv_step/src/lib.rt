//! One step of a RISC-V machine with RV32IMC.
//!
//! [`step`] is the manual's table: `specs/Step.antt` says what a step comes to, as a relation
//! between states, one equation an instruction. It knows nothing of bundles, masks or images.
#![tactic(auto)]

mod alu;
pub mod cpu;
mod execute;
pub mod fetch;
pub mod machine;
pub mod outcome;

pub use cpu::{Cpu, after_call};
pub use machine::{step, step_apart, step_decoded};
pub use outcome::{Cause, Outcome};
