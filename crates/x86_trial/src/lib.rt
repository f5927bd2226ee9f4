//! Random cases, by which `fuzz/processor.c` tries the definitions of `x86_instr` and `x86_step` on the
//! machine's own processor: a static library with one call.
//!
//! A case is an instruction, the state before it, and the state after it by [`x86_step::execute`]. Its
//! seed makes the same case each time.
#![tactic(auto)]

mod case;
mod draft;
mod instrs;
mod random;

pub use case::{X86TrialCase, x86_trial_case};
