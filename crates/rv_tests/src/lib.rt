//! Tests of the crates `rv_` and of `sfi_text`. What they expect comes from outside: from the
//! RISC-V manual, an assembler or the documents, never from what the program printed.
#![tactic(auto)]

#[cfg(test)]
mod tests;
