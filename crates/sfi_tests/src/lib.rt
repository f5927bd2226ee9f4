//! Tests of the crates `sfi_`: rows of commands with their input and what they must print, and calls
//! of the libraries. What they expect comes from the documents or from other tools, never from what
//! the program printed.
#![tactic(auto)]

#[cfg(test)]
mod tests;
