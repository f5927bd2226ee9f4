//! The masked pairs, the two instructions that put a register into the data or the code region
//! (Wahbe, Lucco, Anderson and Graham, "Efficient Software-Based Fault Isolation", 1993), the bytes
//! of a gate's stub, and tests of registers: which are reserved, data registers of code in words, or
//! withheld from a source of code in bundles; and of accesses that may follow a step of a data register.
//!
//! The definitions in `specs/`, of registers those of `sfi_formats`, decide; the stub's bytes are
//! proved to agree (`stub_agrees` of proofs/Facts).
#![tactic(auto)]

mod pairs;
mod registers;
mod stub;
mod uses;

pub use pairs::{code_pair, data_pair};
pub use registers::{
    is_data_register, is_data_register_in, is_reserved, is_reserved_in, is_withheld,
};
pub use stub::STUB;
pub use uses::is_use;
