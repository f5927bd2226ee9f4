//! Eight bundles of code looked at at once: which halfwords begin no instruction of 16 bits, which
//! begin an instruction that breaks no rule by itself, and which a load or a store.
//!
//! Vectors of bytes answer for 16 halfwords together. Each of the four nibbles of a halfword looks
//! up a table of sixteen bytes; a bit that all four entries have is a class that the halfword is in
//! (Langdale and Lemire, "Parsing Gigabytes of JSON per Second", 2019).
#![tactic(auto)]

mod lanes;
mod masks;
mod tables;

pub use masks::{BLOCK_BYTES, Masks, masks_of, single_masks_of, word_masks_of};
