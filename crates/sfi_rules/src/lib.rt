//! The rules of sandboxed code, as definitions: what breaks each, and what an image's findings are.
//!
//! Code is read in bundles, aligned blocks of 16 bytes (Yee and others, 2009, "Native Client"). An
//! access and an indirect jump stand after a masked pair in the same bundle (Wahbe and others,
//! 1993, "Efficient Software-Based Fault Isolation"). In the second format an access on the stack
//! pointer x2 needs no pair; instead a write to x2 is of such a pair, or has one directly after it,
//! which puts x2 back into the data.
//!
//! In the third format code is in words of four bytes, and some registers are typed. There are no
//! pairs that must not be entered in the middle: each word's start is a place where a run may be
//! entered. The data registers x2, x3, x4 and x29 lie in the data region or near it, x31 is an
//! offset in it, and x30 is a word's start; each rule looks at an instruction and at the next two
//! at most (`specs/words`). The fourth format is the third with masks of one step: x26 and x31 are
//! data registers, too, and no register holds an offset. No code here scans, and nothing here knows
//! the machine.
#![tactic(auto)]

mod finding;
mod owed;
mod rule;

pub use finding::Finding;
pub use owed::Owed;
pub use rule::Rule;
pub use sfi_image::BundlePlace;
