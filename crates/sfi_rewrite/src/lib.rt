//! From a source to what is placed: each instruction becomes its expansion, and each expansion
//! stands at the first place in which it may.
//!
//! A load, a store and an indirect jump stand after the masked pair that keeps their address in the
//! sandbox (Wahbe and others, 1993, "Efficient Software-Based Fault Isolation"). In bundles no
//! expansion crosses the end of one, labels are bundle starts, and a call ends its bundle, so that
//! its return address is one too (Yee and others, 2009, "Native Client"). In words labels are words'
//! starts. Names stay names: [`Placed`] has no address yet.
//!
//! An item is an instruction of the source, and its expansion is what the code has in its place: a
//! list of slots, each an instruction or a 16-bit form, whose address is still open where it is
//! that of a name. A place in the code is a number of bytes from the end of the gates' stubs.
#![tactic(auto)]

mod bundle;
mod expansion;
mod fault;
mod filling;
mod item;
mod laid_items;
mod names;
mod parts;
mod place;
mod placed;
mod slot;
mod words;

pub use bundle::Bundle;
pub use fault::RewriteFault;
pub use parts::rewrite;
pub use placed::{Placed, PlacedName, PlacedPart};
pub use sfi_formats::Format;
pub use sfi_source::{Source, SourceGate};
pub use slot::BundleSlot;
