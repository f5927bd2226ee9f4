//! Where sandboxes lie: an accepted one is accepted at each other right place, and the sandboxes of
//! two accepted images that lie apart are right, safe and typed as those of one. [`move_sandbox`]
//! writes an image's sandbox for another place: other bases of its code and its data region.
//!
//! Position is the only thing that changes: no byte of the code does, and of the first data only the
//! addresses in their table of names. So a moved sandbox is as safe as it was; it computes the same
//! only if its code takes its own addresses from the registers that hold its bases.
#![tactic(auto)]

mod addresses;
mod moving;
mod names;
mod numbers;

pub use moving::{MoveFault, move_sandbox};
