//! The report on an image's findings, and the listing of an image.
//!
//! [`report_text`] writes a line for each finding, with the instruction that stands there.
//! [`listing_text`] writes each sandbox's fields, its gates, the names that it tells, and its code as
//! instructions, unit by unit, as the rules read it: a unit is a bundle of 16 bytes or, in code in
//! words, a word of 4. `specs/Report.antt` and `specs/Listing.antt` are these texts.
//! [`names_text`] writes the names alone.
//! [`state_text`] writes a sandbox's pc and registers. [`push_eight_digits`] writes a number as an
//! address is written in these texts.
#![tactic(auto)]

mod digits;
mod listing;
mod names;
mod report;
mod state;

pub use digits::push_eight_digits;
pub use listing::listing_text;
pub use names::names_text;
pub use report::report_text;
pub use state::state_text;
