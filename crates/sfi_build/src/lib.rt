//! From a text to an image.
//!
//! [`build`] reads a text, places its instructions in bundles or in words and links them;
//! [`build_at`] does the same at places that the caller gives. Where the text lists names, by
//! `.export` or `.import`, the first data bytes of its sandboxes end in tables of names.
//! [`names_at`] answers the addresses of the text's gates and labels in that image.
#![tactic(auto)]

mod address;
mod builder;
mod fault;
mod table_fault;
mod tables;

pub use builder::{build, build_at, names_at};
pub use fault::BuildFault;
pub use sfi_formats::Place;
pub use sfi_link::{NameAddress, NameKind};
pub use table_fault::TableFault;
