//! From what is placed to an image.
//!
//! [`link`] gives names their addresses and gates their stubs, and fills the rest of each code
//! region with c.ebreaks; [`link_at`] does the same at places that the caller gives, and [`codes_at`]
//! and [`image_of`] in two steps, for a caller that knows the first data bytes only after the first.
//! The image has a right layout and breaks no rule, so the checker accepts it: this is proved of the
//! bytes, and no scan is run. [`names_of`] answers the addresses of a source's gates and labels.
//!
//! A name is given by its number among the names of its sandbox, counted from 0. `Place` is where a
//! sandbox lies; a place in the code is a number of bytes from the end of the gates' stubs.
#![tactic(auto)]

mod address;
mod bases;
mod code;
mod code_region;
mod fault;
mod linker;
mod names;
mod right_places;
mod stub;

pub use address::address_at;
pub use bases::{Bases, bases_of};
pub use fault::LinkFault;
pub use linker::{codes_at, image_of, link, link_at};
pub use names::{NameAddress, NameKind, names_of};
pub use sfi_formats::Place;
