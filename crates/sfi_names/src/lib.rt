//! The table of names at the end of a sandbox's first data bytes: functions that a host may call and
//! objects that it may use, and the gates that the code calls, each with its address.
//!
//! An image's format and its verdict know nothing of a table: it is a claim of the image's author. A
//! host finds a function by it, and enters the address only if it may be entered. No reader here
//! takes memory.
#![tactic(auto)]

mod entry;
mod fault;
mod footer;
mod image;
mod names;
mod room;

pub use entry::{NameEntry, first_name_entry};
pub use fault::NamesFault;
pub use image::{Kind, Missing, address_in, entry_in, names_in};
pub use names::Names;
pub use room::room_at_end;
