//! A machine's memory: which byte stands at which address.
//!
//! Contracts see a [`Memory`] as one finite map from address to byte (`specs/Bytes.antt`), and say
//! of each call what it answers and what the whole map is afterwards. [`Segments`] keeps the map as
//! runs of bytes, and [`Pages`] as pages of 512 bytes,
//! each with a mark for each byte that is there.
#![tactic(auto)]

mod cells;
pub mod fault;
mod lookup;
pub mod memory;
mod page_table;
pub mod pages;
mod segment;
pub mod segments;

pub use fault::AddFault;
pub use memory::{Memory, Width};
pub use pages::Pages;
pub use segments::Segments;
