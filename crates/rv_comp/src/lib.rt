//! The 16-bit forms of RV32IMC, and the instruction at the front of a list of bytes.
//!
//! A form is a row of the table of RISC-V Unprivileged ISA, chapter '"C" Extension for Compressed
//! Instructions' (RV32C without floating point), which is `specs/Table.antt`. A row decodes at
//! every point that it doesn't forbid, as its expansion: also with rd = x0, a shift by 0 or an
//! immediate of 0, which the manual reserves or calls hints. [`read_front`] reads both lengths.
#![tactic(auto)]

mod bits;
mod decode;
mod encode;
mod expanded;
mod first;
mod form;
mod front;
mod write;

pub use decode::decode16;
pub use decode::outline::outline16;
pub use encode::encode16;
pub use first::form_of;
pub use form::Form16;
pub use front::{Front, read_front};
pub use write::{write_short, write_wide};
