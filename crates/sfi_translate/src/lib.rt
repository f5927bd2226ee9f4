//! The translation of an image: a text of lines that `include/sfi_native.h` gives a meaning in C, if the image is accepted.
//!
//! [`translation_text`] writes each sandbox's fields, gates and first data, and a line for each
//! instruction of its code. `specs/Translation.antt` is that text.
#![tactic(auto)]

mod entries;
mod fields;
mod lines;
mod translation;

pub use lines::FUNCTION_MOST;
pub use translation::{HEAD_BYTES, translation_text};
