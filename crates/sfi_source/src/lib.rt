//! Sources as values: what a text of the assembler means, before it is placed.
//!
//! A [`Source`] is a list of sandboxes, each with its gates, names, instructions and data. Its type
//! keeps that they fit each other (`specs/Source.antt`); [`Names`] are the texts of a sandbox's
//! labels and gates with what they name. The assembler makes sources, the rewriter and the linker
//! read them.
#![tactic(auto)]

mod item;
mod names;
mod source;

pub use item::{Body, Item, Named, SourceGate};
pub use names::Names;
pub use sfi_formats::Format;
pub use source::{Source, SourcePart};
