//! The assembler's text, of sources and of single instructions.
//!
//! [`parse_text`] reads a text to its sandboxes, with what their tables of names are to have, and
//! [`parse_source`] to the sandboxes alone: what it means, line by line, is `specs/Texts.antt`, over
//! the table of statements in `specs/Keywords.antt`.
//!
//! [`parse_instr`] reads the text of one instruction, [`print_instr`] and [`push_instr`] write it;
//! a printed instruction that a word spells reads back as itself. What a text means, and what is
//! printed, is `specs/Statement.antt`, over the tokens of `specs/Tokens.antt` and the mnemonics
//! ([`op_name`] and its like) and operands of `specs/Operands.antt`.
#![tactic(auto)]

mod cause;
mod constant;
mod data;
mod draft;
mod fault;
mod form;
mod from_operands;
mod keyword;
mod lexer;
mod line;
mod mnemonic;
mod number;
mod operands;
mod parse;
mod print;
mod progress;
mod read;
mod register;
mod source_text;
mod statement;
mod text;

pub use cause::TextCause;
pub use fault::TextFault;
pub use mnemonic::{branch_name, immediate_name, load_name, op_name, store_name};
pub use parse::parse_instr;
pub use print::{print_instr, push_instr};
pub use sfi_formats::Format;
pub use sfi_source::{Body, Item, Named, Names, Source, SourceGate, SourcePart};
pub use source_text::{Listed, SharedNames, SourceText};
pub use text::{parse_source, parse_text};
