//! The commands of the program `sfi` for C, and for what calls as C does: a static library, which
//! `include/sfi_tool.h` declares.
//!
//! A call keeps nothing, and gives back all memory that it took. The contracts hold for a caller
//! that passes what the header asks for: nothing checks it.
#![tactic(auto)]

mod answering;
mod output;
mod words;

pub use answering::sfi_tool_answer;
