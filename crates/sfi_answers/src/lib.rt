//! The answers of the commands that run no sandbox, `check`, `build`, `map`, `dis`, `convert`, `move`,
//! `translate` and `native`: what each prints on the bytes or the text that it gets, and the status
//! with which the program ends.
//!
//! `specs/Answers`, `specs/Building` and `specs/Moving` say what each command answers. A verdict is
//! the line of `check` on an image, `accepted ..` or `refused ..`. [`Stop`] is why there is none:
//! then one line names the fault, by [`stop_answer`].
#![tactic(auto)]

mod building;
mod checking;
mod compiling;
mod converting;
mod fault;
mod fault_lines;
mod image;
mod listing;
mod mapping;
mod moving;
mod own_bytes;
mod pieces;
mod raw;
mod translating;
mod verdict;
mod whole_program;

pub use building::build_answer;
pub use checking::{check_answer, check_or_fault_answer, refusal_answer};
pub use compiling::native_answer;
pub use converting::conversion_answer;
pub use fault::{InputFault, Stop, TOO_LARGE_LINE, stop_answer};
pub use image::image_answer;
pub use listing::listing_answer;
pub use mapping::map_answer;
pub use moving::move_answer;
pub use raw::raw_answer;
pub use translating::translation_answer;
pub use verdict::Answer;
