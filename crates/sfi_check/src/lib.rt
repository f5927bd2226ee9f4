//! The checker: the verdict on the bytes of an image.
//!
//! It reads the image's bytes alone, and trusts nothing that made them: [`check`] a list of all of
//! them, and [`check_stream`] a source piece by piece, without taking memory. Where it accepts
//! them, every run of each sandbox is safe, from every bundle start or, where code is in words, from
//! every word, with x24 to x27 set and the typed registers of the format, as the stack pointer of the
//! second, holding what their types say; whatever the other registers and the data hold, and however
//! the turns of its neighbours and its host's replies fall between its steps: `specs/Runs.antt`
//! of `sfi_safe_runs` says what may happen, and `specs/Safety.antt` what is safe.
#![tactic(auto)]

mod accepted;
mod conversion;
mod feed;
mod for_c;
mod piece;
mod refusal;
mod sink;
mod stream;
mod stream_answer;
mod tally;
mod verdict;

pub use accepted::Accepted;
pub use conversion::{ConvertFault, convert};
pub use feed::Feed;
pub use for_c::{SfiFinding, SfiVerdict, Status};
pub use refusal::Refusal;
pub use sfi_scan::FindingSink;
pub use stream::{check_stream, check_stream_into};
pub use stream_answer::StreamAnswer;
pub use tally::Tally;
pub use verdict::{accept, check, check_into, judge};
