//! The checker for C, and for what calls as C does: a static library,
//! which `include/sfi.h` declares.
//!
//! A call keeps nothing. Whatever the bytes are, it returns, and reads nothing but them. The
//! contracts hold for a caller that passes what the header asks for: nothing checks it. In C a
//! slice is two arguments, a pointer and the number of elements. The structs here, and the numbers
//! that calls return, are those of the header, where a change has to follow.
#![tactic(auto)]

mod apart;
mod checking;
mod feeding;
mod finding;
mod looking;
mod moving;
mod numbers;
mod part;
mod stream;
mod version;

pub use apart::sfi_c_apart;
pub use checking::{sfi_c_check, sfi_c_findings};
pub use feeding::{sfi_c_begin, sfi_c_end, sfi_c_feed, sfi_c_refused};
pub use looking::{Lookup, sfi_c_gate, sfi_c_gates, sfi_c_part};
pub use moving::{MoveAnswer, sfi_c_move};
pub use part::{SfiGate, SfiPart};
pub use sfi_check::{SfiFinding, SfiVerdict, Status};
pub use stream::SfiStream;
pub use version::{VERSION_NUMBER, sfi_c_version};
