//! Why a text is no source.
ghost use Rattle.std.specs.Prelude.{◌≡◌};
ghost use Rattle.sfi_text.specs.Tokens.{memory};

use crate::cause::TextCause;
use std::alloc::{AllocError, AllocFailed};
use thiserror::Error;

/// The first line of a text that is faulty, and why. Its text is the line that the program prints,
/// where memory was not refused.
#[derive(Clone, Copy, Debug, PartialEq, Eq, Error)]
#[error("source fault {} {cause} line {line}", .cause.number())]
pub struct TextFault {
    /// From 1; 0 where memory was refused.
    pub line: u32,
    pub cause: TextCause,
}

impl From<AllocError> for TextFault {
    ghost from_gives = { λ _ f. f ≡ memory };

    fn from(_e: AllocError) -> TextFault {
        TextFault {
            line: 0,
            cause: TextCause::Memory,
        }
    }
}

impl<T: Drop> From<AllocFailed<T>> for TextFault {
    ghost from_gives = { λ _ f. f ≡ memory };

    fn from(_e: AllocFailed<T>) -> TextFault {
        TextFault {
            line: 0,
            cause: TextCause::Memory,
        }
    }
}
