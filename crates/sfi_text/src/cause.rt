//! Why a text means nothing.
ghost use Rattle.std.specs.Prelude.{◌≡◌};
ghost use Rattle.sfi_text.specs.declared.cause.TextCause.TheVariants as cause;
ghost use Rattle.sfi_text.specs.Tokens.{cause_number};

use std::alloc::{AllocError, AllocFailed};
use std::error::Error;
use std::fmt;

/// Why a text means nothing. Its text is its bare name.
#[derive(Clone, Copy, Debug, PartialEq, Eq)]
pub enum TextCause {
    /// No token can be formed, or a statement begins with a name that is no keyword.
    Word,
    /// Something else stands in a register's place.
    Register,
    /// Something else stands in a number's place, or a number that is out of its range.
    Number,
    /// A token is missing, another stands after the expected ones, or one isn't the expected name
    /// or mark.
    Operands,
    /// A label or a gate has the name already.
    LabelTwice,
    /// The statement may not stand there.
    Directive,
    /// Something is longer or more than is allowed.
    Limit,
    /// Memory was refused.
    Memory,
}

impl TextCause {
    /// 1 for `Word`, and so on in order to 8 for `Memory`.
    pub fn number(self) -> u32
        ensures { result ≡ cause_number self }
    {
        match self {
            TextCause::Word => 1,
            TextCause::Register => 2,
            TextCause::Number => 3,
            TextCause::Operands => 4,
            TextCause::LabelTwice => 5,
            TextCause::Directive => 6,
            TextCause::Limit => 7,
            TextCause::Memory => 8,
        }
    }
}

impl fmt::Display for TextCause {
    fn fmt<W: fmt::Write>(&self, f: &mut fmt::Formatter<W>) -> fmt::Result {
        fmt::Debug::fmt(self, f)
    }
}

impl Error for TextCause {}

impl From<AllocError> for TextCause {
    ghost from_gives = { λ _ e. e ≡ cause.Memory };

    fn from(_e: AllocError) -> TextCause {
        TextCause::Memory
    }
}

impl<T: Drop> From<AllocFailed<T>> for TextCause {
    ghost from_gives = { λ _ e. e ≡ cause.Memory };

    fn from(_e: AllocFailed<T>) -> TextCause {
        TextCause::Memory
    }
}
