//! Why a source isn't rewritten.
ghost use Rattle.std.specs.Prelude.{◌≡◌};
ghost use Rattle.sfi_rewrite.specs.declared.fault.RewriteFault.TheVariants.{Memory};
ghost use Rattle.sfi_rewrite.specs.Rewriting.{number_of};

use std::alloc::{AllocError, AllocFailed};
use thiserror::Error;

/// Why a source isn't rewritten: the first instruction in the order of the text that has a fault,
/// with the first of its faults by their numbers in the order 1, 2, 5, 6, 3.
#[derive(Clone, Copy, Debug, PartialEq, Eq, Error)]
pub enum RewriteFault {
    /// An operand of the instruction on the line, counted from 1, is x24, x25, x26, x27 or
    /// x31, or in code in words x29 or x30.
    #[error("ReservedRegister line {line}")]
    ReservedRegister { line: u32 },
    /// The instruction on the line, counted from 1, is an ecall: only a gate's stub has one.
    #[error("Ecall line {line}")]
    Ecall { line: u32 },
    /// The code of the sandbox, counted from 0, takes more bytes than a code region of its
    /// format may have, its gates' stubs not counted.
    #[error("TooLarge sandbox {sandbox}")]
    TooLarge { sandbox: u32 },
    /// The instruction on the line, counted from 1, writes the stack pointer, which is to be put
    /// back after it: it is a jal or jalr, or a load on another register. Only a format with a
    /// stack pointer has this fault.
    #[error("StackWrite line {line}")]
    StackWrite { line: u32 },
    /// The instruction on the line, counted from 1, is a jump that code in words can't have: a jal or
    /// jalr that writes a data register, or a jalr with an offset.
    #[error("Jump line {line}")]
    Jump { line: u32 },
    /// Memory ran out; nothing is known of the source.
    #[error("Memory")]
    Memory,
}

impl RewriteFault {
    /// The number that the program prints with the fault, from 1 to 6: docs/SOURCE.md lists them,
    /// and `number_of` of specs/Rewriting has the same.
    pub fn number(self) -> u32
        ensures { result ≡ number_of self }
    {
        match self {
            RewriteFault::ReservedRegister { .. } => 1,
            RewriteFault::Ecall { .. } => 2,
            RewriteFault::TooLarge { .. } => 3,
            RewriteFault::Memory => 4,
            RewriteFault::StackWrite { .. } => 5,
            RewriteFault::Jump { .. } => 6,
        }
    }
}

impl From<AllocError> for RewriteFault {
    ghost from_gives = { λ _ e. e ≡ Memory };

    fn from(_e: AllocError) -> RewriteFault {
        RewriteFault::Memory
    }
}

impl<T: Drop> From<AllocFailed<T>> for RewriteFault {
    ghost from_gives = { λ _ e. e ≡ Memory };

    fn from(_e: AllocFailed<T>) -> RewriteFault {
        RewriteFault::Memory
    }
}
