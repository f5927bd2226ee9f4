//! Why a sandbox has no table of names.
ghost use Rattle.std.specs.Prelude.{◌≡◌};
ghost use Rattle.sfi_build.specs.Tables.{number_of};

use thiserror::Error;

/// Why a sandbox has no table of names: the first name listed that has no address, of the exports and
/// then of the imports, or else want of room.
#[derive(Clone, Copy, Debug, PartialEq, Eq, Error)]
pub enum TableFault {
    /// What the line, counted from 1, lists is no label and no gate of its sandbox.
    #[error("Unknown line {line}")]
    Unknown { line: u32 },
    /// The data of the sandbox, counted from 0, have no room for the table after its first data bytes.
    #[error("NoRoom sandbox {sandbox}")]
    NoRoom { sandbox: u32 },
}

impl TableFault {
    /// The number that the program prints with the fault, 1 or 2: docs/SOURCE.md lists them, and
    /// `number_of` of specs/Tables has the same.
    pub fn number(self) -> u32
        ensures { result ≡ number_of self }
    {
        match self {
            TableFault::Unknown { .. } => 1,
            TableFault::NoRoom { .. } => 2,
        }
    }
}
