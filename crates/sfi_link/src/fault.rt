//! Why nothing is linked.
ghost use Rattle.std.specs.Prelude.{◌≡◌};
ghost use Rattle.sfi_link.specs.declared.fault.LinkFault.TheVariants.{Memory};
ghost use Rattle.sfi_link.specs.Faults.{number_of};

use std::alloc::{AllocError, AllocFailed};
use thiserror::Error;

/// Why what is placed can't be linked. Too many sandboxes go first, then a place without a sandbox;
/// then the first sandbox that has a fault counts, with TooLarge before its place, and its place
/// before the faults of its instructions, of which the first counts.
#[derive(Clone, Copy, Debug, PartialEq, Eq, Error)]
pub enum LinkFault {
    /// The instruction on the line, counted from 1, jumps to a name that is neither a label of the
    /// code nor a gate of its sandbox, or takes the address of a name that is none of it.
    #[error("UnknownName line {line}")]
    UnknownName { line: u32 },
    /// The jump or branch on the line, counted from 1, doesn't reach its target: a branch reaches
    /// from 4096 bytes below it to 4094 above, a jal from 1048576 below to 1048574 above.
    #[error("BranchReach line {line}")]
    BranchReach { line: u32 },
    /// The code of the sandbox, counted from 0, has no room in a code region of its format with its
    /// gates' stubs and one c.ebreak.
    #[error("TooLarge sandbox {sandbox}")]
    TooLarge { sandbox: u32 },
    /// There are more sandboxes than an image may have.
    #[error("TooManySandboxes")]
    TooManySandboxes,
    /// Memory ran out; nothing is known of what is placed.
    #[error("Memory")]
    Memory,
    /// The sandbox, counted from 0, can't lie at its place: a base is no multiple of its region's
    /// size, the guard zones have no room, or its regions or guard zones overlap each other or
    /// those of a sandbox before it. Where masks of data are single, also if the data base isn't a
    /// single bit, or if a region or guard zone of one of these sandboxes overlaps the zone at zero
    /// of one: the first and last addresses, which its accesses may reach and where they have to
    /// trap. Or more places are given than there are sandboxes, and this place is the first without
    /// one.
    #[error("Place sandbox {sandbox}")]
    Place { sandbox: u32 },
}

impl LinkFault {
    /// The number that the program prints with the fault, from 1 to 6: docs/SOURCE.md lists them,
    /// and `number_of` of specs/Faults has the same.
    pub fn number(self) -> u32
        ensures { result ≡ number_of self }
    {
        match self {
            LinkFault::UnknownName { .. } => 1,
            LinkFault::BranchReach { .. } => 2,
            LinkFault::TooLarge { .. } => 3,
            LinkFault::TooManySandboxes => 4,
            LinkFault::Memory => 5,
            LinkFault::Place { .. } => 6,
        }
    }
}

impl From<AllocError> for LinkFault {
    ghost from_gives = { λ _ e. e ≡ Memory };

    fn from(_e: AllocError) -> LinkFault {
        LinkFault::Memory
    }
}

impl<T: Drop> From<AllocFailed<T>> for LinkFault {
    ghost from_gives = { λ _ e. e ≡ Memory };

    fn from(_e: AllocFailed<T>) -> LinkFault {
        LinkFault::Memory
    }
}
