//! Why no bytes were added.
ghost use Rattle.std.specs.Prelude.{◌≡◌};
ghost use Rattle.rv_mem.specs.Faults.{number_of};

use thiserror::Error;

/// Why no bytes were added to a memory: the first of these that applies.
#[derive(Clone, Copy, Debug, PartialEq, Eq, Error)]
pub enum AddFault {
    /// One of the addresses is there already.
    #[error("Overlap")]
    Overlap,
    /// The addresses would reach past the last one.
    #[error("End")]
    End,
    /// The machine that runs this program has no room for them.
    #[error("Memory")]
    Memory,
}

impl AddFault {
    /// The fault's number, 1 to 3, for a caller that prints it or hands it on; no program, header or
    /// document here has it. `number_of` of specs/Faults says the same.
    pub fn number(self) -> u32
        ensures { result ≡ number_of self }
    {
        match self {
            AddFault::Overlap => 1,
            AddFault::End => 2,
            AddFault::Memory => 3,
        }
    }
}
