//! Why nothing is built.
ghost use Rattle.std.specs.Prelude.{◌≡◌};
ghost use Rattle.sfi_build.specs.declared.fault.BuildFault.TheVariants.{Text, Rewrite, Link, Names};
ghost use Rattle.sfi_link.specs.declared.fault.LinkFault.TheVariants as linker;

use crate::table_fault::TableFault;
use sfi_link::LinkFault;
use sfi_rewrite::RewriteFault;
use sfi_text::TextFault;
use std::alloc::{AllocError, AllocFailed};
use thiserror::Error;

/// Why a text isn't built: the first of its reading, its rewriting, its linking and the making of
/// its tables of names that fails. Memory that is refused counts as a fault of the linking,
/// whichever of these it was in. The fault's text is the line that the program prints, where
/// memory was not refused.
#[derive(Clone, Copy, Debug, PartialEq, Eq, Error)]
pub enum BuildFault {
    /// The text is no source.
    #[error("{0}")]
    Text(TextFault),
    /// The source can't be rewritten.
    #[error("rewrite fault {} {}", .0.number(), .0)]
    Rewrite(RewriteFault),
    /// What is placed can't be linked.
    #[error("link fault {} {}", .0.number(), .0)]
    Link(LinkFault),
    /// A table of names can't be made.
    #[error("names fault {} {}", .0.number(), .0)]
    Names(TableFault),
}

impl From<TextFault> for BuildFault {
    ghost from_gives = { λ f e. e ≡ Text f };

    fn from(fault: TextFault) -> BuildFault {
        BuildFault::Text(fault)
    }
}

impl From<RewriteFault> for BuildFault {
    ghost from_gives = { λ f e. e ≡ Rewrite f };

    fn from(fault: RewriteFault) -> BuildFault {
        BuildFault::Rewrite(fault)
    }
}

impl From<LinkFault> for BuildFault {
    ghost from_gives = { λ f e. e ≡ Link f };

    fn from(fault: LinkFault) -> BuildFault {
        BuildFault::Link(fault)
    }
}

impl From<TableFault> for BuildFault {
    ghost from_gives = { λ f e. e ≡ Names f };

    fn from(fault: TableFault) -> BuildFault {
        BuildFault::Names(fault)
    }
}

impl From<AllocError> for BuildFault {
    ghost from_gives = { λ _ e. e ≡ Link linker.Memory };

    fn from(_e: AllocError) -> BuildFault {
        BuildFault::Link(LinkFault::Memory)
    }
}

impl<T: Drop> From<AllocFailed<T>> for BuildFault {
    ghost from_gives = { λ _ e. e ≡ Link linker.Memory };

    fn from(_e: AllocFailed<T>) -> BuildFault {
        BuildFault::Link(LinkFault::Memory)
    }
}
