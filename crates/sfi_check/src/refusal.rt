//! Why an image is refused.
ghost use Rattle.std.specs.Prelude.{◌≡◌};

use sfi_image::{ImageFault, LayoutFault};
use sfi_scan::Finding;
use thiserror::Error;

/// Why the bytes are not accepted.
#[derive(Debug, Drop, Error)]
pub enum Refusal {
    /// The bytes are no image. This goes before findings.
    /// Its text is the line that the program prints.
    #[error("layout fault {} {}", .0.number(), .0)]
    Layout(LayoutFault),
    /// All broken rules, by sandbox and then by address. There is at least one.
    #[error("broken rules")]
    Findings(Vec<Finding>),
    /// Memory ran out.
    #[error("out of memory")]
    Memory,
}

impl From<ImageFault> for Refusal {
    ghost use Rattle.sfi_check.specs.OneVerdict.{refusal_of};

    ghost from_gives = { λ fault refusal. refusal ≡ refusal_of fault };

    fn from(fault: ImageFault) -> Refusal {
        match fault {
            ImageFault::Layout(fault) => Refusal::Layout(fault),
            ImageFault::Memory => Refusal::Memory,
        }
    }
}
