//! What the reserved registers hold.

ghost use Rattle.std.specs.Prelude.{◌≡◌, ◌+◌, ◌<◌, ◌≤◌, ◌^◌};
ghost use Rattle.sfi_formats.specs.declared.format.Format.{Format};
ghost use Rattle.sfi_image.specs.Spelling.{view};
ghost use Rattle.sfi_image.specs.Parts.{IsRightPart};
ghost use Rattle.sfi_image.specs.Parts.{reserved_of, data_mask_of};

use crate::part::SandboxPart;
use sfi_formats::Format;

/// The values of the four reserved registers while a sandbox runs. A mask keeps an address's offset
/// in a region, and a base sets the region's own bits (Wahbe and others, 1993).
#[derive(Clone, Copy)]
pub struct Reserved {
    /// x24: the first address of the code region.
    pub code_base: u32,
    /// x25: the code size less the size of a unit of code, a bundle or a word, so that a masked
    /// offset is that of a unit.
    pub code_mask: u32,
    /// x26: the first address of the data region. Where the format's masks of data are single, x26 holds
    /// it at first, and is a data register.
    pub data_base: u32,
    /// x27: the data size less 1. Where the format's masks of data are single, the data base and that.
    pub data_mask: u32,
}

/// What x27 holds: the mask of an address of data with this base and size.
pub fn data_mask_of(format: Format, base: u32, size: u32) -> u32
    requires some { 1 ≤ size }
    requires end { base + size < 2 ^ 32 }
    ensures { result ≡ data_mask_of format (record { base = base; size = size }) }
{
    if format.has_single_mask() {
        return base + size - 1;
    }
    size - 1
}

impl Reserved {
    /// The values for a sandbox of an image of this format.
    pub fn of_sandbox(format: Format, part: &SandboxPart<'_>) -> Self
        requires { IsRightPart (view format part.now) }
        ensures { result ≡ reserved_of (view format part.now) }
    {
        Reserved {
            code_base: part.code_base,
            code_mask: part.code.len() as u32 - format.unit(),
            data_base: part.data_base,
            data_mask: data_mask_of(format, part.data_base, part.data_size),
        }
    }
}
