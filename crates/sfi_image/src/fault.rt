//! Why bytes are no image.
ghost use Rattle.std.specs.Prelude.{◌≡◌};
ghost use Rattle.sfi_image.specs.declared.fault.ImageFault.TheVariants.{Layout, Memory};
ghost use Rattle.sfi_image.specs.Faults.{number_of};

use std::alloc::{AllocError, AllocFailed};
use std::fmt;
use thiserror::Error;

/// What is wrong with the bytes: the first test that fails, in the order of reading.
/// Its text is its bare name.
#[derive(Clone, Copy, Debug, PartialEq, Eq, Error)]
pub enum LayoutFault {
    /// The first four bytes are those of no format: not `SFI1`, `SFI2`, `SFIW` or `SFIS`.
    Magic,
    /// The number of sandboxes isn't from 1 to 16.
    Count,
    /// The bytes end before what is read next is whole.
    Short,
    /// The code size is no power of two from 256 to the format's largest, 65536, 1048576 or
    /// 16777216, or the code base no multiple of it.
    Code,
    /// The data size is no power of two from 256 to the format's largest, 1048576 or 1073741824, or
    /// the data base no multiple of it; or, where masks are single (SFIS), no single bit.
    Data,
    /// The 4096 addresses below the data, or those above it, reach past the first or last address;
    /// or, where masks are single (SFIS), the sandbox's own zone at zero reaches its code or data.
    GuardRoom,
    /// The start is no bundle start of the code region.
    Start,
    /// There are more than 64 gates, or one is no bundle start of the code region, isn't above the
    /// gate before it, or names a service above `SERVICE_MOST` of `sfi_formats`.
    Gates,
    /// There are more first data bytes than the data region holds.
    Init,
    /// Two of the spans so far have an address in common: a code region, or a data region with its
    /// guard zones; or, where masks are single (SFIS), one has an address in another sandbox's zone
    /// at zero.
    Overlap,
    /// A byte follows the last sandbox.
    Trailing,
}

impl fmt::Display for LayoutFault {
    fn fmt<W: fmt::Write>(&self, f: &mut fmt::Formatter<W>) -> fmt::Result {
        fmt::Debug::fmt(self, f)
    }
}

impl LayoutFault {
    /// The number by which a refusal is known, from 1 to 11.
    pub fn number(self) -> u32
        ensures { result ≡ number_of self }
    {
        match self {
            LayoutFault::Magic => 1,
            LayoutFault::Count => 2,
            LayoutFault::Short => 3,
            LayoutFault::Code => 4,
            LayoutFault::Data => 5,
            LayoutFault::GuardRoom => 6,
            LayoutFault::Start => 7,
            LayoutFault::Gates => 8,
            LayoutFault::Init => 9,
            LayoutFault::Overlap => 10,
            LayoutFault::Trailing => 11,
        }
    }
}

/// Why no image was read.
#[derive(Debug, Drop, Error)]
pub enum ImageFault {
    /// The bytes are no image. Its text is the line that the program prints.
    #[error("layout fault {} {}", .0.number(), .0)]
    Layout(LayoutFault),
    /// Memory ran out; nothing is known of the bytes.
    #[error("out of memory")]
    Memory,
}

impl From<LayoutFault> for ImageFault {
    ghost from_gives = { λ k e. e ≡ Layout k };

    fn from(fault: LayoutFault) -> ImageFault {
        ImageFault::Layout(fault)
    }
}

impl From<AllocError> for ImageFault {
    ghost from_gives = { λ _ e. e ≡ Memory };

    fn from(_e: AllocError) -> ImageFault {
        ImageFault::Memory
    }
}

impl<T: Drop> From<AllocFailed<T>> for ImageFault {
    ghost from_gives = { λ _ e. e ≡ Memory };

    fn from(_e: AllocFailed<T>) -> ImageFault {
        ImageFault::Memory
    }
}
