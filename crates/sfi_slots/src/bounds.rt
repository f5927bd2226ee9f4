//! Where the code and data of a version lie, and that those of two lie apart.
ghost use Rattle.std.specs.Prelude.{◌≡◌, ◌↔◌, IsTrue};
ghost use Rattle.sfi_slots.specs.Slots.{bounds_of, LieApart};

use sfi_formats::Format;
use sfi_image::{Bounds, are_bounds_apart};

/// Where an accepted sandbox lies, as the checker told it (`SfiPart` of `sfi_c`):
/// `struct sfi_bounds` of include/sfi_slots.h, field for field.
#[repr(C)]
#[derive(Clone, Copy, PartialEq, Eq, Debug)]
pub struct SfiBounds {
    /// Its image's format: 1 for `SFI1`, 2 for `SFI2`, 3 for `SFIW` and 4 for `SFIS`.
    pub format: u32,
    /// The first address of the code region.
    pub code_base: u32,
    /// How many bytes the code region has.
    pub code_size: u32,
    /// The first address of the data region.
    pub data_base: u32,
    /// How many bytes the data region has.
    pub data_size: u32,
}

/// The same bounds as `sfi_image` has them.
fn bounds_of(bounds: &SfiBounds) -> Bounds
    ensures { result ≡ bounds_of bounds.now }
{
    Bounds {
        format: Format::numbered(bounds.format),
        code_base: bounds.code_base,
        code_size: bounds.code_size,
        data_base: bounds.data_base,
        data_size: bounds.data_size,
    }
}

/// Whether no region or guard zone of one has an address in common with one of the other, nor with
/// a zone at zero of the other: that is the addresses below its data size + 4096 and the last 4096,
/// if it is of the fourth format.
pub(crate) fn lie_apart(one: &SfiBounds, other: &SfiBounds) -> bool
    ensures { IsTrue result ↔ LieApart one.now other.now }
{
    are_bounds_apart(&bounds_of(one), &bounds_of(other))
}
