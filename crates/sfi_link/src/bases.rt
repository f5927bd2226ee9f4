//! Where the regions of a sandbox lie.
ghost use Rattle.std.specs.Prelude.{◌≡◌, ◌<◌, ◌^◌};
ghost use Rattle.sfi_rewrite.specs.Placed.{IsPlacedPart};
ghost use Rattle.sfi_link.specs.Code.{bases_of};
ghost use Rattle.sfi_formats.specs.Limits.{sandboxes_most};

use sfi_formats::{BUNDLE_SIZE, Place, place_of};
use sfi_rewrite::PlacedPart;

/// Where the regions of a sandbox begin.
#[derive(Clone, Copy)]
pub struct Bases {
    /// The first address of the code, at which the gates' stubs lie.
    pub code: u32,
    /// The first address after the stubs, at which the sandbox starts.
    pub start: u32,
    /// The first address of the data.
    pub data: u32,
    /// Whether the sandbox can be moved: then what its code makes of a name is an offset, to which
    /// it adds the base that a register holds.
    pub movable: bool,
}

/// Where the regions of sandbox `number`, counted from 0, begin. `given` has the places of the
/// first sandboxes; one without a place there lies at its usual one.
pub fn bases_of(given: &[Place], number: u32, part: &PlacedPart) -> Bases
    requires few { number < sandboxes_most }
    requires right { IsPlacedPart part.now }
    requires fits { (bases_of given.now number part.now).start < 2 ^ 32 }
    ensures is { result ≡ bases_of given.now number part.now }
{
    let place = place_of(given, part.format(), number);
    Bases {
        code: place.code_base,
        // Each gate's stub has 16 bytes, as many as a bundle.
        start: place.code_base + BUNDLE_SIZE * part.gates().len() as u32,
        data: place.data_base,
        movable: part.is_movable(),
    }
}
