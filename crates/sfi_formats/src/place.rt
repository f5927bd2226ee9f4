//! Where the regions of a sandbox begin.
ghost use Rattle.std.specs.Prelude.{◌≡◌, ◌<◌};
ghost use Rattle.sfi_formats.specs.Places.{place_of, usual};
ghost use Rattle.sfi_formats.specs.Limits.{sandboxes_most};

use crate::format::Format;

// The first code base, and how far the code of one sandbox lies from that of the next. For Python,
// `tools/suygapid/elf/linking.py` has this number and the next, too (`CODE`, `DATA`).
const SANDBOX_STRIDE: u32 = 0x0100_0000;

// How far above its code the data of a sandbox lies. Where masks of data are single, the code lies
// so far above where it would else, and the data at a bit of its own.
const DATA_OFFSET: u32 = 0x0080_0000;

/// Where the two regions of a sandbox begin.
#[derive(Clone, Copy, Debug)]
pub struct Place {
    /// The first address of the code region.
    pub code_base: u32,
    /// The first address of the data region.
    pub data_base: u32,
}

impl Place {
    /// Where sandbox `number`, counted from 0, of an image of this format lies if nobody says another
    /// place.
    pub fn usual(format: Format, number: u32) -> Place
        requires few { number < sandboxes_most }
        ensures is { result ≡ usual format number }
    {
        let low = SANDBOX_STRIDE * (number + 1);
        if format.has_single_mask() {
            Place {
                code_base: low + DATA_OFFSET,
                data_base: 1 << (31 - number),
            }
        } else {
            Place {
                code_base: low,
                data_base: low + DATA_OFFSET,
            }
        }
    }
}

/// Where sandbox `number`, counted from 0, of an image of this format lies: at the place that is given
/// for it, or else at its usual place.
pub fn place_of(given: &[Place], format: Format, number: u32) -> Place
    requires few { number < sandboxes_most }
    ensures is { result ≡ place_of given.now format number }
{
    match given.get(number as usize) {
        Some(place) => *place,
        None => Place::usual(format, number),
    }
}
