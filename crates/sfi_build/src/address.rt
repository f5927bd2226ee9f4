//! The addresses for which names stand.
ghost use Rattle.std.specs.Prelude.{◌≡◌, ◌≤◌, ℕ, List, length, slice_get};
ghost use Rattle.sfi_formats.specs.Limits.{sandboxes_most};
ghost use Rattle.sfi_link.specs.Linked.{IsLinkedImage};
ghost use Rattle.sfi_build.specs.Tables.{address_in};

use sfi_formats::Place;
use sfi_link::{address_at, bases_of};
use sfi_rewrite::Placed;

/// The address of name number `name` of sandbox number `sandbox`, both counted from 0, in the image
/// of what is placed at these places; `None` where there is no such name or it names nothing.
pub(crate) fn placed_address(
    placed: &Placed,
    places: &[Place],
    sandbox: u32,
    name: usize,
) -> Option<u32>
    requires few { length placed.now ≤ sandboxes_most }
    requires linked { (bytes : List ℕ) × IsLinkedImage places.now placed.now bytes }
    ensures { result ≡ address_in places.now sandbox (slice_get placed.now sandbox) name }
{
    let part = placed.parts().get(sandbox as usize)?;
    let bases = bases_of(places, sandbox, part);
    address_at(bases, part.names(), name)
}
