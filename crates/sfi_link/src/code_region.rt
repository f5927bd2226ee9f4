//! The code region of a sandbox: its gates' stubs, its code, and c.ebreaks up to its end.
ghost use Rattle.std.specs.Prelude.{◌≡◌, ◌++◌, ◌<◌, ◌≤◌, ℕ, IfSome, IfNone, OnOk};
ghost use Rattle.std.specs.List.{All, AllPairs, repeat};
ghost use Rattle.sfi_formats.specs.declared.format.Format.TheVariants.{Sfi2};
ghost use Rattle.sfi_formats.specs.Formats.{built_code_most};
ghost use Rattle.sfi_rewrite.specs.Expansion.{size_of, slots_of};
ghost use Rattle.sfi_rewrite.specs.Placement.{AreBundles};
ghost use Rattle.sfi_rewrite.specs.Placed.{IsPlacedPart};
ghost use Rattle.sfi_image.specs.Sources.{IsBounded};
ghost use Rattle.sfi_image.specs.Spelling.{AreApart};
ghost use Rattle.sfi_link.specs.Linked.{needed, HasRoom, IsCodeSize};
ghost use Rattle.sfi_link.specs.Faults.{HasPartFault};
ghost use Rattle.sfi_formats.specs.Limits.{sandboxes_most};
ghost use Rattle.sfi_link.specs.private.{IsCodeBeside, Links, ends_in};

use crate::bases::bases_of;
use crate::code::push_bundles;
use crate::fault::LinkFault;
use crate::right_places::lies_beside;
use crate::stub::stub_of;
use sfi_formats::{BUNDLE_BYTES, Format, Place, REGION_LEAST_BYTES, place_of};
use sfi_image::Span;
use sfi_rewrite::{Bundle, PlacedPart};
use std::alloc::{AllocError, Global};

// The bytes of c.ebreak, with which the region is filled after the code: a run that gets there
// traps.
const C_EBREAK: [u8; 2] = [0x02, 0x90];

/// How many bytes the slots of bundles take, no more than any format's code may have. Each bundle
/// but the last is full.
fn size_of_bundles(bundles: &[Bundle]) -> usize
    requires full { AreBundles bundles.now }
    requires fits { size_of (slots_of bundles.now) ≤ built_code_most Sfi2 }
    ensures { result ≡ size_of (slots_of bundles.now) }
{
    match bundles.split_last() {
        Some((last, full)) => {
            let size = last.size();
            BUNDLE_BYTES * full.len() + size
        }
        None => 0,
    }
}

/// How many bytes the stubs, the code and one c.ebreak take, so that a run beyond the code's end
/// traps.
fn needed(part: &PlacedPart) -> usize
    requires { IsPlacedPart part.now }
    ensures { result ≡ needed part.now }
{
    BUNDLE_BYTES * part.gates().len() + size_of_bundles(part.bundles()) + C_EBREAK.len()
}

/// The least size in bytes, a power of two, of a code region of the format in which `needed` bytes
/// have room; `None` where they pass what a source may make in the format.
fn code_size(format: Format, needed: usize) -> Option<usize>
    ensures least { IfSome result (IsCodeSize format needed) }
    ensures none { IfNone result ((size : ℕ) → HasRoom format needed size → ⊥) }
{
    if needed > format.built_code_most() as usize {
        return None;
    }
    if needed <= REGION_LEAST_BYTES {
        return Some(REGION_LEAST_BYTES);
    }
    Some(needed.next_power_of_two())
}

/// Appends `count` copies of `copied` to the code.
fn push_copies(code: &mut Vec<u8>, copied: &[u8], count: usize) -> Result<(), AllocError>
    ensures { OnOk result (code.new.items ≡ code.old.items ++ repeat count copied.now) }
{
    for _ in 0..count {
        code.extend_from_slice(copied)?;
    }
    Ok(())
}

/// The bytes of the whole code region of sandbox `number`, counted from 0, at its place of `given`
/// or its usual one. `spans` has the address ranges of the sandboxes before it, all of its format:
/// of each the code region, and the data region with its guard zones. Those of this one are added.
pub(crate) fn linked_code(
    alloc: Global,
    given: &[Place],
    number: u32,
    part: &PlacedPart,
    spans: &mut Vec<Span>,
) -> Result<Vec<u8>, LinkFault>
    requires few { number < sandboxes_most }
    requires right { IsPlacedPart part.now }
    requires bounded { All IsBounded spans.old.items }
    requires apart { AllPairs AreApart spans.old.items }
    ensures { Links (λ code. IsCodeBeside given.now number part.now code.items
        (ends_in part.now.format spans.old.items) spans.old.items spans.new.items)
        (HasPartFault given.now number part.now (ends_in part.now.format spans.old.items)
        spans.old.items) result }
{
    let format = part.format();
    let Some(size) = code_size(format, needed(part)) else {
        return Err(LinkFault::TooLarge { sandbox: number });
    };
    if !lies_beside(spans, part, size as u32, place_of(given, format, number))? {
        return Err(LinkFault::Place { sandbox: number });
    }
    let at = bases_of(given, number, part);
    let mut code = Vec::with_capacity(alloc, size)?;
    push_copies(&mut code, stub_of(format), part.gates().len())?;
    push_bundles(&mut code, at, part.names(), part.bundles())?;
    let fill = (size - code.len()) / C_EBREAK.len();
    push_copies(&mut code, &C_EBREAK, fill)?;
    Ok(code)
}
