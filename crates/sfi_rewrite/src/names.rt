//! What the names of a sandbox name, once its items are placed.
ghost use Rattle.std.specs.Prelude.{◌≡◌, ◌<◌, ◌↔◌, IfOk, IsTrue, length};
ghost use Rattle.std.specs.List.{AllZip};
ghost use Rattle.sfi_source.specs.Source.{named, IsSandbox};
ghost use Rattle.sfi_rewrite.specs.Placement.{IsPlacedName, HasEndLabel};
ghost use Rattle.sfi_formats.specs.Formats.{has_words};
ghost use Rattle.sfi_rewrite.specs.private.{AreLabels, HasLabel, placed_of};

use crate::placed::PlacedName;
use sfi_source::{Named, SourcePart};
use std::alloc::{AllocError, Global};

/// What a name of the source names in the placed code. `labels` has the place of a label before
/// each item, by the item's number, and last that of a label at the end of the code.
fn placed_name(named: Named, labels: &[u32]) -> PlacedName
    requires { HasLabel (length labels.now) named }
    ensures { result ≡ placed_of labels.now named }
{
    match named {
        Named::Gate(gate) => PlacedName::Gate(gate),
        Named::Code(item) => PlacedName::Code(labels[item]),
        Named::Data(offset) => PlacedName::Data(offset),
        Named::Unknown => PlacedName::Unknown,
    }
}

/// What each name of the sandbox names in the placed code, in the order of the source's names.
/// `labels` has a place for each item, and last that of the end of the code, as `Laid` has them.
pub(crate) fn place_names(
    alloc: Global,
    part: &SourcePart,
    labels: &[u32],
) -> Result<Vec<PlacedName>, AllocError>
    requires sandbox { IsSandbox part.now }
    requires labels { AreLabels (has_words part.now.format) part.now.format part.now.items labels.now }
    ensures { IfOk result
        (λ v. AllZip (IsPlacedName part.now.format part.now.items) (named part.now) v.items) }
{
    let mut names = Vec::new(alloc);
    let known = part.names();
    for place in 0..known.len() {
        match known.named(place) {
            Some(named) => names.push(placed_name(named, labels))?,
            None => unreachable!(),
        }
    }
    Ok(names)
}

/// Whether a label stands at the end of the code, after the last item. In code in bundles c.nops
/// then go up to the bundle start that it names.
pub(crate) fn has_end_label(part: &SourcePart) -> bool
    ensures { IsTrue result ↔ HasEndLabel part.now }
{
    let end = part.items().len();
    let names = part.names();
    for place in 0..names.len() {
        if let Some(Named::Code(item)) = names.named(place) {
            if item == end {
                return true;
            }
        }
    }
    false
}
