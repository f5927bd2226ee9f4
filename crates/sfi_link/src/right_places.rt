//! Whether a sandbox may lie at its place.
ghost use Rattle.std.specs.Prelude.{◌++◌, ◌∷◌, [], ◌↔◌, IsTrue, IfOk};
ghost use Rattle.std.specs.Bool.{OnTrue, OnFalse};
ghost use Rattle.std.specs.List.{All, AllPairs};
ghost use Rattle.sfi_image.specs.Sources.{IsBounded};
ghost use Rattle.sfi_image.specs.Spelling.{AreApart};
ghost use Rattle.sfi_image.specs.Parts.{IsMaskedBase, HasZoneRoom};
ghost use Rattle.sfi_link.specs.Linked.{IsRightPlace, spans_at, ends_at, LieApart};
ghost use Rattle.sfi_link.specs.private.{LiesBeside, ends_in};

use sfi_formats::{Format, Place, REGION_LEAST};
use sfi_image::{
    Span, are_all_apart, are_clear_of_zones, has_guard_room, is_clear_of_zero, is_one_bit,
    is_region, with_guards,
};
use sfi_rewrite::PlacedPart;
use std::alloc::AllocError;

/// Whether the masks of the format fit data of `data_size` bytes at `place`, and code of `size` bytes
/// lies clear of their zone at zero, if there is one: the first and last addresses, which an access
/// after a single mask may reach as well as the data. With other masks there is nothing to ask.
fn suits_masks(format: Format, size: u32, place: Place, data_size: u32) -> bool
    ensures { IsTrue result ↔ (IsMaskedBase format place.data_base data_size
        × HasZoneRoom format (record { base = place.code_base; size = size })
        (record { base = place.data_base; size = data_size })) }
{
    if !format.has_single_mask() {
        return true;
    }
    if !is_one_bit(place.data_base, data_size) {
        return false;
    }
    is_clear_of_zero(place.code_base, size, place.data_base, data_size)
}

/// Whether the sandbox may lie at `place`, with a code region of `size` bytes, if no other sandbox
/// and no overlap of its own regions is looked at.
fn is_right_place(part: &PlacedPart, size: u32, place: Place) -> bool
    ensures { IsTrue result ↔ IsRightPlace part.now size place }
{
    let data_size = part.data_size();
    if !is_region(
        place.code_base,
        size,
        REGION_LEAST,
        part.format().code_most(),
    ) {
        return false;
    }
    if !is_region(
        place.data_base,
        data_size,
        REGION_LEAST,
        part.format().data_most(),
    ) {
        return false;
    }
    if !has_guard_room(place.data_base, data_size) {
        return false;
    }
    suits_masks(part.format(), size, place, data_size)
}

/// Whether the code region `code` of a sandbox of this format and its data region with guard zones,
/// `guarded`, overlap neither each other nor the spans `before` of other sandboxes, and none of
/// these a zone at zero of one, if the format has such zones.
fn lie_apart(format: Format, before: &[Span], code: Span, guarded: Span) -> bool
    requires bounded { All IsBounded before.now }
    requires apart { AllPairs AreApart before.now }
    requires code { IsBounded code }
    requires guarded { IsBounded guarded }
    ensures { IsTrue result ↔ LieApart
        (ends_in format before.now ++ ends_in format (code ∷ guarded ∷ []))
        (before.now ++ code ∷ guarded ∷ []) }
{
    if !are_all_apart(before, code, guarded) {
        return false;
    }
    !format.has_single_mask() || are_clear_of_zones(before, code, guarded)
}

/// Whether the sandbox may lie at `place`, with a code region of `size` bytes, beside the sandboxes of
/// its format that have `spans`. If so, its own spans are appended to these.
pub(crate) fn lies_beside(
    spans: &mut Vec<Span>,
    part: &PlacedPart,
    size: u32,
    place: Place,
) -> Result<bool, AllocError>
    requires bounded { All IsBounded spans.old.items }
    requires apart { AllPairs AreApart spans.old.items }
    ensures lies { IfOk result (λ may. OnTrue may
        (LiesBeside part.now size place (ends_in part.now.format spans.old.items)
        spans.old.items spans.new.items)) }
    ensures wrong { IfOk result (λ may. OnFalse may (IsRightPlace part.now size place
        → ¬ LieApart (ends_in part.now.format spans.old.items ++ ends_at part.now)
        (spans.old.items ++ spans_at part.now size place))) }
{
    if !is_right_place(part, size, place) {
        return Ok(false);
    }
    let code = Span {
        base: u64::from(place.code_base),
        size: u64::from(size),
    };
    let guarded = with_guards(place.data_base, part.data_size());
    if !lie_apart(part.format(), spans, code, guarded) {
        return Ok(false);
    }
    spans.push(code)?;
    spans.push(guarded)?;
    Ok(true)
}
