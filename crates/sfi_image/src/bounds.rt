//! Where a sandbox lies, and whether two lie apart, of one image or of two. A sandbox whose format
//! has single masks keeps a zone at zero free, too: `zones.rt` says which addresses it has.
ghost use Rattle.std.specs.Prelude.{◌≡◌, ◌+◌, ◌<◌, ◌^◌, ◌↔◌, IsTrue};
ghost use Rattle.sfi_image.specs.Spelling.{AreApart};
ghost use Rattle.sfi_image.specs.Bounds.{code_of, guarded_data_of, AreRegionsApart, IsClearOfZone, IsClearOf, AreBoundsApart};

use crate::fields::GUARD;
use crate::span::Span;
use crate::zones::{is_clear, zone_end};
use sfi_formats::Format;

/// The regions of a sandbox, and its image's format. They need not be those of a right layout.
#[derive(Clone, Copy)]
pub struct Bounds {
    /// The image's format.
    pub format: Format,
    /// The first address of the code region.
    pub code_base: u32,
    /// How many bytes the code region has.
    pub code_size: u32,
    /// The first address of the data region.
    pub data_base: u32,
    /// How many bytes the data region has.
    pub data_size: u32,
}

/// The code region.
fn code_of(bounds: &Bounds) -> Span
    ensures is { result ≡ code_of bounds.now }
    ensures end { result.base + result.size < 2 ^ 33 }
{
    Span {
        base: u64::from(bounds.code_base),
        size: u64::from(bounds.code_size),
    }
}

/// The data region with a guard zone on each side.
fn guarded_data_of(bounds: &Bounds) -> Span
    ensures is { result ≡ guarded_data_of bounds.now }
    ensures end { result.base + result.size < 2 ^ 34 }
{
    Span {
        base: u64::from(bounds.data_base).saturating_sub(GUARD),
        size: GUARD + u64::from(bounds.data_size) + GUARD,
    }
}

/// Whether the two spans have no address in common. Either may be empty, unlike those of
/// `are_apart` of `span.rt`.
fn are_apart_or_empty(one: Span, other: Span) -> bool
    requires one { one.base + one.size < 2 ^ 64 }
    requires other { other.base + other.size < 2 ^ 64 }
    ensures { IsTrue result ↔ AreApart one other }
{
    let end = (one.base + one.size).min(other.base + other.size);
    end <= one.base.max(other.base)
}

/// Whether no region or guard zone of one has an address in common with one of the other.
fn are_regions_apart(one: &Bounds, other: &Bounds) -> bool
    ensures { IsTrue result ↔ AreRegionsApart one.now other.now }
{
    let code = code_of(one);
    let guarded = guarded_data_of(one);
    let other_code = code_of(other);
    let other_guarded = guarded_data_of(other);
    if !are_apart_or_empty(code, other_code) {
        return false;
    }
    if !are_apart_or_empty(code, other_guarded) {
        return false;
    }
    if !are_apart_or_empty(guarded, other_code) {
        return false;
    }
    are_apart_or_empty(guarded, other_guarded)
}

/// Whether the span lies clear of the sandbox's zone at zero; true where its format has none.
fn is_clear_of_zone(bounds: &Bounds, span: Span) -> bool
    requires end { span.base + span.size < 2 ^ 64 }
    ensures { IsTrue result ↔ IsClearOfZone bounds.now span }
{
    if !bounds.format.has_single_mask() {
        return true;
    }
    is_clear(zone_end(bounds.data_size), span)
}

/// Whether no region or guard zone of `other` has an address of a zone at zero of `one`.
fn is_clear_of(one: &Bounds, other: &Bounds) -> bool
    ensures { IsTrue result ↔ IsClearOf one.now other.now }
{
    if !is_clear_of_zone(one, code_of(other)) {
        return false;
    }
    is_clear_of_zone(one, guarded_data_of(other))
}

/// Tells whether no region or guard zone of one meets one of the other, nor a zone at zero of the
/// other.
pub fn are_bounds_apart(one: &Bounds, other: &Bounds) -> bool
    ensures { IsTrue result ↔ AreBoundsApart one.now other.now }
{
    if !are_regions_apart(one, other) {
        return false;
    }
    if !is_clear_of(one, other) {
        return false;
    }
    is_clear_of(other, one)
}
