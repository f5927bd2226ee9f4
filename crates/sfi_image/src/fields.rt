//! The seven fields of a sandbox and their tests. A format with single masks has a test more of the
//! data base, and two of the zone at zero, which is described in `zones.rt`.
ghost use Rattle.std.specs.Prelude.{◌≡◌, ◌≤◌, ◌↔◌, List, IsTrue, IfOk, IfErr, Some, None};
ghost use Rattle.std.specs.List.{All, AllPairs};
ghost use Rattle.sfi_formats.specs.Limits.{guard};
ghost use Rattle.sfi_image.specs.Spelling.{Part, AreApart, code_span, data_span, guarded_span, spans, with_guards};
ghost use Rattle.sfi_image.specs.Sources.{IsBounded};
ghost use Rattle.sfi_image.specs.Parts.{IsRegion, IsDataRegion, IsBundleStart, IsOneBit, IsMaskedBase, IsClearOfZero, HasGuardRoom, HasZoneRoom, AreOf};
ghost use Rattle.sfi_image.specs.FieldTests.{AreApartWith, IsFirstFault, field_tests};

use crate::fault::LayoutFault;
use crate::span::{Span, are_all_apart};
use crate::zones::{are_clear_of_zones, zone_end};
use sfi_formats::{BUNDLE_SIZE, Format, GATES_MOST, REGION_LEAST};

/// The seven numbers at the head of a sandbox, and its image's format.
#[derive(Clone, Copy)]
pub struct Fields {
    /// The image's format.
    pub format: Format,
    /// The first address of the code region.
    pub code_base: u32,
    /// The size of the code region in bytes.
    pub code_size: u32,
    /// The first address of the data region.
    pub data_base: u32,
    /// The size of the data region in bytes.
    pub data_size: u32,
    /// The address at which the sandbox starts.
    pub start: u32,
    /// How many gates are listed.
    pub gate_count: u32,
    /// How many first data bytes there are.
    pub init_len: u32,
}

/// The two spans of a sandbox.
#[derive(Clone, Copy)]
pub(crate) struct OwnSpans {
    /// The code region.
    pub(crate) code: Span,
    /// The data region with a guard zone on each side.
    pub(crate) guarded: Span,
}

/// How many addresses a guard zone has.
pub(crate) const GUARD: u64 = sfi_formats::GUARD as u64;

/// How many addresses there are.
pub(crate) const TOP: u64 = 1 << 32;

/// Tells whether the size is a power of two from `least` to `most`, and the base a multiple of it.
pub fn is_region(base: u32, size: u32, least: u32, most: u32) -> bool
    ensures { IsTrue result ↔ IsRegion base size least most }
{
    if !size.is_power_of_two() || size < least || size > most {
        return false;
    }
    base % size == 0
}

/// Tells whether there is room for a guard zone on each side of the data.
pub fn has_guard_room(base: u32, size: u32) -> bool
    ensures { IsTrue result ↔ HasGuardRoom base size }
{
    let base = u64::from(base);
    if base < GUARD {
        return false;
    }
    base + u64::from(size) + GUARD <= TOP
}

/// Tells whether the base is a single bit, and no lower than the size. So the single mask, base +
/// size - 1, leads each address into the data or below the size.
pub fn is_one_bit(base: u32, size: u32) -> bool
    ensures { IsTrue result ↔ IsOneBit base size }
{
    base.is_power_of_two() && size <= base
}

/// Tells whether the zone at zero of a sandbox lies clear of its own regions: its lower part ends
/// below the code and below the data, and its upper one begins above the code.
pub fn is_clear_of_zero(code_base: u32, code_size: u32, data_base: u32, data_size: u32) -> bool
    ensures { IsTrue result ↔ IsClearOfZero (record { base = code_base; size = code_size })
        (record { base = data_base; size = data_size }) }
{
    let end = zone_end(data_size);
    if end > u64::from(code_base) || end > u64::from(data_base) {
        return false;
    }
    u64::from(code_base) + u64::from(code_size) + GUARD <= TOP
}

/// Whether the data region has a size and a base that the format allows.
fn is_data_region(fields: &Fields) -> bool
    ensures { IsTrue result ↔
        (IsDataRegion fields.now.format fields.now.data_base fields.now.data_size
        × IsMaskedBase fields.now.format fields.now.data_base fields.now.data_size) }
{
    let most = fields.format.data_most();
    if !is_region(fields.data_base, fields.data_size, REGION_LEAST, most) {
        return false;
    }
    !fields.format.has_single_mask() || is_one_bit(fields.data_base, fields.data_size)
}

/// Whether there is room for the guard zones, and for the sandbox's own zone at zero, where the
/// format has one.
fn has_room(fields: &Fields) -> bool
    ensures { IsTrue result ↔ (HasGuardRoom fields.now.data_base fields.now.data_size
        × HasZoneRoom fields.now.format (code_span fields.now) (data_span fields.now)) }
{
    if !has_guard_room(fields.data_base, fields.data_size) {
        return false;
    }
    if !fields.format.has_single_mask() {
        return true;
    }
    is_clear_of_zero(
        fields.code_base,
        fields.code_size,
        fields.data_base,
        fields.data_size,
    )
}

/// Whether the address is a bundle start of the code region. It is asked of starts and gates, of
/// code in words, too.
pub(crate) fn is_bundle_start(fields: &Fields, at: u32) -> bool
    ensures { IsTrue result ↔ IsBundleStart (code_span fields.now) at }
{
    if at % BUNDLE_SIZE != 0 || at < fields.code_base {
        return false;
    }
    at - fields.code_base < fields.code_size
}

/// The span of the code region.
fn code_span(fields: &Fields) -> Span
    ensures { result ≡ code_span fields.now }
{
    Span {
        base: u64::from(fields.code_base),
        size: u64::from(fields.code_size),
    }
}

/// The data region of this base and size, with a guard zone on each side.
pub fn with_guards(base: u32, size: u32) -> Span
    requires { guard ≤ base }
    ensures { result ≡ with_guards (record { base = base; size = size }) }
{
    Span {
        base: u64::from(base) - GUARD,
        size: GUARD + u64::from(size) + GUARD,
    }
}

/// Whether a sandbox with these fields and these spans may lie beside the sandboxes before it, whose
/// spans are `before`, two for each: no two spans meet, nor any a zone at zero.
fn are_apart_with(before: &[Span], fields: &Fields, own: &OwnSpans) -> bool
    requires bounded { All IsBounded before.now }
    requires apart { AllPairs AreApart before.now }
    requires code { IsBounded own.now.code }
    requires guarded { IsBounded own.now.guarded }
    requires code_is { own.now.code ≡ code_span fields.now }
    requires guarded_is { own.now.guarded ≡ guarded_span fields.now }
    ensures { (ps : List Part) → AreOf fields.now.format ps → before.now ≡ spans ps
        → IsTrue result ↔ AreApartWith ps fields.now }
{
    if !are_all_apart(before, own.code, own.guarded) {
        return false;
    }
    !fields.format.has_single_mask() || are_clear_of_zones(before, own.code, own.guarded)
}

/// The spans of a sandbox with these fields, or the first test that they fail. `before` are the
/// spans of the sandboxes before it, two for each. `field_tests` of specs/FieldTests has the order
/// of the tests.
pub(crate) fn spans_after(before: &[Span], fields: &Fields) -> Result<OwnSpans, LayoutFault>
    requires bounded { All IsBounded before.now }
    requires apart { AllPairs AreApart before.now }
    ensures code { IfOk result (λ own. own.code ≡ code_span fields.now) }
    ensures guarded { IfOk result (λ own. own.guarded ≡ guarded_span fields.now) }
    ensures passed { (ps : List Part) → AreOf fields.now.format ps → before.now ≡ spans ps
        → IfOk result (λ own. IsFirstFault ps fields.now field_tests None) }
    ensures fault { (ps : List Part) → AreOf fields.now.format ps → before.now ≡ spans ps
        → IfErr result (λ k. IsFirstFault ps fields.now field_tests (Some k)) }
{
    if !is_region(
        fields.code_base,
        fields.code_size,
        REGION_LEAST,
        fields.format.code_most(),
    ) {
        return Err(LayoutFault::Code);
    }
    if !is_data_region(fields) {
        return Err(LayoutFault::Data);
    }
    if !has_room(fields) {
        return Err(LayoutFault::GuardRoom);
    }
    if !is_bundle_start(fields, fields.start) {
        return Err(LayoutFault::Start);
    }
    if fields.gate_count > GATES_MOST {
        return Err(LayoutFault::Gates);
    }
    if fields.init_len > fields.data_size {
        return Err(LayoutFault::Init);
    }
    let own = OwnSpans {
        code: code_span(fields),
        guarded: with_guards(fields.data_base, fields.data_size),
    };
    if !are_apart_with(before, fields, &own) {
        return Err(LayoutFault::Overlap);
    }
    Ok(own)
}
