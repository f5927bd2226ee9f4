//! Whether sandboxes of a world and of an image meet, and so can't be in one world.
//!
//! A sandbox *takes up* the addresses of its code, its data, and the guard zones on both sides of
//! the data. In the fourth format it also has a *zone at zero*, where no sandbox may be: the
//! addresses below its data's size + 4096, and the last 4096. Two sandboxes *meet* if there is an
//! address that both take up, or one takes up an address in the other's zone at zero. `Meet` of
//! specs/Adding says the same.
ghost use Rattle.std.specs.Prelude.{◌≡◌, ◌⊎◌, ◌+◌, ◌^◌, ◌<◌, ◌≤◌, ◌↔◌, ℕ, IsTrue, Some, slice_get};
ghost use Rattle.std.specs.Bool.{OnTrue, OnFalse};
ghost use Rattle.rv_mem.specs.Bytes.{Bytes};
ghost use Rattle.sfi_formats.specs.declared.format.Format.{Format};
ghost use Rattle.sfi_image.specs.Parts.{IsRightPart, IsRightLayout};
ghost use Rattle.sfi_image.specs.Spelling.{Part, Holds, code_region, InZoneAtZero};
ghost use Rattle.sfi_host.specs.Adding.{ShareAddress, ReachesZoneOf, Meet, MeetsSome};
ghost use Rattle.sfi_host.specs.Modules.{part_of, parts_of};
ghost use Rattle.sfi_host.specs.Worlds.{seat_of, world_of};
ghost use Rattle.sfi_host.specs.Slots.{bounds_of};
ghost use Rattle.sfi_host.specs.Worlds.{IsSafeWorld};

use crate::modules::ModulePart;
use crate::sandbox::Sandbox;
use sfi_formats::{Format, GUARD};
use sfi_image::{Span, with_guards};

/// Whether an address lies in both spans.
fn have_common_address(one: Span, other: Span) -> bool
    requires one { one.base + one.size < 2 ^ 64 }
    requires other { other.base + other.size < 2 ^ 64 }
    ensures { IsTrue result ↔ ((a : ℕ) × Holds one a × Holds other a) }
{
    one.base.max(other.base) < (one.base + one.size).min(other.base + other.size)
}

/// The addresses of a code region.
fn code_span(base: u32, size: u32) -> Span
    ensures { result ≡ record { base = base; size = size } }
{
    Span {
        base: u64::from(base),
        size: u64::from(size),
    }
}

/// The addresses of a part's code.
fn code_of(part: &ModulePart) -> Span
    requires { (format : Format) × IsRightPart (part_of format part.now) }
    ensures { (format : Format) → result ≡ code_region (part_of format part.now) }
{
    code_span(part.code_base, part.code.len() as u32)
}

/// Whether an address of the span lies in the zone at zero of a sandbox whose data have `size` bytes.
fn overlaps_zone(size: u32, span: Span) -> bool
    requires end { span.base + span.size < 2 ^ 64 }
    ensures { IsTrue result ↔ ((a : ℕ) × Holds span a × InZoneAtZero size a) }
{
    let guard = u64::from(GUARD);
    let first = Span {
        base: 0,
        size: u64::from(size) + guard,
    };
    let last = Span {
        base: (1 << 32) - guard,
        size: guard,
    };
    if have_common_address(span, first) {
        return true;
    }
    have_common_address(span, last)
}

/// Whether a sandbox takes up an address in the zone at zero of another, whose data have `size` bytes.
/// `code` is its code, and `guarded` its data with their guard zones.
fn reach_zone(code: Span, guarded: Span, size: u32) -> bool
    requires code { code.base + code.size < 2 ^ 64 }
    requires guarded { guarded.base + guarded.size < 2 ^ 64 }
    ensures { IsTrue result
        ↔ ((a : ℕ) × (Holds code a ⊎ Holds guarded a) × InZoneAtZero size a) }
{
    if overlaps_zone(size, code) {
        return true;
    }
    overlaps_zone(size, guarded)
}

/// Whether the sandbox takes up an address in the part's zone at zero; `false` where the part's
/// `format` has none.
fn sandbox_reaches_zone(sandbox: &Sandbox, format: Format, part: &ModulePart) -> bool
    requires room { 4096 ≤ sandbox.now.data.base }
    ensures { IsTrue result
        ↔ ReachesZoneOf (seat_of sandbox.now).bounds (bounds_of (part_of format part.now)) }
{
    if !format.has_single_mask() {
        return false;
    }
    let code = code_span(sandbox.code.base, sandbox.code.size);
    let guarded = with_guards(sandbox.data.base, sandbox.data.size);
    reach_zone(code, guarded, part.data_size)
}

/// Whether the part takes up an address in the sandbox's zone at zero; `false` where the sandbox's
/// format has none. `format` is the part's, which the contract alone names.
fn part_reaches_zone(sandbox: &Sandbox, format: Format, part: &ModulePart) -> bool
    requires right { IsRightPart (part_of format part.now) }
    ensures { IsTrue result
        ↔ ReachesZoneOf (bounds_of (part_of format part.now)) (seat_of sandbox.now).bounds }
{
    if !sandbox.format.has_single_mask() {
        return false;
    }
    let code = code_of(part);
    let guarded = with_guards(part.data_base, part.data_size);
    reach_zone(code, guarded, sandbox.data.size)
}

/// Whether there is an address that both the sandbox and the part take up. `format` is the part's,
/// which the contract alone names.
fn shares_address(sandbox: &Sandbox, format: Format, part: &ModulePart) -> bool
    requires room { 4096 ≤ sandbox.now.data.base }
    requires right { IsRightPart (part_of format part.now) }
    ensures { IsTrue result
        ↔ ShareAddress (seat_of sandbox.now).bounds (bounds_of (part_of format part.now)) }
{
    let code = code_span(sandbox.code.base, sandbox.code.size);
    let guarded = with_guards(sandbox.data.base, sandbox.data.size);
    let part_code = code_of(part);
    let part_guarded = with_guards(part.data_base, part.data_size);
    if have_common_address(code, part_code) {
        return true;
    }
    if have_common_address(code, part_guarded) {
        return true;
    }
    if have_common_address(guarded, part_code) {
        return true;
    }
    have_common_address(guarded, part_guarded)
}

/// Whether the sandbox and the part meet.
fn meets_part(sandbox: &Sandbox, format: Format, part: &ModulePart) -> bool
    requires room { 4096 ≤ sandbox.now.data.base }
    requires right { IsRightPart (part_of format part.now) }
    ensures { IsTrue result
        ↔ Meet (seat_of sandbox.now).bounds (bounds_of (part_of format part.now)) }
{
    if shares_address(sandbox, format, part) {
        return true;
    }
    if sandbox_reaches_zone(sandbox, format, part) {
        return true;
    }
    part_reaches_zone(sandbox, format, part)
}

/// Whether the sandbox meets one of the parts.
fn meets_some(sandbox: &Sandbox, format: Format, parts: &[ModulePart]) -> bool
    requires room { 4096 ≤ sandbox.now.data.base }
    requires right { IsRightLayout (parts_of format parts.now) }
    ensures found { OnTrue result ((j : ℕ) × (p : Part)
        × (slice_get (parts_of format parts.now) j ≡ Some p)
        × Meet (seat_of sandbox.now).bounds (bounds_of p)) }
    ensures none { OnFalse result ((j : ℕ) (p : Part)
        → slice_get (parts_of format parts.now) j ≡ Some p
        → Meet (seat_of sandbox.now).bounds (bounds_of p) → ⊥) }
{
    for part in parts {
        if meets_part(sandbox, format, part) {
            return true;
        }
    }
    false
}

/// Whether a sandbox of the world meets one of the parts. The world's bytes make no difference.
pub(crate) fn some_meet(sandboxes: &[Sandbox], format: Format, parts: &[ModulePart]) -> bool
    requires safe { (m : Bytes) × IsSafeWorld (world_of m sandboxes.now) }
    requires right { IsRightLayout (parts_of format parts.now) }
    ensures { (m : Bytes) → IsTrue result
        ↔ MeetsSome (world_of m sandboxes.now) (parts_of format parts.now) }
{
    for sandbox in sandboxes {
        if meets_some(sandbox, format, parts) {
            return true;
        }
    }
    false
}
