//! Zones at zero, of formats whose masks of data are single: that all spans lie clear of them.
//! There the one `and` of a mask leads an address into the data or below the data size, and an
//! access lies less than a guard zone beside that. So of data of `size` bytes the zone at zero has
//! the first `size` + `GUARD` addresses, up to its end, and the last `GUARD` below 2 ^ 32.
ghost use Rattle.std.specs.Prelude.{◌≡◌, ◌<◌, ◌≤◌, ◌+◌, ◌^◌, ◌++◌, ◌-◌, ◌↔◌, ◌∷◌, [], ℕ, IsTrue};
ghost use Rattle.std.specs.List.{All};
ghost use Rattle.sfi_formats.specs.Limits.{guard};
ghost use Rattle.sfi_image.specs.Sources.{IsBounded};
ghost use Rattle.sfi_image.specs.Spelling.{IsClear, AreClear, ends_below, zone_end};

use crate::fields::{GUARD, TOP};
use crate::span::Span;

/// Where the lower part of the zone at zero of data of this size ends: the first address after it.
pub(crate) fn zone_end(size: u32) -> u64
    ensures { result ≡ zone_end size }
{
    u64::from(size) + GUARD
}

/// `zone_end` for the data that with a guard zone on each side have this span.
fn zone_end_of(guarded: Span) -> u64
    ensures { result ≡ guarded.size - guard }
{
    guarded.size.saturating_sub(GUARD)
}

/// The largest `zone_end` of sandboxes with these spans: two for each, its code region and then its
/// data region with the guard zones. It is 0 where there are none.
fn largest_end(spans: &[Span]) -> u64
    ensures { (most : ℕ) → (result ≤ most) ↔ All (λ end. end ≤ most) (ends_below spans.now) }
{
    let mut largest = 0;
    for number in 0..spans.len() / 2 {
        largest = largest.max(zone_end_of(spans[2 * number + 1]));
    }
    largest
}

/// Whether the span lies clear of both parts of a zone at zero whose lower part ends before `end`.
pub(crate) fn is_clear(end: u64, span: Span) -> bool
    requires { span.base + span.size < 2 ^ 64 }
    ensures { IsTrue result ↔ IsClear end span }
{
    end <= span.base && span.base + span.size <= TOP - GUARD
}

/// Whether each of the spans lies clear of such a zone.
fn are_clear(end: u64, spans: &[Span]) -> bool
    requires { All IsBounded spans.now }
    ensures { IsTrue result ↔ All (λ s. IsClear end s) spans.now }
{
    for span in spans {
        if !is_clear(end, *span) {
            return false;
        }
    }
    true
}

/// Tells whether the spans `before`, two for each sandbox as in an image, and the spans `code` and
/// `guarded` of another one lie clear of the zones at zero of all these.
pub fn are_clear_of_zones(before: &[Span], code: Span, guarded: Span) -> bool
    requires bounded { All IsBounded before.now }
    requires code { IsBounded code }
    requires guarded { IsBounded guarded }
    ensures { IsTrue result ↔ AreClear (ends_below before.now ++ (guarded.size - guard) ∷ [])
        (before.now ++ code ∷ guarded ∷ []) }
{
    let end = largest_end(before).max(zone_end_of(guarded));
    if !is_clear(end, code) || !is_clear(end, guarded) {
        return false;
    }
    are_clear(end, before)
}
