//! Where an expansion stands, in code in bundles: a place is a number of bytes after the stubs.
ghost use Rattle.std.specs.Prelude.{◌≡◌, ◌%◌, ◌+◌, ◌*◌, ◌<◌, ◌≤◌};
ghost use Rattle.sfi_formats.specs.Limits.{bundle_size};
ghost use Rattle.sfi_rewrite.specs.private.{largest};
ghost use Rattle.sfi_rewrite.specs.Placement.{next_bundle, FillsGap};

use sfi_formats::BUNDLE_BYTES;

/// The first bundle start at or after the place `end`: `end` rounded up to a multiple of a bundle's
/// 16 bytes. A label before the next item names it.
pub(crate) fn next_bundle(end: usize) -> u32
    requires { end ≤ largest }
    ensures { result ≡ next_bundle end }
{
    (end.div_ceil(BUNDLE_BYTES) * BUNDLE_BYTES) as u32
}

/// How many c.nops, of 2 bytes each, go before an expansion of `size` bytes where the code so far
/// ends at the place `end`. They are as few as let the expansion lie within one bundle and, if it
/// is a `call`, end with its bundle, so that the return address is a bundle start. If it is
/// `labelled`, it stands at or after `next_bundle(end)`, which the label names. `FillsGap` of
/// specs/Placement says the same.
pub(crate) fn nops_before(end: usize, labelled: bool, call: bool, size: usize) -> usize
    requires end { end ≤ largest }
    requires even { end % 2 ≡ 0 }
    requires even_size { size % 2 ≡ 0 }
    requires some { 0 < size }
    requires few { size ≤ bundle_size }
    ensures gap { FillsGap end labelled call size result }
    ensures few { result < bundle_size }
{
    let used = end % BUNDLE_BYTES;
    let first = if labelled && used > 0 {
        BUNDLE_BYTES
    } else {
        used
    };
    let last = BUNDLE_BYTES - size;
    let at = if call {
        if first <= last {
            last
        } else {
            last + BUNDLE_BYTES
        }
    } else if first <= last {
        first
    } else {
        BUNDLE_BYTES
    };
    (at - used) / 2
}

/// How many c.nops stand between the end of the last expansion, the place `end`, and the bundle
/// start after it: 0 where `end` is one.
pub(crate) fn nops_at_end(end: usize) -> usize
    requires end { end ≤ largest }
    requires even { end % 2 ≡ 0 }
    ensures { end + 2 * result ≡ next_bundle end }
{
    (next_bundle(end) as usize - end) / 2
}
