//! Hands what comes next of an image to the reader and the scan.
ghost use Rattle.std.specs.Prelude.{◌≡◌, ℕ, List, length};
ghost use Rattle.sfi_image.specs.Prefixes.{ImagePrefix, want_of, IsLengthOf};
ghost use Rattle.sfi_image.specs.Keeping.{StandsFor};
ghost use Rattle.sfi_check.specs.Feeds.{IsSoFar};
ghost use Rattle.sfi_check.specs.private.{IsTakenOff, Steps, verdict_of};

use crate::sink::Counted;
use crate::stream_answer::StreamAnswer;
use crate::tally::Tally;
use sfi_formats::BUNDLE_BYTES;
use sfi_image::{LayoutFault, LayoutReader, Want};
use sfi_scan::{BundlePlace, FindingSink, scan_stretch};

/// What one call of [`feed_next`] did.
#[derive(Clone, Copy)]
pub(crate) enum FeedEnd {
    /// It took this number of bytes.
    Took(usize),
    /// It took nothing: what comes next has more bytes than there are.
    Short,
    /// It took nothing: the image is whole, and a byte that follows is a fault.
    Whole,
    /// A test of the layout failed.
    Fault(LayoutFault),
}

/// Hands these bytes, as many as the reader wants next, to it.
#[inline(always)]
fn take_bytes(reader: &mut LayoutReader, bytes: &[u8]) -> FeedEnd
    requires { (x : ImagePrefix) × StandsFor reader.old x × IsLengthOf (length bytes.now) (want_of x) }
    ensures { IsTakenOff reader.old reader.new bytes.now result }
{
    match reader.take(bytes) {
        Some(fault) => FeedEnd::Fault(fault),
        None => FeedEnd::Took(bytes.len()),
    }
}

/// Hands the bundles that come next to the reader, and scans them: all whole ones at the front of
/// `rest`, up to the next gate's bundle or the region's end, since a scan takes one stretch.
/// `place` is that of the first.
#[inline(always)]
fn feed_code<F: FindingSink, const BLOCKS: bool>(
    reader: &mut LayoutReader,
    tally: &mut Tally,
    sink: &mut F,
    place: &BundlePlace,
    rest: &[u8],
) -> FeedEnd
    requires so_far { (first : F) × (so_far : List ℕ)
        × IsSoFar (λ found. F.takes first found sink.old) reader.old tally.old so_far }
    requires next { (x : ImagePrefix) → StandsFor reader.old x → Want.Bundle place.now ≡ want_of x }
    ensures { (first : F) (so_far : List ℕ)
        → IsSoFar (λ found. F.takes first found sink.old) reader.old tally.old so_far
        → Steps (λ found. F.takes first found sink.new)
        reader.old reader.new tally.new so_far rest.now result }
{
    let len = reader
        .stretch_length()
        .min(rest.len() - rest.len() % BUNDLE_BYTES);
    if len == 0 {
        return FeedEnd::Short;
    }
    let code = &rest[..len];
    if let Some(fault) = reader.take(code) {
        return FeedEnd::Fault(fault);
    }
    let owed = tally.owed_at(place);
    tally.add_bundles(place.sandbox, (len / BUNDLE_BYTES) as u32);
    let mut counted = Counted { tally, sink };
    tally.owed = scan_stretch::<Counted<F>, BLOCKS>(place, code, owed, &mut counted);
    FeedEnd::Took(len)
}

/// Hands what comes next to the reader, if its bytes are at the front of `rest`, and scans it if it
/// is code: its findings go to the tally and to the sink. Nothing may have failed before.
#[inline(always)]
pub(crate) fn feed_next<F: FindingSink, const BLOCKS: bool>(
    reader: &mut LayoutReader,
    tally: &mut Tally,
    sink: &mut F,
    rest: &[u8],
) -> FeedEnd
    requires { (first : F) × (so_far : List ℕ)
        × IsSoFar (λ found. F.takes first found sink.old) reader.old tally.old so_far }
    ensures { (first : F) (so_far : List ℕ)
        → IsSoFar (λ found. F.takes first found sink.old) reader.old tally.old so_far
        → Steps (λ found. F.takes first found sink.new)
        reader.old reader.new tally.new so_far rest.now result }
{
    match reader.wants() {
        Want::Field(len) => {
            if rest.len() < len {
                return FeedEnd::Short;
            }
            take_bytes(reader, &rest[..len])
        }
        Want::Bundle(place) => feed_code::<F, BLOCKS>(reader, tally, sink, &place, rest),
        Want::Init(most) => {
            if rest.is_empty() {
                return FeedEnd::Short;
            }
            take_bytes(reader, &rest[..rest.len().min(most)])
        }
        Want::End => FeedEnd::Whole,
        Want::Nothing => unreachable!(),
    }
}

/// The verdict on a whole image, by its tally.
pub(crate) fn verdict(tally: &Tally) -> StreamAnswer
    ensures { result ≡ verdict_of tally.now }
{
    match tally.first {
        Some(first) => StreamAnswer::Findings {
            count: tally.count,
            first,
        },
        None => StreamAnswer::Accepted {
            sandboxes: tally.sandboxes,
            bundles: tally.bundles,
        },
    }
}
