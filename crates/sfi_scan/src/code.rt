//! The scan of code that lies together.
ghost use Rattle.std.specs.Prelude.{◌≡◌, ℕ, ◌+◌, ◌*◌, ◌^◌, ◌<◌, ◌≤◌, [], false, true, IfSome, length, take, drop};
ghost use Rattle.std.specs.Bool.{OnTrue};
ghost use Rattle.sfi_formats.specs.Limits.{bundle_size};
ghost use Rattle.sfi_masks.specs.Masks.{is_in};
ghost use Rattle.sfi_rules.specs.Readings.{IsWithin, IsWithinBlock, block_bundle, bundle_at};
ghost use Rattle.sfi_rules.specs.Findings.{AreReadingFindings};
ghost use Rattle.sfi_scan.specs.Stretches.{IsStretch, IsScanned, IsStretchScanned, stretch_place};
ghost use Rattle.sfi_scan.specs.private.Scanning.{IsInBytesOfBlock, IsBlockScanned, IsBlockStart, IsFrontScanned};

use crate::block::{bundle_at, clean_bundles, has_bit};
use crate::findings::BundleFindings;
use crate::scan::scan_bundle;
use crate::sink::FindingSink;
use crate::words::scan_words_as;
use sfi_formats::{BUNDLE_BYTES, BUNDLE_SIZE};
use sfi_masks::BLOCK_BYTES;
use sfi_rules::{BundlePlace, Owed};

/// A value of the parameter `BLOCKS`, which says how a stretch is scanned. Blocks of eight bundles
/// are looked at as wholes: fast where the processor has vectors.
pub const IN_BLOCKS: bool = true;

/// The other value of `BLOCKS`: bundle by bundle. The findings are the same; this is less machine
/// code, a fifth of it where there are no vectors.
pub const BUNDLE_BY_BUNDLE: bool = false;

/// The place of the bundle that begins `before` bytes, a multiple of 16, after the stretch's first.
/// Only the stretch's first bundle can be a listed gate's.
#[inline(always)]
pub(crate) fn place_after(place: &BundlePlace, before: usize) -> BundlePlace
    requires { place.now.address + before < 2 ^ 32 }
    ensures { (n : ℕ) → before ≡ bundle_size * n → result ≡ stretch_place place.now n }
{
    BundlePlace {
        address: place.address + before as u32,
        listed: place.listed && before == 0,
        ..*place
    }
}

/// Scans a bundle, and hands its findings to the sink. `findings` is room to work in, here and in
/// the functions below: what it holds before doesn't matter.
#[inline(always)]
fn scan_one_bundle<F: FindingSink>(
    place: &BundlePlace,
    bundle: &[u8; BUNDLE_BYTES],
    sink: &mut F,
    findings: &mut BundleFindings,
)
    requires { IsWithin place.now }
    ensures { IsScanned F.takes place.now bundle.now 1 sink.old sink.new }
{
    scan_bundle(place, bundle, findings);
    // Most bundles have none, and this test is less than a call.
    if findings.count() > 0 {
        sink.put(findings);
    }
}

/// Scans the block's bundles from number `from` on, 0 to 7, that aren't seen to be clean, in order.
/// `place` is that of the block's first bundle; bit i of `clean` is set if bundle i is seen clean.
/// Not inlined, since most blocks are seen clean as wholes.
#[inline(never)]
fn scan_doubtful_bundles<F: FindingSink>(
    place: &BundlePlace,
    block: &[u8; BLOCK_BYTES],
    from: usize,
    clean: u8,
    sink: &mut F,
    findings: &mut BundleFindings,
)
    requires within { IsWithinBlock place.now }
    requires unlisted { place.now.listed ≡ false }
    requires inside { from < 8 }
    requires clean { (i : ℕ) → i < 8 → is_in clean i ≡ true
        → AreReadingFindings (bundle_at place.now i) (block_bundle block.now i) [] }
    ensures { IsBlockScanned F.takes place.now block.now from sink.old sink.new }
{
    let (bundles, _) = block.as_chunks::<BUNDLE_BYTES>();
    let mut i = from;
    while i < bundles.len() {
        if !has_bit(u64::from(clean), i) {
            scan_one_bundle(&bundle_at(place, i), &bundles[i], sink, findings);
        }
        i += 1;
    }
}

/// Whether none of the eight bundles from `place` on is its region's last.
#[inline(always)]
fn is_within_block(place: &BundlePlace) -> bool
    requires { IsWithin place.now }
    ensures { OnTrue result (IsWithinBlock place.now) }
{
    place.code_size - (place.address - place.code_base) >= BLOCK_BYTES as u32 + BUNDLE_SIZE
}

/// The `N` bytes of `code` from byte `start` on, as an array, without a copy.
#[inline(always)]
pub(crate) fn bytes_from<const N: usize>(code: &[u8], start: usize) -> &[u8; N]
    requires { start + N ≤ length code.now }
    ensures { result.now ≡ take N (drop start code.now) }
{
    let Some(bytes) = code[start..].first_chunk::<N>() else {
        unreachable!();
    };
    bytes
}

/// The offset in `code`, the stretch at `place`, of the block by which its bytes from `at` on are
/// looked at: the next eight bundles, or where fewer are left, the stretch's last eight, of which
/// the first were scanned already. None of a block's bundles may be a gate's or the region's last,
/// which have rules of their own: `None` where one is, where the stretch is shorter than a block,
/// or where `BLOCKS` says bundle by bundle.
#[inline(always)]
pub(crate) fn block_start<const BLOCKS: bool>(
    place: &BundlePlace,
    code: &[u8],
    at: usize,
) -> Option<usize>
    requires { (n : ℕ) × (k : ℕ) × IsStretch place.now code.now n × (at ≡ bundle_size * k) × (k < n) }
    ensures ahead { IfSome result (IsInBytesOfBlock place.now code.now at) }
    ensures block { (k : ℕ) → at ≡ bundle_size * k → IfSome result (IsBlockStart place.now code.now k) }
{
    if !BLOCKS {
        return None;
    }
    if code.len() < BLOCK_BYTES {
        return None;
    }
    let start = at.min(code.len() - BLOCK_BYTES);
    let first = place_after(place, start);
    if first.listed {
        return None;
    }
    if !is_within_block(&first) {
        return None;
    }
    Some(start)
}

/// Scans a stretch from byte `at` on: the rest of the block that [`block_start`] gives, or else the
/// next bundle. Returns the offset of the first byte that isn't scanned yet.
#[inline(always)]
fn scan_next_bundles<F: FindingSink, const BLOCKS: bool>(
    place: &BundlePlace,
    code: &[u8],
    at: usize,
    sink: &mut F,
    findings: &mut BundleFindings,
) -> usize
    requires { (n : ℕ) × (k : ℕ) × IsStretch place.now code.now n × (at ≡ bundle_size * k) × (k < n) }
    ensures { (k : ℕ) → at ≡ bundle_size * k
        → IsFrontScanned F.takes place.now code.now k result sink.old sink.new }
{
    if let Some(start) = block_start::<BLOCKS>(place, code, at) {
        let first = place_after(place, start);
        let block = bytes_from::<BLOCK_BYTES>(code, start);
        let from = (at - start) / BUNDLE_BYTES;
        let clean = clean_bundles(&first, block);
        if clean != u8::MAX {
            scan_doubtful_bundles(&first, block, from, clean, sink, findings);
        }
        return start + BLOCK_BYTES;
    }
    let bundle = bytes_from::<BUNDLE_BYTES>(code, at);
    scan_one_bundle(&place_after(place, at), bundle, sink, findings);
    at + BUNDLE_BYTES
}

/// Scans a stretch of code in bundles, the first of which lies at `place`, and hands the findings
/// of each that has some to the sink, in order.
pub fn scan_code<F: FindingSink, const BLOCKS: bool>(place: &BundlePlace, code: &[u8], sink: &mut F)
    requires { (n : ℕ) × IsStretch place.now code.now n }
    ensures { (n : ℕ) → IsStretch place.now code.now n → IsScanned F.takes place.now code.now n sink.old sink.new }
{
    let mut findings = BundleFindings::new();
    let mut at = 0;
    while at < code.len() {
        at = scan_next_bundles::<F, BLOCKS>(place, code, at, sink, &mut findings);
    }
}

/// Scans a stretch of code of any format, whose first bundle lies at `place`, and hands the
/// findings to the sink, in order. In code in words `owed` is what the code before it leaves owed,
/// and the result what is owed after it, which the next stretch gets; in bundles nothing ever is.
pub fn scan_stretch<F: FindingSink, const BLOCKS: bool>(
    place: &BundlePlace,
    code: &[u8],
    owed: Owed,
    sink: &mut F,
) -> Owed
    requires { (n : ℕ) × IsStretch place.now code.now n }
    ensures { (n : ℕ) → IsStretch place.now code.now n
        → IsStretchScanned F.takes place.now owed code.now n result sink.old sink.new }
{
    if place.format.has_words() {
        scan_words_as::<F, BLOCKS>(place, code, owed, sink)
    } else {
        scan_code::<F, BLOCKS>(place, code, sink);
        Owed::Nothing
    }
}
