//! The scan of code in words, of the third and fourth format, 16 bytes at a time: these are called
//! a bundle here, too. What is owed ([`Owed`]) is what the next instruction has to do, because an
//! earlier one wrote a typed register: a function that scans takes what is owed before its code,
//! and returns what is owed after it. As in code.rt, `at` is an offset in `code`, the stretch at
//! `place`, and `findings` room to work in. `SINGLE` says whether data are masked by one
//! instruction, as in the fourth format.
ghost use Rattle.std.specs.Prelude.{◌≡◌, ◌*◌, ◌≤◌, ◌<◌, ℕ, IfSome, length};
ghost use Rattle.sfi_formats.specs.Formats.{has_single_mask};
ghost use Rattle.sfi_formats.specs.Limits.{bundle_size};
ghost use Rattle.sfi_rules.specs.Readings.{IsWithin};
ghost use Rattle.sfi_rules.specs.words.Findings.{AreFoundInBundle};
ghost use Rattle.sfi_scan.specs.Stretches.{IsStretch};
ghost use Rattle.sfi_scan.specs.private.Scanning.{IsRunClean, IsWordCodeScanned, IsWordFrontScanned};

mod block;
mod look;
mod owed;
mod rules;
mod word;

use crate::code::{IN_BLOCKS, block_start, bytes_from, place_after};
use crate::findings::BundleFindings;
use crate::sink::FindingSink;
use crate::words::block::look_at_block;
use crate::words::word::scan_word;
use sfi_formats::BUNDLE_BYTES;
use sfi_masks::BLOCK_BYTES;
use sfi_rules::{BundlePlace, Owed};

/// How many words a bundle has.
const WORDS: usize = BUNDLE_BYTES / 4;

/// Replaces `found` by the findings of the words of these 16 bytes at `place`, in the order of
/// their addresses. `owed` is owed before them; before a region's first bytes nothing is. Returns
/// what is owed after them.
pub fn scan_words(
    place: &BundlePlace,
    bytes: &[u8; BUNDLE_BYTES],
    owed: Owed,
    found: &mut BundleFindings,
) -> Owed
    requires { IsWithin place.now }
    ensures { AreFoundInBundle place.now owed bytes.now found.new result }
{
    found.clear();
    let mut next = owed;
    let mut n = 0;
    while n < WORDS {
        let word = &bytes[4 * n..4 * n + 4];
        next = scan_word(place, place.address + 4 * n as u32, word, next, found);
        n += 1;
    }
    next
}

/// Scans 16 bytes, and hands their findings, if any, to the sink. Returns what is owed after them.
#[inline(always)]
fn scan_bundle_of_words<F: FindingSink>(
    place: &BundlePlace,
    bundle: &[u8; BUNDLE_BYTES],
    owed: Owed,
    sink: &mut F,
    findings: &mut BundleFindings,
) -> Owed
    requires { IsWithin place.now }
    ensures { IsWordCodeScanned F.takes place.now owed bundle.now 1 result sink.old sink.new }
{
    let next = scan_words(place, bundle, owed, findings);
    if findings.count() > 0 {
        sink.put(findings);
    }
    next
}

/// Looks at blocks of the stretch from byte `at` on, as [`block_start`] gives them, until one isn't
/// seen to break no rule, or none is given. Returns the offset up to which all is clean, the
/// stretch's end at most, and what is owed there. It is compiled once for all sinks, and for single
/// masks and others apart, so that each loop holds its own tables.
#[inline(never)]
fn skip_clean_blocks<const SINGLE: bool>(
    place: &BundlePlace,
    code: &[u8],
    at: usize,
    owed: Owed,
    findings: &mut BundleFindings,
) -> (usize, Owed)
    requires single { SINGLE ≡ has_single_mask place.now.format }
    requires stretch { (n : ℕ) × (k : ℕ) × IsStretch place.now code.now n × (at ≡ bundle_size * k) × (k < n) }
    ensures { (k : ℕ) → at ≡ bundle_size * k → IsRunClean place.now owed code.now k result.0 result.1 }
{
    let mut end = at;
    let mut left = owed;
    while end < code.len() {
        let Some(start) = block_start::<IN_BLOCKS>(place, code, end) else {
            return (end, left);
        };
        let first = place_after(place, start);
        let block = bytes_from::<BLOCK_BYTES>(code, start);
        let from = (end - start) / 4;
        let Some(next) = look_at_block::<SINGLE>(&first, block, from, left, findings) else {
            return (end, left);
        };
        end = start + BLOCK_BYTES;
        left = next;
    }
    (end, left)
}

/// What `skip_clean_blocks` returns, if scanning in blocks; else `at` itself, and what is owed
/// there.
#[inline(always)]
fn skip_clean_code<const BLOCKS: bool>(
    place: &BundlePlace,
    code: &[u8],
    at: usize,
    owed: Owed,
    findings: &mut BundleFindings,
) -> (usize, Owed)
    requires { (n : ℕ) × (k : ℕ) × IsStretch place.now code.now n × (at ≡ bundle_size * k) × (k < n) }
    ensures { (k : ℕ) → at ≡ bundle_size * k → IsRunClean place.now owed code.now k result.0 result.1 }
{
    if !BLOCKS {
        (at, owed)
    } else if place.format.has_single_mask() {
        skip_clean_blocks::<true>(place, code, at, owed, findings)
    } else {
        skip_clean_blocks::<false>(place, code, at, owed, findings)
    }
}

/// The offset up to which a stretch is scanned bundle by bundle from byte `at` on: the end of the
/// block there, which wasn't seen to be clean, or else of the next bundle.
#[inline(always)]
fn doubtful_end<const BLOCKS: bool>(place: &BundlePlace, code: &[u8], at: usize) -> usize
    requires { (n : ℕ) × (k : ℕ) × IsStretch place.now code.now n × (at ≡ bundle_size * k) × (k < n) }
    ensures ahead { at < result }
    ensures inside { result ≤ length code.now }
{
    match block_start::<BLOCKS>(place, code, at) {
        Some(start) => start + BLOCK_BYTES,
        None => at + BUNDLE_BYTES,
    }
}

/// Scans a stretch bundle by bundle, from byte `at` up to byte `stop`. Returns the offset after the
/// last one, and what is owed there.
#[inline(always)]
fn scan_bundles<F: FindingSink>(
    place: &BundlePlace,
    code: &[u8],
    at: usize,
    stop: usize,
    owed: Owed,
    sink: &mut F,
    findings: &mut BundleFindings,
) -> (usize, Owed)
    requires stretch { (n : ℕ) × (k : ℕ) × IsStretch place.now code.now n × (at ≡ bundle_size * k) × (k < n) }
    requires ahead { at < stop }
    requires inside { stop ≤ length code.now }
    ensures { (k : ℕ) → at ≡ bundle_size * k
        → IsWordFrontScanned F.takes place.now owed code.now k result.0 result.1 sink.old sink.new }
{
    let mut end = at;
    let mut left = owed;
    while end < stop {
        let bundle = bytes_from::<BUNDLE_BYTES>(code, end);
        left = scan_bundle_of_words(&place_after(place, end), bundle, left, sink, findings);
        end += BUNDLE_BYTES;
    }
    (end, left)
}

/// Scans a stretch of code in words, in blocks or bundle by bundle, with `owed` owed before it, and
/// hands the findings of each 16 bytes to the sink, in order. Returns what is owed after it. The
/// scan of code in bundles is `scan_code`.
pub(crate) fn scan_words_as<F: FindingSink, const BLOCKS: bool>(
    place: &BundlePlace,
    code: &[u8],
    owed: Owed,
    sink: &mut F,
) -> Owed
    requires { (n : ℕ) × IsStretch place.now code.now n }
    ensures { (n : ℕ) → IsStretch place.now code.now n
        → IsWordCodeScanned F.takes place.now owed code.now n result sink.old sink.new }
{
    let mut findings = BundleFindings::new();
    let mut left = owed;
    let mut at = 0;
    while at < code.len() {
        let (end, next) = skip_clean_code::<BLOCKS>(place, code, at, left, &mut findings);
        if end == code.len() {
            return next;
        }
        // The block there, or the bundle, isn't seen to be clean.
        let stop = doubtful_end::<BLOCKS>(place, code, end);
        (at, left) = scan_bundles(place, code, end, stop, next, sink, &mut findings);
    }
    left
}
