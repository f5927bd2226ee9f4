//! A first look at a block, eight bundles of code in bundles, at once. A mask here is a set of the
//! block's 64 halfwords: bit i is for halfword i, at byte 2 * i. A word goes by its first halfword.
//!
//! `sfi_masks` classes all halfwords by vectors; what that leaves is tested one by one. In all
//! functions `words` has the starts of 32-bit instructions, `after` the halfwords directly before
//! which two such instructions lie in the same bundle, and `stack` says whether the format has a
//! stack pointer. `place` is that of the block's first bundle. The definitions are in
//! specs/private/Blocks.
ghost use Rattle.std.specs.Prelude.{bit_and, ◌≡◌, ℕ, ◌+◌, ◌*◌, ◌/◌, ◌%◌, ◌<◌, ◌≤◌, [], true, false};
ghost use Rattle.std.specs.Bool.{OnTrue};
ghost use Rattle.sfi_masks.specs.Masks.{is_in, IsFreeAccess, word_at as block_word};
ghost use Rattle.sfi_formats.specs.Formats.{has_stack};
ghost use Rattle.sfi_scan.specs.declared.before.Before.{Before};
ghost use Rattle.sfi_image.specs.declared.bundle.BundlePlace.{BundlePlace};
ghost use Rattle.sfi_rules.specs.Readings.{IsWithin, IsWithinBlock, bundle_at, block_bundle};
ghost use Rattle.sfi_rules.specs.Findings.{AreReadingFindings};
ghost use Rattle.sfi_scan.specs.private.Blocks.{AreStarts, AreAfterTwo, AreThreeWords, IsWithout, IsWritten, IsOfWrite, offset, words_from, IsCleanAt};
ghost use Rattle.sfi_scan.specs.private.Blocks.{half_at, word_at, AreWordsFrom, AreBefore};

use crate::clean::{
    Words, are_stack_pair_words, half_at, is_allowed_stack_write, is_clean, may_access, word_at,
};
use rv_comp::outline16;
use rv_word::{Reg, outline32};
use sfi_formats::BUNDLE_SIZE;
use sfi_masks::{BLOCK_BYTES, masks_of};
use sfi_rules::BundlePlace;

/// Every second halfword, from the first.
pub(crate) const EVEN: u64 = 0x5555_5555_5555_5555;
/// The last halfword of each bundle.
const LAST: u64 = 0x8080_8080_8080_8080;
/// The first three halfwords of each bundle.
const FIRST_THREE: u64 = 0x0707_0707_0707_0707;
/// The last four halfwords of each bundle.
const LAST_FOUR: u64 = 0xf0f0_f0f0_f0f0_f0f0;

/// Whether bit i of the mask is set.
#[inline(always)]
pub(crate) fn has_bit(mask: u64, i: usize) -> bool
    requires { i < 64 }
    ensures { result ≡ is_in mask i }
{
    mask >> i & 1 == 1
}

/// The bits of `mask` that `other` hasn't.
#[inline(always)]
pub(crate) fn bits_without(mask: u64, other: u64) -> u64
    ensures { IsWithout mask other result }
{
    mask & !other
}

/// Guesses where instructions begin. A halfword of `long`, whose two lowest bits are 11, begins a
/// 32-bit instruction if it begins any; in a run of these, alternate halfwords are second halves.
/// The carries of one addition find them (Langdale and Lemire, "Parsing Gigabytes of JSON per
/// Second", 2019). No proof rests on this: [`are_starts`] sees whether it is right, and a wrong
/// guess only costs time.
#[inline(always)]
fn starts_of(long: u64) -> u64 {
    let follows = long << 1;
    let odd = long & !EVEN & !follows;
    let seconds = (EVEN ^ odd.wrapping_add(long) << 1) & follows;
    !seconds
}

/// Whether instructions begin exactly at `starts`, and none crosses a bundle's end. `long` has the
/// halfwords whose two lowest bits are 11.
#[inline(always)]
fn are_starts(starts: u64, long: u64) -> bool
    ensures { OnTrue result (AreStarts starts (bit_and starts long)) }
{
    let words = starts & long;
    starts == !(words << 1) && words & LAST == 0
}

/// The halfwords directly before which two 32-bit instructions lie in the same bundle: an
/// instruction directly after a masked pair begins at one of these.
#[inline(always)]
fn after_two(words: u64) -> u64
    ensures { AreAfterTwo words result }
{
    (words & words >> 2) << 4 & LAST_FOUR
}

/// Where the first of three 32-bit instructions begins that lie one after another in one bundle.
#[inline(always)]
fn three_words(words: u64) -> u64
    ensures { AreThreeWords words result }
{
    words & words >> 2 & words >> 4 & FIRST_THREE
}

/// The place of bundle `bundle` of the block, counted from 0. None of a block is a listed gate's.
#[inline(always)]
pub(crate) fn bundle_at(place: &BundlePlace, bundle: usize) -> BundlePlace
    requires within { IsWithinBlock place.now }
    requires number { bundle < 8 }
    ensures is { result ≡ bundle_at place.now bundle }
    ensures within { IsWithin result }
{
    BundlePlace {
        address: place.address + BUNDLE_SIZE * bundle as u32,
        listed: false,
        ..*place
    }
}

/// The halfword with index `i`.
#[inline(always)]
fn half_of(block: &[u8; BLOCK_BYTES], i: usize) -> u16
    requires { i < 64 }
    ensures { result ≡ half_at (block_bundle block.now (i / 8)) (offset i) }
{
    half_at(block, 2 * i)
}

/// The word that begins with halfword `i`.
#[inline(always)]
fn word_of(block: &[u8; BLOCK_BYTES], i: usize) -> u32
    requires place { i < 64 }
    requires inside { i % 8 < 7 }
    ensures in_block { result ≡ block_word block.now i }
    ensures in_bundle { result ≡ word_at (block_bundle block.now (i / 8)) (offset i) }
{
    word_at(block, 2 * i)
}

/// The words of the two instructions directly before halfword `i`, or zeros, which no pair has,
/// unless both have 32 bits and lie in its bundle, as `after` says.
#[inline(always)]
fn words_before_half(block: &[u8; BLOCK_BYTES], after: u64, i: usize) -> Words
    requires place { i < 64 }
    requires after { (words : ℕ) × AreAfterTwo words after }
    ensures { (before : Before) → AreWordsFrom (block_bundle block.now (i / 8)) (offset i)
        (words_from after i (offset i)) before → AreBefore result before }
{
    if !has_bit(after, i) {
        return Words {
            first: 0,
            second: 0,
        };
    }
    Words {
        first: word_of(block, i - 4),
        second: word_of(block, i - 2),
    }
}

/// Whether the load or store at halfword `i`, which writes no register that it may not, breaks no
/// rule: whether its base has its pair, or is the stack pointer.
#[inline(always)]
fn is_clean_access_at(stack: bool, block: &[u8; BLOCK_BYTES], after: u64, i: usize) -> bool
    requires place { i < 64 }
    requires inside { i % 8 < 7 }
    requires after { (words : ℕ) × AreAfterTwo words after }
    requires access { IsFreeAccess stack (block_word block.now i) }
    ensures { (b : BundlePlace) → stack ≡ has_stack b.format →
        OnTrue result (IsCleanAt b block.now true after i) }
{
    let base = Reg::numbered((word_of(block, i) >> 15 & 0b11111) as u8);
    may_access(stack, words_before_half(block, after, i), base)
}

/// The bits of `accesses` whose load or store breaks no rule. `accesses` has only 32-bit ones that
/// write no register that they may not.
#[inline(always)]
fn clean_accesses(stack: bool, block: &[u8; BLOCK_BYTES], after: u64, accesses: u64) -> u64
    requires inside { (i : ℕ) → i < 64 → is_in accesses i ≡ true → i % 8 < 7 }
    requires after { (words : ℕ) × AreAfterTwo words after }
    requires access { (i : ℕ) → i < 64 → is_in accesses i ≡ true →
        IsFreeAccess stack (block_word block.now i) }
    ensures within { (i : ℕ) → is_in result i ≡ true → is_in accesses i ≡ true }
    ensures clean { (i : ℕ) → is_in result i ≡ true → (b : BundlePlace) →
        stack ≡ has_stack b.format → IsCleanAt b block.now true after i }
{
    let mut clean = 0;
    let mut rest = accesses;
    while rest != 0 {
        let i = rest.trailing_zeros() as usize;
        if is_clean_access_at(stack, block, after, i) {
            clean |= 1 << i;
        }
        rest &= rest - 1;
    }
    clean
}

/// Whether the instruction at halfword `i` is seen by its outline to break no rule. It has 32 bits
/// if bit i of `words` is set, else 16.
#[inline(always)]
fn is_clean_at(
    place: &BundlePlace,
    stack: bool,
    block: &[u8; BLOCK_BYTES],
    words: u64,
    after: u64,
    i: usize,
) -> bool
    requires within { IsWithinBlock place.now }
    requires stack { stack ≡ has_stack place.now.format }
    requires place { i < 64 }
    requires inside { is_in words i ≡ true → i % 8 < 7 }
    requires after { (words : ℕ) × AreAfterTwo words after }
    ensures { OnTrue result (IsCleanAt place.now block.now (is_in words i) after i) }
{
    let outline = if has_bit(words, i) {
        outline32(word_of(block, i))
    } else {
        outline16(half_of(block, i))
    };
    match outline {
        Some(outline) => {
            let bundle = bundle_at(place, i / 8);
            let address = bundle.address + 2 * (i % 8) as u32;
            is_clean(
                &bundle,
                stack,
                address,
                words_before_half(block, after, i),
                outline,
            )
        }
        None => false,
    }
}

/// The bits of `others` whose instruction is seen by its outline to break no rule.
#[inline(always)]
fn clean_others(
    place: &BundlePlace,
    stack: bool,
    block: &[u8; BLOCK_BYTES],
    words: u64,
    after: u64,
    others: u64,
) -> u64
    requires within { IsWithinBlock place.now }
    requires stack { stack ≡ has_stack place.now.format }
    requires inside { (i : ℕ) → i < 64 → is_in words i ≡ true → i % 8 < 7 }
    requires after { (words : ℕ) × AreAfterTwo words after }
    ensures { (i : ℕ) → is_in result i ≡ true →
        IsCleanAt place.now block.now (is_in words i) after i }
{
    let mut clean = 0;
    let mut rest = others;
    while rest != 0 {
        let i = rest.trailing_zeros() as usize;
        if is_clean_at(place, stack, block, words, after, i) {
            clean |= 1 << i;
        }
        rest &= rest - 1;
    }
    clean
}

/// Whether the instruction at halfword `i` writes the stack pointer, and the pair directly after it
/// puts that back into the data.
#[inline(always)]
fn is_written(block: &[u8; BLOCK_BYTES], words: u64, i: usize) -> bool
    requires place { i < 64 }
    requires three { (three : ℕ) × AreThreeWords words three × (is_in three i ≡ true) }
    ensures { OnTrue result (IsWritten block.now words i) }
{
    if !are_stack_pair_words(word_of(block, i + 2), word_of(block, i + 4)) {
        return false;
    }
    is_allowed_stack_write(word_of(block, i))
}

/// The bits of `places` whose instruction writes the stack pointer, which the pair after it puts
/// back into the data, with the bits of that pair's words. 0 in a format without a stack pointer.
#[inline(always)]
fn stack_writes(stack: bool, block: &[u8; BLOCK_BYTES], words: u64, places: u64) -> u64
    ensures stack { (i : ℕ) → is_in result i ≡ true → stack ≡ true }
    ensures writes { (i : ℕ) → is_in result i ≡ true → IsOfWrite block.now words i }
{
    if !stack {
        return 0;
    }
    let mut written: u64 = 0;
    let three = three_words(words);
    let mut rest = places & three;
    while rest != 0 {
        let i = rest.trailing_zeros() as usize;
        if is_written(block, words, i) {
            written = written | 1 << i | 1 << (i + 2) | 1 << (i + 4);
        }
        rest &= rest - 1;
    }
    written
}

/// A mask with bits in each bundle that isn't seen to be clean: at the instructions that may break
/// a rule; or at all halfwords of the block, where instructions don't begin as guessed, or one
/// crosses a bundle's end. `STACK` as in `masks_of`.
#[inline(always)]
fn doubtful_places<const STACK: bool>(place: &BundlePlace, block: &[u8; BLOCK_BYTES]) -> u64
    requires within { IsWithinBlock place.now }
    requires stack { STACK ≡ has_stack place.now.format }
    ensures { (k : ℕ) → k < 8 → ((j : ℕ) → j < 8 → is_in result (8 * k + j) ≡ false) →
        AreReadingFindings (bundle_at place.now k) (block_bundle block.now k) [] }
{
    let masks = masks_of::<STACK>(block);
    let starts = starts_of(masks.long);
    if !are_starts(starts, masks.long) {
        return u64::MAX;
    }
    let left = bits_without(starts, masks.free);
    if left == 0 {
        return 0;
    }
    let words = starts & masks.long;
    let after = after_two(words);
    let accesses = clean_accesses(STACK, block, after, left & words & masks.access);
    let others = bits_without(left, accesses);
    let rest = bits_without(
        others,
        clean_others(place, STACK, block, words, after, others),
    );
    bits_without(rest, stack_writes(STACK, block, words, rest))
}

/// A bit for each bundle in which `places` has no bit, the lowest for the first bundle.
#[inline(always)]
fn bundles_without(places: u64) -> u8
    ensures { (k : ℕ) → k < 8 → is_in result k ≡ true →
        (j : ℕ) → j < 8 → is_in places (8 * k + j) ≡ false }
{
    if places == 0 {
        return u8::MAX;
    }
    let mut bundles: u8 = 0;
    let mut k: usize = 0;
    while k < 8 {
        if places >> (8 * k) & 0xff == 0 {
            bundles |= 1 << k;
        }
        k += 1;
    }
    bundles
}

/// A bit for each bundle of the block that is seen to break no rule, the lowest for the first. One
/// that isn't seen to may still break none. `place` is that of the first; none of the eight is a
/// gate's or the region's last.
pub fn clean_bundles(place: &BundlePlace, block: &[u8; BLOCK_BYTES]) -> u8
    requires { IsWithinBlock place.now }
    ensures { (i : ℕ) → i < 8 → is_in result i ≡ true →
        AreReadingFindings (bundle_at place.now i) (block_bundle block.now i) [] }
{
    let places = if place.format.has_stack() {
        doubtful_places::<true>(place, block)
    } else {
        doubtful_places::<false>(place, block)
    };
    bundles_without(places)
}
