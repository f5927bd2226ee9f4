//! A first look at a block, eight bundles of code in words, at once. Of a mask bit i is for the
//! block's halfword i, at byte 2 * i; a word goes by its first, so its bit is even.
//!
//! `sfi_masks` tells most words to be free: they break no rule where nothing is owed before them,
//! and leave nothing owed. The rest is tested here: pairs of words, steps (`addi d, d, k` of a data
//! register) that the next word uses, jumps. Words that this doesn't see to be clean are scanned
//! exactly, in order, by what is owed. `place` is that of the block's first bundle. The definitions
//! are in specs/private/Words.
ghost use Rattle.std.specs.Prelude.{◌≡◌, ℕ, ◌+◌, ◌-◌, ◌*◌, ◌%◌, ◌^◌, ◌<◌, ◌≤◌, ◌⊎◌, true, false, IfSome};
ghost use Rattle.std.specs.Bool.{OnTrue};
ghost use Rattle.rv_word.specs.Spelling.{IsWordOf};
ghost use Rattle.rv_word.specs.declared.instr.Instr.{Instr};
ghost use Rattle.sfi_formats.specs.Formats.{has_single_mask};
ghost use Rattle.sfi_masks.specs.Masks.{is_in, IsFreeWordBy, IsSingleMask, may_write_in_words, may_be_on_in_words, word_at as block_word};
ghost use Rattle.sfi_rules.specs.Readings.{IsWithinBlock};
ghost use Rattle.sfi_rules.specs.declared.owed.Owed.TheVariants.{Nothing};
ghost use Rattle.sfi_scan.specs.private.Words.{IsToldFree, IsQuietWord, IsSteppedWord, IsSeen, IsCleanWord, AreCleanWords, IsMasking, IsPlacing, IsPair, IsPairAt, IsStepOf, IsOffset, is_dropped, IsUseOf, IsUsedStep};

use crate::block::{EVEN, bits_without, bundle_at};
use crate::clean::word_at;
use crate::findings::BundleFindings;
use crate::words::look::is_clean_jump_word;
use crate::words::word::scan_word;
use rv_word::{Reg, access32};
use sfi_formats::Format;
use sfi_masks::{BLOCK_BYTES, Masks, single_masks_of, word_masks_of};
use sfi_pairs::{is_data_register, is_data_register_in};
use sfi_rules::{BundlePlace, Owed};

/// The word of `and x31, x0, x27`: the first step of a mask of data, with the bits of its operand
/// cleared.
const MASKING: u32 = 0x01b0_7fb3;

/// The bits of a word that name its first operand.
const OPERAND: u32 = 0b11111 << 15;

/// The word of `or x0, x31, x26`: the second step, with the bits of its destination cleared.
const PLACING: u32 = 0x01af_e033;

/// The bits of a word that name its destination.
const DESTINATION: u32 = 0b11111 << 7;

/// The word of `and x30, x0, x25`: the first step of a mask of code, with the bits of its operand
/// cleared.
const CODE_MASKING: u32 = 0x0190_7f33;

/// The word of `or x30, x30, x24`, the second step.
const CODE_PLACING: u32 = 0x018f_6f33;

/// The largest offset in bytes, up or down, of an access on a data register directly after a step
/// of it.
const SLACK: u32 = sfi_formats::SLACK;

/// The bits that name what a load writes, and the one that is set in a store's opcode and not in a
/// load's: of a load or store all are 0 where it loads into x0.
const LOADED: u32 = 0b11111 << 7 | 1 << 5;

/// The words that aren't free by the masks: a word is free if it is a free instruction of 32 bits,
/// or two free ones of 16.
#[inline(always)]
fn not_free(masks: Masks) -> u64
    ensures words { (i : ℕ) → i < 64 → is_in result i ≡ true → i % 2 ≡ 0 }
    ensures free { (n : ℕ) → n < 32 → is_in result (2 * n) ≡ false → IsToldFree masks (2 * n) }
{
    let short = bits_without(masks.free, masks.long);
    bits_without(EVEN, masks.free & (masks.long | short >> 1))
}

/// Whether the word is `and x31, a, x27` for some `a`.
#[inline(always)]
fn is_any_data_masking_word(word: u32) -> bool
    ensures { OnTrue result (IsMasking word) }
{
    word & !OPERAND == MASKING
}

/// Whether the word is `or d, x31, x26`, where d is a data register.
#[inline(always)]
fn is_any_data_placing_word(word: u32) -> bool
    ensures { OnTrue result (IsPlacing word) }
{
    if word & !DESTINATION != PLACING {
        return false;
    }
    is_data_register(Reg::numbered((word >> 7 & 0b11111) as u8))
}

/// Whether the words are both steps of a mask, so that together they break no rule and leave
/// nothing owed, where nothing is owed before them: of a data register, where such a mask has two
/// steps, or `and x30, a, x25` and `or x30, x30, x24`.
#[inline(always)]
fn are_pair_words(format: Format, first: u32, second: u32) -> bool
    ensures { OnTrue result (IsPair format first second) }
{
    if is_any_data_masking_word(first) {
        if format.has_single_mask() {
            return false;
        }
        return is_any_data_placing_word(second);
    }
    if first & !OPERAND != CODE_MASKING {
        return false;
    }
    second == CODE_PLACING
}

/// The bits of `words` at which a pair begins, whose second word is of `words`, too.
#[inline(always)]
fn pairs_in(format: Format, block: &[u8; BLOCK_BYTES], words: u64) -> u64
    requires { (i : ℕ) → i < 64 → is_in words i ≡ true → i % 2 ≡ 0 }
    ensures { (i : ℕ) → is_in result i ≡ true → IsPairAt format block.now i }
{
    let mut pairs = 0;
    let mut rest = words & words >> 2;
    while rest != 0 {
        let i = rest.trailing_zeros() as usize;
        let first = word_at(block, 2 * i);
        let second = word_at(block, 2 * i + 4);
        if are_pair_words(format, first, second) {
            pairs |= 1 << i;
        }
        rest &= rest - 1;
    }
    pairs
}

/// Whether the word is `addi d, d, k` for some k.
#[inline(always)]
fn is_step_of(d: Reg, word: u32) -> bool
    ensures { OnTrue result (IsStepOf d word) }
{
    // Bits 19:0 hold both registers, funct3 and the opcode.
    word & 0xf_ffff == u32::from(d.number()) * 0x8080 + 0x13
}

/// The twelve bits of the word's offset, below 4096, if it is a load or store; else any number
/// below that.
#[inline(always)]
fn offset_bits(word: u32) -> u32
    ensures small { result < 2 ^ 12 }
    ensures offset { (i : Instr) → IsWordOf word i → IsOffset i result }
{
    // The opcodes of the two differ in bit 5.
    if word >> 5 & 1 == 0 {
        word >> 20
    } else {
        (word >> 25) * 32 + (word >> 7 & 0b11111)
    }
}

/// Whether the word, a load or store, loads into x0. A processor may drop such a load, so it isn't
/// sure to trap outside the data.
#[inline(always)]
fn is_dropped(word: u32) -> bool
    ensures { (i : Instr) → IsWordOf word i → result ≡ false → is_dropped i ≡ false }
{
    word & LOADED == 0
}

/// Whether the word is a load or store on d with an offset of at most `SLACK`, up or down, and no
/// load into x0: `is_use` of `sfi_pairs` for the word's bits.
#[inline(always)]
fn is_use_of(d: Reg, word: u32) -> bool
    ensures { OnTrue result (IsUseOf d word) }
{
    let Some(access) = access32(word) else {
        return false;
    };
    if access.base != d {
        return false;
    }
    if is_dropped(word) {
        return false;
    }
    // Modulo 4096 the offsets allowed are one range only after this shift.
    (offset_bits(word) + SLACK & 0xfff) <= 2 * SLACK
}

/// Whether the word steps a data register, which the next one uses, so that no mask of it is owed.
#[inline(always)]
fn is_used_step(format: Format, word: u32, next: u32) -> bool
    ensures { OnTrue result (IsUsedStep format word next) }
{
    let d = Reg::numbered((word >> 7 & 0b11111) as u8);
    if !is_data_register_in(format, d) {
        return false;
    }
    if !is_step_of(d, word) {
        return false;
    }
    is_use_of(d, next)
}

/// The bits of `words` that step a data register directly before an access on it, which is a word
/// of `free` and not of `words`. `free` has the starts of free instructions of 32 bits.
#[inline(always)]
fn used_steps(place: &BundlePlace, block: &[u8; BLOCK_BYTES], free: u64, words: u64) -> u64
    requires within { IsWithinBlock place.now }
    requires words { (i : ℕ) → i < 64 → is_in words i ≡ true → i % 2 ≡ 0 }
    requires free { (i : ℕ) → i < 64 → i % 2 ≡ 0 → is_in free i ≡ true →
        IsFreeWordBy may_write_in_words (may_be_on_in_words (has_single_mask place.now.format)) (block_word block.now i) }
    ensures stepped { (i : ℕ) → is_in result i ≡ true → IsSteppedWord place.now block.now i }
    ensures apart { (i : ℕ) → is_in result i ≡ true → is_in words (i + 2) ≡ false }
{
    let mut steps = 0;
    let mut rest = bits_without(words & free >> 2, words >> 2);
    while rest != 0 {
        let i = rest.trailing_zeros() as usize;
        let word = word_at(block, 2 * i);
        let next = word_at(block, 2 * i + 4);
        if is_used_step(place.format, word, next) {
            steps |= 1 << i;
        }
        rest &= rest - 1;
    }
    steps
}

/// Whether the word at halfword `i` is a jump or branch that breaks no rule, where nothing is owed
/// before it.
#[inline(always)]
fn is_clean_jump_at(place: &BundlePlace, block: &[u8; BLOCK_BYTES], i: usize) -> bool
    requires within { IsWithinBlock place.now }
    requires word { i % 2 ≡ 0 }
    requires inside { i < 64 }
    ensures { OnTrue result (IsCleanWord place.now block.now i Nothing Nothing) }
{
    let bundle = bundle_at(place, i / 8);
    let address = place.address + 2 * i as u32;
    is_clean_jump_word(&bundle, address, word_at(block, 2 * i))
}

/// The bits of `words` that are jumps or branches which break no rule, where nothing is owed before
/// them.
#[inline(always)]
fn clean_jumps(place: &BundlePlace, block: &[u8; BLOCK_BYTES], words: u64) -> u64
    requires within { IsWithinBlock place.now }
    requires words { (i : ℕ) → i < 64 → is_in words i ≡ true → i % 2 ≡ 0 }
    ensures { (i : ℕ) → is_in result i ≡ true → IsCleanWord place.now block.now i Nothing Nothing }
{
    let mut plain = 0;
    let mut rest = words;
    while rest != 0 {
        let i = rest.trailing_zeros() as usize;
        if is_clean_jump_at(place, block, i) {
            plain |= 1 << i;
        }
        rest &= rest - 1;
    }
    plain
}

/// The bits of `words` that aren't seen to break no rule, by themselves or with the word beside
/// them, where nothing is owed before them. `free` has the starts of free instructions of 32 bits.
#[inline(always)]
fn doubtful_words(place: &BundlePlace, block: &[u8; BLOCK_BYTES], words: u64, free: u64) -> u64
    requires within { IsWithinBlock place.now }
    requires words { (i : ℕ) → i < 64 → is_in words i ≡ true → i % 2 ≡ 0 }
    requires quiet { (n : ℕ) → n < 32 → is_in words (2 * n) ≡ false → IsQuietWord place.now block.now (2 * n) }
    requires free { (i : ℕ) → i < 64 → i % 2 ≡ 0 → is_in free i ≡ true →
        IsFreeWordBy may_write_in_words (may_be_on_in_words (has_single_mask place.now.format)) (block_word block.now i) }
    ensures words { (i : ℕ) → i < 64 → is_in result i ≡ true → i % 2 ≡ 0 }
    ensures others { (n : ℕ) → n < 32 → is_in result (2 * n) ≡ false →
        IsSeen place.now block.now result (2 * n) }
{
    let pairs = pairs_in(place.format, block, words);
    let others = bits_without(words, pairs | pairs << 2);
    let rest = bits_without(others, used_steps(place, block, free, others));
    bits_without(rest, clean_jumps(place, block, rest))
}

/// What is owed after the word at halfword `i`, if it breaks no rule with `owed` before it; `None`
/// if it breaks one. `findings` is room to work in. Not inlined, since few words get here.
#[inline(never)]
fn after_scanned_word(
    place: &BundlePlace,
    block: &[u8; BLOCK_BYTES],
    i: usize,
    owed: Owed,
    findings: &mut BundleFindings,
) -> Option<Owed>
    requires within { IsWithinBlock place.now }
    requires word { i % 2 ≡ 0 }
    requires inside { i < 64 }
    ensures { IfSome result (IsCleanWord place.now block.now i owed) }
{
    findings.clear();
    let bundle = bundle_at(place, i / 8);
    let address = place.address + 2 * i as u32;
    let next = scan_word(&bundle, address, &block[2 * i..2 * i + 4], owed, findings);
    if findings.count() == 0 {
        Some(next)
    } else {
        None
    }
}

/// The first set bit of `words` from bit `at` on, or 64.
#[inline(always)]
fn first_word_from(words: u64, at: usize) -> usize
    requires { at < 64 }
    ensures from { at ≤ result }
    ensures end { result ≤ 64 }
    ensures none { (i : ℕ) → at ≤ i → i < result → is_in words i ≡ false }
    ensures one { result < 64 → is_in words result ≡ true }
{
    let ahead = words >> at;
    if ahead == 0 {
        return 64;
    }
    at + ahead.trailing_zeros() as usize
}

/// The halfword at which the next word to look at begins: `at` if something is owed, else the first
/// set bit of `words` from there on, or 64 where there is none.
#[inline(always)]
fn next_word_from(words: u64, at: usize, owed: Owed) -> usize
    requires { at < 64 }
    ensures from { at ≤ result }
    ensures end { result ≤ 64 }
    ensures none { (i : ℕ) → at ≤ i → i < result → is_in words i ≡ false }
    ensures one { (result ≡ at) ⊎ (result < 64 → is_in words result ≡ true) }
    ensures skipped { (result ≡ at) ⊎ (owed ≡ Nothing) }
{
    if matches!(owed, Owed::Nothing) {
        first_word_from(words, at)
    } else {
        at
    }
}

/// What is owed after the block, if none of its words from word `from` on, 0 to 31, breaks a rule
/// with `owed` before them; else `None`. Only those of `words` are looked at, and any before which
/// something is owed: each other is seen already to break no rule where nothing is.
#[inline(always)]
fn after_words(
    place: &BundlePlace,
    block: &[u8; BLOCK_BYTES],
    words: u64,
    from: usize,
    owed: Owed,
    findings: &mut BundleFindings,
) -> Option<Owed>
    requires within { IsWithinBlock place.now }
    requires words { (i : ℕ) → i < 64 → is_in words i ≡ true → i % 2 ≡ 0 }
    requires others { (n : ℕ) → n < 32 → is_in words (2 * n) ≡ false →
        IsSeen place.now block.now words (2 * n) }
    requires inside { from < 32 }
    ensures { IfSome result (AreCleanWords place.now owed block.now from (32 - from)) }
{
    let mut left = owed;
    let mut at = 2 * from;
    while at < 64 {
        let i = next_word_from(words, at, left);
        if i == 64 {
            return Some(left);
        }
        left = after_scanned_word(place, block, i, left, findings)?;
        at = i + 2;
    }
    Some(left)
}

/// `words` without the words `and d, a, x27` among them, d being a data register, if `single` says
/// that one such masks d: they break no rule, and leave nothing owed. If `words` is empty, none are
/// looked for.
#[inline(always)]
fn without_single_masks(single: bool, block: &[u8; BLOCK_BYTES], words: u64) -> u64
    ensures words { (i : ℕ) → i < 64 → is_in result i ≡ true → is_in words i ≡ true }
    ensures masks { (i : ℕ) → i % 8 < 7 → i < 64 → is_in words i ≡ true → is_in result i ≡ false →
        (single ≡ true) × IsSingleMask (block_word block.now i) }
{
    if !single {
        return words;
    }
    if words == 0 {
        return words;
    }
    bits_without(words, single_masks_of(block))
}

/// Whether nothing is owed.
#[inline(always)]
fn is_nothing(owed: Owed) -> bool
    ensures { OnTrue result (owed ≡ Nothing) }
{
    matches!(owed, Owed::Nothing)
}

/// What is owed after the block, if its words from word `from` on, 0 to 31, with `owed` before
/// them, are seen to break no rule; else `None`. None of its bundles is the region's last, nor a
/// gate's. `SINGLE` as in `word_masks_of`.
#[inline(always)]
pub(crate) fn look_at_block<const SINGLE: bool>(
    place: &BundlePlace,
    block: &[u8; BLOCK_BYTES],
    from: usize,
    owed: Owed,
    findings: &mut BundleFindings,
) -> Option<Owed>
    requires within { IsWithinBlock place.now }
    requires single { SINGLE ≡ has_single_mask place.now.format }
    requires inside { from < 32 }
    ensures { IfSome result (AreCleanWords place.now owed block.now from (32 - from)) }
{
    let masks = word_masks_of::<SINGLE>(block);
    // Each other word breaks no rule if nothing is owed before it, and leaves nothing owed.
    let words = without_single_masks(SINGLE, block, not_free(masks));
    if words == 0 {
        if is_nothing(owed) {
            return Some(Owed::Nothing);
        }
    }
    // A copy, so that the place isn't put together in memory where it isn't needed.
    let there = *place;
    let left = doubtful_words(&there, block, words, masks.free & masks.long);
    after_words(&there, block, left, from, owed, findings)
}
