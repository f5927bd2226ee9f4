//! A first look at a bundle: whether it breaks no rule. It goes by the bits of words and by
//! outlines (what an instruction does, without its values), and decodes none in full, so it is
//! quick; what it doesn't let pass may still be clean, and is read exactly.
//!
//! In all functions `stack` says whether the format has a stack pointer; it is passed, not asked
//! for, so that each format's code is compiled apart. `at` is an offset in the bundle in bytes, and
//! `from` the offset from which all instructions up to `at` have 32 bits. The definitions are in
//! specs/private/Blocks.
ghost use Rattle.std.specs.Prelude.{◌≡◌, ◌+◌, ◌<◌, ◌≤◌, ◌&&◌, not, List, [], length, false, true};
ghost use Rattle.std.specs.Bool.{OnTrue};
ghost use Rattle.rv_comp.specs.Fronts.{IsShortSpelling};
ghost use Rattle.rv_word.specs.declared.instr.Instr.{Instr};
ghost use Rattle.rv_word.specs.Spelling.{IsWordOf};
ghost use Rattle.sfi_formats.specs.Formats.{has_stack};
ghost use Rattle.sfi_scan.specs.declared.before.Before.{Before};
ghost use Rattle.sfi_rules.specs.Readings.{IsWithin};
ghost use Rattle.sfi_rules.specs.Findings.{AreReadingFindings};
ghost use Rattle.sfi_scan.specs.private.Blocks.{near};
ghost use Rattle.sfi_formats.specs.Limits.{bundle_size};
ghost use Rattle.sfi_formats.specs.Formats.{is_reserved};
ghost use Rattle.sfi_rules.specs.Readings.{follows_pair, follows_code_pair};
ghost use Rattle.sfi_rules.specs.Rules.{is_last_bundle, may_access};
ghost use Rattle.sfi_scan.specs.private.Blocks.{half_at, word_at, AreWordsFrom, AreBefore, is_zero, is_protected, is_clean, is_clean_access, IsCleanOne, IsStackWrite, AreStackPair};

use crate::before::{CODE, DATA, Pair, may_be_target};
use crate::rules::{STACK, is_bundle_start, is_last_bundle, offset_by};
use crate::tables::{are_data_pair, is_free_half};
use rv_comp::outline16;
use rv_word::{Access, Outline, Reg, RegOp, access32, computes32, op_word, outline32};
use sfi_formats::BUNDLE_BYTES;
use sfi_pairs::is_reserved;
use sfi_rules::BundlePlace;

/// The words of the two instructions directly before a place in its bundle. Both are 0, which no
/// pair has, unless both are 32-bit instructions.
#[derive(Clone, Copy)]
pub(crate) struct Words {
    pub(crate) first: u32,
    pub(crate) second: u32,
}

/// The little-endian halfword that begins at byte `at`.
#[inline(always)]
pub(crate) fn half_at(bytes: &[u8], at: usize) -> u16
    requires { at + 2 ≤ length bytes.now }
    ensures { result ≡ half_at bytes.now at }
{
    let Some(half) = bytes[at..at + 2].as_array::<2>() else {
        unreachable!();
    };
    u16::from_le_bytes(*half)
}

/// The little-endian word that begins at byte `at`.
#[inline(always)]
pub(crate) fn word_at(bytes: &[u8], at: usize) -> u32
    requires { at + 4 ≤ length bytes.now }
    ensures { result ≡ word_at bytes.now at }
{
    let Some(word) = bytes[at..at + 4].as_array::<4>() else {
        unreachable!();
    };
    u32::from_le_bytes(*word)
}

/// The words of the two instructions directly before byte `at`: those between `from` and `at` have
/// 32 bits. Zeros where there are fewer than two.
#[inline(always)]
fn words_before(bytes: &[u8; BUNDLE_BYTES], at: usize, from: usize) -> Words
    requires order { from ≤ at }
    requires end { at ≤ bundle_size }
    ensures { (before : Before) →
        AreWordsFrom bytes.now at from before → AreBefore result before }
{
    if at - from < 8 {
        return Words {
            first: 0,
            second: 0,
        };
    }
    Words {
        first: word_at(bytes, at - 8),
        second: word_at(bytes, at - 4),
    }
}

impl Words {
    /// Whether the two words spell `pair` with `target`, which is neither x0 nor reserved.
    #[inline(always)]
    fn is_pair(self, pair: Pair, target: Reg) -> bool
        requires mask { pair.mask < 32 }
        requires base { pair.base < 32 }
        ensures { (earlier : List Instr) → AreBefore self (near earlier) →
            OnTrue result (follows_pair pair.mask pair.base target earlier ≡ true) }
    {
        let (mask, base) = (Reg::numbered(pair.mask), Reg::numbered(pair.base));
        let any = Reg::numbered((self.first >> 15 & 0b11111) as u8);
        let placing = op_word(RegOp::Or, target, target, base);
        if placing != self.second {
            return false;
        }
        let masking = op_word(RegOp::And, target, any, mask);
        if masking != self.first {
            return false;
        }
        may_be_target(target)
    }
}

/// Whether a write of the register may break V4 or V10, so that no instruction that writes it
/// passes on its own: it is reserved, or the stack pointer.
#[inline(always)]
fn is_protected(stack: bool, reg: Reg) -> bool
    ensures { (b : BundlePlace) → stack ≡ has_stack b.format → result ≡ is_protected b reg }
{
    is_reserved(reg) || (stack && reg.number() == STACK)
}

/// Whether an access on this base, directly after these words, doesn't break V5: so it stays in the
/// data and its guard zones.
#[inline(always)]
pub(crate) fn may_access(stack: bool, words: Words, base: Reg) -> bool
    ensures { (b : BundlePlace) (earlier : List Instr) →
        stack ≡ has_stack b.format → AreBefore words (near earlier) →
        OnTrue result (may_access b base earlier ≡ true) }
{
    (stack && base.number() == STACK) || are_data_pair(words.first, words.second, base)
}

/// Whether a load or store with these registers, directly after these words, breaks no rule.
/// `written` is x0 for a store.
#[inline(always)]
fn is_clean_access(stack: bool, words: Words, access: Access) -> bool
    ensures { (b : BundlePlace) (earlier : List Instr) →
        stack ≡ has_stack b.format → AreBefore words (near earlier) →
        OnTrue result (is_clean_access b access earlier ≡ true) }
{
    !is_protected(stack, access.written) && may_access(stack, words, access.base)
}

/// Whether `jalr rd, imm(base)`, directly after these words, breaks no rule.
#[inline(always)]
fn is_clean_indirect_jump(
    place: &BundlePlace,
    stack: bool,
    words: Words,
    rd: Reg,
    base: Reg,
    imm: i32,
) -> bool
    requires { stack ≡ has_stack place.now.format }
    ensures { (earlier : List Instr) → AreBefore words (near earlier) →
        OnTrue result ((not (is_protected place.now rd)
        && (is_zero imm && follows_code_pair base earlier)) ≡ true) }
{
    if imm != 0 {
        return false;
    }
    if is_protected(stack, rd) {
        return false;
    }
    words.is_pair(CODE, base)
}

/// Whether an instruction with this outline at `address`, directly after these words, breaks no
/// rule. The bundle isn't the region's last, whose end has a rule of its own. A new rule has to
/// make this false where it may be broken.
#[inline(always)]
pub(crate) fn is_clean(
    place: &BundlePlace,
    stack: bool,
    address: u32,
    words: Words,
    outline: Outline,
) -> bool
    requires within { IsWithin place.now }
    requires stack { stack ≡ has_stack place.now.format }
    ensures { (earlier : List Instr) → AreBefore words (near earlier) →
        OnTrue result (is_clean place.now address earlier outline ≡ true) }
{
    match outline {
        Outline::Computes { rd } => !is_protected(stack, rd),
        Outline::Loads { rd, base } => {
            is_clean_access(stack, words, Access { written: rd, base })
        }
        Outline::Stores { base } => may_access(stack, words, base),
        Outline::Branches { offset } => is_bundle_start(place, offset_by(address, offset)),
        Outline::Jumps { rd, offset } => {
            !is_protected(stack, rd) && is_bundle_start(place, offset_by(address, offset))
        }
        Outline::JumpsTo { rd, base, imm } => is_clean_indirect_jump(
            place, stack, words, rd, base, imm,
        ),
        Outline::Orders | Outline::Stops => true,
        Outline::Calls => false,
    }
}

/// Whether `halfword`, at byte `at` of the bundle, is a 16-bit instruction that breaks no rule
/// there.
#[inline(always)]
fn is_clean_short(
    place: &BundlePlace,
    stack: bool,
    bytes: &[u8; BUNDLE_BYTES],
    at: usize,
    from: usize,
    halfword: u16,
) -> bool
    requires within { IsWithin place.now }
    requires stack { stack ≡ has_stack place.now.format }
    requires order { from ≤ at }
    requires end { at < bundle_size }
    ensures { OnTrue result (IsCleanOne place.now (place.now.address + at)
        (AreWordsFrom bytes.now at from) (IsShortSpelling halfword)) }
{
    if is_free_half(stack, halfword) {
        return true;
    }
    match outline16(halfword) {
        Some(outline) => {
            let words = words_before(bytes, at, from);
            is_clean(place, stack, place.address + at as u32, words, outline)
        }
        None => false,
    }
}

/// Whether `word`, at byte `at` of the bundle, is a 32-bit instruction that breaks no rule there.
/// Most compute, load or store, so these are tested first.
#[inline(always)]
fn is_clean_wide(
    place: &BundlePlace,
    stack: bool,
    bytes: &[u8; BUNDLE_BYTES],
    at: usize,
    from: usize,
    word: u32,
) -> bool
    requires within { IsWithin place.now }
    requires stack { stack ≡ has_stack place.now.format }
    requires order { from ≤ at }
    requires end { at < bundle_size }
    ensures { OnTrue result (IsCleanOne place.now (place.now.address + at)
        (AreWordsFrom bytes.now at from) (IsWordOf word)) }
{
    if computes32(word) {
        return !is_protected(stack, Reg::numbered((word >> 7 & 0b11111) as u8));
    }
    match access32(word) {
        Some(access) => is_clean_access(stack, words_before(bytes, at, from), access),
        None => match outline32(word) {
            Some(outline) => {
                let words = words_before(bytes, at, from);
                is_clean(place, stack, place.address + at as u32, words, outline)
            }
            None => false,
        },
    }
}

/// Whether the word is an instruction that computes into the stack pointer, or loads into it with
/// it as base: directly before the pair on the stack pointer it breaks no rule.
pub(crate) fn is_allowed_stack_write(word: u32) -> bool
    ensures { OnTrue result (IsStackWrite word) }
{
    match outline32(word) {
        Some(outline) => match outline {
            Outline::Computes { rd } => rd.number() == STACK,
            Outline::Loads { rd, base } => rd.number() == STACK && base.number() == STACK,
            _ => false,
        },
        None => false,
    }
}

/// Whether the words spell the pair on the stack pointer, `and x2, a, x27` and `or x2, x2, x26`.
#[inline(always)]
pub(crate) fn are_stack_pair_words(first: u32, second: u32) -> bool
    ensures { OnTrue result (AreStackPair first second) }
{
    let stack = Reg::numbered(STACK);
    let placing = op_word(RegOp::Or, stack, stack, Reg::numbered(DATA.base));
    if placing != second {
        return false;
    }
    let any = Reg::numbered((first >> 15 & 0b11111) as u8);
    let masking = op_word(RegOp::And, stack, any, Reg::numbered(DATA.mask));
    masking == first
}

/// Whether the three words from byte `at` of the bundle on are a write of the stack pointer, and
/// the pair that puts it back into the data.
#[inline(always)]
fn is_stack_written(bytes: &[u8; BUNDLE_BYTES], at: usize) -> bool
    requires { at + 12 ≤ bundle_size }
    ensures write { OnTrue result (IsStackWrite (word_at bytes.now at)) }
    ensures pair { OnTrue result
        (AreStackPair (word_at bytes.now (at + 4)) (word_at bytes.now (at + 8))) }
{
    if !are_stack_pair_words(word_at(bytes, at + 4), word_at(bytes, at + 8)) {
        return false;
    }
    is_allowed_stack_write(word_at(bytes, at))
}

/// Whether the bundle is seen to break no rule but perhaps V9, that of a gate's bundle. It is
/// compiled once for a format with a stack pointer and once for one without.
#[inline(always)]
fn looks_clean(place: &BundlePlace, stack: bool, bytes: &[u8; BUNDLE_BYTES]) -> bool
    requires within { IsWithin place.now }
    requires stack { stack ≡ has_stack place.now.format }
    ensures { OnTrue result (AreReadingFindings place.now bytes.now []) }
{
    // The region's end has a rule of its own.
    if is_last_bundle(place) {
        return false;
    }
    let mut at: usize = 0;
    // All instructions between this offset and `at` have 32 bits.
    let mut from: usize = 0;
    while at < BUNDLE_BYTES {
        let halfword = half_at(bytes, at);
        if halfword & 0b11 != 0b11 {
            if !is_clean_short(place, stack, bytes, at, from, halfword) {
                return false;
            }
            at += 2;
            from = at;
        } else if stack && at <= 4 && is_stack_written(bytes, at) {
            at += 12;
        } else {
            if at > 12 || !is_clean_wide(place, stack, bytes, at, from, word_at(bytes, at)) {
                return false;
            }
            at += 4;
        }
    }
    true
}

/// Whether the bundle is seen to break no rule but perhaps V9; false says nothing. It is
/// `looks_clean`, compiled once per kind of format, so that the first format pays nothing for the
/// second.
pub(crate) fn is_seen_clean(place: &BundlePlace, bytes: &[u8; BUNDLE_BYTES]) -> bool
    requires { IsWithin place.now }
    ensures { OnTrue result (AreReadingFindings place.now bytes.now []) }
{
    if place.format.has_stack() {
        looks_clean(place, true, bytes)
    } else {
        looks_clean(place, false, bytes)
    }
}
