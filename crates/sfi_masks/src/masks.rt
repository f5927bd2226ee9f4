//! The masks of a block of eight bundles.
ghost use Rattle.std.specs.Prelude.{◌≡◌, ℕ, ◌/◌, ◌%◌, ◌^◌, ◌<◌, length, slice_index};
ghost use Rattle.sfi_masks.specs.Masks.{AreMasks, AreMasksInWords, AreSingleMasks, is_in};
ghost use Rattle.sfi_masks.specs.private.{AreSingleMasksSeen, AreSeen, bundles, words, of_four};

use crate::lanes::{
    bits_of, classes_of_halfwords, followed_classes, free_in_words, kept_in_words, long_bits,
    low_and_high, mask_classes, rest_classes, writable_classes,
};
use crate::tables::{ACCESSES, ALONE, FREE};
use std::simd::prelude::*;

/// Eight bundles.
pub const BLOCK_BYTES: usize = 128;

/// Of each of the 64 halfwords of a block one bit in each mask, the lowest for the first.
#[derive(Clone, Copy)]
pub struct Masks {
    /// Its two lowest bits are 11: it begins no instruction of 16 bits.
    pub long: u64,
    /// It begins an instruction that breaks no rule by itself: in a plain bundle (neither a gate's
    /// nor its region's last) whatever stands beside it; in words unless the instruction before it
    /// owes a mask or a use of its register, and it owes none itself. A bit that isn't set tells
    /// nothing.
    pub free: u64,
    /// It begins a load or a store of 32 bits that writes no register that it may not. A bit that
    /// isn't set tells nothing.
    pub access: u64,
}

/// The masks of a quarter of a block, two bundles: 16 halfwords, in the low bits of each mask.
/// `stack` says whether x2 is a stack pointer.
#[inline(always)]
fn masks_of_quarter(stack: bool, bytes: &[u8]) -> Masks
    requires { length bytes.now ≡ 32 }
    ensures { AreSeen (bundles stack) (λ k. slice_index bytes.now k) result }
{
    let (low, high) = low_and_high(bytes);
    let alone = classes_of_halfwords(ALONE, low, high);
    let followed = followed_classes(low, high);
    let rest = rest_classes(stack, low, high);
    let kept = writable_classes(stack, low, high);
    Masks {
        long: long_bits(low),
        free: bits_of((alone | rest | followed & u8x16::splat(FREE)) & kept),
        access: bits_of(followed & u8x16::splat(ACCESSES) & kept),
    }
}

/// The masks of a quarter of a block of code in words: 16 halfwords, in the low bits of each mask.
/// `single` says whether masks of data are single.
#[inline(always)]
fn word_masks_of_quarter(single: bool, bytes: &[u8]) -> Masks
    requires { length bytes.now ≡ 32 }
    ensures { AreSeen (words single) (λ k. slice_index bytes.now k) result }
{
    let (low, high) = low_and_high(bytes);
    let alone = classes_of_halfwords(ALONE, low, high);
    let followed = followed_classes(low, high);
    let rest = rest_classes(true, low, high);
    let free = free_in_words(single, low, high);
    let kept = kept_in_words(low, high);
    Masks {
        long: long_bits(low),
        free: bits_of((alone | rest | followed & free) & kept),
        access: bits_of(followed & u8x16::splat(ACCESSES) & kept),
    }
}

/// Where single masks, `and d, a, x27` with a data register d, begin in a quarter of a block: bit i
/// of the result is for halfword i of 16, and the higher bits are 0. Bit 15 tells nothing, as the
/// first halfword stands for the one after the last.
#[inline(always)]
fn single_masks_of_quarter(bytes: &[u8]) -> u64
    requires { length bytes.now ≡ 32 }
    ensures small { result < 2 ^ 16 }
    ensures seen { AreSingleMasksSeen (λ k. slice_index bytes.now k) result }
{
    let (low, high) = low_and_high(bytes);
    bits_of(mask_classes(low, high))
}

/// Four numbers of 16 bits side by side, the first lowest.
#[inline(always)]
fn four_quarters(a: u64, b: u64, c: u64, d: u64) -> u64
    requires a { a < 2 ^ 16 }
    requires b { b < 2 ^ 16 }
    requires c { c < 2 ^ 16 }
    requires d { d < 2 ^ 16 }
    ensures { (i : ℕ) → i < 64 → is_in result i ≡ is_in (of_four a b c d (i / 16)) (i % 16) }
{
    a | b << 16 | c << 32 | d << 48
}

/// The masks of the block's halfwords in bundles; `STACK` says whether x2 is a stack pointer. It is compiled
/// for each apart, so that it is part of a caller that has one alone.
#[inline(always)]
pub fn masks_of<const STACK: bool>(block: &[u8; BLOCK_BYTES]) -> Masks
    ensures { AreMasks STACK block.now result }
{
    let first = masks_of_quarter(STACK, &block[..32]);
    let second = masks_of_quarter(STACK, &block[32..64]);
    let third = masks_of_quarter(STACK, &block[64..96]);
    let fourth = masks_of_quarter(STACK, &block[96..]);
    Masks {
        long: four_quarters(first.long, second.long, third.long, fourth.long),
        free: four_quarters(first.free, second.free, third.free, fourth.free),
        access: four_quarters(first.access, second.access, third.access, fourth.access),
    }
}

/// The masks of the block's halfwords in code in words, where accesses on data registers and on x26
/// are free; `SINGLE` says whether masks of data are single. It is a const parameter, so that each
/// case is compiled by itself, inside the caller that has that case alone.
#[inline(always)]
pub fn word_masks_of<const SINGLE: bool>(block: &[u8; BLOCK_BYTES]) -> Masks
    ensures { AreMasksInWords SINGLE block.now result }
{
    let first = word_masks_of_quarter(SINGLE, &block[..32]);
    let second = word_masks_of_quarter(SINGLE, &block[32..64]);
    let third = word_masks_of_quarter(SINGLE, &block[64..96]);
    let fourth = word_masks_of_quarter(SINGLE, &block[96..]);
    Masks {
        long: four_quarters(first.long, second.long, third.long, fourth.long),
        free: four_quarters(first.free, second.free, third.free, fourth.free),
        access: four_quarters(first.access, second.access, third.access, fourth.access),
    }
}

/// Where single masks of data registers begin, `and d, a, x27`: of each of the block's 64 halfwords
/// a bit, the lowest for the first. That of a bundle's last halfword tells nothing, nor does a bit
/// that isn't set.
#[inline(always)]
pub fn single_masks_of(block: &[u8; BLOCK_BYTES]) -> u64
    ensures { AreSingleMasks block.now result }
{
    let first = single_masks_of_quarter(&block[..32]);
    let second = single_masks_of_quarter(&block[32..64]);
    let third = single_masks_of_quarter(&block[64..96]);
    let fourth = single_masks_of_quarter(&block[96..]);
    four_quarters(first, second, third, fourth)
}
