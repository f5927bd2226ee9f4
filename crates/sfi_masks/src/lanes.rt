//! Steps on vectors of sixteen bytes. Lane i is for halfword i of a quarter of a block, 32 bytes;
//! `low` and `high` are the halfwords' low and high bytes. Classes are eight bits, one for each
//! class of a table of `tables.rt`. What the contracts cite of specs/private says the same of one
//! halfword.
ghost use Rattle.std.specs.Prelude.{◌≡◌, ℕ, ◌+◌, ◌*◌, ◌%◌, ◌^◌, ◌<◌, ◌==◌, not, length, slice_index};
ghost use Rattle.sfi_masks.specs.Masks.{is_in};
ghost use Rattle.sfi_masks.specs.private.{HasLanes, byte_classes, half_classes, followed, free_in_words, kept, kept_in_words, mask_classes, rest};

use crate::tables::{
    ALL, ByteTable, FOLLOWED, HalfTable, MASK, MASK_NEXT, NEXT, NO_RD, ON_EVEN, ON_ODD,
    ON_ODD_SINGLE, PLAIN, REST, WORDS_EVEN, WORDS_ODD,
};
use std::simd::prelude::*;

/// The low bytes of the 16 halfwords of `bytes`, and their high bytes.
#[inline(always)]
pub(crate) fn low_and_high(bytes: &[u8]) -> (u8x16, u8x16)
    requires { length bytes.now ≡ 32 }
    ensures low { HasLanes result.0 (λ i. slice_index bytes.now (2 * i)) }
    ensures high { HasLanes result.1 (λ i. slice_index bytes.now (2 * i + 1)) }
{
    let first = u8x16::from_slice(&bytes[..16]);
    let second = u8x16::from_slice(&bytes[16..]);
    first.deinterleave(second)
}

/// Looks up each lane in the table: lane `i` of the result is `table[lanes[i]]`.
#[inline(always)]
fn look_up_lanes(table: [u8; 16], lanes: u8x16) -> u8x16
    requires { (i : ℕ) → i < 16 → slice_index lanes i < 16 }
    ensures { HasLanes result (λ i. slice_index table (slice_index lanes i)) }
{
    u8x16::from_array(table).swizzle_dyn(lanes)
}

/// The classes of each byte: the bits that the table's entries for its two nibbles share.
#[inline(always)]
fn classes_of_bytes(table: ByteTable, bytes: u8x16) -> u8x16
    ensures { HasLanes result (λ i. byte_classes table (slice_index bytes i)) }
{
    look_up_lanes(table.low, bytes & u8x16::splat(15))
        & look_up_lanes(table.high, bytes >> u8x16::splat(4))
}

/// The classes of each halfword: the bits that the table's entries for its four nibbles share.
#[inline(always)]
pub(crate) fn classes_of_halfwords(table: HalfTable, low: u8x16, high: u8x16) -> u8x16
    ensures { HasLanes result (λ i. half_classes table (slice_index low i) (slice_index high i)) }
{
    classes_of_bytes(table.low, low) & classes_of_bytes(table.high, high)
}

/// The classes of [`FOLLOWED`] that each halfword is in, by the next halfword too, of which
/// [`NEXT`] asks. Of the last halfword the first counts as the next: so its 32-bit classes tell
/// nothing.
#[inline(always)]
pub(crate) fn followed_classes(low: u8x16, high: u8x16) -> u8x16
    ensures { HasLanes result
        (λ i. followed (slice_index low i) (slice_index high i) (slice_index high ((i + 1) % 16))) }
{
    let next = classes_of_bytes(NEXT, high).rotate_elements_left::<1>();
    classes_of_halfwords(FOLLOWED, low, high) & next
}

/// The classes of [`FOLLOWED`] that are free in code in words, for each halfword as the first of a
/// word: those that compute, and the accesses too where the word's bits 19:15, its base, are those
/// of a register of which `may_be_on_in_words` of specs/Masks holds: x31 only where masks are
/// `single`.
#[inline(always)]
pub(crate) fn free_in_words(single: bool, low: u8x16, high: u8x16) -> u8x16
    ensures { HasLanes result
        (λ i. free_in_words single (slice_index high i) (slice_index low ((i + 1) % 16))) }
{
    let on_odd = if single { ON_ODD_SINGLE } else { ON_ODD };
    let odd = look_up_lanes(on_odd, low & u8x16::splat(15)).rotate_elements_left::<1>();
    let even = look_up_lanes(ON_EVEN, low & u8x16::splat(15)).rotate_elements_left::<1>();
    (high & u8x16::splat(0x80))
        .simd_eq(u8x16::splat(0x80))
        .select(odd, even)
}

/// The classes of [`MASK`] that each halfword is in, by the next halfword too, of which
/// [`MASK_NEXT`] asks: not 0 where it begins a single mask, `and d, a, x27`. Of the last halfword
/// the first counts as the next.
#[inline(always)]
pub(crate) fn mask_classes(low: u8x16, high: u8x16) -> u8x16
    ensures { HasLanes result
        (λ i. mask_classes (slice_index low i) (slice_index high i)
        (slice_index low ((i + 1) % 16)) (slice_index high ((i + 1) % 16))) }
{
    let next = classes_of_halfwords(MASK_NEXT, low, high).rotate_elements_left::<1>();
    classes_of_halfwords(MASK, low, high) & next
}

/// The classes of [`REST`] that each halfword is in and that are free: all of them where an access
/// on x2 needs nothing beside it (`stack`), and else those that are no access on x2.
#[inline(always)]
pub(crate) fn rest_classes(stack: bool, low: u8x16, high: u8x16) -> u8x16
    ensures { HasLanes result (λ i. rest stack (slice_index low i) (slice_index high i)) }
{
    classes_of_halfwords(REST, low, high) & u8x16::splat(if stack { ALL } else { PLAIN })
}

/// The classes that count for each halfword: where x2 is a `stack` pointer and bits 11:7 name it,
/// only those that don't write that register, and else all.
#[inline(always)]
pub(crate) fn writable_classes(stack: bool, low: u8x16, high: u8x16) -> u8x16
    ensures { HasLanes result (λ i. kept stack (slice_index low i) (slice_index high i)) }
{
    if !stack {
        return u8x16::splat(ALL);
    }
    let rd = low & u8x16::splat(0x80) | high & u8x16::splat(0x0f);
    rd.simd_eq(u8x16::splat(1))
        .select(u8x16::splat(NO_RD), u8x16::splat(ALL))
}

/// The classes that count for each halfword of code in words: where bits 11:7 name a typed
/// register, x2 to x4 or x29 to x31, only those that don't write that register, and else all.
#[inline(always)]
pub(crate) fn kept_in_words(low: u8x16, high: u8x16) -> u8x16
    ensures { HasLanes result (λ i. kept_in_words (slice_index low i) (slice_index high i)) }
{
    let pair = high & u8x16::splat(15);
    (low & u8x16::splat(0x80))
        .simd_eq(u8x16::splat(0x80))
        .select(
            look_up_lanes(WORDS_ODD, pair),
            look_up_lanes(WORDS_EVEN, pair),
        )
}

/// A bit for each halfword, the lowest for the first: set where its two lowest bits are 11.
#[inline(always)]
pub(crate) fn long_bits(low: u8x16) -> u64
    ensures small { result < 2 ^ 16 }
    ensures bits { (i : ℕ) → i < 16 → is_in result i ≡ (slice_index low i % 4 == 3) }
{
    let three = u8x16::splat(3);
    (low & three).simd_eq(three).to_bitmask()
}

/// A bit for each lane, the lowest for the first: set where it isn't 0.
#[inline(always)]
pub(crate) fn bits_of(lanes: u8x16) -> u64
    ensures small { result < 2 ^ 16 }
    ensures bits { (i : ℕ) → i < 16 → is_in result i ≡ not (slice_index lanes i == 0) }
{
    lanes.simd_ne(u8x16::splat(0)).to_bitmask()
}
