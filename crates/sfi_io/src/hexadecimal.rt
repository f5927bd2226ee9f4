//! Hexadecimal text with white space in it.

ghost use Rattle.std.specs.Prelude.{◌≡◌, ◌⊎◌, ◌<◌, ◌≤◌, ◌+◌, ◌-◌, ◌*◌, ◌%◌, ◌≢◌, ℕ, List, not, IfOk, IfErr, IfSome, IsErr, IsNone, None, Ok, Some, filter, length, slice_index, true};
ghost use Rattle.sfi_io.specs.declared.hexadecimal.TheConstants.{CLASSES};
ghost use Rattle.hex.specs.Hex.{decode_of, hex_digit_value, pair_value};
ghost use Rattle.sfi_io.specs.Hexadecimal.{is_kept, GivesBytes, IsHexStop, IsUnreadable, SpellsBytes};
ghost use Rattle.sfi_io.specs.Hexadecimal.{limit};
ghost use Rattle.sfi_io.specs.private.{IsByteOf};
ghost use Rattle.sfi_io.specs.declared.hexadecimal.HexFault.TheVariants.{Odd, Digit};
ghost use Rattle.sfi_io.specs.declared.hexadecimal.HexStop.TheVariants.{Memory};

use crate::front::{decode_front, pair_fault};
use std::alloc::{AllocError, Global};
use std::simd::prelude::*;
use thiserror::Error;

/// Why a text spells no bytes. Its text is the line that the program prints, without its end.
#[derive(Clone, Copy, Debug, PartialEq, Eq, Error)]
pub enum HexFault {
    /// What isn't white space has an odd number of bytes.
    #[error("input fault hex odd")]
    Odd,
    /// The place of the first byte that is no digit, counted from 0 among what isn't white space.
    #[error("input fault hex digit {0}")]
    Digit(usize),
}

/// Why there are no bytes of a text: a fault of it, or an allocation was refused.
#[derive(Drop)]
pub enum HexStop {
    Fault(HexFault),
    Memory,
}

impl From<AllocError> for HexStop {
    ghost from_gives = { λ _ e. e ≡ Memory };

    fn from(_e: AllocError) -> HexStop {
        HexStop::Memory
    }
}

// The class of white space. The class of a digit is its value.
const WHITE: u8 = 16;

/// The class of each byte: a digit's value, [`WHITE`], or 32 for what is neither. The `or` of two
/// classes is below 16 just where both are digits.
const CLASSES: [u8; 256] = [
    32, 32, 32, 32, 32, 32, 32, 32, 32, 16, 16, 32, 32, 16, 32, 32, // 0x00
    32, 32, 32, 32, 32, 32, 32, 32, 32, 32, 32, 32, 32, 32, 32, 32, // 0x10
    16, 32, 32, 32, 32, 32, 32, 32, 32, 32, 32, 32, 32, 32, 32, 32, // 0x20
    0, 1, 2, 3, 4, 5, 6, 7, 8, 9, 32, 32, 32, 32, 32, 32, // 0x30
    32, 10, 11, 12, 13, 14, 15, 32, 32, 32, 32, 32, 32, 32, 32, 32, // 0x40
    32, 32, 32, 32, 32, 32, 32, 32, 32, 32, 32, 32, 32, 32, 32, 32, // 0x50
    32, 10, 11, 12, 13, 14, 15, 32, 32, 32, 32, 32, 32, 32, 32, 32, // 0x60
    32, 32, 32, 32, 32, 32, 32, 32, 32, 32, 32, 32, 32, 32, 32, 32, // 0x70
    32, 32, 32, 32, 32, 32, 32, 32, 32, 32, 32, 32, 32, 32, 32, 32, // 0x80
    32, 32, 32, 32, 32, 32, 32, 32, 32, 32, 32, 32, 32, 32, 32, 32, // 0x90
    32, 32, 32, 32, 32, 32, 32, 32, 32, 32, 32, 32, 32, 32, 32, 32, // 0xa0
    32, 32, 32, 32, 32, 32, 32, 32, 32, 32, 32, 32, 32, 32, 32, 32, // 0xb0
    32, 32, 32, 32, 32, 32, 32, 32, 32, 32, 32, 32, 32, 32, 32, 32, // 0xc0
    32, 32, 32, 32, 32, 32, 32, 32, 32, 32, 32, 32, 32, 32, 32, 32, // 0xd0
    32, 32, 32, 32, 32, 32, 32, 32, 32, 32, 32, 32, 32, 32, 32, 32, // 0xe0
    32, 32, 32, 32, 32, 32, 32, 32, 32, 32, 32, 32, 32, 32, 32, 32, // 0xf0
];

/// The byte's class: a digit's value, [`WHITE`], or 32 for what is neither.
#[inline(always)]
fn class_of(byte: u8) -> u8
    ensures { result ≡ slice_index CLASSES byte }
{
    CLASSES[byte as usize]
}

/// Whether the byte is white space: a space, a tab, a CR or an LF. `is_kept` of specs/Hexadecimal
/// says the same of the others.
#[inline(always)]
#[tactic(auto, using(crate::proofs::Digits::class_white))]
pub(crate) fn is_white(byte: u8) -> bool
    ensures { result ≡ not (is_kept byte) }
{
    class_of(byte) == WHITE
}

/// The number, 0 to 15, of a hexadecimal digit of either case; `None` for any other byte.
#[tactic(auto, using(crate::proofs::Digits::class_digit_some, crate::proofs::Digits::class_digit_none))]
pub(crate) fn digit_value(digit: u8) -> Option<u8>
    ensures { result ≡ hex_digit_value digit }
{
    let value = class_of(digit);
    if value < WHITE { Some(value) } else { None }
}

/// How many bytes of the text aren't white space, be they digits or not.
pub(crate) fn digits_in(text: &[u8]) -> usize
    ensures count { result ≡ length (filter is_kept text.now) }
    ensures most { result ≤ length text.now }
{
    let mut count: usize = 0;
    for at in 0..text.len() {
        if !is_white(text[at]) {
            count += 1;
        }
    }
    count
}

/// The byte that two hexadecimal digits spell; `None` where one of the two is no digit. No branch
/// tells figures from letters, since the processor couldn't predict it.
#[inline(always)]
pub(crate) fn byte_of(high: u8, low: u8) -> Option<u8>
    ensures none { IsNone result → hex_digit_value high ≡ None ⊎ hex_digit_value low ≡ None }
    ensures pair { IfSome result (λ byte. (i : ℕ) → pair_value high low i ≡ Ok byte) }
    ensures kept { IfSome result (λ byte. (is_kept high ≡ true) × (is_kept low ≡ true)) }
{
    let first = class_of(high);
    let second = class_of(low);
    if first | second < WHITE {
        Some(first * 16 + second)
    } else {
        None
    }
}

/// How many digits are read at a time, where the text has as many: as wide as the vectors below.
pub(crate) const BLOCK: usize = 64;

/// For each byte 240 and the digit's value, or less than 240 where it is no digit: by arithmetic on
/// all 64 side by side.
#[inline(always)]
fn values_of(bytes: u8x64) -> u8x64
    ensures size { length result ≡ 64 }
    ensures each { (k : ℕ) → k < 64 → 240 ≤ slice_index result k
        → hex_digit_value (slice_index bytes k) ≡ Some (slice_index result k - 240) }
{
    // The sums of the figures are from 246 to 255, and those of all other bytes are less; then
    // those of the letters are from 250 to 255.
    let figures = (bytes + u8x64::splat(255 - b'9')).saturating_sub(u8x64::splat(6));
    let letters = ((bytes - u8x64::splat(1)) | u8x64::splat(32)) + u8x64::splat(154);
    figures.simd_max(letters)
}

/// How many pairs of digits a block begins with, by what `values_of` gives for its bytes: less than
/// 240 where a byte is no digit.
#[inline(always)]
fn pairs_before(values: u8x64) -> usize
    requires { length values ≡ 64 }
    ensures most { result ≤ 32 }
    ensures digits { (k : ℕ) → k < 2 * result → 240 ≤ slice_index values k }
{
    if ((values ^ u8x64::splat(240)) & u8x64::splat(240)).reduce_or() == 0 {
        return BLOCK / 2;
    }
    let others = values.simd_lt(u8x64::splat(240)).to_bitmask();
    others.trailing_zeros() as usize / 2
}

/// The byte that each pair of a block's bytes spells, if both are digits, by what `values_of` gives
/// for them.
#[inline(always)]
fn joined_digits(values: u8x64) -> [u8; BLOCK / 2]
    requires { length values ≡ 64 }
    ensures size { length result ≡ 32 }
    ensures each { (k : ℕ) → k < 32 → 240 ≤ slice_index values (2 * k)
        → 240 ≤ slice_index values (2 * k + 1) → slice_index result k
        ≡ (slice_index values (2 * k) - 240) * 16 + (slice_index values (2 * k + 1) - 240) }
{
    // The product's upper byte, modulo 256, is 16 times the first digit and the second one and 240;
    // with 16 more the 240 is gone.
    let products = u16x32::from_le_bytes(values) * u16x32::splat(4097);
    ((products >> 8).cast::<u8>() + u8x32::splat(16)).to_array()
}

/// Writes to `out` the bytes of the pairs of digits that a block begins with, and says how many
/// bytes they are, from 0 to 32. What `out` has after these has no meaning.
#[inline(always)]
pub(crate) fn decode_block(block: &[u8], out: &mut [u8]) -> usize
    requires block { length block.now ≡ 64 }
    requires room { length out.old ≡ 32 }
    ensures most { result ≤ 32 }
    ensures size { length out.new ≡ 32 }
    ensures each { (k : ℕ) → k < result → IsByteOf (slice_index block.now (2 * k))
        (slice_index block.now (2 * k + 1)) (slice_index out.new k) }
{
    let values = values_of(u8x64::from_slice(block));
    out.copy_from_slice(&joined_digits(values));
    pairs_before(values)
}

/// The bytes that the text's digits spell, or why there are none. It decodes the text in one go.
fn decoded(alloc: Global, text: &[u8]) -> Result<Vec<u8>, HexStop>
    requires { length text.now ≤ limit }
    ensures bytes { IfOk result (λ v. decode_of (filter is_kept text.now) ≡ Ok v.items) }
    ensures stop { IfErr result (IsHexStop text.now) }
{
    // There is room for a byte more than the text can spell, so that only its end or a fault stops.
    let mut bytes = vec![in alloc; 0; text.len() / 2 + 1]?;
    let front = decode_front(None, text, &mut bytes);
    if front.taken < text.len() {
        let left = 1 + digits_in(&text[front.taken..]);
        return Err(HexStop::Fault(pair_fault(front.high, front.made, left)));
    }
    if front.high.is_some() {
        return Err(HexStop::Fault(HexFault::Odd));
    }
    bytes.truncate(front.made);
    Ok(bytes)
}

/// The bytes that the text spells. An odd number of digits goes before a byte that is no digit.
pub fn bytes_of(alloc: Global, text: &[u8]) -> Result<Vec<u8>, HexStop>
    requires { length text.now ≤ limit }
    ensures bytes { IfOk result (λ v. SpellsBytes text.now v.items) }
    ensures stop { IfErr result (IsHexStop text.now) }
    ensures only_bytes { (bytes : List ℕ) → SpellsBytes text.now bytes → GivesBytes bytes result }
    ensures only_stop { IsUnreadable text.now → IsErr result }
{
    decoded(alloc, text)
}
