//! Decodes the part of a hexadecimal text that is in memory: block by block of 64 digits where the
//! text has as many together, and else byte by byte. `#[inline(always)]`, here and in
//! `hexadecimal`, makes one loop of this, without a call for each byte.

ghost use Rattle.std.specs.Prelude.{◌≡◌, ◌⊎◌, ◌*◌, ◌+◌, ◌%◌, ◌<◌, ◌≤◌, ℕ, drop, filter, length, slice_index, take, true};
ghost use Rattle.sfi_io.specs.Hexadecimal.{is_kept};
ghost use Rattle.sfi_io.specs.Hexadecimal.{limit};
ghost use Rattle.sfi_io.specs.private.{IsBadPair, IsWrongPlace, SpellsFront};
ghost use Rattle.sfi_io.specs.Pieces.{waiting};
ghost use Rattle.sfi_io.specs.declared.hexadecimal.HexFault.TheVariants.{Odd, Digit};

use crate::hexadecimal::{BLOCK, HexFault, byte_of, decode_block, digit_value, is_white};

/// How far a text was decoded: how many of its bytes were read (`taken`), how many bytes they make
/// (`made`), and a byte that was read as a pair's first digit, whose second didn't come yet
/// (`high`). Whether that is a digit is told with the second.
#[derive(Drop)]
pub(crate) struct DecodeProgress {
    pub(crate) taken: usize,
    pub(crate) made: usize,
    pub(crate) high: Option<u8>,
}

/// How much of a text was decoded, by pairs of digits that stand together: how many of its bytes were
/// read (`taken`), and how many bytes they make (`made`).
#[derive(Drop)]
struct Blocks {
    taken: usize,
    made: usize,
}

/// How many bytes of a text its first `pairs` pairs of digits take, with the byte after them if
/// that is white space, as a line's end.
#[inline(always)]
fn after_pairs(text: &[u8], pairs: usize) -> usize
    requires { 2 * pairs < length text.now }
    ensures most { result ≤ length text.now }
    ensures least { pairs ≤ result }
    ensures kept { filter is_kept (drop (2 * pairs) text.now)
        ≡ filter is_kept (drop result text.now) }
{
    let at = 2 * pairs;
    if is_white(text[at]) { at + 1 } else { at }
}

/// Decodes the pairs of digits with which a text's first 64 bytes begin, and takes a byte of white
/// space after them. `made` is 0 where they don't begin with a pair.
#[inline(always)]
fn decode_one_block(text: &[u8], out: &mut [u8]) -> Blocks
    requires text { 64 < length text.now }
    requires out { 32 ≤ length out.old }
    ensures taken { result.taken ≤ length text.now }
    ensures made { result.made ≤ result.taken }
    ensures room { result.made ≤ length out.new }
    ensures size { length out.new ≡ length out.old }
    ensures spells { SpellsFront (filter is_kept text.now)
        (filter is_kept (drop result.taken text.now)) (take result.made out.new) }
{
    let made = decode_block(&text[..BLOCK], &mut out[..BLOCK / 2]);
    // Most lines are whole, and constants make these the quickest.
    if made == BLOCK / 2 {
        return Blocks {
            taken: after_pairs(text, BLOCK / 2),
            made: BLOCK / 2,
        };
    }
    Blocks {
        taken: after_pairs(text, made),
        made,
    }
}

/// Decodes block by block, until a block gives fewer than 8 bytes, or text or room is too short for
/// another. A text is mostly one line after another, each of which is a block.
#[inline(always)]
fn decode_blocks(text: &[u8], out: &mut [u8]) -> Blocks
    ensures taken { result.taken ≤ length text.now }
    ensures made { result.made ≤ result.taken }
    ensures room { result.made ≤ length out.new }
    ensures size { length out.new ≡ length out.old }
    ensures spells { SpellsFront (filter is_kept text.now)
        (filter is_kept (drop result.taken text.now)) (take result.made out.new) }
{
    // Below `last` the text has a block left and a byte after it, and below `full` there is room in
    // `out` for a block's bytes.
    let last = text.len().saturating_sub(BLOCK);
    let full = out.len().saturating_sub(BLOCK / 2 - 1);
    let mut taken: usize = 0;
    let mut made: usize = 0;
    while taken < last && made < full {
        let line = decode_one_block(&text[taken..], &mut out[made..]);
        if line.made < 8 {
            return Blocks {
                taken: taken + line.taken,
                made: made + line.made,
            };
        }
        taken += line.taken;
        made += line.made;
    }
    Blocks { taken, made }
}

/// Decodes blocks at the front of a text, if `quick` says to try them and they take a byte; or else
/// takes one byte as the first digit of a pair. The text doesn't begin with white space, and no
/// digit waits.
#[inline(always)]
fn decode_first(text: &[u8], out: &mut [u8], quick: bool) -> DecodeProgress
    requires some { 0 < length text.now }
    requires kept { is_kept (slice_index text.now 0) ≡ true }
    ensures some { 0 < result.taken }
    ensures taken { result.taken ≤ length text.now }
    ensures made { result.made ≤ result.taken }
    ensures room { result.made ≤ length out.new }
    ensures size { length out.new ≡ length out.old }
    ensures spells { SpellsFront (filter is_kept text.now)
        (waiting result.high (filter is_kept (drop result.taken text.now)))
        (take result.made out.new) }
{
    if quick {
        let blocks = decode_blocks(text, out);
        if blocks.taken > 0 {
            return DecodeProgress {
                taken: blocks.taken,
                made: blocks.made,
                high: None,
            };
        }
    }
    DecodeProgress {
        taken: 1,
        made: 0,
        high: Some(text[0]),
    }
}

/// Decodes a little at the front of a text: a byte of white space, the second digit of the pair
/// whose first, `high`, waits, or what `decode_first` takes. Nothing is taken where that pair isn't
/// two digits.
#[inline(always)]
fn decode_next(high: Option<u8>, text: &[u8], out: &mut [u8], quick: bool) -> DecodeProgress
    requires text { 0 < length text.now }
    requires out { 0 < length out.old }
    ensures taken { result.taken ≤ length text.now }
    ensures made { result.made ≤ result.taken }
    ensures room { result.made ≤ length out.new }
    ensures size { length out.new ≡ length out.old }
    ensures spells { SpellsFront (waiting high (filter is_kept text.now))
        (waiting result.high (filter is_kept (drop result.taken text.now)))
        (take result.made out.new) }
    ensures stops { result.taken ≡ 0 → IsBadPair result.high (slice_index text.now 0) }
{
    let next = text[0];
    if is_white(next) {
        return DecodeProgress {
            taken: 1,
            made: 0,
            high,
        };
    }
    let Some(first) = high else {
        return decode_first(text, out, quick);
    };
    let Some(byte) = byte_of(first, next) else {
        return DecodeProgress {
            taken: 0,
            made: 0,
            high,
        };
    };
    out[0] = byte;
    DecodeProgress {
        taken: 1,
        made: 1,
        high: None,
    }
}

/// Decodes a text into `out` until the text ends, `out` is full, or a pair comes that isn't two
/// digits. `high` is a first digit that waits from the text before. Blocks of 64 digits are tried
/// only where the tries so far gave 8 bytes each in the mean, since a try costs much where digits
/// stand apart.
pub(crate) fn decode_front(high: Option<u8>, text: &[u8], out: &mut [u8]) -> DecodeProgress
    ensures taken { result.taken ≤ length text.now }
    ensures made { result.made ≤ result.taken }
    ensures room { result.made ≤ length out.new }
    ensures size { length out.new ≡ length out.old }
    ensures spells { SpellsFront (waiting high (filter is_kept text.now))
        (waiting result.high (filter is_kept (drop result.taken text.now)))
        (take result.made out.new) }
    ensures stops { result.taken < length text.now → (result.made ≡ length out.new)
        ⊎ IsBadPair result.high (slice_index text.now result.taken) }
{
    let mut high = high;
    let mut taken: usize = 0;
    let mut made: usize = 0;
    let mut tries: usize = 0;
    while taken < text.len() && made < out.len() {
        let quick = tries <= made / 8;
        if quick {
            tries += 1;
        }
        let front = decode_next(high, &text[taken..], &mut out[made..], quick);
        taken += front.taken;
        made += front.made;
        high = front.high;
        if front.taken == 0 {
            return DecodeProgress { taken, made, high };
        }
    }
    DecodeProgress { taken, made, high }
}

/// The fault at a pair that isn't two digits. `high` is its first byte, `made` the number of pairs
/// before it, and `left` the number of bytes other than white space from `high`, which counts, to
/// the text's end. An odd `left` goes first; else the place of the first byte that is no digit, as
/// `HexFault` counts it. `cold`, since most texts have none.
#[cold]
pub(crate) fn pair_fault(high: Option<u8>, made: usize, left: usize) -> HexFault
    requires { made ≤ limit }
    ensures odd { left % 2 ≡ 1 → result ≡ Odd }
    ensures digit { left % 2 ≡ 0 → (place : ℕ) × (result ≡ Digit place) × IsWrongPlace high made place }
{
    if left % 2 == 1 {
        return HexFault::Odd;
    }
    match high {
        Some(first) if digit_value(first).is_some() => HexFault::Digit(2 * made + 1),
        _ => HexFault::Digit(2 * made),
    }
}
