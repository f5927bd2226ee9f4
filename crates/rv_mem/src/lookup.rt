//! What a list of segments has at an address.
ghost use Rattle.std.specs.Prelude.{◌≡◌, ◌↔◌, IsTrue, IsSome};
ghost use Rattle.std.specs.Bool.{OnTrue, OnFalse};
ghost use Rattle.rv_mem.specs.private.Segment.{HasIn, HasNone};
ghost use Rattle.rv_mem.specs.private.Segment.{byte_among, Puts};

use crate::segment::Segment;

/// The byte at the address, if one of the segments has it.
pub fn find_byte(segments: &[Segment], at: u32) -> Option<u8>
    ensures { result ≡ byte_among segments.now at }
{
    for segment in segments {
        if let Some(byte) = segment.byte_at(at) {
            return Some(byte);
        }
    }
    None
}

/// Writes `byte` at the address; false where no segment has that address, and then nothing changed.
pub fn put_byte(segments: &mut [Segment], at: u32, byte: u8) -> bool
    ensures there { IsTrue result ↔ IsSome (byte_among segments.old at) }
    ensures done { OnTrue result
        (Puts (byte_among segments.old) (byte_among segments.new) at byte) }
    ensures refused { OnFalse result (segments.new ≡ segments.old) }
{
    for i in 0..segments.len() {
        if segments[i].has(at) {
            segments[i].put(at, byte);
            return true;
        }
    }
    false
}

/// Whether a segment has an address from `from` up to `to`, which isn't included.
pub fn has_in(segments: &[Segment], from: u64, to: u64) -> bool
    ensures found { OnTrue result (HasIn (byte_among segments.now) from to) }
    ensures none { OnFalse result (HasNone (byte_among segments.now) from to) }
{
    for segment in segments {
        if segment.has_in(from, to) {
            return true;
        }
    }
    false
}
