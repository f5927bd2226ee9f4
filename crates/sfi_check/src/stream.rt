//! The verdict on a stream of bytes, without taking memory.
ghost use Rattle.std.specs.Prelude.{◌≡◌, ◌↔◌, ℕ, ◌≤◌, List, Bool, true, false, take, Some, None, IfOk, OnErr};
ghost use Rattle.sfi_image.specs.Sources.{Streams};
ghost use Rattle.sfi_rules.specs.declared.finding.Finding.{Finding};
ghost use Rattle.sfi_check.specs.Verdict.{IsVerdictOn, AreHandedOver};

use crate::feed::Feed;
use crate::sink::Nowhere;
use crate::stream_answer::StreamAnswer;
use sfi_image::{ByteSource, ReadFault};
use sfi_scan::{FindingSink, IN_BLOCKS};

/// How many bytes are read at a time, at most. The contracts below have this number, too.
const PIECE: usize = 4096;

/// Reads bytes to the front of the piece, `most` of them at most. Returns how many; 0 is the
/// stream's end.
fn read_next_bytes<S: ByteSource>(
    source: &mut S,
    piece: &mut [u8; PIECE],
    most: usize,
) -> Result<usize, ReadFault>
    requires { most ≤ 4096 }
    ensures bound { IfOk result (λ n. n ≤ most) }
    ensures some { IfOk result (λ n. S.reads source.old most (Some (take n piece.new)) source.new) }
    ensures fault { OnErr result (S.reads source.old most None source.new) }
{
    source.read_some(&mut piece[..most])
}

/// Accepts the bytes of the stream, or says why not, and hands the findings to the sink on the way,
/// by sandbox and then by address. It takes no memory, and reads at most 4096 bytes at a time. That it
/// stops at a fault of the layout is only tested. Where the bytes are no image, or a read fails, no
/// clause says which findings the sink was handed.
pub fn check_stream_into<S: ByteSource, F: FindingSink>(
    source: &mut S,
    sink: &mut F,
) -> StreamAnswer
    requires { S.has_failed source.old ≡ false }
    ensures judged { (bytes : List ℕ) × (ends : Bool) × (found : List Finding)
        × Streams S.reads 4096 source.old source.new bytes ends × IsVerdictOn bytes ends result
        × F.takes sink.old found sink.new × AreHandedOver bytes found result }
    ensures failed { (result ≡ StreamAnswer.ReadFault) ↔ (S.has_failed source.new ≡ true) }
{
    let mut feed = Feed::new();
    let mut piece = [0; PIECE];
    loop {
        if let Some(fault) = feed.fault {
            return StreamAnswer::Layout(fault);
        }
        // With the held bytes that is a whole piece, so few bundles lie across the end of one.
        let most = PIECE - feed.count;
        match read_next_bytes(source, &mut piece, most) {
            Ok(0) => return feed.answer(),
            Ok(count) => feed.feed_into::<F, IN_BLOCKS>(&piece[..count], sink),
            Err(_) => return StreamAnswer::ReadFault,
        }
    }
}

/// Accepts the bytes of the stream, or says why not. It takes no memory, and reads at most 4096
/// bytes at a time. That it stops at a fault of the layout is only tested.
pub fn check_stream<S: ByteSource>(source: &mut S) -> StreamAnswer
    requires { S.has_failed source.old ≡ false }
    ensures judged { (bytes : List ℕ) × (ends : Bool)
        × Streams S.reads 4096 source.old source.new bytes ends × IsVerdictOn bytes ends result }
    ensures failed { (result ≡ StreamAnswer.ReadFault) ↔ (S.has_failed source.new ≡ true) }
{
    check_stream_into(source, &mut Nowhere)
}
