//! The verdict on an image's bytes.
ghost use Rattle.std.specs.Prelude.{◌≡◌, ◌≢◌, List, IfOk, IfErr, true};
ghost use Rattle.sfi_image.specs.declared.fault.LayoutFault.{LayoutFault};
ghost use Rattle.sfi_image.specs.Spelling.{Part, views};
ghost use Rattle.sfi_image.specs.Parts.{IsRightLayout};
ghost use Rattle.sfi_image.specs.Faults.{IsFault};
ghost use Rattle.sfi_rules.specs.declared.finding.Finding.{Finding};
ghost use Rattle.sfi_rules.specs.Findings.{AreImageFindings};
ghost use Rattle.sfi_check.specs.OneVerdict.{IfLayoutFault, IfFindings};
ghost use Rattle.sfi_check.specs.Verdict.{IsVerdictOn, AreHandedOver};
ghost use Rattle.sfi_safe_runs.specs.Safety.{AllRunSafely};
ghost use Rattle.sfi_check.specs.Verdict.{HasFindings, AnswersLayout, AnswersFindings, AnswersAccepted};
ghost use Rattle.sfi_safety.specs.Clean.{IsAccepted};

use crate::accepted::Accepted;
use crate::feed::Feed;
use crate::refusal::Refusal;
use crate::sink::Nowhere;
use crate::stream_answer::StreamAnswer;
use sfi_formats::Format;
use sfi_image::{ImageFault, SandboxPart, parse_image};
use sfi_scan::{Finding, FindingSink, IN_BLOCKS, scan_part_as};
use std::alloc::{AllocError, Global};

/// Accepts the bytes, or says why not, and hands their findings to the sink, by sandbox and then by
/// address. It takes no memory. Where the bytes are no image, no clause says which findings the sink
/// was handed.
pub fn check_into<F: FindingSink>(bytes: &[u8], sink: &mut F) -> StreamAnswer
    ensures judged { IsVerdictOn bytes.now true result }
    ensures read { result ≢ StreamAnswer.ReadFault }
    ensures handed { (found : List Finding) × F.takes sink.old found sink.new
        × AreHandedOver bytes.now found result }
{
    let mut feed = Feed::new();
    feed.feed_into::<F, IN_BLOCKS>(bytes, sink);
    feed.answer()
}

/// Accepts the bytes, or says why not, with the first finding alone. It takes no memory.
pub fn judge(bytes: &[u8]) -> StreamAnswer
    ensures judged { IsVerdictOn bytes.now true result }
    ensures read { result ≢ StreamAnswer.ReadFault }
{
    check_into(bytes, &mut Nowhere)
}

/// The image that the bytes are, which have to be accepted, as [`judge`] says: that isn't tested
/// here. An error means that memory ran out.
pub fn accept<'a>(alloc: Global, bytes: &'a [u8]) -> Result<Accepted<'a>, AllocError>
    requires { (parts : List Part) × IsAccepted bytes.now parts }
    ensures accepted { IfOk result (IsAccepted bytes.entry.now) }
    ensures safe { IfOk result (λ ps. AllRunSafely ps) }
{
    match parse_image(alloc, bytes) {
        Ok(read) => Ok(Accepted::new(read)),
        Err(ImageFault::Memory) => Err(AllocError),
        Err(ImageFault::Layout(_)) => unreachable!(),
    }
}

/// The findings that the sandboxes would have in an image of this format, which needn't be their
/// own, by sandbox and then by address. An error means that memory ran out.
pub(crate) fn findings_as(
    alloc: Global,
    format: Format,
    parts: &[SandboxPart<'_>],
) -> Result<Vec<Finding>, AllocError>
    requires { IsRightLayout (views format parts.now) }
    ensures { IfOk result (λ found. AreImageFindings (views format parts.now) found.items) }
{
    let mut found = Vec::new(alloc);
    for (sandbox, part) in parts.iter().enumerate() {
        let of_part = scan_part_as(alloc, format, sandbox as u32, part)?;
        found.extend_from_slice(&of_part)?;
    }
    Ok(found)
}

/// Accepts the bytes, or says why not.
///
/// The verdict rests on the bytes alone. Want of memory is the one answer that the bytes don't
/// determine. It reads the whole image and lists all findings, without a [`Feed`](crate::Feed), by which
/// [`judge`], [`check_into`] and [`check_stream`](crate::check_stream) judge. That both say the same are
/// laws (specs/OneVerdict).
pub fn check<'a>(alloc: Global, bytes: &'a [u8]) -> Result<Accepted<'a>, Refusal>
    // What each answer means.
    ensures layout { IfErr result (IfLayoutFault (IsFault bytes.entry.now)) }
    ensures findings { IfErr result (IfFindings (HasFindings bytes.entry.now)) }
    ensures accepted { IfOk result (IsAccepted bytes.entry.now) }

    // Which bytes get each answer, want of memory aside.
    ensures only_layout { (k : LayoutFault) → IsFault bytes.entry.now k → AnswersLayout k result }
    ensures only_findings { (found : List Finding) → HasFindings bytes.entry.now found
        → AnswersFindings found result }
    ensures only_accepted { (parts : List Part) → IsAccepted bytes.entry.now parts
        → AnswersAccepted parts result }

    // What acceptance is worth: every run from every entry of every sandbox is safe.
    ensures safe { IfOk result (λ ps. AllRunSafely ps) }
{
    let image = parse_image(alloc, bytes)?;
    let Ok(found) = findings_as(alloc, image.format(), image.parts()) else {
        return Err(Refusal::Memory);
    };
    if found.is_empty() {
        Ok(Accepted::new(image))
    } else {
        Err(Refusal::Findings(found))
    }
}
