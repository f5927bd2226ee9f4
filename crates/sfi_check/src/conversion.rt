//! From the first format to the second.
ghost use Rattle.std.specs.Prelude.{◌≡◌, ℕ, List, false, IfOk, IfErr};
ghost use Rattle.sfi_formats.specs.declared.format.Format.TheVariants.{Sfi2};
ghost use Rattle.sfi_formats.specs.Formats.{has_words};
ghost use Rattle.sfi_image.specs.declared.fault.LayoutFault.{LayoutFault};
ghost use Rattle.sfi_image.specs.Spelling.{views, format_of};
ghost use Rattle.sfi_image.specs.Parts.{IsRightLayout};
ghost use Rattle.sfi_image.specs.Faults.{IsFault};
ghost use Rattle.sfi_rules.specs.declared.finding.Finding.{Finding};
ghost use Rattle.sfi_check.specs.Verdict.{HasFindings};
ghost use Rattle.sfi_check.specs.Converting.{number_of, IsSecond, IsOfWords, HasStackFindings, IsConversion, AreOfStack, IfStack, IsConvertFault, AnswersNotOld, AnswersLayout, AnswersFindings, AnswersStack, AnswersWords, AnswersConversion};
ghost use Rattle.sfi_check.specs.private.{ChecksStack, Converts};

use crate::accepted::Accepted;
use crate::refusal::Refusal;
use crate::verdict::{check, findings_as};
use sfi_formats::Format;
use sfi_image::{SandboxPart, write_image_as};
use sfi_scan::Finding;
use std::alloc::Global;
use thiserror::Error;

/// Why an image isn't converted.
#[derive(Debug, Drop, Error)]
pub enum ConvertFault {
    /// The bytes are no accepted image: what `check` says of them.
    #[error("{0}")]
    Refused(Refusal),
    /// They begin as an image of the second format does. This goes before all else.
    #[error("convert fault 2 NotOld")]
    NotOld,
    /// The image is accepted, but the same sandboxes break a rule of the second format: all these
    /// places, by sandbox and then by address.
    #[error("broken rules of the second format")]
    Stack(Vec<Finding>),
    /// Memory ran out.
    #[error("out of memory")]
    Memory,
    /// The image is accepted, but its code is in words.
    #[error("convert fault 5 Words")]
    Words,
}

impl ConvertFault {
    /// The fault's number, 1 to 5. The texts of `NotOld` and `Words` above have it, too.
    pub fn number(&self) -> u32
        ensures { result ≡ number_of self.now }
    {
        match self {
            ConvertFault::Refused(_) => 1,
            ConvertFault::NotOld => 2,
            ConvertFault::Stack(_) => 3,
            ConvertFault::Memory => 4,
            ConvertFault::Words => 5,
        }
    }
}

impl From<Refusal> for ConvertFault {
    ghost use Rattle.sfi_check.specs.Converting.{fault_of};

    ghost from_gives = { λ refusal fault. fault ≡ fault_of refusal };

    // Want of memory says nothing of the bytes, so it is no refusal of them here.
    fn from(refusal: Refusal) -> ConvertFault {
        match refusal {
            Refusal::Layout(fault) => ConvertFault::Refused(Refusal::Layout(fault)),
            Refusal::Findings(found) => ConvertFault::Refused(Refusal::Findings(found)),
            Refusal::Memory => ConvertFault::Memory,
        }
    }
}

/// Judges the sandboxes by the rules of the second format: an error, `Stack` with all findings, if
/// they break one.
fn check_stack(alloc: Global, parts: &[SandboxPart<'_>]) -> Result<(), ConvertFault>
    requires { IsRightLayout (views Sfi2 parts.now) }
    ensures { ChecksStack (views Sfi2 parts.now) result }
{
    let Ok(found) = findings_as(alloc, Format::Sfi2, parts) else {
        return Err(ConvertFault::Memory);
    };
    if found.is_empty() {
        Ok(())
    } else {
        Err(ConvertFault::Stack(found))
    }
}

/// The bytes of the same sandboxes in the second format, or `Stack` if they break one of its rules.
/// Code in bundles alone.
fn convert_accepted(alloc: Global, accepted: &Accepted<'_>) -> Result<Vec<u8>, ConvertFault>
    requires bundles { has_words (format_of accepted.now) ≡ false }
    ensures { Converts accepted.now result }
{
    let parts = accepted.image().parts();
    check_stack(alloc, parts)?;
    let Ok(bytes) = write_image_as(alloc, Format::Sfi2, parts) else {
        return Err(ConvertFault::Memory);
    };
    Ok(bytes)
}

/// Makes of an accepted image of the first format that of the same sandboxes in the second, unless
/// they break one of its rules. Code in words has no other format.
///
/// What it makes is an accepted image: `check` refuses it for want of memory alone.
#[tactic(auto, using(sfi_rules::proofs::Facts::one_image_list))]
pub fn convert(alloc: Global, bytes: &[u8]) -> Result<Vec<u8>, ConvertFault>
    // What each answer means.
    ensures converted { IfOk result (λ new. IsConversion bytes.now new.items) }
    ensures fault { IfErr result (IsConvertFault bytes.now) }
    ensures stack_alone { IfErr result (IfStack AreOfStack) }

    // Which bytes get each answer, want of memory aside.
    ensures only_not_old { IsSecond bytes.now → AnswersNotOld result }
    ensures only_layout { (k : LayoutFault) → (¬ IsSecond bytes.now) → IsFault bytes.now k
        → AnswersLayout k result }
    ensures only_findings { (found : List Finding) → (¬ IsSecond bytes.now)
        → HasFindings bytes.now found → AnswersFindings found result }
    ensures only_stack { (found : List Finding) → HasStackFindings bytes.now found
        → AnswersStack found result }
    ensures only_words { IsOfWords bytes.now → AnswersWords result }
    ensures only_converted { (new : List ℕ) → IsConversion bytes.now new
        → AnswersConversion new result }
{
    if Format::Sfi2.begins(bytes) {
        return Err(ConvertFault::NotOld);
    }
    match check(alloc, bytes) {
        Ok(accepted) => {
            if accepted.image().format().has_words() {
                return Err(ConvertFault::Words);
            }
            convert_accepted(alloc, &accepted)
        }
        Err(refusal) => Err(ConvertFault::from(refusal)),
    }
}
