//! The verdict and its first finding as C sees them.
ghost use Rattle.std.specs.Prelude.{◌≡◌, ◌≢◌, ℕ, List, true};
ghost use Rattle.sfi_check.specs.Verdict.{IsVerdictOn};
ghost use Rattle.sfi_check.specs.ForC.{acceptance, refusal, no_image, IsVerdictForC};
ghost use Rattle.sfi_check.specs.private.{verdict_for_c};

use crate::stream_answer::StreamAnswer;
use sfi_scan::Finding;

/// What a verdict says of the bytes: `enum sfi_status` of `sfi_c`'s include/sfi.h.
#[derive(Clone, Copy, PartialEq, Eq, Debug)]
pub enum Status {
    /// They are an image in which no rule is broken.
    Accepted,
    /// They are an image in which rules are broken.
    Refused,
    /// They are no image.
    NoImage,
}

impl Status {
    ghost use Rattle.sfi_check.specs.ForC.{number_of};

    /// The number by which C knows it, 0 to 2.
    pub fn number(self) -> u32
        ensures { result ≡ number_of self }
    {
        match self {
            Status::Accepted => 0,
            Status::Refused => 1,
            Status::NoImage => 2,
        }
    }
}

/// A rule that is broken, and where: `struct sfi_finding` of `sfi_c`'s include/sfi.h, field for
/// field.
#[repr(C)]
#[derive(Clone, Copy, PartialEq, Eq, Debug)]
pub struct SfiFinding {
    /// The sandbox's place in the image, counted from 0.
    pub sandbox: u32,
    /// The address of the instruction's first byte, or of bytes that are no instruction; for V9 the
    /// gate's.
    pub address: u32,
    /// The rule's number, 1 for V1 and so on.
    pub rule: u32,
}

impl SfiFinding {
    ghost use Rattle.sfi_check.specs.ForC.{finding_for_c, no_finding};

    /// The finding as C gets it: the rule by its number.
    pub fn from_finding(finding: Finding) -> SfiFinding
        ensures { result ≡ finding_for_c finding }
    {
        SfiFinding {
            sandbox: finding.sandbox,
            address: finding.address,
            rule: finding.rule.number(),
        }
    }

    /// No finding: zeros.
    pub fn none() -> SfiFinding
        ensures { result ≡ no_finding }
    {
        SfiFinding {
            sandbox: 0,
            address: 0,
            rule: 0,
        }
    }
}

/// The verdict on an image: `struct sfi_verdict` of `sfi_c`'s include/sfi.h, field for field. A
/// field that belongs to another status than this one is 0.
#[repr(C)]
#[derive(Clone, Copy, PartialEq, Eq, Debug)]
pub struct SfiVerdict {
    /// The number of a [`Status`].
    pub status: u32,
    /// No image: the number of the layout's fault, 1 to 11.
    pub layout_fault: u32,
    /// Accepted: how many sandboxes the image has, 1 to 16.
    pub sandboxes: u32,
    /// Accepted: how many bundles of code, of 16 bytes in each format, they have together.
    pub bundles: u32,
    /// Refused: how often rules are broken, at least 1.
    pub findings: u32,
    /// Refused: the first finding, by sandbox and then by address.
    pub first: SfiFinding,
}

/// The verdict on an accepted image with these numbers of sandboxes and bundles.
fn acceptance(sandboxes: u32, bundles: u32) -> SfiVerdict
    ensures { result ≡ acceptance sandboxes bundles }
{
    SfiVerdict {
        status: Status::Accepted.number(),
        layout_fault: 0,
        sandboxes,
        bundles,
        findings: 0,
        first: SfiFinding::none(),
    }
}

/// The verdict on an image with this number of findings and this first one.
fn refusal(findings: u32, first: Finding) -> SfiVerdict
    ensures { result ≡ refusal findings first }
{
    SfiVerdict {
        status: Status::Refused.number(),
        findings,
        first: SfiFinding::from_finding(first),
        ..acceptance(0, 0)
    }
}

/// The verdict on bytes that are no image, by the number of the layout's fault.
fn no_image(layout_fault: u32) -> SfiVerdict
    ensures { result ≡ no_image layout_fault }
{
    SfiVerdict {
        status: Status::NoImage.number(),
        layout_fault,
        ..acceptance(0, 0)
    }
}

/// The verdict that says to C what `answer` says. All bytes were read, so no read failed.
fn verdict_for_c(answer: StreamAnswer) -> SfiVerdict
    requires { answer ≢ StreamAnswer.ReadFault }
    ensures { result ≡ verdict_for_c answer }
{
    match answer {
        StreamAnswer::Accepted { sandboxes, bundles } => acceptance(sandboxes, bundles),
        StreamAnswer::Findings { count, first } => refusal(count, first),
        StreamAnswer::Layout(fault) => no_image(fault.number()),
        StreamAnswer::ReadFault => unreachable!(),
    }
}

impl SfiVerdict {
    /// The verdict by the answer on an image's bytes, all of which were read.
    pub fn from_answer(answer: StreamAnswer) -> SfiVerdict
        requires { answer ≢ StreamAnswer.ReadFault }
        ensures { (bytes : List ℕ) → IsVerdictOn bytes true answer → IsVerdictForC bytes result }
    {
        verdict_for_c(answer)
    }
}
