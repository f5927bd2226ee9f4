//! The command `check`.

ghost use Rattle.std.specs.Prelude.{◌≡◌, ◌<◌, ◌≤◌, IfOk, string_bytes};
ghost use Rattle.sfi_check.specs.Verdict.{HasFindings};
ghost use Rattle.sfi_answers.specs.Answers.{Answers};
ghost use Rattle.sfi_answers.specs.FaultTexts.{IsFaultLine};
ghost use Rattle.sfi_answers.specs.Answers.{Refuses, IsRefusalText, IsReportOf, SaysRefused, check, on_verdict};

use crate::fault::{Stop, stop_answer};
use crate::verdict::{Answer, accepted_line, refused_line};
use sfi_check::{Refusal, check};
use sfi_image::parse_image;
use sfi_report::report_text;
use sfi_rules::Finding;
use std::alloc::{AllocError, Global};

/// The report on the findings of the image with these bytes.
#[tactic(auto, using(sfi_image::proofs::Facts::one_image))]
fn report_of(alloc: Global, bytes: &[u8], findings: &[Finding]) -> Result<String, AllocError>
    requires { HasFindings bytes.now findings.now }
    ensures { IfOk result (λ text. IsReportOf bytes.now findings.now (string_bytes text)) }
{
    match parse_image(alloc, bytes) {
        Ok(image) => report_text(alloc, &image, findings),
        // Bytes with findings have no fault, so memory ran out.
        Err(_) => Err(AllocError),
    }
}

/// The verdict's line on these findings of the image with these bytes: how many they are, and the
/// first. With `report` a line for each finding goes before it.
fn refusal_text(
    alloc: Global,
    report: bool,
    bytes: &[u8],
    findings: &[Finding],
) -> Result<String, AllocError>
    requires { HasFindings bytes.now findings.now }
    ensures { IfOk result
        (λ text. IsRefusalText report bytes.now findings.now (string_bytes text)) }
{
    let verdict = refused_line(alloc, findings.len(), findings[0])?;
    if !report {
        return Ok(verdict);
    }
    let mut text = report_of(alloc, bytes, findings)?;
    text.push_str(&verdict)?;
    Ok(text)
}

/// What a command answers on bytes that `check` refuses: for findings the verdict, with status 1
/// and, if `report` says so, a line for each finding; else a `Stop`. Other commands that want an
/// accepted image answer by it, too, without a report.
pub fn refusal_answer(
    alloc: Global,
    report: bool,
    bytes: &[u8],
    refusal: Refusal,
) -> Result<Answer, Stop>
    requires { Refuses bytes.now refusal }
    ensures { Answers (on_verdict (SaysRefused report)) bytes.now result }
{
    match refusal {
        Refusal::Findings(findings) => Ok(Answer::lines(
            1,
            refusal_text(alloc, report, bytes, findings.as_slice())?,
        )),
        Refusal::Layout(fault) => Err(Stop::Layout(fault)),
        Refusal::Memory => Err(Stop::Memory),
    }
}

/// The verdict on the image with these bytes; if `report` says so, a line for each finding goes
/// before it.
pub fn check_answer(alloc: Global, report: bool, bytes: &[u8]) -> Result<Answer, Stop>
    ensures { Answers (check report) bytes.now result }
{
    match check(alloc, bytes) {
        Ok(accepted) => Ok(Answer::lines(
            0,
            accepted_line(alloc, accepted.sandbox_count(), accepted.bundle_count())?,
        )),
        Err(refusal) => refusal_answer(alloc, report, bytes, refusal),
    }
}

/// The verdict on an image's bytes as `check_answer` gives it, or the line of the fault if they are
/// no image. `sfi_tool_c` answers `check --raw` by it; `raw_answer` is for a reader.
pub fn check_or_fault_answer(
    alloc: Global,
    report: bool,
    bytes: &[u8],
) -> Result<Answer, AllocError>
    ensures statuses { IfOk result (λ a. a.status ≤ 2) }
    ensures says { IfOk result
        (λ a. a.status < 2 → (check report).says bytes.now a.status a.output.items) }
    ensures line { IfOk result
        (λ a. a.status ≡ 2 → IsFaultLine (check report) bytes.now a.output.items) }
{
    match check_answer(alloc, report, bytes) {
        Ok(answer) => Ok(answer),
        Err(stop) => stop_answer(alloc, stop),
    }
}
