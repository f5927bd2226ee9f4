//! The report on the findings of an image.
ghost use Rattle.std.specs.Prelude.{◌≡◌, ◌≤◌, ◌++◌, OnOk, IfOk, length, string_bytes};
ghost use Rattle.sfi_image.specs.Spelling.{views};
ghost use Rattle.sfi_rules.specs.Findings.{AreImageFindings};
ghost use Rattle.sfi_report.specs.Report.{IsFindingLine, IsPlaceText, IsInstructionText, IsReport, line_front, half_text};
ghost use Rattle.sfi_report.specs.private.{Adds, IsPlace, SpellsFirst, Stands};

use crate::digits::{push_eight_digits, push_halfword};
use rv_comp::{Front, read_front};
use sfi_formats::Format;
use sfi_image::{Image, SandboxPart};
use sfi_rules::{Finding, Rule};
use sfi_text::push_instr;
use std::alloc::{AllocError, Global};

/// Writes the halfword that the code begins with, as `.half 0xHHHH`.
fn push_first_halfword(out: &mut String, code: &[u8]) -> Result<(), AllocError>
    requires { 2 ≤ length code.now }
    ensures { OnOk result (string_bytes out.new ≡ string_bytes out.old ++ half_text code.now) }
{
    out.push_str(".half 0x")?;
    push_halfword(out, &code[..2])
}

/// Writes the instruction that the code begins with. There is one where a rule other than V1 and V2
/// is broken.
fn push_first_instruction(out: &mut String, code: &[u8]) -> Result<(), AllocError>
    requires { SpellsFirst code.now }
    ensures { OnOk result
        (Adds (string_bytes out.old) (string_bytes out.new) (IsInstructionText code.now)) }
{
    match read_front(code) {
        Front::Read(instr, _) => push_instr(out, &instr),
        Front::Short | Front::Bad => unreachable!(),
    }
}

/// Writes the last part of a finding's line. `code` is the code from the finding's address on: of
/// that the instruction is written; for V1 and V2, by which there may be none, the halfword; for V9
/// that a gate's stub is expected.
fn push_place_text(out: &mut String, rule: Rule, code: &[u8]) -> Result<(), AllocError>
    requires { IsPlace rule code.now }
    ensures { OnOk result
        (Adds (string_bytes out.old) (string_bytes out.new) (IsPlaceText rule code.now)) }
{
    match rule {
        Rule::V1 | Rule::V2 => push_first_halfword(out, code),
        Rule::V9 => out.push_str("stub expected"),
        _ => push_first_instruction(out, code),
    }
}

/// Writes the line of a finding up to the instruction: `S AAAAAAAA Vk NAME `.
fn push_finding_front(out: &mut String, format: Format, finding: &Finding) -> Result<(), AllocError>
    ensures { OnOk result
        (string_bytes out.new ≡ string_bytes out.old ++ line_front format finding.now) }
{
    let sandbox = finding.sandbox;
    write!(out, "{sandbox} ")?;
    push_eight_digits(out, finding.address)?;
    let number = finding.rule.number();
    let name = finding.rule.name(format);
    write!(out, " V{number} {name} ")
}

/// Writes the line of a finding in one of an image's sandboxes, `parts`.
fn push_finding(
    out: &mut String,
    format: Format,
    parts: &[SandboxPart],
    finding: &Finding,
) -> Result<(), AllocError>
    requires { Stands (views format parts.now) finding.now }
    ensures { OnOk result (Adds (string_bytes out.old) (string_bytes out.new)
        (IsFindingLine (views format parts.now) finding.now)) }
{
    let part = &parts[finding.sandbox as usize];
    let offset = (finding.address - part.code_base) as usize;
    push_finding_front(out, format, finding)?;
    push_place_text(out, finding.rule, &part.code[offset..])?;
    out.push_str("\n")
}

/// The report on an image's findings: a line for each.
///
/// A line is `S AAAAAAAA Vk NAME TEXT`: the sandbox, the address, the rule and its name, and the
/// instruction that stands there. For V1 and V2 it has the halfword there in place of an
/// instruction, and for V9 `stub expected`. The one error is that an allocation was refused.
pub fn report_text(
    alloc: Global,
    image: &Image<'_>,
    findings: &[Finding],
) -> Result<String, AllocError>
    requires { AreImageFindings image.now findings.now }
    ensures text { IfOk result (λ text. IsReport image.now findings.now (string_bytes text)) }
{
    let mut out = String::new(alloc);
    let format = image.format();
    let parts = image.parts();
    for finding in findings {
        push_finding(&mut out, format, parts, finding)?;
    }
    Ok(out)
}
