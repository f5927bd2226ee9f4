//! Whether sandboxes have a right layout, before they are written.
ghost use Rattle.std.specs.Prelude.{◌≡◌, List, OnOk, IfOk, IfErr};
ghost use Rattle.std.specs.Bool.{OnTrue, OnFalse};
ghost use Rattle.std.specs.List.{All, AllPairs};
ghost use Rattle.sfi_image.specs.Spelling.{Part, view, views, IsWord};
ghost use Rattle.sfi_image.specs.Numbers.{AreFieldWords, AreGateWords};
ghost use Rattle.sfi_image.specs.Spelling.{AreApart, code_span, spans};
ghost use Rattle.sfi_image.specs.Sources.{IsBounded};
ghost use Rattle.sfi_image.specs.Parts.{AreGates, AreOf};
ghost use Rattle.sfi_image.specs.Parts.{IsRightLayout};
ghost use Rattle.sfi_image.specs.Faults.{HasWrongGate, HasFault, HaveFault};
ghost use Rattle.sfi_image.specs.private.{capped, capped_fields, FitsAfter};
ghost use Rattle.sfi_image.specs.Faults.{IfLayout};

use crate::fault::{ImageFault, LayoutFault};
use crate::fields::{Fields, OwnSpans, spans_after};
use crate::gates::is_next_gate;
use crate::part::{Gate, SandboxPart};
use crate::span::Span;
use sfi_formats::{Format, SANDBOX_COUNT_MOST};
use std::alloc::Global;

/// The length as a number of 32 bits, or the greatest such number if it has more.
fn capped(len: usize) -> u32
    ensures value { result ≡ capped len }
    ensures word { IsWord result }
{
    if len <= u32::MAX as usize {
        len as u32
    } else {
        u32::MAX
    }
}

/// Returns `number`. It reminds the prover that a u32 behind a reference is below 2 ^ 32.
fn word(number: u32) -> u32
    ensures value { result ≡ number }
    ensures word { IsWord result }
{
    number
}

/// The seven fields of a sandbox. A length that its field can't hold is above each limit,
/// and so is the greatest number.
fn fields_of_part(format: Format, part: &SandboxPart<'_>) -> Fields
    ensures value { result ≡ capped_fields (view format part.now) }
    ensures words { AreFieldWords result }
{
    Fields {
        format,
        code_base: word(part.code_base),
        code_size: capped(part.code.len()),
        data_base: word(part.data_base),
        data_size: word(part.data_size),
        start: word(part.start),
        gate_count: capped(part.gates.len()),
        init_len: capped(part.init.len()),
    }
}

/// Whether each gate may follow those before it: `is_next_gate`.
fn are_gates(fields: &Fields, gates: &[Gate]) -> bool
    ensures right { OnTrue result (AreGates (code_span fields.now) gates.now) }
    ensures words { OnTrue result (All AreGateWords gates.now) }
    ensures wrong { OnFalse result (HasWrongGate (code_span fields.now) gates.now) }
{
    let mut last = None;
    for gate in gates {
        if !is_next_gate(fields, last, *gate) {
            return false;
        }
        last = Some(gate.address);
    }
    true
}

/// The spans of a sandbox, or its fault, after sandboxes with the spans `before`.
fn part_spans(
    format: Format,
    before: &[Span],
    part: &SandboxPart<'_>,
) -> Result<OwnSpans, LayoutFault>
    requires bounded { All IsBounded before.now }
    requires apart { AllPairs AreApart before.now }
    ensures fits { (ps : List Part) → AreOf format ps → before.now ≡ spans ps
        → IfOk result (λ own. FitsAfter ps (view format part.now) own) }
    ensures fault { (ps : List Part) → AreOf format ps → before.now ≡ spans ps
        → IfErr result (λ k. HasFault ps (view format part.now) k) }
{
    let fields = fields_of_part(format, part);
    let own = spans_after(before, &fields)?;
    if !are_gates(&fields, &part.gates) {
        return Err(LayoutFault::Gates);
    }
    Ok(own)
}

/// Tests that the sandboxes have a right layout. The error is the fault of the first that is wrong,
/// `Count` for none or too many of them, or that memory is refused.
pub(crate) fn check_layout(
    alloc: Global,
    format: Format,
    parts: &[SandboxPart<'_>],
) -> Result<(), ImageFault>
    ensures right { OnOk result (IsRightLayout (views format parts.now)) }
    ensures wrong { IfErr result (λ e. IfLayout e (HaveFault (views format parts.now))) }
{
    if parts.is_empty() || parts.len() > SANDBOX_COUNT_MOST {
        return Err(ImageFault::Layout(LayoutFault::Count));
    }
    let mut before = Vec::new(alloc);
    for part in parts {
        let own = match part_spans(format, &before, part) {
            Ok(own) => own,
            Err(fault) => return Err(ImageFault::Layout(fault)),
        };
        before.push(own.code)?;
        before.push(own.guarded)?;
    }
    Ok(())
}
