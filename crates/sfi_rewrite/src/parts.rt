//! From a source to what is placed.
ghost use Rattle.std.specs.Prelude.{◌≡◌, ◌<◌, ◌≤◌, ◌^◌, List, length, IfOk, IfErr, IsTrue, Ok};
ghost use Rattle.std.specs.List.{All, AllZip};
ghost use Rattle.sfi_source.specs.Source.{IsSandbox};
ghost use Rattle.sfi_rewrite.specs.Expansion.{size_of};
ghost use Rattle.sfi_rewrite.specs.Placement.{Placement};
ghost use Rattle.sfi_rewrite.specs.Placed.{IsPlacedPart};
ghost use Rattle.sfi_formats.specs.Formats.{has_words};
ghost use Rattle.sfi_rewrite.specs.private.{AreLabels, HasEnd, HaveBodies, largest};
ghost use Rattle.sfi_rewrite.specs.declared.fault.RewriteFault.{RewriteFault};
ghost use Rattle.sfi_rewrite.specs.Rewriting.{AreFaultless, UnlessMemory, IsItemFault};
ghost use Rattle.sfi_rewrite.specs.Rewriting.{IsSandboxFault, IsSourceFault};
ghost use Rattle.sfi_rewrite.specs.Standing.{StandTransparent};
ghost use Rattle.sfi_rewrite.specs.Rewriting.{IsRewritten, AreRewritten, AnswersPlaced, AnswersFault};

use crate::fault::RewriteFault;
use crate::filling::Filling;
use crate::laid_items::{Laid, lay_items};
use crate::names::{has_end_label, place_names};
use crate::place::nops_at_end;
use crate::placed::{Placed, PlacedPart};
use crate::words::lay_in_words;
use sfi_formats::Format;
use sfi_source::{Item, Source, SourcePart};
use std::alloc::{AllocError, Global};

/// Where a label stands at the end of code in bundles (`labelled`), adds c.nops up to the bundle
/// start that it names. Code in words gets none: there the label's place is the end itself.
fn fill_end(format: Format, labelled: bool, code: &mut Filling) -> Result<(), AllocError>
    requires { size_of code.old ≤ largest }
    ensures { IfOk result (λ _. HasEnd format code.old (IsTrue labelled) code.new) }
{
    if format.has_words() || !labelled {
        return Ok(());
    }
    let nops = nops_at_end(code.end());
    code.push_nops(nops)?;
    Ok(())
}

/// Lays the items of sandbox `sandbox` as its format has it: in words or in bundles.
fn lay(alloc: Global, format: Format, sandbox: u32, items: &[Item]) -> Result<Laid, RewriteFault>
    requires { HaveBodies items.now }
    ensures faultless { IfOk result (λ l. AreFaultless (has_words format) format (length items.now) items.now l.code) }
    ensures labels { IfOk result (λ l. AreLabels (has_words format) format items.now l.labels.items) }
    ensures refused { IfErr result (UnlessMemory (IsItemFault (has_words format) format sandbox items.now)) }
{
    if format.has_words() {
        lay_in_words(alloc, format, sandbox, items)
    } else {
        lay_items(alloc, format, sandbox, items)
    }
}

/// Places the code and the names of one sandbox of the source. `sandbox` is its number, counted
/// from 0, which a fault `TooLarge` names.
fn place_part(alloc: Global, sandbox: u32, part: &SourcePart) -> Result<PlacedPart, RewriteFault>
    requires { IsSandbox part.now }
    ensures rewritten { IfOk result (IsRewritten part.now) }
    ensures right { IfOk result IsPlacedPart }
    ensures refused { IfErr result
        (UnlessMemory (IsSandboxFault sandbox part.now)) }
{
    let laid = lay(alloc, part.format(), sandbox, part.items())?;
    let names = place_names(alloc, part, &laid.labels)?;
    let mut code = laid.code;
    fill_end(part.format(), has_end_label(part), &mut code)?;
    let mut gates = Vec::new(alloc);
    gates.extend_from_slice(part.gates())?;
    let mut bytes = Vec::new(alloc);
    bytes.extend_from_slice(part.bytes())?;
    let bundles = code.into_bundles();
    Ok(PlacedPart::new(
        part.format(),
        part.is_movable(),
        part.data_size(),
        gates,
        names,
        bytes,
        bundles,
    ))
}

/// Places the sandboxes, in order.
fn place_parts(alloc: Global, parts: &[SourcePart]) -> Result<Vec<PlacedPart>, RewriteFault>
    requires sandboxes { All IsSandbox parts.now }
    requires numbered { length parts.now ≤ 2 ^ 32 }
    ensures rewritten { IfOk result (λ v. AreRewritten parts.now v.items) }
    ensures right { IfOk result (λ v. All IsPlacedPart v.items) }
    ensures refused { IfErr result (UnlessMemory (IsSourceFault parts.now)) }
{
    let mut placed = Vec::new(alloc);
    for (number, part) in parts.iter().enumerate() {
        placed.push(place_part(alloc, number as u32, part)?)?;
    }
    Ok(placed)
}

/// Places a source: each sandbox's expansions, each at the first place in which it may stand; or
/// the first fault in the order of the text, and on one instruction the first by [`RewriteFault`].
#[tactic(auto, using(crate::proofs::Facts::one_rewriting, crate::proofs::Facts::never_both))]
pub fn rewrite(alloc: Global, source: &Source) -> Result<Placed, RewriteFault>
    ensures placed { IfOk result (AreRewritten source.now) }
    ensures transparent { IfOk result (AllZip StandTransparent source.now) }
    ensures fault { IfErr result (UnlessMemory (IsSourceFault source.now)) }
    ensures only_placed { (placed : List Placement)
        → AreRewritten source.now placed → AnswersPlaced placed result }
    ensures only_fault { (fault : RewriteFault)
        → IsSourceFault source.now fault → AnswersFault fault result }
{
    Ok(Placed::new(place_parts(alloc, source.parts())?))
}
