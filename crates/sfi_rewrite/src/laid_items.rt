//! The items of a sandbox of code in bundles, laid one after another. `words/laid_items` does the
//! same for code in words.
ghost use Rattle.std.specs.Prelude.{◌≡◌, ◌<◌, ◌≤◌, ◌+◌, ◌*◌, ℕ, false, IfOk, IfErr, length};
ghost use Rattle.sfi_formats.specs.Formats.{built_code_most};
ghost use Rattle.sfi_source.specs.Source.{IsBody};
ghost use Rattle.sfi_rewrite.specs.Expansion.{size_of};
ghost use Rattle.sfi_rewrite.specs.private.{HasNext, IsTooLarge, HaveBodies, AreLabels};
ghost use Rattle.sfi_rewrite.specs.Rewriting.{IsPermitted, AreFaultless, UnlessMemory, IsItemFault};

use crate::expansion::expand;
use crate::fault::RewriteFault;
use crate::filling::Filling;
use crate::item::{is_call, permit};
use crate::place::{next_bundle, nops_before};
use crate::slot::size_of;
use sfi_formats::Format;
use sfi_source::Item;
use std::alloc::Global;

/// The code of a sandbox, and the places that its labels name; of code in words, too.
#[derive(Drop)]
pub(crate) struct Laid {
    pub(crate) code: Filling,
    /// For each item, and last for the end of the code, the place that a label before it names.
    pub(crate) labels: Vec<u32>,
}

/// Adds the expansion of an item, after the c.nops that it needs, to the code. `TooLarge` names
/// sandbox `sandbox`, counted from 0. An expansion crosses no bundle's end, and the format's limit
/// is one, so it fits where it begins below the limit.
fn lay_item(
    format: Format,
    sandbox: u32,
    item: &Item,
    code: &mut Filling,
) -> Result<(), RewriteFault>
    requires permitted { IsPermitted format item.now }
    requires body { (count : ℕ) × IsBody count item.now.body }
    requires room { size_of code.old ≤ built_code_most format }
    ensures laid { IfOk result (λ _. HasNext format code.old item.now code.new) }
    ensures refused { IfErr result
        (UnlessMemory (IsTooLarge format sandbox (size_of code.old) item.now)) }
{
    let expansion = expand(format, item);
    let slots = expansion.slots();
    let size = size_of(slots);
    let end = code.end();
    let nops = nops_before(end, item.labelled, is_call(&item.body), size);
    if end + 2 * nops >= format.built_code_most() as usize {
        return Err(RewriteFault::TooLarge { sandbox });
    }
    code.push_nops(nops)?;
    code.push(slots, size)?;
    Ok(())
}

/// Lays the items of sandbox `sandbox`, counted from 0, in bundles; or the first fault of the first
/// item that has one.
pub(crate) fn lay_items(
    alloc: Global,
    format: Format,
    sandbox: u32,
    items: &[Item],
) -> Result<Laid, RewriteFault>
    requires { HaveBodies items.now }
    ensures faultless { IfOk result (λ l. AreFaultless false format (length items.now) items.now l.code) }
    ensures labels { IfOk result (λ l. AreLabels false format items.now l.labels.items) }
    ensures refused { IfErr result (UnlessMemory (IsItemFault false format sandbox items.now)) }
{
    let mut code = Filling::new(alloc);
    let mut labels = Vec::new(alloc);
    for item in items {
        labels.push(next_bundle(code.end()))?;
        permit(format, item)?;
        lay_item(format, sandbox, item, &mut code)?;
    }
    labels.push(next_bundle(code.end()))?;
    Ok(Laid { code, labels })
}
