//! The items of a sandbox of code in words, laid one after another.
ghost use Rattle.std.specs.Prelude.{◌≡◌, ◌<◌, ◌≤◌, ◌+◌, true, IfOk, IfErr, length, drop};
ghost use Rattle.sfi_rewrite.specs.private.{largest, bytes_of, AreWords, before_label, with_slots, HaveRoom, AreWith, HasNoRoom, IsBeyond};
ghost use Rattle.sfi_rewrite.specs.private.{AreLabels};
ghost use Rattle.sfi_rewrite.specs.Rewriting.{AreFaultless, UnlessMemory, IsItemFault};

use crate::fault::RewriteFault;
use crate::item::permit;
use crate::laid_items::Laid;
use crate::slot::BundleSlot;
use crate::words::expansion::expand_in_words;
use crate::words::filling::WordFilling;
use sfi_formats::Format;
use sfi_source::Item;
use std::alloc::{AllocError, Global};

/// Adds slots to the code, up to the first that would pass the format's limit, which is `TooLarge`
/// of sandbox `sandbox`, counted from 0.
fn fill_slots(
    format: Format,
    sandbox: u32,
    slots: &[BundleSlot],
    code: &mut WordFilling,
) -> Result<(), RewriteFault>
    requires { HaveRoom format code.old }
    ensures pushed { IfOk result (λ _. code.new ≡ with_slots code.old slots.now) }
    ensures room { IfOk result (λ _. HaveRoom format code.new) }
    ensures refused { IfErr result
        (UnlessMemory (IsBeyond format sandbox (with_slots code.old slots.now))) }
{
    for slot in slots {
        if code.end_with(slot) > format.built_code_most() as usize {
            return Err(RewriteFault::TooLarge { sandbox });
        }
        code.push(*slot)?;
    }
    Ok(())
}

/// Where a `label` comes next, ends the word of a 16-bit form that waits, since a label names a
/// word's start.
fn end_before(label: bool, code: &mut WordFilling) -> Result<(), AllocError>
    requires aligned { AreWords code.old }
    requires room { bytes_of code.old ≤ largest }
    ensures { IfOk result (λ _. code.new ≡ before_label label code.old.words code.old.waiting) }
{
    if label { code.end_word() } else { Ok(()) }
}

/// Adds the expansion of an item, after which the items `later` come, to the code. `TooLarge` names
/// sandbox `sandbox`.
fn lay_item_in_words(
    format: Format,
    sandbox: u32,
    item: &Item,
    later: &[Item],
    code: &mut WordFilling,
) -> Result<(), RewriteFault>
    requires { HaveRoom format code.old }
    ensures laid { IfOk result (λ _. AreWith format item.now later.now code.old code.new) }
    ensures room { IfOk result (λ _. HaveRoom format code.new) }
    ensures refused { IfErr result
        (UnlessMemory (HasNoRoom format sandbox item.now later.now code.old)) }
{
    let expansion = expand_in_words(format, item, later);
    end_before(item.labelled, code)?;
    fill_slots(format, sandbox, expansion.slots(), code)
}

/// The items after item `number`, counted from 0.
fn items_after(items: &[Item], number: usize) -> &[Item]
    requires { number < length items.now }
    ensures { result.now ≡ drop (number + 1) items.now }
{
    &items[number + 1..]
}

/// Lays the items of sandbox `sandbox`, in a format whose code is in words, or answers the first
/// fault of the first item that has one. `lay_items` does the same in bundles.
pub(crate) fn lay_in_words(
    alloc: Global,
    format: Format,
    sandbox: u32,
    items: &[Item],
) -> Result<Laid, RewriteFault>
    ensures faultless { IfOk result (λ l. AreFaultless true format (length items.now) items.now l.code) }
    ensures labels { IfOk result (λ l. AreLabels true format items.now l.labels.items) }
    ensures refused { IfErr result (UnlessMemory (IsItemFault true format sandbox items.now)) }
{
    let mut code = WordFilling::new(alloc);
    let mut labels = Vec::new(alloc);
    for (number, item) in items.iter().enumerate() {
        labels.push(code.place())?;
        permit(format, item)?;
        let later = items_after(items, number);
        lay_item_in_words(format, sandbox, item, later, &mut code)?;
    }
    labels.push(code.place())?;
    code.end_word()?;
    Ok(Laid {
        code: code.into_words(),
        labels,
    })
}
