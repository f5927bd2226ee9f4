//! Where the units of a sandbox's code are entered, by indirect jumps and by a host: the table that
//! specs/Entries.antt says. A unit is a bundle, or, in formats of words, a word.
ghost use Rattle.std.specs.Prelude.{◌≡◌, ℕ, ◌*◌, ◌/◌, IfOk, List};
ghost use Rattle.sfi_image.specs.Spelling.{Part};
ghost use Rattle.sfi_image.specs.Spelling.{view};
ghost use Rattle.sfi_translate.specs.Lines.{Line as CodeLine};
ghost use Rattle.sfi_translate.specs.Machine.{label};
ghost use Rattle.sfi_native.specs.Entries.{AreEntries, entry_of, owed_at_entry};
ghost use Rattle.sfi_native.specs.Lines.{AreMeasured};
ghost use Rattle.sfi_native.specs.Places.{size_of_all};

use crate::byte_sizes::END_BYTES;
use crate::plan::Plan;
use sfi_formats::Format;
use sfi_image::SandboxPart;
use std::alloc::{AllocError, Global};
use std::collections::BTreeMap;

/// A row of the table.
#[derive(Clone, Copy)]
struct Row {
    /// Where a unit is entered: an offset in the code of x86-64.
    entry: u32,
    /// How many steps are owed there.
    owed: u32,
}

/// The row of the unit at address `at`, where all lines have `all` bytes. Labels are as in
/// compilation.rt. Where no line has the address, the unit is entered at the way out, `END_BYTES`
/// behind the lines.
fn row_at(plan: &Plan, labels: &BTreeMap<u32, u32>, all: u32, at: u32) -> Row
    ensures entry { (code : List CodeLine) (bytes : List ℕ) → AreMeasured plan.now code bytes labels.now → all ≡ size_of_all plan.now code
        → result.entry ≡ entry_of plan.now code (label at code) }
    ensures owed { (p : Part) (code : List CodeLine) (bytes : List ℕ) → AreMeasured plan.now code bytes labels.now
        → result.owed ≡ owed_at_entry plan.now p (label at code) }
{
    match labels.get(&at) {
        Some(left) => Row {
            entry: all.wrapping_sub(*left),
            owed: plan.owed(at),
        },
        None => Row {
            entry: all.wrapping_add(END_BYTES),
            owed: 0,
        },
    }
}

/// The table: for each unit of a sandbox's code, in order, its entry and then how many steps are owed
/// there.
#[tactic(auto, using(crate::proofs::Entered::no_entries))]
pub(crate) fn entries(
    alloc: Global,
    format: Format,
    part: &SandboxPart<'_>,
    plan: &Plan,
    labels: &BTreeMap<u32, u32>,
    all: u32,
) -> Result<Vec<u32>, AllocError>
    ensures { IfOk result (λ table. (code : List CodeLine) (bytes : List ℕ) → AreMeasured plan.now code bytes labels.now → all ≡ size_of_all plan.now code
        → AreEntries plan.now (view format part.now) code table.items) }
{
    let unit = format.unit();
    let mut at = part.code_base;
    let mut table = Vec::new(alloc);
    for _ in 0..part.code.len() / unit as usize {
        let row = row_at(plan, labels, all, at);
        table.push(row.entry)?;
        table.push(row.owed)?;
        at = at.wrapping_add(unit);
    }
    Ok(table)
}
