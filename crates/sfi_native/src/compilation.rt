//! The bytes of all lines of a sandbox's code, in two passes: how many they have, and then with the
//! distances of jumps. Labels tell for the address of each instruction how many bytes are from its
//! line's start to the end of the last line. A draft is bytes of lines with all distances 0, which
//! are as many.
ghost use Rattle.std.specs.Prelude.{◌≡◌, ℕ, ◌++◌, [], ◌∷◌, List, length, map, true, false, Some, IfOk, IfSome, IfNone, OnOk, ◌+◌, ◌^◌, ◌<◌, ◌≤◌};
ghost use Rattle.sfi_translate.specs.Lines.{Line as CodeLine};
ghost use Rattle.sfi_image.specs.Spelling.{view};
ghost use Rattle.sfi_formats.specs.declared.format.Format.{Format};
ghost use Rattle.sfi_native.specs.Entries.{AreEntries};
ghost use Rattle.sfi_native.specs.Faults.{accesses_of};
ghost use Rattle.sfi_native.specs.Lines.{AreMeasured, line_of, target_of};
ghost use Rattle.sfi_native.specs.Places.{AreLast, code_of, distance as distance_of, distances, end_address, exit_of, placed, size_of, size_of_all, start, whole_code};
ghost use Rattle.x86_step.specs.Running.{spellings};

use crate::byte_sizes::END_BYTES;
use crate::entries::entries;
use crate::faults::{Access, push_access};
use crate::head::put_end;
use crate::line::{Line, push_line};
use crate::plan::Plan;
use rv_word::Instr;
use sfi_formats::Format;
use sfi_image::SandboxPart;
use std::alloc::{AllocError, Global};
use std::collections::BTreeMap;

/// The sandbox's address that a line jumps to, if it is a branch's or a jal's.
pub(crate) fn target(line: &Line) -> Option<u32>
    ensures { result ≡ target_of (line_of line.now) }
{
    let Line::Does { at, instr, .. } = *line else {
        return None;
    };
    match instr {
        Instr::Branch { offset, .. } => Some(at.wrapping_add_signed(offset)),
        Instr::Jal { offset, .. } => Some(at.wrapping_add_signed(offset)),
        _ => None,
    }
}

/// Measures a line in front of those measured already: its bytes join the draft, whose length is then
/// the line's label. False where that is 2^31 or more.
fn measure_line(
    draft: &mut Vec<u8>,
    plan: &Plan,
    labels: &mut BTreeMap<u32, u32>,
    line: Line,
) -> Result<bool, AllocError>
    ensures few { IfOk result (λ ok. ok ≡ true → (rest : List CodeLine)
        → AreMeasured plan.now rest draft.old.items labels.old → AreMeasured plan.now (line_of line ∷ rest) draft.new.items labels.new) }
    ensures many { IfOk result (λ ok. ok ≡ false → (rest : List CodeLine)
        → AreMeasured plan.now rest draft.old.items labels.old → 2 ^ 31 ≤ size_of_all plan.now (line_of line ∷ rest)) }
{
    push_line(draft, plan, line, 0, 0)?;
    let size = draft.len();
    if size >= 0x8000_0000 {
        return Ok(false);
    }
    if let Line::Does { at, .. } = &line {
        labels.insert(*at, size as u32)?;
    }
    Ok(true)
}

/// Measures all lines, the last first, so that the draft has all their bytes (in another order) and
/// `labels` all labels. False where they have 2^31 bytes or more.
fn measure(
    draft: &mut Vec<u8>,
    plan: &Plan,
    labels: &mut BTreeMap<u32, u32>,
    lines: &[Line],
) -> Result<bool, AllocError>
    requires { AreMeasured plan.now [] draft.old.items labels.old }
    ensures few { IfOk result (λ ok. ok ≡ true → AreMeasured plan.now (map line_of lines.now) draft.new.items labels.new) }
    ensures many { IfOk result (λ ok. ok ≡ false → 2 ^ 31 ≤ size_of_all plan.now (map line_of lines.now)) }
{
    let mut n = lines.len();
    while n > 0 {
        n -= 1;
        if !measure_line(draft, plan, labels, lines[n])? {
            return Ok(false);
        }
    }
    Ok(true)
}

/// How far the offset `to` is behind the offset `from`, in two's complement.
fn distance(from: u32, to: u32) -> u32
    ensures { result ≡ distance_of from to }
{
    to.wrapping_sub(from)
}

/// How far it is from the end of a line, which is at offset `end`, to the line that it jumps to, or
/// to the end of all lines, which have `all` bytes, where no line has that address. 0 for a line that
/// doesn't jump.
fn label_distance(labels: &BTreeMap<u32, u32>, all: u32, end: u32, line: &Line) -> u32
    ensures { (plan : Plan) (code rest : List CodeLine) (bytes : List ℕ) (to : ℕ) → AreMeasured plan code bytes labels.now
        → all ≡ size_of_all plan code → end ≡ start plan code rest → target_of (line_of line.now) ≡ Some to
        → result ≡ distances plan code rest to }
{
    let Some(to) = target(line) else {
        return 0;
    };
    let Some(left) = labels.get(&to) else {
        return distance(end, all);
    };
    distance(end, all.wrapping_sub(*left))
}

/// Appends a line to those before it, where all lines have `all` bytes. The way out is `END_BYTES`
/// behind them: `put_end` writes these.
fn place_line(
    out: &mut Vec<u8>,
    plan: &Plan,
    draft: &mut Vec<u8>,
    labels: &BTreeMap<u32, u32>,
    all: u32,
    line: Line,
) -> Result<(), AllocError>
    requires fits { length out.old.items + size_of plan.now (line_of line) < 2 ^ 31 }
    ensures { OnOk result ((code rest : List CodeLine) (bytes : List ℕ)
        → AreMeasured plan.now code bytes labels.now → all ≡ size_of_all plan.now code → AreLast code (line_of line ∷ rest)
        → length out.old.items ≡ start plan.now code (line_of line ∷ rest)
        → out.new.items ≡ out.old.items ++ spellings (placed plan.now code rest (line_of line))) }
{
    draft.clear();
    push_line(draft, plan, line, 0, 0)?;
    let end = (out.len() + draft.len()) as u32;
    let label = label_distance(labels, all, end, &line);
    push_line(
        out,
        plan,
        line,
        label,
        distance(end, all.wrapping_add(END_BYTES)),
    )?;
    Ok(())
}

/// Writes all lines, which have `all` bytes, into `out`, and where they access the data into `accesses`.
fn place(
    out: &mut Vec<u8>,
    plan: &Plan,
    accesses: &mut Vec<Access>,
    draft: &mut Vec<u8>,
    labels: &BTreeMap<u32, u32>,
    all: u32,
    lines: &[Line],
) -> Result<(), AllocError>
    requires measured { (bytes : List ℕ) × AreMeasured plan.now (map line_of lines.now) bytes labels.now }
    requires all { all ≡ size_of_all plan.now (map line_of lines.now) }
    requires none { out.old.items ≡ [] }
    requires no_access { accesses.old.items ≡ [] }
    ensures bytes { OnOk result
        (out.new.items ≡ spellings (code_of plan.now (map line_of lines.now) (map line_of lines.now))) }
    ensures accesses { OnOk result
        (accesses.new.items ≡ accesses_of plan.now (map line_of lines.now) (map line_of lines.now)) }
{
    for n in 0..lines.len() {
        let line = lines[n];
        push_access(accesses, plan, &line, out.len())?;
        place_line(out, plan, draft, labels, all, line)?;
    }
    Ok(())
}

/// The address behind a sandbox's code.
fn end_of(part: &SandboxPart<'_>) -> u32
    ensures { (format : Format) → result ≡ end_address (view format part.now) }
{
    part.code_base
        .wrapping_add((part.code.len() % 0x1_0000_0000) as u32)
}

/// The code of a sandbox.
#[derive(Drop)]
pub struct CompiledCode {
    /// Its bytes, which may stand anywhere.
    pub bytes: Vec<u8>,
    /// For each unit of the sandbox's code, in order, the offset in `bytes` of its code, and then how
    /// many steps are owed there. Of a unit that no line has, the offset is that of the way out, the
    /// bytes' end.
    pub entries: Vec<u32>,
    /// Where the bytes access the data and may fault, in the order of their offsets.
    pub accesses: Vec<Access>,
}

/// The code of a sandbox with these lines, by that plan. It goes on right behind its last byte, the
/// way out, with the pc in edx, for a slow step, and also behind the last line, where a jump to an
/// address without a line goes, too. None where it has 2^31 bytes or more.
pub fn compile(
    alloc: Global,
    format: Format,
    part: &SandboxPart<'_>,
    plan: &Plan,
    lines: &[Line],
) -> Result<Option<CompiledCode>, AllocError>
    ensures bytes { IfOk result (λ code. IfSome code (λ it. it.bytes.items
        ≡ spellings (whole_code plan.now (end_address (view format part.now)) (map line_of lines.now)))) }
    ensures few { IfOk result (λ code. IfSome code (λ it. exit_of plan.now (map line_of lines.now) < 2 ^ 31)) }
    ensures many { IfOk result (λ code. IfNone code (2 ^ 31 ≤ exit_of plan.now (map line_of lines.now))) }
    ensures entries { IfOk result (λ code. IfSome code (λ it.
        AreEntries plan.now (view format part.now) (map line_of lines.now) it.entries.items)) }
    ensures accesses { IfOk result (λ code. IfSome code (λ it.
        it.accesses.items ≡ accesses_of plan.now (map line_of lines.now) (map line_of lines.now))) }
{
    let mut draft = Vec::new(alloc);
    let mut labels = BTreeMap::new(alloc);
    if !measure(&mut draft, plan, &mut labels, lines)? || draft.len() >= 0x7fff_ffbc {
        return Ok(None);
    }
    let all = draft.len() as u32;
    let mut bytes = Vec::new(alloc);
    let mut accesses = Vec::new(alloc);
    place(
        &mut bytes,
        plan,
        &mut accesses,
        &mut draft,
        &labels,
        all,
        lines,
    )?;
    let end = end_of(part);
    put_end(&mut bytes, end, plan.owed(end))?;
    let entries = entries(alloc, format, part, plan, &labels, all)?;
    Ok(Some(CompiledCode {
        bytes,
        entries,
        accesses,
    }))
}
