//! The bytes of what is placed, written one slot after another. `code` is what a code region has so
//! far, its stubs first, so that the next byte has the address `at.code` plus its length.
ghost use Rattle.std.specs.Prelude.{◌≡◌, ◌+◌, ◌^◌, ◌<◌, ◌++◌, IsTrue, pos, length, Some, IfOk, IfErr, OnOk};
ghost use Rattle.std.specs.List.{All};
ghost use Rattle.std.specs.Int.{w16, w32, to_le_bytes};
ghost use Rattle.rv_word.specs.Spelling.{InRange, spelling};
ghost use Rattle.rv_word.specs.declared.instr.Instr.TheVariants.{Op, OpImm};
ghost use Rattle.rv_word.specs.declared.instr.ImmOp.TheVariants.{Addi};
ghost use Rattle.rv_word.specs.declared.instr.RegOp.TheVariants.{Add};
ghost use Rattle.rv_comp.specs.Table.{allowed};
ghost use Rattle.rv_comp.specs.Fronts.{halfword_of};
ghost use Rattle.sfi_rewrite.specs.Expansion.{size_of, slots_of};
ghost use Rattle.sfi_rewrite.specs.Placed.{Encodes};
ghost use Rattle.sfi_source.specs.Source.{lower};
ghost use Rattle.sfi_link.specs.Code.{value_at, base_at};
ghost use Rattle.sfi_link.specs.Code.{AreInReach};
ghost use Rattle.sfi_link.specs.private.{HasRoomFor, IsPushed, AreWritten, Links};
ghost use Rattle.sfi_link.specs.Faults.{IsUnknown, HasSlotFault, IsSlotFault};
ghost use Rattle.sfi_rewrite.specs.declared.slot.BundleSlot.TheVariants.{Jump};

use crate::address::{
    base_at, distance, lower_immediate, target_at, upper_immediate, value_at, with_offset,
};
use crate::bases::Bases;
use crate::fault::LinkFault;
use rv_comp::{Form16, write_short, write_wide};
use rv_word::{ImmOp, Instr, Reg, RegOp};
use sfi_rewrite::{Bundle, BundleSlot, PlacedName};
use std::alloc::AllocError;

/// Appends the 4 bytes of an instruction.
fn push_wide(code: &mut Vec<u8>, instr: Instr) -> Result<(), AllocError>
    requires { InRange instr }
    ensures { OnOk result (code.new.items ≡ code.old.items ++ to_le_bytes w32 (spelling instr)) }
{
    let mut word = [0; 4];
    write_wide(instr, &mut word);
    code.extend_from_slice(&word)?;
    Ok(())
}

/// Appends the 2 bytes of a 16-bit form.
fn push_short(code: &mut Vec<u8>, form: Form16) -> Result<(), AllocError>
    requires { IsTrue (allowed form) }
    ensures { OnOk result (code.new.items ≡ code.old.items ++ to_le_bytes w16 (halfword_of form)) }
{
    let mut halfword = [0; 2];
    write_short(form, &mut halfword);
    code.extend_from_slice(&halfword)?;
    Ok(())
}

/// Appends the jal or branch `instr`, with the offset from here to name number `place`. A name that
/// is no gate and no label of the code is `UnknownName`, and an offset that the instruction can't
/// hold `BranchReach`, of this line of the source.
fn push_named_jump(
    code: &mut Vec<u8>,
    at: Bases,
    names: &[PlacedName],
    instr: Instr,
    place: usize,
    line: u32,
) -> Result<(), LinkFault>
    requires near { AreInReach at names.now }
    requires room { HasRoomFor at (length code.old.items) 0 }
    ensures { Links
        (λ _. IsPushed at names.now (Jump instr place line) code.old.items code.new.items)
        (HasSlotFault at names.now
        (at.code + length code.old.items) (Jump instr place line)) result }
{
    let here = at.code + code.len() as u32;
    let Some(to) = target_at(at, names, place) else {
        return Err(LinkFault::UnknownName { line });
    };
    let mut word = [0; 4];
    if !write_wide(with_offset(instr, distance(here, to)), &mut word) {
        return Err(LinkFault::BranchReach { line });
    }
    code.extend_from_slice(&word)?;
    Ok(())
}

/// The number that an `la` makes of name number `place`, as `value_at` gives it, or `UnknownName`
/// of this line of the source.
fn known_value(at: Bases, names: &[PlacedName], place: usize, line: u32) -> Result<u32, LinkFault>
    requires near { AreInReach at names.now }
    ensures ok { IfOk result (λ value. value_at at names.now place ≡ Some value) }
    ensures err { IfErr result (IsUnknown (value_at at names.now place) line) }
{
    match value_at(at, names, place) {
        Some(value) => Ok(value),
        None => Err(LinkFault::UnknownName { line }),
    }
}

/// The register with the base of the region of what name number `place` names, or `UnknownName` of
/// this line of the source.
fn known_base(names: &[PlacedName], place: usize, line: u32) -> Result<Reg, LinkFault>
    ensures ok { IfOk result (λ base. base_at names.now place ≡ Some base) }
    ensures err { IfErr result (IsUnknown (base_at names.now place) line) }
{
    match base_at(names, place) {
        Some(base) => Ok(base),
        None => Err(LinkFault::UnknownName { line }),
    }
}

/// `addi rd, rd, imm`, which adds the lower 12 bits of the number, as signed, to what its lui made.
fn add_lower(rd: Reg, value: u32) -> Instr
    ensures { result ≡ OpImm Addi rd rd (lower (pos value)) }
{
    Instr::OpImm {
        op: ImmOp::Addi,
        rd,
        rs1: rd,
        imm: lower_immediate(value),
    }
}

/// `add rd, rd, base`.
fn add_base_instr(rd: Reg, base: Reg) -> Instr
    ensures { result ≡ Op Add rd rd base }
{
    Instr::Op {
        op: RegOp::Add,
        rd,
        rs1: rd,
        rs2: base,
    }
}

/// Appends a slot, in which a name stands for its address by now.
fn push_slot(
    code: &mut Vec<u8>,
    at: Bases,
    names: &[PlacedName],
    slot: BundleSlot,
) -> Result<(), LinkFault>
    requires near { AreInReach at names.now }
    requires encodes { Encodes slot }
    requires room { HasRoomFor at (length code.old.items) 0 }
    ensures { Links (λ _. IsPushed at names.now slot code.old.items code.new.items)
        (HasSlotFault at names.now (at.code + length code.old.items) slot) result }
{
    match slot {
        BundleSlot::Wide(instr) => push_wide(code, instr)?,
        BundleSlot::Short(form) => push_short(code, form)?,
        BundleSlot::Jump { instr, name, line } => push_named_jump(
            code, at, names, instr, name, line,
        )?,
        BundleSlot::Upper { rd, name, line } => {
            let imm = upper_immediate(known_value(at, names, name, line)?);
            push_wide(code, Instr::Lui { rd, imm })?;
        }
        BundleSlot::Lower { rd, name, line } => {
            let value = known_value(at, names, name, line)?;
            push_wide(code, add_lower(rd, value))?;
        }
        BundleSlot::Region { rd, name, line } => {
            let base = known_base(names, name, line)?;
            push_wide(code, add_base_instr(rd, base))?;
        }
    }
    Ok(())
}

/// Appends slots, one after another.
fn push_linked_slots(
    code: &mut Vec<u8>,
    at: Bases,
    names: &[PlacedName],
    slots: &[BundleSlot],
) -> Result<(), LinkFault>
    requires near { AreInReach at names.now }
    requires encodes { All Encodes slots.now }
    requires room { HasRoomFor at (length code.old.items) (size_of slots.now) }
    ensures { Links (λ _. AreWritten at names.now slots.now code.old.items code.new.items)
        (IsSlotFault at names.now (at.code + length code.old.items) slots.now) result }
{
    for slot in slots {
        push_slot(code, at, names, *slot)?;
    }
    Ok(())
}

/// Appends the slots of bundles, one after another.
pub(crate) fn push_bundles(
    code: &mut Vec<u8>,
    at: Bases,
    names: &[PlacedName],
    bundles: &[Bundle],
) -> Result<(), LinkFault>
    requires near { AreInReach at names.now }
    requires encodes { All Encodes (slots_of bundles.now) }
    requires room { HasRoomFor at (length code.old.items) (size_of (slots_of bundles.now)) }
    ensures { Links
        (λ _. AreWritten at names.now (slots_of bundles.now) code.old.items code.new.items)
        (IsSlotFault at names.now (at.code + length code.old.items) (slots_of bundles.now)) result }
{
    for bundle in bundles {
        push_linked_slots(code, at, names, bundle.slots())?;
    }
    Ok(())
}
