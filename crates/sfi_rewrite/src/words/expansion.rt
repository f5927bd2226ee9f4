//! What an item of the source becomes in code in words. A data register is x2, x3, x4 or x29: it
//! holds an address in the data region or near it, so a load or store on it needs no mask, but what
//! writes it does. docs/SOURCE.md has the table of these expansions. For compilers
//! tools/suygapid/passes/in_words.py makes its own; the checker trusts neither, so that one needn't
//! follow the other.
ghost use Rattle.std.specs.Prelude.{◌≡◌, ◌∷◌, ◌++◌, ◌+◌, ◌≤◌, [], Some, length};
ghost use Rattle.sfi_rewrite.specs.words.Expansion.{is_made_on_x26, base_of, data_mask, makes_base, before, mask_after, IsConfined, IsPlainExpansion, IsExpansion, is_step_to, is_step_before_use, is_move, moved, IsAround};
ghost use Rattle.rv_word.specs.Outlines.{destination};
ghost use Rattle.rv_word.specs.declared.instr.RegOp.TheVariants.{And};
ghost use Rattle.rv_word.specs.declared.instr.Instr.TheVariants.{Op};
ghost use Rattle.sfi_formats.specs.Formats.{data_mask_register};
ghost use Rattle.sfi_rewrite.specs.declared.slot.BundleSlot.TheVariants.{Wide};

use crate::expansion::{Expansion, alone};
use crate::slot::BundleSlot;
use rv_word::{ImmOp, Instr, Reg, RegOp};
use sfi_formats::{CODE_REGISTER, DATA_BASE_REGISTER, DATA_MASK_REGISTER, Format, OFFSET_REGISTER};
use sfi_pairs::{code_pair, is_data_register, is_use};
use sfi_source::{Body, Item};

/// The data register in which the expansions make addresses, x29.
pub(crate) const ADDRESS_REGISTER: u8 = 29;

/// `and target, a, x27`, where x27 holds the mask of data addresses.
fn masking(target: Reg, a: Reg) -> BundleSlot
    ensures { result ≡ Wide (Op And target a data_mask_register) }
{
    BundleSlot::Wide(Instr::Op {
        op: RegOp::And,
        rd: target,
        rs1: a,
        rs2: Reg::numbered(DATA_MASK_REGISTER),
    })
}

/// Adds the mask by which `target` becomes the address that `a` masks to: one instruction in a
/// format with single masks, else two, of which the first leaves the offset of `a` in x31.
fn push_mask(format: Format, slots: &mut Expansion, target: Reg, a: Reg)
    requires { length slots.old + 2 ≤ 5 }
    ensures { slots.new ≡ slots.old ++ data_mask format target a }
{
    if format.has_single_mask() {
        slots.push(&[masking(target, a)]);
        return;
    }
    let offset = Reg::numbered(OFFSET_REGISTER);
    let place = Instr::Op {
        op: RegOp::Or,
        rd: target,
        rs1: offset,
        rs2: Reg::numbered(DATA_BASE_REGISTER),
    };
    slots.push(&[masking(offset, a), BundleSlot::Wide(place)]);
}

/// Adds the mask of the register that was `written` before, if it is a data register.
fn push_mask_after(format: Format, slots: &mut Expansion, written: Reg)
    requires { length slots.old + 2 ≤ 5 }
    ensures { slots.new ≡ slots.old ++ mask_after format (Some written) }
{
    if is_data_register(written) {
        push_mask(format, slots, written, written);
    }
}

/// Whether a load or store with base `a` is made with base x26, the data base, and without a mask:
/// `a` is x0, and a masked 0 is the data region's first address. With single masks it isn't.
fn is_made_on_x26(format: Format, a: Reg) -> bool
    ensures { result ≡ is_made_on_x26 format a }
{
    a.number() == 0 && !format.has_single_mask()
}

/// The base on which an access on `a` is made: a data register itself, x26 where that stands for x0,
/// or else x29.
fn access_base(format: Format, a: Reg) -> Reg
    ensures { result ≡ base_of format a }
{
    if is_data_register(a) {
        a
    } else if is_made_on_x26(format, a) {
        Reg::numbered(DATA_BASE_REGISTER)
    } else {
        Reg::numbered(ADDRESS_REGISTER)
    }
}

/// Adds the mask by which x29 becomes the address of `a`, where an access on `a` is made on x29.
fn push_base(format: Format, slots: &mut Expansion, a: Reg)
    requires { slots.old ≡ [] }
    ensures { slots.new ≡ makes_base format a }
{
    if !is_data_register(a) && !is_made_on_x26(format, a) {
        push_mask(format, slots, Reg::numbered(ADDRESS_REGISTER), a);
    }
}

/// Adds to `slots` what has to stand before the instruction: before a load or store the mask of its base, if
/// it needs one; before a jalr the pair that makes x30 a word's start in the code region.
fn push_before(format: Format, slots: &mut Expansion, instr: &Instr)
    requires { slots.old ≡ [] }
    ensures { slots.new ≡ before format instr.now }
{
    match *instr {
        Instr::Load { rs1, .. } | Instr::Store { rs1, .. } => push_base(format, slots, rs1),
        Instr::Jalr { rs1, .. } => {
            let [first, second] = code_pair(Reg::numbered(CODE_REGISTER), rs1);
            slots.push(&[BundleSlot::Wide(first), BundleSlot::Wide(second)]);
        }
        _ => {}
    }
}

/// The instruction, with the base of a load or store, or the target of a jalr, replaced by the
/// register that is sure to hold an address of the sandbox. A jalr has 32 bits, also where `rvc`
/// asks for 16-bit forms.
fn confined(format: Format, rvc: bool, instr: &Instr) -> BundleSlot
    ensures { IsConfined format rvc instr.now (result ∷ []) }
{
    match *instr {
        Instr::Load { kind, rd, rs1, imm } => {
            let rs1 = access_base(format, rs1);
            alone(rvc, &Instr::Load { kind, rd, rs1, imm })
        }
        Instr::Store {
            width,
            rs1,
            rs2,
            imm,
        } => {
            let rs1 = access_base(format, rs1);
            alone(
                rvc,
                &Instr::Store {
                    width,
                    rs1,
                    rs2,
                    imm,
                },
            )
        }
        Instr::Jalr { rd, imm, .. } => BundleSlot::Wide(Instr::Jalr {
            rd,
            rs1: Reg::numbered(CODE_REGISTER),
            imm,
        }),
        _ => alone(rvc, instr),
    }
}

/// The register `rd` that the instruction writes, which may be x0; `None` where it writes none, as
/// a fence, which has an `rd` but doesn't write it.
fn destination(instr: &Instr) -> Option<Reg>
    ensures { result ≡ destination instr.now }
{
    match *instr {
        Instr::Op { rd, .. }
        | Instr::OpImm { rd, .. }
        | Instr::Load { rd, .. }
        | Instr::Jal { rd, .. }
        | Instr::Jalr { rd, .. }
        | Instr::Lui { rd, .. }
        | Instr::Auipc { rd, .. } => Some(rd),
        Instr::Store { .. }
        | Instr::Branch { .. }
        | Instr::Fence { .. }
        | Instr::Ecall
        | Instr::Ebreak => None,
    }
}

/// Whether the instruction is `addi d, a, 0` or `add d, x0, a` of a data register `d`: a move, for
/// which a mask alone will do.
fn is_move(instr: &Instr) -> bool
    ensures { result ≡ is_move instr.now }
{
    match *instr {
        Instr::OpImm {
            op: ImmOp::Addi,
            rd,
            imm,
            ..
        } => is_data_register(rd) && imm == 0,
        Instr::Op {
            op: RegOp::Add,
            rd,
            rs1,
            ..
        } => is_data_register(rd) && rs1.number() == 0,
        _ => false,
    }
}

/// The expansion of a move as `is_move` tells it: the mask of `a` into `d`, in place of the move
/// and of a mask of `d` after it.
fn moved(format: Format, instr: &Instr) -> Expansion
    ensures { result ≡ moved format instr.now }
{
    let mut slots = Expansion::new();
    match *instr {
        Instr::OpImm { rd, rs1, .. } => push_mask(format, &mut slots, rd, rs1),
        Instr::Op { rd, rs2, .. } => push_mask(format, &mut slots, rd, rs2),
        _ => {}
    }
    slots
}

/// The confined instruction, with what has to stand before it, and after it the mask of the data
/// register that it writes. There is no such mask where the instruction is a `step`, as
/// `is_step_before_use` tells.
fn around(format: Format, rvc: bool, step: bool, instr: &Instr) -> Expansion
    ensures { IsAround format rvc step instr.now result }
{
    let mut slots = Expansion::new();
    push_before(format, &mut slots, instr);
    slots.push(&[confined(format, rvc, instr)]);
    if step {
        return slots;
    }
    if let Some(written) = destination(instr) {
        push_mask_after(format, &mut slots, written);
    }
    slots
}

/// The expansion of an instruction that names no label. `step` is as for `around`.
fn expand_without_name_in_words(format: Format, rvc: bool, step: bool, instr: &Instr) -> Expansion
    ensures { IsPlainExpansion format rvc step instr.now result }
{
    if is_move(instr) && !step {
        return moved(format, instr);
    }
    around(format, rvc, step, instr)
}

/// The expansion of `part`, a slot that puts a part of a name's address into `rd`: after it the
/// mask of `rd`, if that is a data register.
fn of_part(format: Format, part: BundleSlot, rd: Reg) -> Expansion
    ensures { result ≡ part ∷ mask_after format (Some rd) }
{
    let mut slots = Expansion::from_slots(&[part]);
    push_mask_after(format, &mut slots, rd);
    slots
}

/// Whether `body` is `addi d, d, k` of a data register, and `next` is a load or store on `d` as
/// `is_use` of `sfi_pairs` wants it: with an offset of at most 1020, up or down, and not into x0.
fn is_step_to(body: &Body, next: &Body) -> bool
    ensures { result ≡ is_step_to body.now next.now }
{
    match (body, next) {
        (
            Body::Plain(
                Instr::OpImm {
                    op: ImmOp::Addi,
                    rd,
                    rs1,
                    ..
                },
            ),
            Body::Plain(instr),
        ) => is_data_register(*rd) && rs1.number() == rd.number() && is_use(rd.number(), instr),
        _ => false,
    }
}

/// Whether the item is a step: an addi to a data register on which the next item, the first of
/// `later`, loads or stores. No label may stand between the two.
fn is_step_before_use(item: &Item, later: &[Item]) -> bool
    ensures { result ≡ is_step_before_use item.now later.now }
{
    match later.first() {
        Some(next) => !next.labelled && is_step_to(&item.body, &next.body),
        None => false,
    }
}

/// The expansion, in code in words, of an item after which the items `later` come: by the first of
/// these it is a step or not.
pub(crate) fn expand_in_words(format: Format, item: &Item, later: &[Item]) -> Expansion
    ensures { IsExpansion format item.now later.now result }
{
    let line = item.line;
    match item.body {
        Body::Plain(ref instr) => expand_without_name_in_words(
            format,
            item.rvc,
            is_step_before_use(item, later),
            instr,
        ),
        Body::To(instr, name) => Expansion::from_slots(&[BundleSlot::Jump { instr, name, line }]),
        Body::High(rd, name) => of_part(format, BundleSlot::Upper { rd, name, line }, rd),
        Body::Low(rd, name) => of_part(format, BundleSlot::Lower { rd, name, line }, rd),
        Body::Base(rd, name) => of_part(format, BundleSlot::Region { rd, name, line }, rd),
    }
}
