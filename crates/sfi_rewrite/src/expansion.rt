//! What an item of the source becomes in a format whose code is in bundles: its expansion. Those of
//! code in words are in `words/expansion`.
ghost use Rattle.std.specs.Prelude.{◌≡◌, ◌+◌, ◌++◌, ◌∷◌, ◌≤◌, [], length, map};
ghost use Rattle.sfi_rewrite.specs.Expansion.{jump_slots, IsAlone, IsMasked, IsPlainExpansion, IsExpansion};
ghost use Rattle.sfi_rewrite.specs.Expansion.{stack_pair, put_back, is_on_x2};
ghost use Rattle.sfi_rewrite.specs.declared.slot.BundleSlot.TheVariants.{Wide};

use crate::slot::BundleSlot;
use arrayvec::ArrayVec;
use rv_comp::form_of;
use rv_word::{ImmOp, Instr, Reg};
use sfi_formats::{Format, SCRATCH, STACK_POINTER};
use sfi_pairs::{code_pair, data_pair};
use sfi_source::{Body, Item};
use std::marker::Model;

/// The most slots of an expansion: in words a mask, a load, and the mask of what it loads.
const SLOTS_MOST: usize = 5;

/// An expansion, in order. Contracts see the list of its slots.
#[derive(Drop)]
pub(crate) struct Expansion {
    slots: ArrayVec<BundleSlot, SLOTS_MOST>,
}

impl Model for Expansion {
    ghost use Rattle.std.specs.Prelude.{List};
    ghost use Rattle.sfi_rewrite.specs.declared.slot.BundleSlot.{BundleSlot};

    ghost Value = { List BundleSlot };

    ghost view = { λ e. e.slots.items };
}

impl Expansion {
    /// An expansion without a slot.
    pub(crate) fn new() -> Expansion
        ensures { result ≡ [] }
    {
        Expansion {
            slots: ArrayVec::new(),
        }
    }

    /// Adds slots at the end. The caller has seen to it that there are at most 5 then.
    pub(crate) fn push(&mut self, slots: &[BundleSlot])
        requires { length self.old + length slots.now ≤ 5 }
        ensures { self.new ≡ self.old ++ slots.now }
    {
        match self.slots.try_extend_from_slice(slots) {
            Ok(()) => {}
            Err(_) => unreachable!(),
        }
    }

    /// The expansion of these slots.
    pub(crate) fn from_slots(slots: &[BundleSlot]) -> Expansion
        requires { length slots.now ≤ 5 }
        ensures { result ≡ slots.now }
    {
        let mut expansion = Expansion::new();
        expansion.push(slots);
        expansion
    }

    /// A masked pair, and after it `last`, which uses the address that the pair makes.
    fn of_pair(pair: [Instr; 2], last: BundleSlot) -> Expansion
        ensures { result ≡ map Wide pair ++ last ∷ [] }
    {
        let [first, second] = pair;
        Expansion::from_slots(&[BundleSlot::Wide(first), BundleSlot::Wide(second), last])
    }

    /// The expansion of a slot that writes the stack pointer, and the pair that puts that back.
    fn with_stack_pair(first: BundleSlot) -> Expansion
        ensures { result ≡ first ∷ stack_pair }
    {
        let stack_pointer = Reg::numbered(STACK_POINTER);
        let [mask, place] = data_pair(stack_pointer, stack_pointer);
        Expansion::from_slots(&[first, BundleSlot::Wide(mask), BundleSlot::Wide(place)])
    }

    /// The expansion of one slot, with the pair that puts the stack pointer back if the slot writes
    /// it.
    fn put_back(first: BundleSlot, writes_stack: bool) -> Expansion
        ensures { result ≡ first ∷ put_back writes_stack }
    {
        if writes_stack {
            Expansion::with_stack_pair(first)
        } else {
            Expansion::from_slots(&[first])
        }
    }

    /// The slots, in order.
    pub(crate) fn slots(&self) -> &[BundleSlot]
        ensures slots { result.now ≡ self.now }
        ensures few { length self.now ≤ 5 }
    {
        &self.slots
    }
}

/// The expansion of `jalr rd, imm(a)`: the pair that makes x31 a bundle start of the code region,
/// and a jump to x31. An `imm` other than 0 is added first, by an addi of `a` to x31.
fn of_jump(rd: Reg, a: Reg, imm: i32) -> Expansion
    ensures { result ≡ jump_slots rd a imm }
{
    let scratch = Reg::numbered(SCRATCH);
    let last = BundleSlot::Wide(Instr::Jalr {
        rd,
        rs1: scratch,
        imm: 0,
    });
    if imm == 0 {
        return Expansion::of_pair(code_pair(scratch, a), last);
    }
    let sum = BundleSlot::Wide(Instr::OpImm {
        op: ImmOp::Addi,
        rd: scratch,
        rs1: a,
        imm,
    });
    let [mask, place] = code_pair(scratch, scratch);
    Expansion::from_slots(&[sum, BundleSlot::Wide(mask), BundleSlot::Wide(place), last])
}

/// The expansion of an instruction that stays as it is, in a 16-bit form where `rvc` asks for these
/// and there is one.
pub(crate) fn alone(rvc: bool, instr: &Instr) -> BundleSlot
    ensures { IsAlone rvc instr.now (result ∷ []) }
{
    if rvc {
        if let Some(form) = form_of(*instr) {
            return BundleSlot::Short(form);
        }
    }
    BundleSlot::Wide(*instr)
}

/// The expansion of an instruction that has nothing to do with a stack pointer: a load or store is
/// made on x31, after the pair that makes x31 an address of the data region; a jalr is masked by
/// `of_jump`; any other instruction stays as it is.
fn of_masked(rvc: bool, instr: &Instr) -> Expansion
    ensures { IsMasked rvc instr.now result }
{
    let scratch = Reg::numbered(SCRATCH);
    match *instr {
        Instr::Load { kind, rd, rs1, imm } => {
            let access = Instr::Load {
                kind,
                rd,
                rs1: scratch,
                imm,
            };
            Expansion::of_pair(data_pair(scratch, rs1), BundleSlot::Wide(access))
        }
        Instr::Store {
            width,
            rs1,
            rs2,
            imm,
        } => {
            let access = Instr::Store {
                width,
                rs1: scratch,
                rs2,
                imm,
            };
            Expansion::of_pair(data_pair(scratch, rs1), BundleSlot::Wide(access))
        }
        Instr::Jalr { rd, rs1, imm } => of_jump(rd, rs1, imm),
        Instr::Op { .. }
        | Instr::OpImm { .. }
        | Instr::Branch { .. }
        | Instr::Jal { .. }
        | Instr::Lui { .. }
        | Instr::Auipc { .. }
        | Instr::Fence { .. }
        | Instr::Ecall
        | Instr::Ebreak => Expansion::from_slots(&[alone(rvc, instr)]),
    }
}

/// Whether the instruction is a load or store on x2.
fn is_on_x2(instr: &Instr) -> bool
    ensures { result ≡ is_on_x2 instr.now }
{
    match *instr {
        Instr::Load { rs1, .. } | Instr::Store { rs1, .. } => rs1.number() == STACK_POINTER,
        _ => false,
    }
}

/// The expansion of an instruction that names no label. In a format with a stack pointer, what
/// writes x2 stands before the pair that puts it back, and an access on x2 needs no mask.
fn expand_without_name(format: Format, rvc: bool, instr: &Instr) -> Expansion
    ensures { IsPlainExpansion format rvc instr.now result }
{
    if format.has_stack() && instr.writes_register(STACK_POINTER) {
        Expansion::with_stack_pair(BundleSlot::Wide(*instr))
    } else if format.has_stack() && is_on_x2(instr) {
        Expansion::from_slots(&[alone(rvc, instr)])
    } else {
        of_masked(rvc, instr)
    }
}

/// The expansion of an item in a format whose code is in bundles. A branch, a jal or a part of an
/// address that names a label or gate waits for the linker, which knows addresses.
pub(crate) fn expand(format: Format, item: &Item) -> Expansion
    ensures { IsExpansion format item.now result }
{
    let line = item.line;
    match item.body {
        Body::Plain(ref instr) => expand_without_name(format, item.rvc, instr),
        Body::To(instr, name) => Expansion::from_slots(&[BundleSlot::Jump { instr, name, line }]),
        Body::High(rd, name) => {
            Expansion::put_back(
                BundleSlot::Upper { rd, name, line },
                format.is_stack(rd.number()),
            )
        }
        Body::Low(rd, name) => {
            Expansion::put_back(
                BundleSlot::Lower { rd, name, line },
                format.is_stack(rd.number()),
            )
        }
        Body::Base(rd, name) => {
            Expansion::put_back(
                BundleSlot::Region { rd, name, line },
                format.is_stack(rd.number()),
            )
        }
    }
}
