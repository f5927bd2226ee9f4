//! The first form of an instruction. Rows of several forms may expand to the same instruction; its
//! first form is that of the topmost one in the table of forms (specs/Table). The functions ask the
//! lower rows first, so that `later` has their form when a row above is asked.
ghost use Rattle.std.specs.Prelude.{◌≡◌, ◌≢◌, ◌<◌, ◌^◌, ◌==◌, IsTrue, IfSome, IfNone};
ghost use Rattle.rv_comp.specs.Fronts.{IsFirst};
ghost use Rattle.rv_comp.specs.Table.{allowed, expansion};
ghost use Rattle.rv_comp.specs.mirror.{first_form, first_addi, upper_value, taken};
ghost use Rattle.rv_comp.specs.declared.form.Form16.{Form16};
ghost use Rattle.rv_word.specs.declared.instr.Instr.TheVariants.{Op, OpImm, Load, Store, Branch, Jal, Jalr, Lui};

use crate::encode::is_allowed;
use crate::form::Form16;
use rv_word::{Cond, ImmOp, Instr, LoadKind, Reg, RegOp, StoreWidth};

/// Whether `reg` is register `number`.
fn is(reg: Reg, number: u8) -> bool
    ensures { result ≡ reg == number }
{
    reg.number() == number
}

/// `form`, where its row expands to the instruction (`expands`) and allows these fields; else
/// `later`, the form of a row below, if there is one.
fn form_or(expands: bool, form: Form16, later: Option<Form16>) -> Option<Form16>
    ensures { result ≡ taken expands form later }
{
    if !expands {
        later
    } else if is_allowed(&form) {
        Some(form)
    } else {
        later
    }
}

/// The first form of `addi rd, rs1, imm`, if any.
#[tactic(auto, unfolding(crate::specs::mirror::first_addi))]
fn first_of_addi(rd: Reg, rs1: Reg, imm: i32) -> Option<Form16>
    ensures { result ≡ first_addi rd rs1 imm }
{
    let later = form_or(is(rd, 2) && is(rs1, 2), Form16::CAddi16sp { imm }, None);
    let later = form_or(is(rs1, 0), Form16::CLi { rd, imm }, later);
    let later = form_or(rd == rs1, Form16::CAddi { rd, imm }, later);
    form_or(is(rs1, 2), Form16::CAddi4spn { rd, imm }, later)
}

/// The first form of an instruction on two registers, if any.
#[tactic(auto, unfolding(crate::specs::mirror::first_form))]
fn first_of_op(op: RegOp, rd: Reg, rs1: Reg, rs2: Reg) -> Option<Form16>
    ensures { result ≡ first_form (Op op rd rs1 rs2) }
{
    let same = rd == rs1;
    match op {
        RegOp::Add => {
            let later = form_or(same, Form16::CAdd { rd, rs2 }, None);
            form_or(is(rs1, 0), Form16::CMv { rd, rs2 }, later)
        }
        RegOp::Sub => form_or(same, Form16::CSub { rd, rs2 }, None),
        RegOp::Xor => form_or(same, Form16::CXor { rd, rs2 }, None),
        RegOp::Or => form_or(same, Form16::COr { rd, rs2 }, None),
        RegOp::And => form_or(same, Form16::CAnd { rd, rs2 }, None),
        _ => None,
    }
}

/// The first form of an instruction on a register and a constant, if any.
#[tactic(auto, unfolding(crate::specs::mirror::first_form))]
fn first_of_op_imm(op: ImmOp, rd: Reg, rs1: Reg, imm: i32) -> Option<Form16>
    ensures { result ≡ first_form (OpImm op rd rs1 imm) }
{
    let same = rd == rs1;
    match op {
        ImmOp::Addi => first_of_addi(rd, rs1, imm),
        ImmOp::Andi => form_or(same, Form16::CAndi { rd, imm }, None),
        ImmOp::Slli => form_or(same, Form16::CSlli { rd, imm }, None),
        ImmOp::Srli => form_or(same, Form16::CSrli { rd, imm }, None),
        ImmOp::Srai => form_or(same, Form16::CSrai { rd, imm }, None),
        _ => None,
    }
}

/// The first form of a load, if any: only `lw` has one.
#[tactic(auto, unfolding(crate::specs::mirror::first_form))]
fn first_of_load(kind: LoadKind, rd: Reg, rs1: Reg, imm: i32) -> Option<Form16>
    ensures { result ≡ first_form (Load kind rd rs1 imm) }
{
    match kind {
        LoadKind::Lw => {
            let later = form_or(is(rs1, 2), Form16::CLwsp { rd, imm }, None);
            form_or(true, Form16::CLw { rd, rs1, imm }, later)
        }
        _ => None,
    }
}

/// The first form of a store, if any: only `sw` has one.
#[tactic(auto, unfolding(crate::specs::mirror::first_form))]
fn first_of_store(width: StoreWidth, rs1: Reg, rs2: Reg, imm: i32) -> Option<Form16>
    ensures { result ≡ first_form (Store width rs1 rs2 imm) }
{
    match width {
        StoreWidth::Sw => {
            let later = form_or(is(rs1, 2), Form16::CSwsp { rs2, imm }, None);
            form_or(true, Form16::CSw { rs1, rs2, imm }, later)
        }
        _ => None,
    }
}

/// The first form of a branch, if any: only `beq` and `bne` against x0 have one.
#[tactic(auto, unfolding(crate::specs::mirror::first_form))]
fn first_of_branch(cond: Cond, rs1: Reg, rs2: Reg, offset: i32) -> Option<Form16>
    ensures { result ≡ first_form (Branch cond rs1 rs2 offset) }
{
    match cond {
        Cond::Beq => form_or(is(rs2, 0), Form16::CBeqz { rs1, imm: offset }, None),
        Cond::Bne => form_or(is(rs2, 0), Form16::CBnez { rs1, imm: offset }, None),
        _ => None,
    }
}

/// The first form of `jal rd, offset`, if any.
#[tactic(auto, unfolding(crate::specs::mirror::first_form))]
fn first_of_jal(rd: Reg, offset: i32) -> Option<Form16>
    ensures { result ≡ first_form (Jal rd offset) }
{
    let later = form_or(is(rd, 0), Form16::CJ { imm: offset }, None);
    form_or(is(rd, 1), Form16::CJal { imm: offset }, later)
}

/// The first form of `jalr rd, imm(rs1)`, if any.
#[tactic(auto, unfolding(crate::specs::mirror::first_form))]
fn first_of_jalr(rd: Reg, rs1: Reg, imm: i32) -> Option<Form16>
    ensures { result ≡ first_form (Jalr rd rs1 imm) }
{
    if imm != 0 {
        return None;
    }
    let later = form_or(is(rd, 1), Form16::CJalr { rs1 }, None);
    form_or(is(rd, 0), Form16::CJr { rs1 }, later)
}

/// The first form of `lui rd, imm`, if any: none where `imm` has more than 20 bits.
#[tactic(auto, unfolding(crate::specs::mirror::first_form, crate::specs::mirror::upper_value))]
fn first_of_lui(rd: Reg, imm: u32) -> Option<Form16>
    ensures { result ≡ first_form (Lui rd imm) }
{
    if imm < 1 << 20 {
        form_or(
            true,
            Form16::CLui {
                rd,
                imm: (imm << 12).cast_signed(),
            },
            None,
        )
    } else {
        None
    }
}

/// The first form of an instruction; `None` where it has no 16-bit form.
#[tactic(auto, unfolding(crate::specs::mirror::first_form))]
fn first_form(instr: Instr) -> Option<Form16>
    ensures { result ≡ first_form instr }
{
    match instr {
        Instr::Op { op, rd, rs1, rs2 } => first_of_op(op, rd, rs1, rs2),
        Instr::OpImm { op, rd, rs1, imm } => first_of_op_imm(op, rd, rs1, imm),
        Instr::Load { kind, rd, rs1, imm } => first_of_load(kind, rd, rs1, imm),
        Instr::Store {
            width,
            rs1,
            rs2,
            imm,
        } => first_of_store(width, rs1, rs2, imm),
        Instr::Branch {
            cond,
            rs1,
            rs2,
            offset,
        } => first_of_branch(cond, rs1, rs2, offset),
        Instr::Jal { rd, offset } => first_of_jal(rd, offset),
        Instr::Jalr { rd, rs1, imm } => first_of_jalr(rd, rs1, imm),
        Instr::Lui { rd, imm } => first_of_lui(rd, imm),
        Instr::Ebreak => Some(Form16::CEbreak),
        _ => None,
    }
}

/// The form of the first row, from the top of the table, one of whose values expands to the
/// instruction; `None` where none does.
pub fn form_of(instr: Instr) -> Option<Form16>
    ensures found { IfSome result (λ f. IsFirst instr f) }
    ensures only { (f : Form16) → IsFirst instr f → result ≡ Some f }
    ensures none { IfNone result ((f : Form16) → IsTrue (allowed f) → expansion f ≢ instr) }
{
    first_form(instr)
}
