//! The bytes of a line that computes. A result is computed in the processor's register that `rd` lies
//! in, or else in eax, and then moved to `rd`.
ghost use Rattle.std.specs.Prelude.{◌≡◌, ◌++◌, ◌*◌, ◌%◌, ◌^◌, ◌+◌, ◌<◌, ◌≤◌, IfOk, OnOk, true, if◌then◌else◌};
ghost use Rattle.sfi_native.specs.Code.{are_exchanged as are_exchanged_of, beside_code, combine, computation, computing_line, count, count_size as count_size_of, does_compute, ecx_code, imm_code, is_number as is_number_of, number_code, op_code, op_imm_code, place_beside as place_beside_of, place_code};
ghost use Rattle.x86_step.specs.Running.{spellings};

use crate::operation::{
    is_commutative, keeps_beside_zero, needs_ecx, operand, put, put_bring, put_compute,
    put_compute_imm, put_fetch, put_settle, put_write, result_in,
};
use crate::plan::Plan;
use rv_word::{ImmOp, Instr, Reg, RegOp};
use std::alloc::AllocError;
use x86_instr::{AluOp, Instr as Native, Operand, Register, Width};

/// Writes what sets register `rd` to `number`.
#[tactic(auto, using(crate::proofs::Lists::two_parts))]
pub(crate) fn put_number(
    out: &mut Vec<u8>,
    plan: &Plan,
    rd: Reg,
    number: u32,
) -> Result<(), AllocError>
    ensures { OnOk result (out.new.items ≡ out.old.items ++ spellings (number_code plan.now rd number)) }
{
    let place = plan.of(rd);
    put(
        out,
        Native::MovImm {
            dst: result_in(place),
            imm: number,
        },
    )?;
    put_settle(out, plan, place, rd)
}

/// Writes an operation for which `needs_ecx` holds: `rs1` is fetched into eax, and `rs2` into ecx.
#[tactic(auto, using(crate::proofs::Lists::ecx_parts))]
fn put_by_ecx(
    out: &mut Vec<u8>,
    plan: &Plan,
    op: RegOp,
    rd: Reg,
    rs1: Reg,
    rs2: Reg,
) -> Result<(), AllocError>
    ensures { OnOk result (out.new.items ≡ out.old.items ++ spellings (ecx_code plan.now op rd rs1 rs2)) }
{
    put_fetch(out, plan, Register::Rax, rs1)?;
    put_fetch(out, plan, Register::Rcx, rs2)?;
    put_compute(out, op, Register::Rax, Operand::Reg(Register::Rcx))?;
    put_write(out, plan, rd)
}

/// The processor's register that `rd` lies in, if that may be written before `rs2` is read: unless
/// the two are one register. None: the result is computed in eax.
fn place_beside(plan: &Plan, rd: Reg, rs2: Reg) -> Option<Register>
    ensures { result ≡ place_beside_of plan.now rd rs2 }
{
    if rd.number() == rs2.number() {
        None
    } else {
        plan.of(rd)
    }
}

/// Writes the operation of `dst` and of `rs2`, into `dst`, unless `rs2` is x0 and leaves `dst` as it is.
#[tactic(auto, using(crate::proofs::Lists::no_part))]
fn put_combine(
    out: &mut Vec<u8>,
    plan: &Plan,
    op: RegOp,
    dst: Register,
    rs2: Reg,
) -> Result<(), AllocError>
    ensures { OnOk result (out.new.items ≡ out.old.items ++ spellings (combine plan.now op dst rs2)) }
{
    if keeps_beside_zero(op) && rs2.number() == 0 {
        return Ok(());
    }
    put_compute(out, op, dst, operand(plan, rs2))
}

/// Writes an operation that is computed in `place`, or in eax where that is None and the result is
/// moved to `rd` afterwards.
#[tactic(auto, using(crate::proofs::Lists::place_parts))]
fn put_in_place(
    out: &mut Vec<u8>,
    plan: &Plan,
    place: Option<Register>,
    op: RegOp,
    rd: Reg,
    rs1: Reg,
    rs2: Reg,
) -> Result<(), AllocError>
    ensures { OnOk result (out.new.items ≡ out.old.items ++ spellings (place_code plan.now place op rd rs1 rs2)) }
{
    put_bring(out, plan, result_in(place), rs1)?;
    put_combine(out, plan, op, result_in(place), rs2)?;
    put_settle(out, plan, place, rd)
}

/// Writes an operation where its result lies, or in eax where `rs2` lies there, too.
fn put_beside(
    out: &mut Vec<u8>,
    plan: &Plan,
    op: RegOp,
    rd: Reg,
    rs1: Reg,
    rs2: Reg,
) -> Result<(), AllocError>
    ensures { OnOk result (out.new.items ≡ out.old.items ++ spellings (beside_code plan.now op rd rs1 rs2)) }
{
    let place = place_beside(plan, rd, rs2);
    put_in_place(out, plan, place, op, rd, rs1, rs2)
}

/// Whether the operands are exchanged, so that `rs2` comes first: where it is `rd`, and no move is needed,
/// or `rs1` is x0.
fn are_exchanged(op: RegOp, rd: Reg, rs1: Reg, rs2: Reg) -> bool
    ensures { result ≡ are_exchanged_of op rd rs1 rs2 }
{
    is_commutative(op) && (rd.number() == rs2.number() || rs1.number() == 0)
}

/// Writes what an instruction of three registers does. Operands are exchanged where that is right and
/// saves a move.
fn put_op(
    out: &mut Vec<u8>,
    plan: &Plan,
    op: RegOp,
    rd: Reg,
    rs1: Reg,
    rs2: Reg,
) -> Result<(), AllocError>
    ensures { OnOk result (out.new.items ≡ out.old.items ++ spellings (op_code plan.now op rd rs1 rs2)) }
{
    if needs_ecx(op) {
        return put_by_ecx(out, plan, op, rd, rs1, rs2);
    }
    if are_exchanged(op, rd, rs1, rs2) {
        return put_beside(out, plan, op, rd, rs2, rs1);
    }
    put_beside(out, plan, op, rd, rs1, rs2)
}

/// Writes an operation of `rs1` and a number, computed where `rd` lies, or else in eax.
#[tactic(auto, using(crate::proofs::Lists::imm_parts))]
fn put_imm_in_place(
    out: &mut Vec<u8>,
    plan: &Plan,
    op: ImmOp,
    rd: Reg,
    rs1: Reg,
    imm: u32,
) -> Result<(), AllocError>
    ensures { OnOk result (out.new.items ≡ out.old.items ++ spellings (imm_code plan.now op rd rs1 imm)) }
{
    let place = plan.of(rd);
    put_bring(out, plan, result_in(place), rs1)?;
    put_compute_imm(out, op, result_in(place), imm)?;
    put_settle(out, plan, place, rd)
}

/// Whether the result is the number itself, since it is added to x0.
fn is_number(op: ImmOp, rs1: Reg) -> bool
    ensures { result ≡ is_number_of op rs1 }
{
    match op {
        ImmOp::Addi => rs1.number() == 0,
        _ => false,
    }
}

/// Writes what an instruction with an immediate does; `imm` is that in two's complement.
fn put_op_imm(
    out: &mut Vec<u8>,
    plan: &Plan,
    op: ImmOp,
    rd: Reg,
    rs1: Reg,
    imm: u32,
) -> Result<(), AllocError>
    ensures { OnOk result (out.new.items ≡ out.old.items ++ spellings (op_imm_code plan.now op rd rs1 imm)) }
{
    if is_number(op, rs1) {
        return put_number(out, plan, rd, imm);
    }
    put_imm_in_place(out, plan, op, rd, rs1, imm)
}

/// Writes what an instruction at address `at` computes; nothing of a fence. `computes` lists the
/// instructions for which it is right.
#[tactic(auto, unfolding(crate::specs::Code::computation))]
fn put_computation(out: &mut Vec<u8>, plan: &Plan, at: u32, instr: &Instr) -> Result<(), AllocError>
    requires { does_compute instr.now ≡ true }
    ensures { OnOk result (out.new.items ≡ out.old.items ++ spellings (computation plan.now at instr.now)) }
{
    match *instr {
        Instr::Op { op, rd, rs1, rs2 } => put_op(out, plan, op, rd, rs1, rs2),
        Instr::OpImm { op, rd, rs1, imm } => put_op_imm(
            out,
            plan,
            op,
            rd,
            rs1,
            imm.cast_unsigned(),
        ),
        Instr::Lui { rd, imm } => put_number(out, plan, rd, imm.wrapping_mul(4096)),
        Instr::Auipc { rd, imm } => put_number(
            out,
            plan,
            rd,
            at.wrapping_add(imm.wrapping_mul(4096)),
        ),
        _ => Ok(()),
    }
}

/// Writes the subtraction from r14 after which `next` steps are owed, where `owed` are before it;
/// nothing where these are equal.
#[tactic(auto, using(crate::proofs::Lists::nothing_counted, crate::proofs::Lists::steps_counted))]
pub(crate) fn put_count(out: &mut Vec<u8>, owed: u32, next: u32) -> Result<(), AllocError>
    ensures { OnOk result (out.new.items ≡ out.old.items ++ spellings (count owed next)) }
{
    if owed == next {
        return Ok(());
    }
    put(
        out,
        Native::AluImm {
            op: AluOp::Sub,
            width: Width::Dword,
            dst: Operand::Reg(Register::R14),
            imm: owed.wrapping_sub(next),
        },
    )
}

/// How many bytes `put_count` writes, where fewer than 128 steps are owed.
pub(crate) fn count_size(owed: u32, next: u32) -> u32
    ensures is { result ≡ count_size_of owed next }
    ensures few { result ≤ 4 }
{
    if owed == next { 0 } else { 4 }
}

/// Whether the line of an instruction is one that computes: it sets `rd` alone, or nothing, and
/// control goes on at the next line.
fn computes(instr: &Instr) -> bool
    ensures { result ≡ does_compute instr.now }
{
    match *instr {
        Instr::Op {
            op: _,
            rd: _,
            rs1: _,
            rs2: _,
        } => true,
        Instr::OpImm {
            op: _,
            rd: _,
            rs1: _,
            imm: _,
        } => true,
        Instr::Lui { rd: _, imm: _ } | Instr::Auipc { rd: _, imm: _ } => true,
        Instr::Fence {
            imm: _,
            rd: _,
            rs1: _,
        } => true,
        _ => false,
    }
}

/// Appends the line of an instruction at address `at`, if it computes; false, and nothing is
/// appended, if it doesn't. `owed` steps, fewer than 63, are owed before it, `next` behind it.
#[tactic(auto, using(crate::proofs::Lists::two_parts))]
pub fn push_computing_line(
    out: &mut Vec<u8>,
    plan: &Plan,
    at: u32,
    owed: u32,
    next: u32,
    instr: Instr,
) -> Result<bool, AllocError>
    requires { owed < 63 }
    ensures computes { IfOk result (λ written. written ≡ does_compute instr) }
    ensures bytes { OnOk result (out.new.items ≡ (if does_compute instr then out.old.items ++ spellings (computing_line plan.now at owed next instr) else out.old.items)) }
{
    if !computes(&instr) {
        return Ok(false);
    }
    put_computation(out, plan, at, &instr)?;
    put_count(out, owed + 1, next)?;
    Ok(true)
}
