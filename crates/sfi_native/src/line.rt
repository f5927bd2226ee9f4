//! The bytes of a line, as `line_code` of specs/Places.antt says.
ghost use Rattle.std.specs.Prelude.{◌≡◌, ◌<◌, ◌++◌, OnOk};
ghost use Rattle.rv_word.specs.Spelling.{offset_by};
ghost use Rattle.sfi_native.specs.Lines.{line_of};
ghost use Rattle.sfi_native.specs.Places.{instruction_code, jump_of, line_code, nop_code};
ghost use Rattle.x86_step.specs.Running.{spellings};

use crate::access::{push_load_line, push_store_line};
use crate::byte_sizes::INDIRECT_JUMP_BYTES;
use crate::computation::push_computing_line;
use crate::head::{push_head_line, push_leave_line};
use crate::jump::{Jump, push_branch_line, push_jal_line};
use crate::operation::put;
use crate::plan::Plan;
use crate::register_jump::push_jalr_line;
use rv_word::Instr;
use std::alloc::AllocError;
use x86_instr::NopSize;

/// A line of a sandbox's code. Addresses are the sandbox's.
#[derive(Clone, Copy)]
pub enum Line {
    /// A function of that sandbox begins.
    Function { sandbox: u32, at: u32 },
    /// A function ends.
    End { at: u32 },
    /// A unit that may be entered from outside and by indirect jumps.
    Entry { at: u32 },
    /// Code tests the steps that are left.
    Head { at: u32 },
    /// An instruction of `size` bytes.
    Does { at: u32, size: u32, instr: Instr },
}

/// The jump of the line at address `at` to the address at `offset` from it; `label` and `exit` are as in
/// `push_line`.
fn jump(plan: &Plan, at: u32, offset: i32, label: u32, exit: u32) -> Jump
    ensures is { result ≡ jump_of plan.now (λ to. label) exit at (offset_by at offset) }
    ensures few { result.label_owed < 63 }
{
    let to = at.wrapping_add_signed(offset);
    Jump {
        from: at,
        to,
        label,
        exit,
        label_owed: plan.owed(to),
    }
}

/// Appends the line of an instruction, without its nop. The indirect jump that the lines of jalr
/// share stands right before the way out and has `INDIRECT_JUMP_BYTES`.
#[tactic(auto, using(crate::proofs::Lists::no_part))]
fn put_instruction(
    out: &mut Vec<u8>,
    plan: &Plan,
    at: u32,
    size: u32,
    instr: Instr,
    label: u32,
    exit: u32,
) -> Result<(), AllocError>
    ensures { OnOk result (out.new.items ≡ out.old.items ++ spellings (instruction_code plan.now (λ to. label) exit at size instr)) }
{
    let owed = plan.owed(at);
    let behind = at.wrapping_add(size);
    let next = plan.owed(behind);
    match instr {
        Instr::Branch {
            cond,
            rs1,
            rs2,
            offset,
        } => {
            let jump = jump(plan, at, offset, label, exit);
            push_branch_line(out, plan, owed, next, cond, rs1, rs2, jump)
        }
        Instr::Jal { rd, offset } => {
            let jump = jump(plan, at, offset, label, exit);
            push_jal_line(out, plan, owed, rd, behind, jump)
        }
        Instr::Load { kind, rd, rs1, imm } => {
            let displacement = imm.cast_unsigned();
            push_load_line(out, plan, owed, next, kind, rd, rs1, displacement)
        }
        Instr::Store {
            width,
            rs1,
            rs2,
            imm,
        } => {
            let displacement = imm.cast_unsigned();
            push_store_line(out, plan, owed, next, width, rs1, rs2, displacement)
        }
        Instr::Ecall | Instr::Ebreak => push_leave_line(out, at, owed, exit),
        Instr::Jalr { rd, rs1, imm } => push_jalr_line(
            out,
            plan,
            owed,
            rd,
            rs1,
            imm.cast_unsigned(),
            behind,
            exit.wrapping_sub(INDIRECT_JUMP_BYTES),
        ),
        _ => {
            push_computing_line(out, plan, at, owed, next, instr)?;
            Ok(())
        }
    }
}

/// Appends a nop, if there is one.
#[tactic(auto, using(crate::proofs::Lists::no_part))]
fn put_nop(out: &mut Vec<u8>, nop: Option<NopSize>) -> Result<(), AllocError>
    ensures { OnOk result (out.new.items ≡ out.old.items ++ spellings (nop_code nop)) }
{
    match nop {
        Some(size) => put(out, x86_instr::Instr::Nop { size }),
        None => Ok(()),
    }
}

/// Appends a line. Distances are in bytes, from the line's end, in two's complement: `label` to the
/// line that it jumps to, `exit` to the way out. A line has as many bytes whatever these are, so that
/// one with zeros can be measured. Functions, ends and entries have no bytes.
#[tactic(auto, using(crate::proofs::Lists::no_part, crate::proofs::Lists::two_parts))]
pub fn push_line(
    out: &mut Vec<u8>,
    plan: &Plan,
    line: Line,
    label: u32,
    exit: u32,
) -> Result<(), AllocError>
    ensures { OnOk result (out.new.items ≡ out.old.items ++ spellings (line_code plan.now (λ to. label) exit (line_of line))) }
{
    match line {
        Line::Function { .. } | Line::End { .. } | Line::Entry { .. } => Ok(()),
        Line::Head { at } => push_head_line(out, at, plan.owed(at), exit),
        Line::Does { at, size, instr } => {
            put_nop(out, plan.nop(at))?;
            put_instruction(out, plan, at, size, instr, label, exit)
        }
    }
}
