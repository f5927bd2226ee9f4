//! Where code accesses the data. The table of these places tells the host, when one of them faults,
//! which line it was.
ghost use Rattle.std.specs.Prelude.{◌≡◌, ◌≤◌, ◌<◌, ◌^◌, ◌++◌, [], length, IfSome, OnOk};
ghost use Rattle.sfi_native.specs.Code.{read};
ghost use Rattle.sfi_native.specs.Registers.{assigned, nop};
ghost use Rattle.sfi_native.specs.Faults.{access_in, with_access};
ghost use Rattle.sfi_native.specs.Places.{nop_code};
ghost use Rattle.sfi_native.specs.Lines.{line_of};
ghost use Rattle.x86_instr.specs.declared.operand.Register.TheVariants.{Rax, Rcx};
ghost use Rattle.x86_step.specs.Running.{spellings};

use crate::line::Line;
use crate::plan::Plan;
use rv_word::{Instr, Reg};
use std::alloc::AllocError;

/// An instruction of the code that accesses the data. Where it faults, the host goes out, with `pc` in edx, and subtracts `owed`
/// from r14d.
#[derive(Clone, Copy)]
pub struct Access {
    /// How many bytes of code are before the instruction of x86-64 that accesses.
    pub offset: u32,
    /// The address of its line in the sandbox.
    pub pc: u32,
    /// How many steps are owed there, fewer than 63.
    pub owed: u32,
}

/// How many bytes `put_read` writes for a register of the sandbox: x0 is at the frame's start, so
/// that its move needs no displacement.
#[tactic(auto, using(crate::proofs::Fixups::eax_zero, crate::proofs::Fixups::eax_some, crate::proofs::Fixups::ecx_zero, crate::proofs::Fixups::ecx_some, crate::proofs::Fixups::eax_lies, crate::proofs::Fixups::ecx_lies))]
fn read_size(plan: &Plan, r: Reg) -> u32
    ensures eax { result ≡ length (spellings (read (assigned plan.now r) Rax r)) }
    ensures few { result ≤ 4 }
    ensures ecx { result ≡ length (spellings (read (assigned plan.now r) Rcx r)) }
{
    match plan.of(r) {
        Some(_) => 0,
        None => if r.number() == 0 { 3 } else { 4 },
    }
}

/// How many bytes the nop before an instruction has, if one stands there.
#[tactic(auto, using(crate::proofs::Fixups::nop_some, crate::proofs::Fixups::nop_none))]
fn nop_size(plan: &Plan, at: u32) -> u32
    ensures is { result ≡ length (spellings (nop_code (nop plan.now at))) }
    ensures few { result ≤ 9 }
{
    match plan.nop(at) {
        Some(size) => size.bytes(),
        None => 0,
    }
}

/// The access of a load's or a store's line, with its offset from the line's start: behind the nop
/// and what fetches registers, as `push_line` writes them. None for other lines.
#[tactic(auto, using(crate::proofs::Fixups::front_below))]
fn access_of(plan: &Plan, line: &Line) -> Option<Access>
    ensures is { result ≡ access_in plan.now (line_of line.now) }
    ensures few { IfSome result (λ a. a.offset ≤ 17) }
{
    let Line::Does { at, instr, .. } = *line else {
        return None;
    };
    match instr {
        Instr::Load { rs1, .. } => Some(Access {
            offset: nop_size(plan, at) + read_size(plan, rs1),
            pc: at,
            owed: plan.owed(at),
        }),
        Instr::Store { rs1, rs2, .. } => Some(Access {
            offset: nop_size(plan, at) + (read_size(plan, rs1) + read_size(plan, rs2)),
            pc: at,
            owed: plan.owed(at),
        }),
        _ => None,
    }
}

/// Appends the access of a line to `accesses`, if it has one; `before` is how many bytes of code are
/// before the line.
pub(crate) fn push_access(
    accesses: &mut Vec<Access>,
    plan: &Plan,
    line: &Line,
    before: usize,
) -> Result<(), AllocError>
    requires { before < 2 ^ 31 }
    ensures { OnOk result
        (accesses.new.items ≡ accesses.old.items ++ with_access before (access_in plan.now (line_of line.now)) []) }
{
    let Some(access) = access_of(plan, line) else {
        return Ok(());
    };
    accesses.push(Access {
        offset: before as u32 + access.offset,
        ..access
    })?;
    Ok(())
}
