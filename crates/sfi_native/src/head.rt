//! The bytes of lines that lead to a slow step, and of tests of the steps left. Owed steps are done,
//! but not yet subtracted from r14; fewer than 63 are owed before a line. Distances are in bytes, in two's
//! complement.
ghost use Rattle.std.specs.Prelude.{◌≡◌, ◌<◌, ◌++◌, OnOk};
ghost use Rattle.sfi_native.specs.Code.{end_code, head_line, leave_code, leave_line, leave_line_size as leave_line_size_of, test_code, tested};
ghost use Rattle.x86_step.specs.Running.{spellings};

use crate::byte_sizes::{INDIRECT_JUMP_BYTES, LEAVE_BYTES};
use crate::computation::{count_size, put_count};
use crate::operation::put;
use crate::register_jump::put_indirect_jump;
use std::alloc::AllocError;
use x86_instr::{AluOp, Condition, Instr, Operand, Register, Width};

/// Writes a jump out over `distance`, with the sandbox's address `at`, where the host goes on, in edx.
#[tactic(auto, using(crate::proofs::Lists::two_parts))]
fn put_leave(out: &mut Vec<u8>, at: u32, distance: u32) -> Result<(), AllocError>
    ensures { OnOk result (out.new.items ≡ out.old.items ++ spellings (leave_code at distance)) }
{
    put(
        out,
        Instr::MovImm {
            dst: Register::Rdx,
            imm: at,
        },
    )?;
    put(out, Instr::Jmp { distance })
}

/// Appends the line of an ecall or ebreak at address `at`: it subtracts the `owed` steps, fewer than
/// 63, and goes out. `distance` is from the line's end to the way out, in bytes, in two's complement.
#[tactic(auto, using(crate::proofs::Lists::two_parts))]
pub fn push_leave_line(
    out: &mut Vec<u8>,
    at: u32,
    owed: u32,
    distance: u32,
) -> Result<(), AllocError>
    ensures { OnOk result (out.new.items ≡ out.old.items ++ spellings (leave_line at owed distance)) }
{
    put_count(out, owed, 0)?;
    put_leave(out, at, distance)
}

/// How many bytes `push_leave_line` appends.
pub(crate) fn leave_line_size(owed: u32) -> u32
    ensures is { result ≡ leave_line_size_of owed }
    ensures few { result < 15 }
{
    count_size(owed, 0) + LEAVE_BYTES
}

/// Writes a test that jumps over a leave line and `label` bytes behind it, where `owed` steps are
/// owed and at least 65 are left: `most` of specs/Machine.antt in sfi_translate. `put_tested` puts
/// that line behind it.
#[tactic(auto, using(crate::proofs::Lists::two_parts))]
fn put_test(out: &mut Vec<u8>, owed: u32, label: u32) -> Result<(), AllocError>
    requires { owed < 63 }
    ensures { OnOk result (out.new.items ≡ out.old.items ++ spellings (test_code owed label)) }
{
    put(
        out,
        Instr::AluImm {
            op: AluOp::Cmp,
            width: Width::Dword,
            dst: Operand::Reg(Register::R14),
            imm: 65 + owed,
        },
    )?;
    put(
        out,
        Instr::Jcc {
            condition: Condition::AboveOrEqual,
            distance: label.wrapping_add(leave_line_size(owed)),
        },
    )
}

/// Writes a test that leads to a label, where enough steps are left, or else out, with the address
/// `at` in edx. The distances `label` and `exit`, to the way out, are from the end of what is
/// written. `owed` steps, fewer than 63, are owed before it and at the label.
#[tactic(auto, using(crate::proofs::Lists::two_parts))]
pub(crate) fn put_tested(
    out: &mut Vec<u8>,
    at: u32,
    owed: u32,
    label: u32,
    exit: u32,
) -> Result<(), AllocError>
    requires { owed < 63 }
    ensures { OnOk result (out.new.items ≡ out.old.items ++ spellings (tested at owed label exit)) }
{
    put_test(out, owed, label)?;
    push_leave_line(out, at, owed, exit)
}

/// Appends the line of a head at address `at`, before and behind which `owed` steps are owed, fewer
/// than 63: where too few are left it goes out. `distance` is from the line's end to the way out, in
/// bytes, in two's complement.
pub fn push_head_line(
    out: &mut Vec<u8>,
    at: u32,
    owed: u32,
    distance: u32,
) -> Result<(), AllocError>
    requires { owed < 63 }
    ensures { OnOk result (out.new.items ≡ out.old.items ++ spellings (head_line at owed distance)) }
{
    put_tested(out, at, owed, 0, distance)
}

/// Writes the `END_BYTES` bytes between the last line and the way out: what goes out with the address
/// `at`, where the sandbox's code ends and `owed` steps are owed, in edx; and the indirect jump that the
/// lines of jalr share.
#[tactic(auto, using(crate::proofs::Lists::end_parts))]
pub(crate) fn put_end(out: &mut Vec<u8>, at: u32, owed: u32) -> Result<(), AllocError>
    ensures { OnOk result (out.new.items ≡ out.old.items ++ spellings (end_code at owed)) }
{
    put(
        out,
        Instr::AluImm {
            op: AluOp::Sub,
            width: Width::Dword,
            dst: Operand::Reg(Register::R14),
            imm: owed,
        },
    )?;
    put_leave(out, at, INDIRECT_JUMP_BYTES)?;
    put_indirect_jump(out, 0)
}
