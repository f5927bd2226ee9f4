//! The bytes of a jalr, and of the indirect jump that all of them share: it takes the sandbox's
//! address in edx, and goes to the code of the unit there by a table in memory (`HasTable` of
//! specs/Table.antt), or out.
ghost use Rattle.std.specs.Prelude.{◌≡◌, ◌++◌, ◌<◌, OnOk};
ghost use Rattle.sfi_native.specs.Code.{enter_code, indirect_jump, jalr_line, start_code, steps_code, target_code};
ghost use Rattle.x86_instr.specs.declared.instr.Instr.TheVariants.{Alu, AluImm, Mov};
ghost use Rattle.x86_instr.specs.declared.instr.AluOp.TheVariants.{Add};
ghost use Rattle.x86_instr.specs.declared.operand.Scale.TheVariants.{One, Two};
ghost use Rattle.x86_instr.specs.declared.instr.Width.TheVariants.{Dword};
ghost use Rattle.x86_instr.specs.declared.operand.Operand.TheVariants.{Mem, Reg as InRegister};
ghost use Rattle.x86_instr.specs.declared.operand.Register.TheVariants.{Rax, Rdx, Rsp};
ghost use Rattle.x86_step.specs.Running.{spellings};

use crate::byte_sizes::{ENTER_BYTES, START_AND_ENTER_BYTES};
use crate::computation::{put_count, put_number};
use crate::operation::{put, put_fetch, slot};
use crate::plan::Plan;
use rv_word::Reg;
use std::alloc::AllocError;
use x86_instr::{Address, AluOp, Condition, Instr, Operand, Register, Scale, Width};

/// The instruction that does `op` on edx and a number.
fn with_edx(op: AluOp, imm: u32) -> Instr
    ensures { result ≡ AluImm op Dword (InRegister Rdx) imm }
{
    Instr::AluImm {
        op,
        width: Width::Dword,
        dst: Operand::Reg(Register::Rdx),
        imm,
    }
}

/// Writes what puts the target of a jalr into edx: `rs1` and the displacement, with bit 0 cleared.
#[tactic(auto, using(crate::proofs::Lists::target_parts))]
fn put_target(out: &mut Vec<u8>, plan: &Plan, rs1: Reg, displacement: u32) -> Result<(), AllocError>
    ensures { OnOk result (out.new.items ≡ out.old.items ++ spellings (target_code plan.now rs1 displacement)) }
{
    put_fetch(out, plan, Register::Rdx, rs1)?;
    put(out, with_edx(AluOp::Add, displacement))?;
    put(out, with_edx(AluOp::And, 0xffff_fffe))
}

/// The instruction that does `op` on eax and an operand.
fn with_eax(op: AluOp, src: Operand) -> Instr
    ensures { result ≡ Alu op Dword Rax src }
{
    Instr::Alu {
        op,
        width: Width::Dword,
        dst: Register::Rax,
        src,
    }
}

/// Writes the test that 65 steps are left (`most` of specs/Machine.antt in sfi_translate), and none
/// owed, with a jump to the way out where fewer are. `distance` is from the end of the whole indirect
/// jump to the way out.
#[tactic(auto, using(crate::proofs::Lists::two_parts))]
fn put_steps_test(out: &mut Vec<u8>, distance: u32) -> Result<(), AllocError>
    ensures { OnOk result (out.new.items ≡ out.old.items ++ spellings (steps_code distance)) }
{
    put(
        out,
        Instr::AluImm {
            op: AluOp::Cmp,
            width: Width::Dword,
            dst: Operand::Reg(Register::R14),
            imm: 65,
        },
    )?;
    put(
        out,
        Instr::Jcc {
            condition: Condition::Below,
            distance: distance.wrapping_add(START_AND_ENTER_BYTES),
        },
    )
}

/// Writes the test that a unit of the sandbox's code starts at the address in edx, with a jump to the
/// way out where none does: there the mask of x25 and the base of x24 make another address of it.
/// `distance` is from the end of the whole indirect jump to the way out.
#[tactic(auto, using(crate::proofs::Lists::start_parts))]
fn put_start_test(out: &mut Vec<u8>, distance: u32) -> Result<(), AllocError>
    ensures { OnOk result (out.new.items ≡ out.old.items ++ spellings (start_code distance)) }
{
    put(
        out,
        Instr::Mov {
            width: Width::Dword,
            dst: Register::Rax,
            src: Operand::Reg(Register::Rdx),
        },
    )?;
    put(
        out,
        with_eax(AluOp::And, Operand::Mem(slot(Reg::numbered(25)))),
    )?;
    put(
        out,
        with_eax(AluOp::Or, Operand::Mem(slot(Reg::numbered(24)))),
    )?;
    put(out, with_eax(AluOp::Cmp, Operand::Reg(Register::Rdx)))?;
    put(
        out,
        Instr::Jcc {
            condition: Condition::NotEqual,
            distance: distance.wrapping_add(ENTER_BYTES),
        },
    )
}

/// The place of that offset in the frame.
fn in_frame(displacement: u32) -> Address
    ensures { result ≡ record { base = Rsp; index = Rsp; scale = One; displacement = displacement } }
{
    Address {
        base: Register::Rsp,
        index: Register::Rsp,
        scale: Scale::One,
        displacement,
    }
}

/// The address `displacement` bytes behind the table's entry of the unit at the address in edx. rax
/// has where the entry of address 0 would be; there are two bytes of the table for each of the
/// sandbox's code.
fn in_table(displacement: u32) -> Address
    ensures { result ≡ record { base = Rax; index = Rdx; scale = Two; displacement = displacement } }
{
    Address {
        base: Register::Rax,
        index: Register::Rdx,
        scale: Scale::Two,
        displacement,
    }
}

/// The instruction that adds what is at `src` to a register.
fn add(width: Width, dst: Register, src: Address) -> Instr
    ensures { result ≡ Alu Add width dst (Mem src) }
{
    Instr::Alu {
        op: AluOp::Add,
        width,
        dst,
        src: Operand::Mem(src),
    }
}

/// The instruction that loads what is at `src` into rax.
fn load(width: Width, src: Address) -> Instr
    ensures { result ≡ Mov width Rax (Mem src) }
{
    Instr::Mov {
        width,
        dst: Register::Rax,
        src: Operand::Mem(src),
    }
}

/// Writes the jump to the entry of the unit at the address in edx. r14 gets the steps that are owed
/// there, which the table has 4 bytes behind the entry. The frame has the table's origin at 128 and
/// the code's address at 136.
#[tactic(auto, using(crate::proofs::Lists::enter_parts))]
fn put_enter(out: &mut Vec<u8>) -> Result<(), AllocError>
    ensures { OnOk result (out.new.items ≡ out.old.items ++ spellings enter_code) }
{
    put(out, load(Width::Qword, in_frame(128)))?;
    put(out, add(Width::Dword, Register::R14, in_table(4)))?;
    put(out, load(Width::Dword, in_table(0)))?;
    put(out, add(Width::Qword, Register::Rax, in_frame(136)))?;
    put(
        out,
        Instr::JmpTo {
            target: Operand::Reg(Register::Rax),
        },
    )
}

/// Writes the indirect jump, `INDIRECT_JUMP_BYTES`: to the unit at the address in edx, or out. `distance` is from
/// its end to the way out.
#[tactic(auto, using(crate::proofs::Lists::indirect_parts))]
pub(crate) fn put_indirect_jump(out: &mut Vec<u8>, distance: u32) -> Result<(), AllocError>
    ensures { OnOk result (out.new.items ≡ out.old.items ++ spellings (indirect_jump distance)) }
{
    put_steps_test(out, distance)?;
    put_start_test(out, distance)?;
    put_enter(out)
}

/// Appends the line of a jalr; `behind` is the sandbox's address behind it, which `rd` gets. `owed`
/// steps, fewer than 63, are owed before it. `displacement`, the immediate, and `distance` are in
/// two's complement, the distance in bytes, from the line's end to the indirect jump.
#[tactic(auto, using(crate::proofs::Lists::jalr_parts))]
pub fn push_jalr_line(
    out: &mut Vec<u8>,
    plan: &Plan,
    owed: u32,
    rd: Reg,
    rs1: Reg,
    displacement: u32,
    behind: u32,
    distance: u32,
) -> Result<(), AllocError>
    requires { owed < 63 }
    ensures { OnOk result (out.new.items ≡ out.old.items ++ spellings (jalr_line plan.now owed rd rs1 displacement behind distance)) }
{
    put_target(out, plan, rs1, displacement)?;
    put_number(out, plan, rd, behind)?;
    put_count(out, owed + 1, 0)?;
    put(out, Instr::Jmp { distance })
}
