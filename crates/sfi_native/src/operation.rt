//! The instructions of one operation, and those that fetch and write the sandbox's registers. `r`,
//! `rd`, `rs1` and `rs2` are registers of the sandbox; a `place` is the processor's register that one
//! of them lies in, None for the frame; eax, ecx and edx are free. Each `put_` function appends what
//! the definition of that name in specs/Code.antt lists; its one error is that an allocation was
//! refused.
ghost use Rattle.std.specs.Prelude.{◌≡◌, ◌++◌, ◌∷◌, [], ◌%◌, OnOk};
ghost use Rattle.sfi_native.specs.Code.{bring, compute, compute_imm, fetch, high_product, is_commutative as is_commutative_of, keeps_beside_zero as keeps_beside_zero_of, lies_in as lies_in_of, needs_ecx as needs_ecx_of, operand_of, read, register_or as register_or_of, result_in as result_in_of, set_if, settle, slot as slot_of, store_eax as store_eax_of, write};
ghost use Rattle.sfi_native.specs.Registers.{assigned};
ghost use Rattle.rv_word.specs.declared.instr.RegOp.TheVariants.{Mulh, Mulhsu};
ghost use Rattle.rv_word.specs.declared.instr.ImmOp.TheVariants.{Addi};
ghost use Rattle.x86_instr.specs.declared.instr.Instr.TheVariants.{Alu, AluImm, Movsxd, ShiftCl, ShiftImm};
ghost use Rattle.x86_instr.specs.declared.instr.Width.TheVariants.{Dword};
ghost use Rattle.x86_instr.specs.declared.operand.Operand.TheVariants.{Reg as InRegister};
ghost use Rattle.x86_instr.specs.declared.operand.Register.TheVariants.{Rax, Rcx};
ghost use Rattle.x86_step.specs.Running.{spellings};

use crate::division::{
    put_signed_quotient, put_signed_remainder, put_unsigned_quotient, put_unsigned_remainder,
};
use crate::plan::{Plan, is_fixed};
use rv_word::{ImmOp, Reg, RegOp};
use std::alloc::AllocError;
use x86_instr::{
    Address, AluOp, Condition, Extension, Instr, Narrow, Operand, Register, Scale, ShiftOp, Width,
    encode,
};

/// Appends one instruction.
#[tactic(auto, using(crate::proofs::Lists::one_part))]
pub(crate) fn put(out: &mut Vec<u8>, instr: Instr) -> Result<(), AllocError>
    ensures { OnOk result (out.new.items ≡ out.old.items ++ spellings (instr ∷ [])) }
{
    encode(out, instr)
}

/// The address of register `r` in the frame: `4 * r` behind rsp.
pub(crate) fn slot(r: Reg) -> Address
    ensures { result ≡ slot_of r }
{
    Address {
        base: Register::Rsp,
        index: Register::Rsp,
        scale: Scale::One,
        displacement: 4 * u32::from(r.number()),
    }
}

/// Where register `r` lies, as an operand: in a register of the processor, or in the frame.
pub(crate) fn operand(plan: &Plan, r: Reg) -> Operand
    ensures { result ≡ operand_of (assigned plan.now r) r }
{
    match plan.of(r) {
        Some(q) => Operand::Reg(q),
        None => Operand::Mem(slot(r)),
    }
}

/// Fetches register `r` into `dst`, wherever it lies.
pub(crate) fn put_fetch(
    out: &mut Vec<u8>,
    plan: &Plan,
    dst: Register,
    r: Reg,
) -> Result<(), AllocError>
    ensures { OnOk result (out.new.items ≡ out.old.items ++ spellings (fetch plan.now dst r)) }
{
    put(
        out,
        Instr::Mov {
            width: Width::Dword,
            dst,
            src: operand(plan, r),
        },
    )
}

/// The move of eax to where register `r` lies.
fn store_eax(plan: &Plan, r: Reg) -> Instr
    ensures { result ≡ store_eax_of (assigned plan.now r) r }
{
    match plan.of(r) {
        Some(q) => Instr::Mov {
            width: Width::Dword,
            dst: q,
            src: Operand::Reg(Register::Rax),
        },
        None => Instr::MovStore {
            width: Width::Dword,
            dst: slot(r),
            src: Register::Rax,
        },
    }
}

/// Writes eax into register `r`, unless that is fixed: then nothing is written.
pub(crate) fn put_write(out: &mut Vec<u8>, plan: &Plan, r: Reg) -> Result<(), AllocError>
    ensures { OnOk result (out.new.items ≡ out.old.items ++ spellings (write plan.now r)) }
{
    if is_fixed(plan.format, r) {
        return Ok(());
    }
    put(out, store_eax(plan, r))
}

/// The register that one of the sandbox's lies in, or else `free`.
pub(crate) fn register_or(place: Option<Register>, free: Register) -> Register
    ensures { result ≡ register_or_of place free }
{
    match place {
        Some(q) => q,
        None => free,
    }
}

/// Fetches register `r` into `free` if it lies in the frame, as `place` says. `register_or` says
/// where it is read then.
#[tactic(auto, using(crate::proofs::Lists::no_part))]
pub(crate) fn put_read(
    out: &mut Vec<u8>,
    place: Option<Register>,
    free: Register,
    r: Reg,
) -> Result<(), AllocError>
    ensures { OnOk result (out.new.items ≡ out.old.items ++ spellings (read place free r)) }
{
    match place {
        Some(_) => Ok(()),
        None => put(
            out,
            Instr::Mov {
                width: Width::Dword,
                dst: free,
                src: Operand::Mem(slot(r)),
            },
        ),
    }
}

/// The register that a result is computed in: where the sandbox's register lies that gets it, or else
/// eax.
pub(crate) fn result_in(place: Option<Register>) -> Register
    ensures { result ≡ result_in_of place }
{
    register_or(place, Register::Rax)
}

/// Moves a result to register `rd` if it was computed in eax, as `result_in(place)` says.
#[tactic(auto, using(crate::proofs::Lists::no_part))]
pub(crate) fn put_settle(
    out: &mut Vec<u8>,
    plan: &Plan,
    place: Option<Register>,
    rd: Reg,
) -> Result<(), AllocError>
    ensures { OnOk result (out.new.items ≡ out.old.items ++ spellings (settle plan.now place rd)) }
{
    match place {
        Some(_) => Ok(()),
        None => put_write(out, plan, rd),
    }
}

/// Whether a register of the sandbox lies in `dst`, by its place.
fn lies_in(place: Option<Register>, dst: Register) -> bool
    ensures { result ≡ lies_in_of place dst }
{
    match place {
        Some(q) => q.number() == dst.number(),
        None => false,
    }
}

/// Fetches register `r` into `dst`, unless it lies there.
#[tactic(auto, using(crate::proofs::Lists::no_part))]
pub(crate) fn put_bring(
    out: &mut Vec<u8>,
    plan: &Plan,
    dst: Register,
    r: Reg,
) -> Result<(), AllocError>
    ensures { OnOk result (out.new.items ≡ out.old.items ++ spellings (bring plan.now dst r)) }
{
    if lies_in(plan.of(r), dst) {
        return Ok(());
    }
    put_fetch(out, plan, dst, r)
}

/// Writes `compare`, and what sets `dst` to 1 where the condition holds then, or else to 0.
#[tactic(auto, using(crate::proofs::Lists::three_parts))]
fn put_set_if(
    out: &mut Vec<u8>,
    compare: Instr,
    condition: Condition,
    dst: Register,
) -> Result<(), AllocError>
    ensures { OnOk result (out.new.items ≡ out.old.items ++ spellings (set_if compare condition dst)) }
{
    put(out, compare)?;
    put(out, Instr::Setcc { condition, dst })?;
    put(
        out,
        Instr::MovExtended {
            extension: Extension::Zero,
            from: Narrow::Byte,
            dst,
            src: Operand::Reg(dst),
        },
    )
}

/// The instruction that does `op` on a register and an operand, of 32 bits, into the register.
pub(crate) fn with_operand(op: AluOp, dst: Register, src: Operand) -> Instr
    ensures { result ≡ Alu op Dword dst src }
{
    Instr::Alu {
        op,
        width: Width::Dword,
        dst,
        src,
    }
}

/// Writes what puts bits 32 to 63 of the product of rax and rcx into eax. Callers have sign-extended the
/// factors that have a sign; the upper half of another is 0.
#[tactic(auto, using(crate::proofs::Lists::two_parts))]
fn put_high_product(out: &mut Vec<u8>) -> Result<(), AllocError>
    ensures { OnOk result (out.new.items ≡ out.old.items ++ spellings high_product) }
{
    put(
        out,
        Instr::Imul {
            width: Width::Qword,
            dst: Register::Rax,
            src: Operand::Reg(Register::Rcx),
        },
    )?;
    put(
        out,
        Instr::ShiftImm {
            op: ShiftOp::Shr,
            width: Width::Qword,
            dst: Operand::Reg(Register::Rax),
            amount: 32,
        },
    )
}

/// The instruction that copies the sign of a register's low 32 bits to its upper half.
fn with_sign(register: Register) -> Instr
    ensures { result ≡ Movsxd register (InRegister register) }
{
    Instr::Movsxd {
        dst: register,
        src: Operand::Reg(register),
    }
}

/// Writes mulh of eax and ecx, into eax: both factors have a sign.
#[tactic(auto, unfolding(crate::specs::Code::compute), using(crate::proofs::Lists::three_parts))]
fn put_signed_product(out: &mut Vec<u8>) -> Result<(), AllocError>
    ensures { OnOk result (out.new.items ≡ out.old.items ++ spellings (compute Mulh Rax (InRegister Rcx))) }
{
    put(out, with_sign(Register::Rax))?;
    put(out, with_sign(Register::Rcx))?;
    put_high_product(out)
}

/// Writes mulhsu of eax and ecx, into eax: the first factor, eax, has a sign.
#[tactic(auto, unfolding(crate::specs::Code::compute), using(crate::proofs::Lists::two_parts))]
fn put_mixed_product(out: &mut Vec<u8>) -> Result<(), AllocError>
    ensures { OnOk result (out.new.items ≡ out.old.items ++ spellings (compute Mulhsu Rax (InRegister Rcx))) }
{
    put(out, with_sign(Register::Rax))?;
    put_high_product(out)
}

/// The instruction that shifts eax by cl, of which the processor takes five bits, as RISC-V does.
fn shift_by_cl(op: ShiftOp) -> Instr
    ensures { result ≡ ShiftCl op Rax }
{
    Instr::ShiftCl {
        op,
        dst: Register::Rax,
    }
}

/// Whether an operation takes no operands but eax and ecx: shifts by cl, high products and divisions.
pub(crate) fn needs_ecx(op: RegOp) -> bool
    ensures { result ≡ needs_ecx_of op }
{
    match op {
        RegOp::Add
        | RegOp::Sub
        | RegOp::Slt
        | RegOp::Sltu
        | RegOp::Xor
        | RegOp::Or
        | RegOp::And
        | RegOp::Mul => false,
        _ => true,
    }
}

/// Whether the operands of an operation may be exchanged.
pub(crate) fn is_commutative(op: RegOp) -> bool
    ensures { result ≡ is_commutative_of op }
{
    match op {
        RegOp::Add | RegOp::Xor | RegOp::Or | RegOp::And | RegOp::Mul => true,
        _ => false,
    }
}

/// Whether 0 as the second operand leaves the first as it is, so that the operation with x0 is a
/// move. Sub isn't among these: false only costs an instruction.
pub(crate) fn keeps_beside_zero(op: RegOp) -> bool
    ensures { result ≡ keeps_beside_zero_of op }
{
    match op {
        RegOp::Add | RegOp::Xor | RegOp::Or => true,
        _ => false,
    }
}

/// Writes an operation of a register and an operand, into the register. Where `needs_ecx` says so
/// these must be eax and ecx: `dst` and `src` aren't looked at then.
#[tactic(auto, unfolding(crate::specs::Code::compute))]
pub(crate) fn put_compute(
    out: &mut Vec<u8>,
    op: RegOp,
    dst: Register,
    src: Operand,
) -> Result<(), AllocError>
    ensures { OnOk result (out.new.items ≡ out.old.items ++ spellings (compute op dst src)) }
{
    match op {
        RegOp::Add => put(out, with_operand(AluOp::Add, dst, src)),
        RegOp::Sub => put(out, with_operand(AluOp::Sub, dst, src)),
        RegOp::Xor => put(out, with_operand(AluOp::Xor, dst, src)),
        RegOp::Or => put(out, with_operand(AluOp::Or, dst, src)),
        RegOp::And => put(out, with_operand(AluOp::And, dst, src)),
        RegOp::Slt => put_set_if(
            out,
            with_operand(AluOp::Cmp, dst, src),
            Condition::Less,
            dst,
        ),
        RegOp::Sltu => put_set_if(
            out,
            with_operand(AluOp::Cmp, dst, src),
            Condition::Below,
            dst,
        ),
        RegOp::Mul => put(
            out,
            Instr::Imul {
                width: Width::Dword,
                dst,
                src,
            },
        ),
        RegOp::Sll => put(out, shift_by_cl(ShiftOp::Shl)),
        RegOp::Srl => put(out, shift_by_cl(ShiftOp::Shr)),
        RegOp::Sra => put(out, shift_by_cl(ShiftOp::Sar)),
        RegOp::Mulhu => put_high_product(out),
        RegOp::Mulh => put_signed_product(out),
        RegOp::Mulhsu => put_mixed_product(out),
        RegOp::Div => put_signed_quotient(out),
        RegOp::Divu => put_unsigned_quotient(out),
        RegOp::Rem => put_signed_remainder(out),
        RegOp::Remu => put_unsigned_remainder(out),
    }
}

/// The instruction that does `op` on a register and a number, of 32 bits, into the register.
fn with_number(op: AluOp, dst: Register, imm: u32) -> Instr
    ensures { result ≡ AluImm op Dword (InRegister dst) imm }
{
    Instr::AluImm {
        op,
        width: Width::Dword,
        dst: Operand::Reg(dst),
        imm,
    }
}

/// The shift of a register by a number's low byte, of which the processor takes five bits.
fn shift_by(op: ShiftOp, dst: Register, imm: u32) -> Instr
    ensures { result ≡ ShiftImm op Dword (InRegister dst) (imm % 256) }
{
    Instr::ShiftImm {
        op,
        width: Width::Dword,
        dst: Operand::Reg(dst),
        amount: (imm % 256) as u8,
    }
}

/// Writes the addition of a number to a register; nothing where it is 0.
#[tactic(auto, unfolding(crate::specs::Code::compute_imm), using(crate::proofs::Lists::no_part))]
fn put_sum(out: &mut Vec<u8>, dst: Register, imm: u32) -> Result<(), AllocError>
    ensures { OnOk result (out.new.items ≡ out.old.items ++ spellings (compute_imm Addi dst imm)) }
{
    if imm == 0 {
        return Ok(());
    }
    put(out, with_number(AluOp::Add, dst, imm))
}

/// Writes an operation of a register and a number, in two's complement, into the register.
#[tactic(auto, unfolding(crate::specs::Code::compute_imm))]
pub(crate) fn put_compute_imm(
    out: &mut Vec<u8>,
    op: ImmOp,
    dst: Register,
    imm: u32,
) -> Result<(), AllocError>
    ensures { OnOk result (out.new.items ≡ out.old.items ++ spellings (compute_imm op dst imm)) }
{
    match op {
        ImmOp::Addi => put_sum(out, dst, imm),
        ImmOp::Xori => put(out, with_number(AluOp::Xor, dst, imm)),
        ImmOp::Ori => put(out, with_number(AluOp::Or, dst, imm)),
        ImmOp::Andi => put(out, with_number(AluOp::And, dst, imm)),
        ImmOp::Slli => put(out, shift_by(ShiftOp::Shl, dst, imm)),
        ImmOp::Srli => put(out, shift_by(ShiftOp::Shr, dst, imm)),
        ImmOp::Srai => put(out, shift_by(ShiftOp::Sar, dst, imm)),
        ImmOp::Slti => put_set_if(out, with_number(AluOp::Cmp, dst, imm), Condition::Less, dst),
        ImmOp::Sltiu => put_set_if(
            out,
            with_number(AluOp::Cmp, dst, imm),
            Condition::Below,
            dst,
        ),
    }
}
