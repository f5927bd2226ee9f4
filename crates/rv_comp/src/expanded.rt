//! The 32-bit instructions that forms stand for, from their fields.
ghost use Rattle.std.specs.Prelude.{◌≡◌, ◌/◌, ◌^◌, pos};
ghost use Rattle.std.specs.Int.{w32, cast_unsigned};
ghost use Rattle.rv_word.specs.declared.instr.Instr.TheVariants.{Op, OpImm, Load, Store, Branch, Jal, Jalr, Lui};
ghost use Rattle.rv_word.specs.declared.instr.LoadKind.TheVariants.{Lw};
ghost use Rattle.rv_word.specs.declared.instr.StoreWidth.TheVariants.{Sw};

use rv_word::{Cond, ImmOp, Instr, LoadKind, Reg, RegOp, StoreWidth};

/// An instruction on two registers.
pub(crate) fn arithmetic_instr(op: RegOp, rd: Reg, rs1: Reg, rs2: Reg) -> Instr
    ensures { result ≡ Op op rd rs1 rs2 }
{
    Instr::Op { op, rd, rs1, rs2 }
}

/// An instruction on a register and an immediate.
pub(crate) fn immediate_instr(op: ImmOp, rd: Reg, rs1: Reg, imm: i32) -> Instr
    ensures { result ≡ OpImm op rd rs1 imm }
{
    Instr::OpImm { op, rd, rs1, imm }
}

/// A load of a word.
pub(crate) fn load_word_instr(rd: Reg, rs1: Reg, imm: i32) -> Instr
    ensures { result ≡ Load Lw rd rs1 imm }
{
    Instr::Load {
        kind: LoadKind::Lw,
        rd,
        rs1,
        imm,
    }
}

/// A store of a word.
pub(crate) fn store_word_instr(rs1: Reg, rs2: Reg, imm: i32) -> Instr
    ensures { result ≡ Store Sw rs1 rs2 imm }
{
    Instr::Store {
        width: StoreWidth::Sw,
        rs1,
        rs2,
        imm,
    }
}

/// A branch that compares `rs1` with x0; `offset` is in bytes.
pub(crate) fn branch_on_zero_instr(cond: Cond, rs1: Reg, offset: i32) -> Instr
    ensures { result ≡ Branch cond rs1 0 offset }
{
    Instr::Branch {
        cond,
        rs1,
        rs2: Reg::numbered(0),
        offset,
    }
}

/// A jump by `offset` bytes that links `rd`.
pub(crate) fn jump_instr(rd: Reg, offset: i32) -> Instr
    ensures { result ≡ Jal rd offset }
{
    Instr::Jal { rd, offset }
}

/// A jump to the address in `rs1` that links `rd`.
pub(crate) fn jump_to_instr(rd: Reg, rs1: Reg) -> Instr
    ensures { result ≡ Jalr rd rs1 (pos 0) }
{
    Instr::Jalr { rd, rs1, imm: 0 }
}

/// The lui that writes this number, a multiple of 4096.
pub(crate) fn lui_instr(rd: Reg, written: i32) -> Instr
    ensures { result ≡ Lui rd (cast_unsigned w32 written / 2 ^ 12) }
{
    Instr::Lui {
        rd,
        imm: written.cast_unsigned() >> 12,
    }
}
