//! The instructions.
ghost use Rattle.std.specs.Prelude.{◌≡◌};
ghost use Rattle.rv_word.specs.Outlines.{destination, written, writes_register};

use crate::reg::Reg;

/// A computation on two registers: the opcode OP, with those of extension M.
#[derive(Clone, Copy, PartialEq, Eq, Debug)]
pub enum RegOp {
    Add,
    Sub,
    /// Shift left logical.
    Sll,
    /// Set if less than, signed.
    Slt,
    /// Set if less than, unsigned.
    Sltu,
    Xor,
    /// Shift right logical.
    Srl,
    /// Shift right arithmetic, which copies the sign.
    Sra,
    Or,
    And,
    /// The low word of the product.
    Mul,
    /// The high word of the product, signed by signed.
    Mulh,
    /// The high word of the product, signed by unsigned.
    Mulhsu,
    /// The high word of the product, unsigned by unsigned.
    Mulhu,
    /// The signed quotient.
    Div,
    /// The unsigned quotient.
    Divu,
    /// The signed remainder.
    Rem,
    /// The unsigned remainder.
    Remu,
}

/// A computation on a register and an immediate: the opcode OP-IMM.
#[derive(Clone, Copy, PartialEq, Eq, Debug)]
pub enum ImmOp {
    Addi,
    /// Set if less than, signed.
    Slti,
    /// Set if less than, where both sides count as unsigned.
    Sltiu,
    Xori,
    Ori,
    Andi,
    /// Shift left logical.
    Slli,
    /// Shift right logical.
    Srli,
    /// Shift right arithmetic, which copies the sign.
    Srai,
}

/// What a load reads: a byte, a halfword or a word, and how it fills the register.
#[derive(Clone, Copy, PartialEq, Eq, Debug)]
pub enum LoadKind {
    /// A byte, sign-extended.
    Lb,
    /// A halfword, sign-extended.
    Lh,
    Lw,
    /// A byte, zero-extended.
    Lbu,
    /// A halfword, zero-extended.
    Lhu,
}

/// What a store writes: a byte, a halfword or a word.
#[derive(Clone, Copy, PartialEq, Eq, Debug)]
pub enum StoreWidth {
    Sb,
    Sh,
    Sw,
}

/// When a branch is taken.
#[derive(Clone, Copy, PartialEq, Eq, Debug)]
pub enum Cond {
    /// Equal.
    Beq,
    /// Not equal.
    Bne,
    /// Less than, signed.
    Blt,
    /// At least, signed.
    Bge,
    /// Less than, unsigned.
    Bltu,
    /// At least, unsigned.
    Bgeu,
}

/// An instruction of RV32IM, by the fields that the assembler names.
///
/// A field may hold a number that no word can; [`encode32`](crate::encode32) refuses such an
/// instruction.
#[derive(Clone, Copy, PartialEq, Eq, Debug)]
pub enum Instr {
    Op {
        op: RegOp,
        rd: Reg,
        rs1: Reg,
        rs2: Reg,
    },
    /// `imm` is one of -2048 to 2047, and of 0 to 31 for a shift.
    OpImm {
        op: ImmOp,
        rd: Reg,
        rs1: Reg,
        imm: i32,
    },
    /// From the address `rs1` plus `imm`, one of -2048 to 2047.
    Load {
        kind: LoadKind,
        rd: Reg,
        rs1: Reg,
        imm: i32,
    },
    /// Of `rs2`, to the address `rs1` plus `imm`, one of -2048 to 2047.
    Store {
        width: StoreWidth,
        rs1: Reg,
        rs2: Reg,
        imm: i32,
    },
    /// `offset` is in bytes, even, and one of -4096 to 4094.
    Branch {
        cond: Cond,
        rs1: Reg,
        rs2: Reg,
        offset: i32,
    },
    /// `offset` is in bytes, even, and one of -1048576 to 1048574.
    Jal {
        rd: Reg,
        offset: i32,
    },
    /// To the address `rs1` plus `imm`, one of -2048 to 2047.
    Jalr {
        rd: Reg,
        rs1: Reg,
        imm: i32,
    },
    /// `imm` is the number of bits 31:12, below 2^20.
    Lui {
        rd: Reg,
        imm: u32,
    },
    /// `imm` is the number of bits 31:12, below 2^20.
    Auipc {
        rd: Reg,
        imm: u32,
    },
    /// `imm` is the number of bits 31:20, below 2^12: the fence mode, predecessors and successors.
    Fence {
        imm: u32,
        rd: Reg,
        rs1: Reg,
    },
    Ecall,
    Ebreak,
}

impl Instr {
    /// `rd` of each instruction that has one, also where that is x0; `None` for a fence, which
    /// writes none.
    fn destination(&self) -> Option<Reg>
        ensures { result ≡ destination self.now }
    {
        match *self {
            Instr::Op { rd, .. }
            | Instr::OpImm { rd, .. }
            | Instr::Load { rd, .. }
            | Instr::Jal { rd, .. }
            | Instr::Jalr { rd, .. }
            | Instr::Lui { rd, .. }
            | Instr::Auipc { rd, .. } => Some(rd),
            Instr::Store { .. }
            | Instr::Branch { .. }
            | Instr::Fence { .. }
            | Instr::Ecall
            | Instr::Ebreak => None,
        }
    }

    /// The register that the instruction writes: `rd` of each instruction that has one, except a
    /// fence; `None` where that is x0.
    pub fn writes(&self) -> Option<Reg>
        ensures { result ≡ written self.now }
    {
        let rd = self.destination()?;
        if rd.number() == 0 { None } else { Some(rd) }
    }

    /// Whether the instruction has `rd`, is no fence, and names the register of this number there.
    /// Unlike in `writes`, x0 counts as others do.
    pub fn writes_register(&self, number: u8) -> bool
        ensures { result ≡ writes_register number self.now }
    {
        match self.destination() {
            Some(rd) => rd.number() == number,
            None => false,
        }
    }
}
