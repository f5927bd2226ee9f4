//! Reading a word as an instruction.
ghost use Rattle.std.specs.Prelude.{◌≡◌, IfSome, IfNone};
ghost use Rattle.rv_word.specs.declared.instr.Instr.{Instr};
ghost use Rattle.rv_word.specs.private.{word_of, Fits, SpellsNone};
ghost use Rattle.rv_word.specs.Spelling.{IsWordOf};

use crate::instr::{Cond, ImmOp, Instr, LoadKind, RegOp, StoreWidth};
use crate::opcode;
use crate::reg::Reg;
use crate::word_fields::WordFields;

/// The instruction that the word spells; `None` where it spells none.
pub fn decode32(word: u32) -> Option<Instr>
    ensures found { IfSome result (IsWordOf word) }
    ensures only { (i : Instr) → IsWordOf word i → result ≡ Some i }
{
    WordFields::from_word(word).to_instr()
}

// Below `to_instr` there is one function for each opcode.
#[tactic(auto, unfolding(crate::specs::Spelling::spelling, crate::specs::Spelling::InRange))]
impl WordFields {
    /// The instruction that the fields spell; none where they spell none.
    fn to_instr(self) -> Option<Instr>
        requires { Fits self }
        ensures found { IfSome result (IsWordOf (word_of self)) }
        ensures none { IfNone result (SpellsNone (word_of self)) }
    {
        match self.opcode {
            opcode::LOAD => self.load(),
            opcode::MISC_MEM => self.fence(),
            opcode::OP_IMM => self.op_imm(),
            opcode::AUIPC => Some(self.auipc()),
            opcode::STORE => self.store(),
            opcode::OP => self.op(),
            opcode::LUI => Some(self.lui()),
            opcode::BRANCH => self.branch(),
            opcode::JALR => self.jalr(),
            opcode::JAL => Some(self.jal()),
            opcode::SYSTEM => self.system(),
            _ => None,
        }
    }

    /// The load with these fields; none where funct3 is that of no load.
    pub(crate) fn load(self) -> Option<Instr>
        requires fits { Fits self }
        requires opcode { self.opcode ≡ 0b0000011 }
        ensures found { IfSome result (IsWordOf (word_of self)) }
        ensures none { IfNone result (SpellsNone (word_of self)) }
    {
        Some(Instr::Load {
            kind: LoadKind::from_funct3(self.funct3)?,
            rd: Reg::of_field(self.rd),
            rs1: Reg::of_field(self.rs1),
            imm: self.i_imm(),
        })
    }

    /// The fence with these fields; none where funct3 isn't 0.
    pub(crate) fn fence(self) -> Option<Instr>
        requires fits { Fits self }
        requires opcode { self.opcode ≡ 0b0001111 }
        ensures found { IfSome result (IsWordOf (word_of self)) }
        ensures none { IfNone result (SpellsNone (word_of self)) }
    {
        if self.funct3 != 0b000 {
            return None;
        }
        Some(Instr::Fence {
            imm: self.i_bits(),
            rd: Reg::of_field(self.rd),
            rs1: Reg::of_field(self.rs1),
        })
    }

    /// The instruction on a register and a constant with these fields; none for a shift with a wrong funct7.
    pub(crate) fn op_imm(self) -> Option<Instr>
        requires fits { Fits self }
        requires opcode { self.opcode ≡ 0b0010011 }
        ensures found { IfSome result (IsWordOf (word_of self)) }
        ensures none { IfNone result (SpellsNone (word_of self)) }
    {
        if let Some(op) = ImmOp::from_funct3(self.funct3) {
            return Some(Instr::OpImm {
                op,
                rd: Reg::of_field(self.rd),
                rs1: Reg::of_field(self.rs1),
                imm: self.i_imm(),
            });
        }
        Some(Instr::OpImm {
            op: ImmOp::shift_of(self.funct7, self.funct3)?,
            rd: Reg::of_field(self.rd),
            rs1: Reg::of_field(self.rs1),
            imm: self.rs2 as i32,
        })
    }

    /// The store with these fields; none where funct3 is that of no store.
    pub(crate) fn store(self) -> Option<Instr>
        requires fits { Fits self }
        requires opcode { self.opcode ≡ 0b0100011 }
        ensures found { IfSome result (IsWordOf (word_of self)) }
        ensures none { IfNone result (SpellsNone (word_of self)) }
    {
        Some(Instr::Store {
            width: StoreWidth::from_funct3(self.funct3)?,
            rs1: Reg::of_field(self.rs1),
            rs2: Reg::of_field(self.rs2),
            imm: self.s_imm(),
        })
    }

    /// The instruction on two registers with these fields; none where no instruction has both functs.
    pub(crate) fn op(self) -> Option<Instr>
        requires fits { Fits self }
        requires opcode { self.opcode ≡ 0b0110011 }
        ensures found { IfSome result (IsWordOf (word_of self)) }
        ensures none { IfNone result (SpellsNone (word_of self)) }
    {
        Some(Instr::Op {
            op: RegOp::from_functs(self.funct7, self.funct3)?,
            rd: Reg::of_field(self.rd),
            rs1: Reg::of_field(self.rs1),
            rs2: Reg::of_field(self.rs2),
        })
    }

    /// The branch with these fields; none where funct3 is that of no branch.
    pub(crate) fn branch(self) -> Option<Instr>
        requires fits { Fits self }
        requires opcode { self.opcode ≡ 0b1100011 }
        ensures found { IfSome result (IsWordOf (word_of self)) }
        ensures none { IfNone result (SpellsNone (word_of self)) }
    {
        Some(Instr::Branch {
            cond: Cond::from_funct3(self.funct3)?,
            rs1: Reg::of_field(self.rs1),
            rs2: Reg::of_field(self.rs2),
            offset: self.b_offset(),
        })
    }

    /// The `jalr` with these fields; none where funct3 isn't 0.
    pub(crate) fn jalr(self) -> Option<Instr>
        requires fits { Fits self }
        requires opcode { self.opcode ≡ 0b1100111 }
        ensures found { IfSome result (IsWordOf (word_of self)) }
        ensures none { IfNone result (SpellsNone (word_of self)) }
    {
        if self.funct3 != 0b000 {
            return None;
        }
        Some(Instr::Jalr {
            rd: Reg::of_field(self.rd),
            rs1: Reg::of_field(self.rs1),
            imm: self.i_imm(),
        })
    }

    /// `ecall` or `ebreak`, if the fields are those of one.
    pub(crate) fn system(self) -> Option<Instr>
        requires fits { Fits self }
        requires opcode { self.opcode ≡ 0b1110011 }
        ensures found { IfSome result (IsWordOf (word_of self)) }
        ensures none { IfNone result (SpellsNone (word_of self)) }
    {
        // Both words have nothing but the opcode and rs2's bits.
        let zeros = self.funct7 == 0 && self.rs1 == 0 && self.funct3 == 0 && self.rd == 0;
        if zeros && self.rs2 == 0 {
            Some(Instr::Ecall)
        } else if zeros && self.rs2 == 1 {
            Some(Instr::Ebreak)
        } else {
            None
        }
    }

    /// The `auipc` with these fields.
    pub(crate) fn auipc(self) -> Instr
        requires fits { Fits self }
        requires opcode { self.opcode ≡ 0b0010111 }
        ensures { IsWordOf (word_of self) result }
    {
        Instr::Auipc {
            rd: Reg::of_field(self.rd),
            imm: self.upper_bits(),
        }
    }

    /// The `lui` with these fields.
    pub(crate) fn lui(self) -> Instr
        requires fits { Fits self }
        requires opcode { self.opcode ≡ 0b0110111 }
        ensures { IsWordOf (word_of self) result }
    {
        Instr::Lui {
            rd: Reg::of_field(self.rd),
            imm: self.upper_bits(),
        }
    }

    /// The `jal` with these fields.
    pub(crate) fn jal(self) -> Instr
        requires fits { Fits self }
        requires opcode { self.opcode ≡ 0b1101111 }
        ensures { IsWordOf (word_of self) result }
    {
        Instr::Jal {
            rd: Reg::of_field(self.rd),
            offset: self.j_offset(),
        }
    }
}
