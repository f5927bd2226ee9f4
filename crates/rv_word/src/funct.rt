//! funct3 and funct7, the fields by which the instructions of one opcode differ.
ghost use Rattle.std.specs.Prelude.{◌≡◌, ◌<◌, IfSome, IfNone, ◌≢◌, true, false};
ghost use Rattle.rv_word.specs.declared.instr.RegOp.{RegOp};
ghost use Rattle.rv_word.specs.declared.instr.ImmOp.{ImmOp};
ghost use Rattle.rv_word.specs.declared.instr.LoadKind.{LoadKind};
ghost use Rattle.rv_word.specs.declared.instr.StoreWidth.{StoreWidth};
ghost use Rattle.rv_word.specs.declared.instr.Cond.{Cond};
ghost use Rattle.rv_word.specs.Spelling.{op_funct3, op_funct7, imm_funct3, is_shift, shift_funct7, load_funct3, store_funct3, cond_funct3};

use crate::instr::{Cond, ImmOp, LoadKind, RegOp, StoreWidth};

impl RegOp {
    /// The operation's funct3.
    pub(crate) fn funct3(self) -> u32
        ensures value { result ≡ op_funct3 self }
        ensures small { result < 8 }
    {
        match self {
            RegOp::Add | RegOp::Sub | RegOp::Mul => 0b000,
            RegOp::Sll | RegOp::Mulh => 0b001,
            RegOp::Slt | RegOp::Mulhsu => 0b010,
            RegOp::Sltu | RegOp::Mulhu => 0b011,
            RegOp::Xor | RegOp::Div => 0b100,
            RegOp::Srl | RegOp::Sra | RegOp::Divu => 0b101,
            RegOp::Or | RegOp::Rem => 0b110,
            RegOp::And | RegOp::Remu => 0b111,
        }
    }

    /// The operation's funct7.
    pub(crate) fn funct7(self) -> u32
        ensures value { result ≡ op_funct7 self }
        ensures small { result < 128 }
    {
        match self {
            RegOp::Sub | RegOp::Sra => 0b0100000,
            RegOp::Mul
            | RegOp::Mulh
            | RegOp::Mulhsu
            | RegOp::Mulhu
            | RegOp::Div
            | RegOp::Divu
            | RegOp::Rem
            | RegOp::Remu => 0b0000001,
            _ => 0b0000000,
        }
    }

    /// The computation with these functs; `None` where none has both.
    pub(crate) fn from_functs(funct7: u32, funct3: u32) -> Option<Self>
        ensures found { IfSome result (λ op. (op_funct7 op ≡ funct7) × (op_funct3 op ≡ funct3)) }
        ensures none { IfNone result ((op : RegOp) →
            op_funct7 op ≡ funct7 → op_funct3 op ≢ funct3) }
    {
        match (funct7, funct3) {
            (0b0000000, 0b000) => Some(RegOp::Add),
            (0b0100000, 0b000) => Some(RegOp::Sub),
            (0b0000000, 0b001) => Some(RegOp::Sll),
            (0b0000000, 0b010) => Some(RegOp::Slt),
            (0b0000000, 0b011) => Some(RegOp::Sltu),
            (0b0000000, 0b100) => Some(RegOp::Xor),
            (0b0000000, 0b101) => Some(RegOp::Srl),
            (0b0100000, 0b101) => Some(RegOp::Sra),
            (0b0000000, 0b110) => Some(RegOp::Or),
            (0b0000000, 0b111) => Some(RegOp::And),
            (0b0000001, 0b000) => Some(RegOp::Mul),
            (0b0000001, 0b001) => Some(RegOp::Mulh),
            (0b0000001, 0b010) => Some(RegOp::Mulhsu),
            (0b0000001, 0b011) => Some(RegOp::Mulhu),
            (0b0000001, 0b100) => Some(RegOp::Div),
            (0b0000001, 0b101) => Some(RegOp::Divu),
            (0b0000001, 0b110) => Some(RegOp::Rem),
            (0b0000001, 0b111) => Some(RegOp::Remu),
            _ => None,
        }
    }
}

impl ImmOp {
    /// The operation's funct3.
    pub(crate) fn funct3(self) -> u32
        ensures value { result ≡ imm_funct3 self }
        ensures small { result < 8 }
    {
        match self {
            ImmOp::Addi => 0b000,
            ImmOp::Slti => 0b010,
            ImmOp::Sltiu => 0b011,
            ImmOp::Xori => 0b100,
            ImmOp::Ori => 0b110,
            ImmOp::Andi => 0b111,
            ImmOp::Slli => 0b001,
            ImmOp::Srli | ImmOp::Srai => 0b101,
        }
    }

    /// funct7 of a shift; `None` of any other operation.
    pub(crate) fn shift_funct7(self) -> Option<u32>
        ensures shift { IfSome result (λ funct7.
            (is_shift self ≡ true) × (funct7 ≡ shift_funct7 self)) }
        ensures small { IfSome result (λ funct7. funct7 < 128) }
        ensures other { IfNone result (is_shift self ≡ false) }
    {
        match self {
            ImmOp::Slli | ImmOp::Srli => Some(0b0000000),
            ImmOp::Srai => Some(0b0100000),
            _ => None,
        }
    }

    /// The operation with this funct3 that isn't a shift; `None` where only shifts have it.
    pub(crate) fn from_funct3(funct3: u32) -> Option<Self>
        ensures found { IfSome result (λ op. (is_shift op ≡ false) × (imm_funct3 op ≡ funct3)) }
        ensures none { IfNone result ((op : ImmOp) → is_shift op ≡ false → imm_funct3 op ≢ funct3) }
    {
        match funct3 {
            0b000 => Some(ImmOp::Addi),
            0b010 => Some(ImmOp::Slti),
            0b011 => Some(ImmOp::Sltiu),
            0b100 => Some(ImmOp::Xori),
            0b110 => Some(ImmOp::Ori),
            0b111 => Some(ImmOp::Andi),
            _ => None,
        }
    }

    /// The shift by an immediate with these functs; `None` where none has both.
    pub(crate) fn shift_of(funct7: u32, funct3: u32) -> Option<Self>
        ensures found { IfSome result (λ op.
            (is_shift op ≡ true) × (shift_funct7 op ≡ funct7) × (imm_funct3 op ≡ funct3)) }
        ensures none { IfNone result ((op : ImmOp) →
            is_shift op ≡ true → shift_funct7 op ≡ funct7 → imm_funct3 op ≢ funct3) }
    {
        match (funct7, funct3) {
            (0b0000000, 0b001) => Some(ImmOp::Slli),
            (0b0000000, 0b101) => Some(ImmOp::Srli),
            (0b0100000, 0b101) => Some(ImmOp::Srai),
            _ => None,
        }
    }
}

impl LoadKind {
    /// The load's funct3.
    pub(crate) fn funct3(self) -> u32
        ensures value { result ≡ load_funct3 self }
        ensures small { result < 8 }
    {
        match self {
            LoadKind::Lb => 0b000,
            LoadKind::Lh => 0b001,
            LoadKind::Lw => 0b010,
            LoadKind::Lbu => 0b100,
            LoadKind::Lhu => 0b101,
        }
    }

    /// The load with this funct3, if any.
    pub(crate) fn from_funct3(funct3: u32) -> Option<Self>
        ensures found { IfSome result (λ kind. load_funct3 kind ≡ funct3) }
        ensures none { IfNone result ((kind : LoadKind) → load_funct3 kind ≢ funct3) }
    {
        match funct3 {
            0b000 => Some(LoadKind::Lb),
            0b001 => Some(LoadKind::Lh),
            0b010 => Some(LoadKind::Lw),
            0b100 => Some(LoadKind::Lbu),
            0b101 => Some(LoadKind::Lhu),
            _ => None,
        }
    }
}

impl StoreWidth {
    /// The store's funct3.
    pub(crate) fn funct3(self) -> u32
        ensures value { result ≡ store_funct3 self }
        ensures small { result < 8 }
    {
        match self {
            StoreWidth::Sb => 0b000,
            StoreWidth::Sh => 0b001,
            StoreWidth::Sw => 0b010,
        }
    }

    /// The store with this funct3, if any.
    pub(crate) fn from_funct3(funct3: u32) -> Option<Self>
        ensures found { IfSome result (λ width. store_funct3 width ≡ funct3) }
        ensures none { IfNone result ((width : StoreWidth) → store_funct3 width ≢ funct3) }
    {
        match funct3 {
            0b000 => Some(StoreWidth::Sb),
            0b001 => Some(StoreWidth::Sh),
            0b010 => Some(StoreWidth::Sw),
            _ => None,
        }
    }
}

impl Cond {
    /// The branch's funct3.
    pub(crate) fn funct3(self) -> u32
        ensures value { result ≡ cond_funct3 self }
        ensures small { result < 8 }
    {
        match self {
            Cond::Beq => 0b000,
            Cond::Bne => 0b001,
            Cond::Blt => 0b100,
            Cond::Bge => 0b101,
            Cond::Bltu => 0b110,
            Cond::Bgeu => 0b111,
        }
    }

    /// The branch with this funct3, if any.
    pub(crate) fn from_funct3(funct3: u32) -> Option<Self>
        ensures found { IfSome result (λ cond. cond_funct3 cond ≡ funct3) }
        ensures none { IfNone result ((cond : Cond) → cond_funct3 cond ≢ funct3) }
    {
        match funct3 {
            0b000 => Some(Cond::Beq),
            0b001 => Some(Cond::Bne),
            0b100 => Some(Cond::Blt),
            0b101 => Some(Cond::Bge),
            0b110 => Some(Cond::Bltu),
            0b111 => Some(Cond::Bgeu),
            _ => None,
        }
    }
}
