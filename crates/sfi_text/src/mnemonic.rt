//! The names of the instructions.
ghost use Rattle.std.specs.Prelude.{◌≡◌};
ghost use Rattle.sfi_text.specs.Operands.{name_of, op_name, immediate_name, load_name, store_name, branch_name};

use rv_word::{Cond, ImmOp, LoadKind, RegOp, StoreWidth};

/// An instruction's name.
#[derive(Clone, Copy)]
pub enum Mnemonic {
    Op(RegOp),
    OpImm(ImmOp),
    Load(LoadKind),
    Store(StoreWidth),
    Branch(Cond),
    Jal,
    Jalr,
    Lui,
    Auipc,
    Fence,
    Ecall,
    Ebreak,
}

/// The name of an operation on two registers, in lower case.
pub fn op_name(op: RegOp) -> &'static str
    ensures { result.now ≡ op_name op }
{
    match op {
        RegOp::Add => "add",
        RegOp::Sub => "sub",
        RegOp::Sll => "sll",
        RegOp::Slt => "slt",
        RegOp::Sltu => "sltu",
        RegOp::Xor => "xor",
        RegOp::Srl => "srl",
        RegOp::Sra => "sra",
        RegOp::Or => "or",
        RegOp::And => "and",
        RegOp::Mul => "mul",
        RegOp::Mulh => "mulh",
        RegOp::Mulhsu => "mulhsu",
        RegOp::Mulhu => "mulhu",
        RegOp::Div => "div",
        RegOp::Divu => "divu",
        RegOp::Rem => "rem",
        RegOp::Remu => "remu",
    }
}

/// The name of an operation on a register and a number, in lower case.
pub fn immediate_name(op: ImmOp) -> &'static str
    ensures { result.now ≡ immediate_name op }
{
    match op {
        ImmOp::Addi => "addi",
        ImmOp::Slti => "slti",
        ImmOp::Sltiu => "sltiu",
        ImmOp::Xori => "xori",
        ImmOp::Ori => "ori",
        ImmOp::Andi => "andi",
        ImmOp::Slli => "slli",
        ImmOp::Srli => "srli",
        ImmOp::Srai => "srai",
    }
}

/// The name of a load, in lower case.
pub fn load_name(kind: LoadKind) -> &'static str
    ensures { result.now ≡ load_name kind }
{
    match kind {
        LoadKind::Lb => "lb",
        LoadKind::Lh => "lh",
        LoadKind::Lw => "lw",
        LoadKind::Lbu => "lbu",
        LoadKind::Lhu => "lhu",
    }
}

/// The name of a store, in lower case.
pub fn store_name(width: StoreWidth) -> &'static str
    ensures { result.now ≡ store_name width }
{
    match width {
        StoreWidth::Sb => "sb",
        StoreWidth::Sh => "sh",
        StoreWidth::Sw => "sw",
    }
}

/// The name of a conditional branch, in lower case.
pub fn branch_name(cond: Cond) -> &'static str
    ensures { result.now ≡ branch_name cond }
{
    match cond {
        Cond::Beq => "beq",
        Cond::Bne => "bne",
        Cond::Blt => "blt",
        Cond::Bge => "bge",
        Cond::Bltu => "bltu",
        Cond::Bgeu => "bgeu",
    }
}

impl Mnemonic {
    /// The name as source writes it, in lower case.
    pub(crate) fn name(self) -> &'static str
        ensures { result.now ≡ name_of self }
    {
        match self {
            Mnemonic::Op(op) => op_name(op),
            Mnemonic::OpImm(op) => immediate_name(op),
            Mnemonic::Load(kind) => load_name(kind),
            Mnemonic::Store(width) => store_name(width),
            Mnemonic::Branch(cond) => branch_name(cond),
            Mnemonic::Jal => "jal",
            Mnemonic::Jalr => "jalr",
            Mnemonic::Lui => "lui",
            Mnemonic::Auipc => "auipc",
            Mnemonic::Fence => "fence",
            Mnemonic::Ecall => "ecall",
            Mnemonic::Ebreak => "ebreak",
        }
    }
}
