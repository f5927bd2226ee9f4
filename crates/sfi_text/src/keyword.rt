//! The first words of statements: directives, pseudo-instructions and the names of instructions.
ghost use Rattle.std.specs.Prelude.{◌≡◌, ◌<◌, IfSome, IfNone};
ghost use Rattle.sfi_text.specs.Keywords.{directive_name, directive_form, pseudo_name, pseudo_form, data_name, data_kind, keyword_name, position_of_keyword, is_added, makes_gate};
ghost use Rattle.sfi_text.specs.private.Reading.{hash, candidate, mnemonic_in};
ghost use Rattle.sfi_text.specs.Operands.{name_of};

use crate::form::{NumberKind, OperandPart};
use crate::mnemonic::Mnemonic;
use crate::statement::Position;
use rv_word::{Cond, ImmOp, LoadKind, RegOp, StoreWidth};

/// A directive, but for those of lists of data.
#[derive(Clone, Copy)]
pub enum Directive {
    Format,
    Sandbox,
    Gate,
    Option,
    Data,
    Zero,
    Export,
    Import,
    Movable,
}

/// A pseudo-instruction.
#[derive(Clone, Copy)]
pub enum Pseudo {
    Nop,
    Ret,
    Li,
    Mv,
    Jr,
    J,
    Call,
    Beqz,
    Bnez,
    La,
}

/// The numbers of a list of data: 4, 2 or 1 bytes each, the lowest first.
#[derive(Clone, Copy)]
pub enum DataWidth {
    Word,
    Half,
    Byte,
}

/// The first word of a statement.
#[derive(Clone, Copy)]
pub enum Keyword {
    Instr(Mnemonic),
    Pseudo(Pseudo),
    Directive(Directive),
    Numbers(DataWidth),
}

impl Directive {
    /// The name as source writes it.
    fn name(self) -> &'static str
        ensures { result.now ≡ directive_name self }
    {
        match self {
            Directive::Format => ".format",
            Directive::Sandbox => ".sandbox",
            Directive::Gate => ".gate",
            Directive::Option => ".option",
            Directive::Data => ".data",
            Directive::Zero => ".zero",
            Directive::Export => ".export",
            Directive::Import => ".import",
            Directive::Movable => ".movable",
        }
    }

    /// The operands that stand after the name.
    pub(crate) fn form(self) -> &'static [OperandPart]
        ensures { result.now ≡ directive_form self }
    {
        match self {
            Directive::Format => &[OperandPart::ImageFormat],
            Directive::Sandbox => &[OperandPart::Number(NumberKind::DataSize)],
            Directive::Gate | Directive::Import => {
                &[OperandPart::Name, OperandPart::Number(NumberKind::Service)]
            }
            Directive::Export => &[OperandPart::Name],
            Directive::Option => &[OperandPart::Mode],
            Directive::Data | Directive::Movable => &[],
            Directive::Zero => &[OperandPart::Number(NumberKind::ZeroCount)],
        }
    }
}

impl Pseudo {
    /// The name as source writes it.
    fn name(self) -> &'static str
        ensures { result.now ≡ pseudo_name self }
    {
        match self {
            Pseudo::Nop => "nop",
            Pseudo::Ret => "ret",
            Pseudo::Li => "li",
            Pseudo::Mv => "mv",
            Pseudo::Jr => "jr",
            Pseudo::J => "j",
            Pseudo::Call => "call",
            Pseudo::Beqz => "beqz",
            Pseudo::Bnez => "bnez",
            Pseudo::La => "la",
        }
    }

    /// The operands that stand after the name, and the marks between them.
    pub(crate) fn form(self) -> &'static [OperandPart]
        ensures { result.now ≡ pseudo_form self }
    {
        match self {
            Pseudo::Nop | Pseudo::Ret => &[],
            Pseudo::Li => &[
                OperandPart::Rd,
                OperandPart::Comma,
                OperandPart::Number(NumberKind::Word),
            ],
            Pseudo::Mv => &[OperandPart::Rd, OperandPart::Comma, OperandPart::Rs1],
            Pseudo::Jr => &[OperandPart::Rs1],
            Pseudo::J | Pseudo::Call => &[OperandPart::Name],
            Pseudo::Beqz | Pseudo::Bnez => &[
                OperandPart::Rs1,
                OperandPart::Comma,
                OperandPart::Name,
            ],
            Pseudo::La => &[OperandPart::Rd, OperandPart::Comma, OperandPart::Name],
        }
    }
}

impl DataWidth {
    /// The name as source writes it.
    fn name(self) -> &'static str
        ensures { result.now ≡ data_name self }
    {
        match self {
            DataWidth::Word => ".word",
            DataWidth::Half => ".half",
            DataWidth::Byte => ".byte",
        }
    }

    /// Which numbers may stand in the list.
    pub(crate) fn kind(self) -> NumberKind
        ensures { result ≡ data_kind self }
    {
        match self {
            DataWidth::Word => NumberKind::Word,
            DataWidth::Half => NumberKind::Half,
            DataWidth::Byte => NumberKind::Byte,
        }
    }
}

/// Every keyword. A place in it is an element of `PLACES`.
const ALL: &[Keyword; 70] = &[
    Keyword::Instr(Mnemonic::Op(RegOp::Add)),
    Keyword::Instr(Mnemonic::Op(RegOp::Sub)),
    Keyword::Instr(Mnemonic::Op(RegOp::Sll)),
    Keyword::Instr(Mnemonic::Op(RegOp::Slt)),
    Keyword::Instr(Mnemonic::Op(RegOp::Sltu)),
    Keyword::Instr(Mnemonic::Op(RegOp::Xor)),
    Keyword::Instr(Mnemonic::Op(RegOp::Srl)),
    Keyword::Instr(Mnemonic::Op(RegOp::Sra)),
    Keyword::Instr(Mnemonic::Op(RegOp::Or)),
    Keyword::Instr(Mnemonic::Op(RegOp::And)),
    Keyword::Instr(Mnemonic::Op(RegOp::Mul)),
    Keyword::Instr(Mnemonic::Op(RegOp::Mulh)),
    Keyword::Instr(Mnemonic::Op(RegOp::Mulhsu)),
    Keyword::Instr(Mnemonic::Op(RegOp::Mulhu)),
    Keyword::Instr(Mnemonic::Op(RegOp::Div)),
    Keyword::Instr(Mnemonic::Op(RegOp::Divu)),
    Keyword::Instr(Mnemonic::Op(RegOp::Rem)),
    Keyword::Instr(Mnemonic::Op(RegOp::Remu)),
    Keyword::Instr(Mnemonic::OpImm(ImmOp::Addi)),
    Keyword::Instr(Mnemonic::OpImm(ImmOp::Slti)),
    Keyword::Instr(Mnemonic::OpImm(ImmOp::Sltiu)),
    Keyword::Instr(Mnemonic::OpImm(ImmOp::Xori)),
    Keyword::Instr(Mnemonic::OpImm(ImmOp::Ori)),
    Keyword::Instr(Mnemonic::OpImm(ImmOp::Andi)),
    Keyword::Instr(Mnemonic::OpImm(ImmOp::Slli)),
    Keyword::Instr(Mnemonic::OpImm(ImmOp::Srli)),
    Keyword::Instr(Mnemonic::OpImm(ImmOp::Srai)),
    Keyword::Instr(Mnemonic::Load(LoadKind::Lb)),
    Keyword::Instr(Mnemonic::Load(LoadKind::Lh)),
    Keyword::Instr(Mnemonic::Load(LoadKind::Lw)),
    Keyword::Instr(Mnemonic::Load(LoadKind::Lbu)),
    Keyword::Instr(Mnemonic::Load(LoadKind::Lhu)),
    Keyword::Instr(Mnemonic::Store(StoreWidth::Sb)),
    Keyword::Instr(Mnemonic::Store(StoreWidth::Sh)),
    Keyword::Instr(Mnemonic::Store(StoreWidth::Sw)),
    Keyword::Instr(Mnemonic::Branch(Cond::Beq)),
    Keyword::Instr(Mnemonic::Branch(Cond::Bne)),
    Keyword::Instr(Mnemonic::Branch(Cond::Blt)),
    Keyword::Instr(Mnemonic::Branch(Cond::Bge)),
    Keyword::Instr(Mnemonic::Branch(Cond::Bltu)),
    Keyword::Instr(Mnemonic::Branch(Cond::Bgeu)),
    Keyword::Instr(Mnemonic::Jal),
    Keyword::Instr(Mnemonic::Jalr),
    Keyword::Instr(Mnemonic::Lui),
    Keyword::Instr(Mnemonic::Auipc),
    Keyword::Instr(Mnemonic::Fence),
    Keyword::Instr(Mnemonic::Ecall),
    Keyword::Instr(Mnemonic::Ebreak),
    Keyword::Pseudo(Pseudo::Nop),
    Keyword::Pseudo(Pseudo::Ret),
    Keyword::Pseudo(Pseudo::Li),
    Keyword::Pseudo(Pseudo::Mv),
    Keyword::Pseudo(Pseudo::Jr),
    Keyword::Pseudo(Pseudo::J),
    Keyword::Pseudo(Pseudo::Call),
    Keyword::Pseudo(Pseudo::Beqz),
    Keyword::Pseudo(Pseudo::Bnez),
    Keyword::Pseudo(Pseudo::La),
    Keyword::Directive(Directive::Format),
    Keyword::Directive(Directive::Sandbox),
    Keyword::Directive(Directive::Gate),
    Keyword::Directive(Directive::Option),
    Keyword::Directive(Directive::Data),
    Keyword::Directive(Directive::Zero),
    Keyword::Numbers(DataWidth::Word),
    Keyword::Numbers(DataWidth::Half),
    Keyword::Numbers(DataWidth::Byte),
    Keyword::Directive(Directive::Export),
    Keyword::Directive(Directive::Import),
    Keyword::Directive(Directive::Movable),
];

/// By the hash of a name, the place in [`ALL`] of the keyword that alone can have the name; 0 for a
/// hash that no keyword has.
const PLACES: &[u8; 256] = &[
    0, 0, 0, 0, 0, 28, 50, 0, 0, 69, 0, 0, 0, 0, 30, 64, 0, 0, 0, 0, 29, 63, 42, 24, 0, 0, 0, 10,
    58, 0, 0, 0, 0, 0, 2, 0, 0, 0, 48, 21, 0, 0, 3, 0, 0, 55, 0, 12, 0, 0, 59, 0, 0, 0, 40, 0, 13,
    0, 0, 0, 0, 0, 20, 0, 60, 52, 0, 0, 8, 11, 0, 0, 0, 67, 0, 0, 0, 0, 0, 19, 26, 0, 56, 0, 0, 0,
    0, 0, 14, 53, 0, 4, 0, 0, 0, 0, 0, 0, 0, 23, 0, 0, 0, 0, 36, 0, 0, 0, 0, 0, 0, 0, 45, 0, 0, 47,
    39, 0, 0, 0, 31, 0, 51, 0, 0, 0, 0, 44, 65, 7, 61, 0, 0, 66, 0, 0, 0, 0, 46, 0, 6, 0, 0, 0, 0,
    0, 5, 0, 0, 0, 0, 38, 0, 0, 0, 0, 0, 0, 0, 0, 0, 0, 0, 0, 0, 0, 0, 43, 0, 37, 0, 0, 0, 0, 0, 0,
    0, 0, 0, 0, 0, 0, 0, 1, 0, 0, 68, 0, 41, 25, 0, 0, 0, 0, 0, 0, 0, 22, 0, 0, 0, 0, 0, 0, 0, 0,
    0, 54, 32, 0, 0, 0, 0, 35, 33, 62, 0, 0, 0, 0, 0, 15, 0, 0, 0, 16, 0, 0, 0, 34, 0, 0, 49, 0, 0,
    0, 0, 0, 0, 0, 0, 0, 0, 0, 0, 0, 9, 0, 0, 18, 0, 0, 17, 0, 57, 27,
];

/// The hash of a name, by which a table gives the only keyword or register that can have it. It
/// begins as `seed`, and each byte makes it `factor` times itself plus the byte, modulo 256.
#[tactic(auto, using(std::proofs::lemmas::List::Sums::fold_more), unfolding(crate::specs::private::Reading::hash))]
pub(crate) fn hash(seed: usize, factor: usize, name: &str) -> usize
    requires seed { seed < 256 }
    requires factor { factor < 256 }
    ensures value { result ≡ hash seed factor name.now }
    ensures small { result < 256 }
{
    let mut hash = seed;
    for byte in name.as_bytes() {
        hash = (hash * factor + usize::from(*byte)) % 256;
    }
    hash
}

/// The keyword that alone can have this name. The two numbers were found by trial: by them no two
/// keywords have one hash. For a new keyword `PLACES` has to be made anew, perhaps with other
/// numbers, which are in specs/private/Reading, too.
fn candidate(name: &str) -> Keyword
    ensures { result ≡ candidate name.now }
{
    ALL[PLACES[hash(57, 103, name)] as usize]
}

impl Keyword {
    /// The name as source writes it, in lower case.
    pub(crate) fn name(self) -> &'static str
        ensures { result.now ≡ keyword_name self }
    {
        match self {
            Keyword::Instr(name) => name.name(),
            Keyword::Pseudo(name) => name.name(),
            Keyword::Directive(name) => name.name(),
            Keyword::Numbers(width) => width.name(),
        }
    }

    /// The keyword of this name; `None` for any other text.
    pub(crate) fn from_name(name: &str) -> Option<Keyword>
        ensures some { IfSome result (λ k. keyword_name k ≡ name.now) }
        ensures none { IfNone result ((k : Keyword) → keyword_name k ≡ name.now → ⊥) }
    {
        let keyword = candidate(name);
        if keyword.name() == name {
            Some(keyword)
        } else {
            None
        }
    }

    /// The mnemonic, where the keyword is an instruction's; `None` for any other.
    fn mnemonic(self) -> Option<Mnemonic>
        ensures { result ≡ mnemonic_in self }
    {
        match self {
            Keyword::Instr(mnemonic) => Some(mnemonic),
            Keyword::Pseudo(_) | Keyword::Directive(_) | Keyword::Numbers(_) => None,
        }
    }

    /// Where a statement of this name may come.
    pub(crate) fn position(self) -> Position
        ensures { result ≡ position_of_keyword self }
    {
        match self {
            Keyword::Instr(_) | Keyword::Pseudo(_) => Position::Code,
            Keyword::Numbers(_) => Position::Data,
            Keyword::Directive(Directive::Format) => Position::Head,
            Keyword::Directive(Directive::Sandbox) => Position::Outside,
            Keyword::Directive(
                Directive::Gate | Directive::Export | Directive::Import | Directive::Movable,
            ) => Position::Gates,
            Keyword::Directive(Directive::Option | Directive::Data) => Position::Code,
            Keyword::Directive(Directive::Zero) => Position::Data,
        }
    }
}

impl Keyword {
    /// Whether sources of the first format lack it: to them it is no keyword.
    pub(crate) fn is_added(self) -> bool
        ensures { result ≡ is_added self }
    {
        matches!(
            self,
            Keyword::Directive(Directive::Export | Directive::Import | Directive::Movable)
        )
    }

    /// Whether the statement adds a gate, whose name stands after the keyword.
    pub(crate) fn makes_gate(self) -> bool
        ensures { result ≡ makes_gate self }
    {
        matches!(
            self,
            Keyword::Directive(Directive::Gate | Directive::Import)
        )
    }
}

impl Mnemonic {
    /// The mnemonic of this name; `None` for any other text, a pseudo-instruction's name too.
    pub(crate) fn from_name(name: &str) -> Option<Mnemonic>
        ensures some { IfSome result (λ m. name_of m ≡ name.now) }
        ensures none { IfNone result ((m : Mnemonic) → name_of m ≡ name.now → ⊥) }
    {
        match Keyword::from_name(name) {
            Some(keyword) => keyword.mnemonic(),
            None => None,
        }
    }
}
