//! What stands after the name of a statement: its operands and the marks between them.
ghost use Rattle.std.specs.Prelude.{◌≡◌, ◌↔◌, IsTrue};
ghost use Rattle.std.specs.Int.{IsPowerOfTwo};
ghost use Rattle.sfi_text.specs.Operands.{operand_parts, IsNumberOf};
ghost use Rattle.sfi_source.specs.Source.{IsDataSize};

use crate::mnemonic::Mnemonic;
use rv_word::ImmOp;
use sfi_formats::{REGION_LEAST, SERVICE_MOST, SOURCE_DATA_MOST};

/// Which numbers may stand at a place, in bytes where they are offsets.
#[derive(Clone, Copy)]
pub enum NumberKind {
    /// -2048 to 2047.
    Immediate,
    /// 0 to 31.
    ShiftAmount,
    /// Even, -4096 to 4094.
    BranchOffset,
    /// Even, -1048576 to 1048574.
    JumpOffset,
    /// 0 to 1048575, the number of bits 31:12; printed in hexadecimal.
    Upper,
    /// 0 to 4095: the fence mode, predecessors and successors.
    FenceFields,
    /// A power of two of `REGION_LEAST` to `SOURCE_DATA_MOST` of `sfi_formats`:
    /// the bytes of a sandbox's data.
    DataSize,
    /// 0 to `SERVICE_MOST`: a gate's service.
    Service,
    /// -2147483648 to 4294967295: what 32 bits hold, with or without a sign.
    Word,
    /// -32768 to 65535.
    Half,
    /// -128 to 255.
    Byte,
    /// 0 to `SOURCE_DATA_MOST`: how many bytes are 0.
    ZeroCount,
}

/// What may stand at a place of a statement.
#[derive(Clone, Copy)]
pub enum OperandPart {
    Rd,
    Rs1,
    Rs2,
    Number(NumberKind),
    /// A label's or a gate's name.
    Name,
    /// `rvc` or `norvc`.
    Mode,
    /// 1, 2, `words` or `single`: a format of images.
    ImageFormat,
    Comma,
    Open,
    Close,
}

impl Mnemonic {
    /// The operands that stand after the name, and the marks between them, in the text of one
    /// instruction. In a source a branch and `jal` have a name in the number's place: `branch_form`
    /// and `jal_form` of `line.rt`.
    pub(crate) fn form(self) -> &'static [OperandPart]
        ensures { result.now ≡ operand_parts self }
    {
        match self {
            Mnemonic::Op(_) => &[
                OperandPart::Rd,
                OperandPart::Comma,
                OperandPart::Rs1,
                OperandPart::Comma,
                OperandPart::Rs2,
            ],
            Mnemonic::OpImm(ImmOp::Slli | ImmOp::Srli | ImmOp::Srai) => &[
                OperandPart::Rd,
                OperandPart::Comma,
                OperandPart::Rs1,
                OperandPart::Comma,
                OperandPart::Number(NumberKind::ShiftAmount),
            ],
            Mnemonic::OpImm(_) => &[
                OperandPart::Rd,
                OperandPart::Comma,
                OperandPart::Rs1,
                OperandPart::Comma,
                OperandPart::Number(NumberKind::Immediate),
            ],
            Mnemonic::Load(_) | Mnemonic::Jalr => &[
                OperandPart::Rd,
                OperandPart::Comma,
                OperandPart::Number(NumberKind::Immediate),
                OperandPart::Open,
                OperandPart::Rs1,
                OperandPart::Close,
            ],
            Mnemonic::Store(_) => &[
                OperandPart::Rs2,
                OperandPart::Comma,
                OperandPart::Number(NumberKind::Immediate),
                OperandPart::Open,
                OperandPart::Rs1,
                OperandPart::Close,
            ],
            Mnemonic::Branch(_) => &[
                OperandPart::Rs1,
                OperandPart::Comma,
                OperandPart::Rs2,
                OperandPart::Comma,
                OperandPart::Number(NumberKind::BranchOffset),
            ],
            Mnemonic::Jal => &[
                OperandPart::Rd,
                OperandPart::Comma,
                OperandPart::Number(NumberKind::JumpOffset),
            ],
            Mnemonic::Lui | Mnemonic::Auipc => {
                &[
                    OperandPart::Rd,
                    OperandPart::Comma,
                    OperandPart::Number(NumberKind::Upper),
                ]
            }
            Mnemonic::Fence => &[
                OperandPart::Number(NumberKind::FenceFields),
                OperandPart::Comma,
                OperandPart::Rd,
                OperandPart::Comma,
                OperandPart::Rs1,
            ],
            Mnemonic::Ecall | Mnemonic::Ebreak => &[],
        }
    }
}

/// Whether the number is a power of two.
#[tactic(auto, using(crate::proofs::Numbers::power_test))]
fn is_power_of_two(number: u64) -> bool
    ensures { IsTrue result ↔ IsPowerOfTwo number }
{
    number.is_power_of_two()
}

/// Whether a data region may have `number` bytes.
fn is_data_size(number: u64) -> bool
    ensures { IsTrue result ↔ IsDataSize number }
{
    REGION_LEAST as u64 <= number && number <= SOURCE_DATA_MOST as u64 && is_power_of_two(number)
}

/// Whether `number`, which may be negative, is a size of a data region.
fn is_signed_data_size(number: i64) -> bool
    ensures { IsTrue result ↔ IsNumberOf NumberKind.DataSize number }
{
    match u64::try_from(number) {
        Ok(size) => is_data_size(size),
        Err(_) => false,
    }
}

impl NumberKind {
    /// Whether the number is in the range of this kind, which its variant's comment says.
    pub(crate) fn holds(self, number: i64) -> bool
        ensures { IsTrue result ↔ IsNumberOf self number }
    {
        match self {
            NumberKind::Immediate => (-2048..=2047).contains(&number),
            NumberKind::ShiftAmount => (0..=31).contains(&number),
            NumberKind::BranchOffset => (-4096..=4094).contains(&number) && number % 2 == 0,
            NumberKind::JumpOffset => (-1048576..=1048574).contains(&number) && number % 2 == 0,
            NumberKind::Upper => (0..=1048575).contains(&number),
            NumberKind::FenceFields => (0..=4095).contains(&number),
            NumberKind::DataSize => is_signed_data_size(number),
            NumberKind::Service => (0..=SERVICE_MOST as i64).contains(&number),
            NumberKind::Word => (-2147483648..=4294967295).contains(&number),
            NumberKind::Half => (-32768..=65535).contains(&number),
            NumberKind::Byte => (-128..=255).contains(&number),
            NumberKind::ZeroCount => (0..=SOURCE_DATA_MOST as i64).contains(&number),
        }
    }
}
