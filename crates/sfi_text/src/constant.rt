//! The instructions that put a number into a register, and the bytes of a number in data.
ghost use Rattle.std.specs.Prelude.{◌≡◌, ◌++◌, OnOk};
ghost use Rattle.rv_word.specs.Spelling.{modulo};
ghost use Rattle.sfi_text.specs.Operands.{IsNumberOf};
ghost use Rattle.sfi_source.specs.Source.{rounded, upper, lower};
ghost use Rattle.sfi_text.specs.SoFar.{constant, data_bytes};
ghost use Rattle.sfi_text.specs.SoFar.{plain};
ghost use Rattle.sfi_text.specs.private.Lines.{stated_within};

use crate::form::NumberKind;
use crate::keyword::DataWidth;
use crate::operands::x0;
use crate::statement::SandboxStatement;
use rv_word::{ImmOp, Instr, Reg};
use std::alloc::AllocError;

/// The low 32 bits of the number.
fn low_word(number: i64) -> u32
    ensures { result ≡ modulo 32 number }
{
    number.rem_euclid(1 << 32) as u32
}

/// The low 16 bits of the number.
fn low_half(number: i64) -> u16
    ensures { result ≡ modulo 16 number }
{
    number.rem_euclid(1 << 16) as u16
}

/// The low 8 bits of the number.
fn low_byte(number: i64) -> u8
    ensures { result ≡ modulo 8 number }
{
    number.rem_euclid(1 << 8) as u8
}

/// The low 32 bits of the number + 2048. So the lui takes their bits 31:12, and -2048 to 2047 is
/// left for the addi.
fn rounded(number: i64) -> u32
    requires { IsNumberOf NumberKind.Word number }
    ensures { result ≡ rounded number }
{
    low_word(number + 2048)
}

/// The immediate of the lui for the number: bits 31:12 of the number plus 2048.
fn upper_immediate(number: i64) -> u32
    requires { IsNumberOf NumberKind.Word number }
    ensures { result ≡ upper number }
{
    rounded(number) / 4096
}

/// What the addi after that lui adds: -2048 to 2047.
fn lower_immediate(number: i64) -> i32
    requires { IsNumberOf NumberKind.Word number }
    ensures { result ≡ lower number }
{
    (rounded(number) % 4096) as i32 - 2048
}

/// The instructions of `li rd, number`: an addi where its 12 bits hold the number, otherwise a
/// lui, and an addi after it unless it would add 0.
pub(crate) fn constant<'a>(rd: Reg, number: i64) -> SandboxStatement<'a>
    requires { IsNumberOf NumberKind.Word number }
    ensures { stated_within result ≡ plain (constant rd number) }
{
    let op = ImmOp::Addi;
    if -2048 <= number && number <= 2047 {
        let imm = number as i32;
        return SandboxStatement::One(Instr::OpImm {
            op,
            rd,
            rs1: x0(),
            imm,
        });
    }
    let lui = Instr::Lui {
        rd,
        imm: upper_immediate(number),
    };
    let imm = lower_immediate(number);
    if imm == 0 {
        SandboxStatement::One(lui)
    } else {
        SandboxStatement::Two(
            lui,
            Instr::OpImm {
                op,
                rd,
                rs1: rd,
                imm,
            },
        )
    }
}

/// Appends the low 4, 2 or 1 bytes of a number, by `width`, the lowest first.
pub(crate) fn push_number_bytes(
    bytes: &mut Vec<u8>,
    width: DataWidth,
    number: i64,
) -> Result<(), AllocError>
    ensures { OnOk result (bytes.new.items ≡ bytes.old.items ++ data_bytes width number) }
{
    match width {
        DataWidth::Word => bytes.extend_from_slice(&low_word(number).to_le_bytes()),
        DataWidth::Half => bytes.extend_from_slice(&low_half(number).to_le_bytes()),
        DataWidth::Byte => {
            bytes.push(low_byte(number))?;
            Ok(())
        }
    }
}
