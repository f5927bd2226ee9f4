//! Prefixes, opcode, ModRM, SIB, displacement, and the numbers behind them. Each `put_` function appends
//! to `out`; its one error is that an allocation was refused.
ghost use Rattle.std.specs.Prelude.{◌≡◌, ◌<◌, ◌+◌, ◌%◌, ◌++◌, ◌∷◌, [], OnOk};
ghost use Rattle.x86_instr.specs.declared.operand.Operand.TheVariants.{Mem};
ghost use Rattle.x86_instr.specs.Spelling.{coded, coded_0f, coded_byte, coded_byte_0f, coded_register, dword_bytes, memory, modrm, number, operands, rex, rex_bits, rex_xb, sib};

use crate::fields::{is_byte, width_bit};
use crate::instr::Width;
use crate::operand::{Address, Operand, Register};
use std::alloc::AllocError;

pub(crate) fn put_byte(out: &mut Vec<u8>, byte: u8) -> Result<(), AllocError>
    ensures { OnOk result (out.new.items ≡ out.old.items ++ byte ∷ []) }
{
    out.push(byte)?;
    Ok(())
}

pub(crate) fn put_pair(out: &mut Vec<u8>, first: u8, second: u8) -> Result<(), AllocError>
    ensures { OnOk result (out.new.items ≡ out.old.items ++ first ∷ second ∷ []) }
{
    put_byte(out, first)?;
    put_byte(out, second)
}

/// Appends the four bytes of a number, the lowest first.
pub(crate) fn put_dword(out: &mut Vec<u8>, n: u32) -> Result<(), AllocError>
    ensures { OnOk result (out.new.items ≡ out.old.items ++ dword_bytes n) }
{
    put_pair(out, (n % 256) as u8, (n / 256 % 256) as u8)?;
    put_pair(out, (n / 65536 % 256) as u8, (n / 16_777_216) as u8)
}

/// The byte ModRM: mod (`mode`), and of reg and r/m (`rm`) the low three bits; REX has their fourth.
fn modrm_of(mode: u8, reg: u8, rm: u8) -> u8
    requires { mode < 4 }
    ensures { result ≡ modrm mode reg rm }
{
    mode * 64 + reg % 8 * 8 + rm % 8
}

/// The byte SIB of an address: its scale, and of index and base the low three bits; REX has their
/// fourth.
fn sib_of(address: Address) -> u8
    ensures { result ≡ sib address }
{
    address.scale.number() * 64 + address.index.number() % 8 * 8 + address.base.number() % 8
}

/// Appends ModRM, with r/m 4 (SIB follows), SIB, and the displacement in as few bytes as hold it: none
/// where it is 0 (unless the base is rbp or r13, which need one), one, or four.
#[tactic(auto, unfolding(crate::specs::Spelling::memory))]
fn put_memory(out: &mut Vec<u8>, reg: u8, address: Address) -> Result<(), AllocError>
    ensures { OnOk result (out.new.items ≡ out.old.items ++ memory reg address) }
{
    let displacement = address.displacement;
    let sib = sib_of(address);
    if displacement == 0 && address.base.number() % 8 != 5 {
        put_pair(out, modrm_of(0, reg, 4), sib)
    } else if is_byte(displacement) {
        put_pair(out, modrm_of(1, reg, 4), sib)?;
        put_byte(out, (displacement % 256) as u8)
    } else {
        put_pair(out, modrm_of(2, reg, 4), sib)?;
        put_dword(out, displacement)
    }
}

/// Appends ModRM, with `reg` in its field reg and `operand` in r/m, and what follows it for memory.
fn put_operands(out: &mut Vec<u8>, reg: u8, operand: Operand) -> Result<(), AllocError>
    ensures { OnOk result (out.new.items ≡ out.old.items ++ operands reg operand) }
{
    match operand {
        Operand::Reg(register) => put_byte(out, modrm_of(3, reg, register.number())),
        Operand::Mem(address) => put_memory(out, reg, address),
    }
}

/// Bits X and B of REX, as a number below 4: the fourth bits of the index and the base, or in B that
/// of a register.
fn xb_of(operand: Operand) -> u8
    ensures value { result ≡ rex_xb operand }
    ensures in_range { result < 4 }
{
    match operand {
        Operand::Reg(register) => register.number() / 8,
        Operand::Mem(address) => { address.index.number() / 8 * 2 + address.base.number() / 8 }
    }
}

/// Bits W, R, X and B of REX, as a number below 16; R is the fourth bit of `reg`.
fn bits_of(width: Width, reg: u8, operand: Operand) -> u8
    requires { reg < 16 }
    ensures value { result ≡ rex_bits width reg operand }
    ensures in_range { result < 16 }
{
    width_bit(width) * 8 + reg / 8 * 4 + xb_of(operand)
}

/// Appends REX with these low four bits; nothing where all are 0, since it isn't needed then.
#[tactic(auto, unfolding(crate::specs::Spelling::rex))]
fn put_rex(out: &mut Vec<u8>, bits: u8) -> Result<(), AllocError>
    requires { bits < 16 }
    ensures { OnOk result (out.new.items ≡ out.old.items ++ rex bits) }
{
    if bits == 0 {
        return Ok(());
    }
    put_byte(out, 64 + bits)
}

/// Appends REX, if it is needed, an opcode of one byte, and the operands. `reg` is a register's
/// number or the digit that belongs to the opcode.
pub(crate) fn put_form(
    out: &mut Vec<u8>,
    width: Width,
    opcode: u8,
    reg: u8,
    operand: Operand,
) -> Result<(), AllocError>
    requires { reg < 16 }
    ensures { OnOk result (out.new.items ≡ out.old.items ++ coded width opcode reg operand) }
{
    put_rex(out, bits_of(width, reg, operand))?;
    put_byte(out, opcode)?;
    put_operands(out, reg, operand)
}

/// As `put_form`, with 0F before the opcode.
pub(crate) fn put_0f_form(
    out: &mut Vec<u8>,
    width: Width,
    opcode: u8,
    reg: u8,
    operand: Operand,
) -> Result<(), AllocError>
    requires { reg < 16 }
    ensures { OnOk result (out.new.items ≡ out.old.items ++ coded_0f width opcode reg operand) }
{
    put_rex(out, bits_of(width, reg, operand))?;
    put_pair(out, 0x0F, opcode)?;
    put_operands(out, reg, operand)
}

/// As `put_form`, with a register of 8 bits. REX is always there, so that numbers 4 to 7 mean spl, bpl,
/// sil and dil, the low bytes, and not ah, ch, dh and bh.
pub(crate) fn put_byte_form(
    out: &mut Vec<u8>,
    opcode: u8,
    reg: u8,
    operand: Operand,
) -> Result<(), AllocError>
    requires { reg < 16 }
    ensures { OnOk result (out.new.items ≡ out.old.items ++ coded_byte opcode reg operand) }
{
    put_pair(out, 64 + bits_of(Width::Dword, reg, operand), opcode)?;
    put_operands(out, reg, operand)
}

/// As `put_byte_form`, with 0F before the opcode.
pub(crate) fn put_byte_0f_form(
    out: &mut Vec<u8>,
    opcode: u8,
    reg: u8,
    operand: Operand,
) -> Result<(), AllocError>
    requires { reg < 16 }
    ensures { OnOk result (out.new.items ≡ out.old.items ++ coded_byte_0f opcode reg operand) }
{
    put_byte(out, 64 + bits_of(Width::Dword, reg, operand))?;
    put_pair(out, 0x0F, opcode)?;
    put_operands(out, reg, operand)
}

/// Appends an opcode to which the low three bits of the register's number are added, after REX if the
/// number has a fourth.
pub(crate) fn put_register_form(
    out: &mut Vec<u8>,
    opcode: u8,
    register: Register,
) -> Result<(), AllocError>
    requires { opcode < 249 }
    ensures { OnOk result (out.new.items ≡ out.old.items ++ coded_register opcode register) }
{
    let number = register.number();
    put_rex(out, number / 8)?;
    put_byte(out, opcode + number % 8)
}
