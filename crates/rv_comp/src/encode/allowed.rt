//! Which values of its fields each form's row allows, as `allowed` of specs/Table says.
ghost use Rattle.std.specs.Prelude.{◌≡◌, ◌<◌, ◌≤◌};
ghost use Rattle.rv_comp.specs.Table.{allowed, is_reg, is_short_reg, is_unsigned, is_signed};

use crate::form::Form16;
use rv_word::Reg;

/// Whether it is one of x0 to x31. As each register is, this is always true: it is here to say what
/// `allowed` of specs/Table says.
fn is_reg(reg: Reg) -> bool
    ensures { result ≡ is_reg reg }
{
    reg.number() < 32
}

/// Whether it is one of x8 to x15, which three bits can name.
fn is_short(reg: Reg) -> bool
    ensures { result ≡ is_short_reg reg }
{
    8 <= reg.number() && reg.number() < 16
}

/// Whether `imm` is a multiple of `step` that `width` bits hold without a sign.
fn is_unsigned(imm: i32, width: u32, step: u32) -> bool
    requires few { width ≤ 16 }
    requires some { 0 < step }
    ensures { result ≡ is_unsigned width step imm }
{
    0 <= imm && imm < 1 << width && imm.cast_unsigned() % step == 0
}

/// Whether `imm` is a multiple of `step` that `width` bits hold as a signed number.
fn is_signed(imm: i32, width: u32, step: u32) -> bool
    requires wide { 0 < width }
    requires few { width ≤ 18 }
    requires some { 0 < step }
    ensures { result ≡ is_signed width step imm }
{
    let half = 1 << (width - 1);
    let size = imm.unsigned_abs();
    let fits = if imm < 0 { size <= half } else { size < half };
    fits && size % step == 0
}

/// Whether the form's row allows its fields.
pub(crate) fn is_allowed(form: &Form16) -> bool
    ensures { result ≡ allowed form.now }
{
    match *form {
        Form16::CAddi4spn { rd, imm } => is_short(rd) && is_unsigned(imm, 10, 4) && imm != 0,
        Form16::CLw { rd, rs1, imm } => is_short(rs1) && is_short(rd) && is_unsigned(imm, 7, 4),
        Form16::CSw { rs1, rs2, imm } => is_short(rs1) && is_short(rs2) && is_unsigned(imm, 7, 4),
        Form16::CAddi16sp { imm } => is_signed(imm, 10, 16) && imm != 0,
        Form16::CLui { rd, imm } => rd.number() != 2 && is_signed(imm, 18, 4096) && imm != 0,
        Form16::CAddi { rd, imm } | Form16::CLi { rd, imm } => is_reg(rd) && is_signed(imm, 6, 1),
        Form16::CJal { imm } | Form16::CJ { imm } => is_signed(imm, 12, 2),
        Form16::CSrli { rd, imm } | Form16::CSrai { rd, imm } => {
            is_short(rd) && is_unsigned(imm, 5, 1)
        }
        Form16::CAndi { rd, imm } => is_short(rd) && is_signed(imm, 6, 1),
        Form16::CSub { rd, rs2 }
        | Form16::CXor { rd, rs2 }
        | Form16::COr { rd, rs2 }
        | Form16::CAnd { rd, rs2 } => is_short(rd) && is_short(rs2),
        Form16::CBeqz { rs1, imm } | Form16::CBnez { rs1, imm } => {
            is_short(rs1) && is_signed(imm, 9, 2)
        }
        Form16::CSlli { rd, imm } => is_reg(rd) && is_unsigned(imm, 5, 1),
        Form16::CLwsp { rd, imm } => rd.number() != 0 && is_unsigned(imm, 8, 4),
        Form16::CJr { rs1 } | Form16::CJalr { rs1 } => rs1.number() != 0,
        Form16::CMv { rd, rs2 } | Form16::CAdd { rd, rs2 } => is_reg(rd) && rs2.number() != 0,
        Form16::CEbreak => true,
        Form16::CSwsp { rs2, imm } => is_reg(rs2) && is_unsigned(imm, 8, 4),
    }
}
