//! Writing a form as its halfword: the bits of its row, and those of its fields where the row has
//! them.
ghost use Rattle.std.specs.Prelude.{◌≡◌, ◌<◌, map, IsTrue};
ghost use Rattle.std.specs.Option.{SomeIff};
ghost use Rattle.rv_comp.specs.Table.{bit_value};
ghost use Rattle.rv_comp.specs.Fronts.{halfword_of};
ghost use Rattle.rv_comp.specs.Table.{allowed, fields_of, place};
ghost use Rattle.rv_comp.specs.mirror.{row_bit, row_fields, row_number, is_low, AreLow};

mod allowed;
mod rows;

use crate::form::Form16;
pub(crate) use allowed::is_allowed;
use rows::{Bit, ROWS};
use rv_word::Reg;

/// The fields of a form; those that it hasn't are 0.
#[derive(Clone, Copy)]
struct FormFields {
    rd: Reg,
    rs1: Reg,
    rs2: Reg,
    imm: i32,
}

impl FormFields {
    /// The fields of these values.
    #[inline(always)]
    fn new(rd: Reg, rs1: Reg, rs2: Reg, imm: i32) -> FormFields
        ensures { result ≡ record { rd = rd; rs1 = rs1; rs2 = rs2; imm = imm } }
    {
        FormFields { rd, rs1, rs2, imm }
    }

    /// The value, 0 or 1, of one bit of a row, where the fields have these values.
    #[inline(always)]
    fn bit(&self, bit: Bit) -> u16
        requires { IsTrue (is_low bit) }
        ensures value { result ≡ bit_value (row_fields self.now) (row_bit bit) }
        ensures small { result < 2 }
    {
        let (value, number) = match bit {
            Bit::Zero => (0, 0),
            Bit::One => (1, 0),
            Bit::Rd(number) => (u32::from(self.rd.number()), number),
            Bit::Rs1(number) => (u32::from(self.rs1.number()), number),
            Bit::Rs2(number) => (u32::from(self.rs2.number()), number),
            Bit::Imm(number) => (self.imm.cast_unsigned(), number),
        };
        (value >> number & 1) as u16
    }

    /// The halfword of a row, where the fields have these values.
    #[inline(always)]
    fn halfword(&self, row: &[Bit; 16]) -> u16
        requires { AreLow row.now }
        ensures { result ≡ row_number (row_fields self.now) (map row_bit row.now) }
    {
        let mut halfword = 0;
        for place in 0..16 {
            halfword = 2 * halfword + self.bit(row[place]);
        }
        halfword
    }
}

/// The halfword of `ROWS[row]`, where the fields have these values. The contract alone looks at
/// `_form`: the row and the values have to be its own.
#[inline(always)]
fn filled(_form: &Form16, row: usize, rd: Reg, rs1: Reg, rs2: Reg, imm: i32) -> u16
    requires row { row ≡ place _form.now }
    requires fields { fields_of _form.now ≡ record { rd = rd; rs1 = rs1; rs2 = rs2; imm = imm } }
    ensures { result ≡ halfword_of _form.now }
{
    FormFields::new(rd, rs1, rs2, imm).halfword(&ROWS[row])
}

/// The halfword that the bits of the form's row make. It tests no field; [`encode16`] does that first.
/// Each arm's literal row number is the form's `place` in specs/Table and its index in `ROWS`, so that
/// the compiler puts the row's bits in their places by shifts.
fn halfword_of(form: &Form16) -> u16
    ensures { result ≡ halfword_of form.now }
{
    let zero = Reg::numbered(0);
    match *form {
        Form16::CAddi4spn { rd, imm } => filled(form, 0, rd, zero, zero, imm),
        Form16::CLw { rd, rs1, imm } => filled(form, 1, rd, rs1, zero, imm),
        Form16::CSw { rs1, rs2, imm } => filled(form, 2, zero, rs1, rs2, imm),
        Form16::CAddi { rd, imm } => filled(form, 3, rd, zero, zero, imm),
        Form16::CJal { imm } => filled(form, 4, zero, zero, zero, imm),
        Form16::CLi { rd, imm } => filled(form, 5, rd, zero, zero, imm),
        Form16::CAddi16sp { imm } => filled(form, 6, zero, zero, zero, imm),
        Form16::CLui { rd, imm } => filled(form, 7, rd, zero, zero, imm),
        Form16::CSrli { rd, imm } => filled(form, 8, rd, zero, zero, imm),
        Form16::CSrai { rd, imm } => filled(form, 9, rd, zero, zero, imm),
        Form16::CAndi { rd, imm } => filled(form, 10, rd, zero, zero, imm),
        Form16::CSub { rd, rs2 } => filled(form, 11, rd, zero, rs2, 0),
        Form16::CXor { rd, rs2 } => filled(form, 12, rd, zero, rs2, 0),
        Form16::COr { rd, rs2 } => filled(form, 13, rd, zero, rs2, 0),
        Form16::CAnd { rd, rs2 } => filled(form, 14, rd, zero, rs2, 0),
        Form16::CJ { imm } => filled(form, 15, zero, zero, zero, imm),
        Form16::CBeqz { rs1, imm } => filled(form, 16, zero, rs1, zero, imm),
        Form16::CBnez { rs1, imm } => filled(form, 17, zero, rs1, zero, imm),
        Form16::CSlli { rd, imm } => filled(form, 18, rd, zero, zero, imm),
        Form16::CLwsp { rd, imm } => filled(form, 19, rd, zero, zero, imm),
        Form16::CJr { rs1 } => filled(form, 20, zero, rs1, zero, 0),
        Form16::CJalr { rs1 } => filled(form, 21, zero, rs1, zero, 0),
        Form16::CMv { rd, rs2 } => filled(form, 22, rd, zero, rs2, 0),
        Form16::CAdd { rd, rs2 } => filled(form, 23, rd, zero, rs2, 0),
        Form16::CEbreak => filled(form, 24, zero, zero, zero, 0),
        Form16::CSwsp { rs2, imm } => filled(form, 25, zero, zero, rs2, imm),
    }
}

/// The halfword of a form; `None` where a field is outside what its row allows.
pub fn encode16(form: Form16) -> Option<u16>
    ensures { SomeIff result (IsTrue (allowed form)) (halfword_of form) }
{
    if is_allowed(&form) {
        Some(halfword_of(&form))
    } else {
        None
    }
}
