//! Reading a halfword `h`: by its low two bits, the quadrant, and its top three. Functions for part
//! of the halfwords don't look at the bits again by which they were chosen. `None` says that no row
//! of the table of forms gives the halfword. specs/mirror has each of them over again, on numbers.
ghost use Rattle.std.specs.Prelude.{◌≡◌, IfSome};
ghost use Rattle.rv_comp.specs.Fronts.{IsHalfwordOf};
ghost use Rattle.rv_comp.specs.mirror.{decoded, quadrant0, quadrant1, quadrant2, arithmetic, upper, jump_or_move};
ghost use Rattle.rv_comp.specs.declared.form.Form16.{Form16};

mod fields;
pub(crate) mod outline;

use crate::bits::bits;
use crate::form::Form16;
use fields::{
    branch_offset, jump_offset, load_offset, long_reg, short_reg, sign_extended, six_bits,
    stack_address, stack_step, store_offset, upper_imm, word_offset,
};

/// The form of a halfword with low bits 00: one on x8 to x15.
#[tactic(auto, unfolding(crate::specs::mirror::quadrant0))]
fn decode_quadrant0(h: u16) -> Option<Form16>
    ensures { result ≡ quadrant0 h }
{
    match bits(h, 15, 13) {
        0b000 => {
            let imm = stack_address(h);
            if imm == 0 {
                None
            } else {
                Some(Form16::CAddi4spn {
                    rd: short_reg(h, 2),
                    imm: i32::from(imm),
                })
            }
        }
        0b010 => Some(Form16::CLw {
            rd: short_reg(h, 2),
            rs1: short_reg(h, 7),
            imm: word_offset(h),
        }),
        0b110 => Some(Form16::CSw {
            rs1: short_reg(h, 7),
            rs2: short_reg(h, 2),
            imm: word_offset(h),
        }),
        _ => None,
    }
}

/// The form of a halfword with low bits 01: immediates, arithmetic on x8 to x15, jumps and
/// branches.
#[tactic(auto, unfolding(crate::specs::mirror::quadrant1))]
fn decode_quadrant1(h: u16) -> Option<Form16>
    ensures { result ≡ quadrant1 h }
{
    match bits(h, 15, 13) {
        0b000 => Some(Form16::CAddi {
            rd: long_reg(h, 7),
            imm: sign_extended(six_bits(h), 6),
        }),
        0b001 => Some(Form16::CJal {
            imm: jump_offset(h),
        }),
        0b010 => Some(Form16::CLi {
            rd: long_reg(h, 7),
            imm: sign_extended(six_bits(h), 6),
        }),
        0b011 => decode_upper(h),
        0b100 => decode_arithmetic(h),
        0b101 => Some(Form16::CJ {
            imm: jump_offset(h),
        }),
        0b110 => Some(Form16::CBeqz {
            rs1: short_reg(h, 7),
            imm: branch_offset(h),
        }),
        _ => Some(Form16::CBnez {
            rs1: short_reg(h, 7),
            imm: branch_offset(h),
        }),
    }
}

/// C.ADDI16SP where the register is x2, and else C.LUI; `None` where the immediate is 0.
#[tactic(auto, unfolding(crate::specs::mirror::upper))]
fn decode_upper(h: u16) -> Option<Form16>
    ensures { result ≡ upper h }
{
    let rd = long_reg(h, 7);
    if rd.number() == 2 {
        let imm = stack_step(h);
        if imm == 0 {
            None
        } else {
            Some(Form16::CAddi16sp {
                imm: sign_extended(imm, 10),
            })
        }
    } else if six_bits(h) == 0 {
        None
    } else {
        Some(Form16::CLui {
            rd,
            imm: upper_imm(h),
        })
    }
}

/// The form that computes on x8 to x15 (low bits 01, top bits 100), from C.SRLI to C.AND.
#[tactic(auto, unfolding(crate::specs::mirror::arithmetic))]
fn decode_arithmetic(h: u16) -> Option<Form16>
    ensures { result ≡ arithmetic h }
{
    let rd = short_reg(h, 7);
    match bits(h, 11, 10) {
        0b00 if bits(h, 12, 12) == 0 => Some(Form16::CSrli {
            rd,
            imm: i32::from(bits(h, 6, 2)),
        }),
        0b01 if bits(h, 12, 12) == 0 => Some(Form16::CSrai {
            rd,
            imm: i32::from(bits(h, 6, 2)),
        }),
        0b10 => Some(Form16::CAndi {
            rd,
            imm: sign_extended(six_bits(h), 6),
        }),
        0b11 if bits(h, 12, 12) == 0 => {
            let rs2 = short_reg(h, 2);
            Some(match bits(h, 6, 5) {
                0b00 => Form16::CSub { rd, rs2 },
                0b01 => Form16::CXor { rd, rs2 },
                0b10 => Form16::COr { rd, rs2 },
                _ => Form16::CAnd { rd, rs2 },
            })
        }
        _ => None,
    }
}

/// The form of a halfword with low bits 10: C.SLLI, loads and stores on x2, and jumps and moves by
/// registers.
#[tactic(auto, unfolding(crate::specs::mirror::quadrant2))]
fn decode_quadrant2(h: u16) -> Option<Form16>
    ensures { result ≡ quadrant2 h }
{
    let rd = long_reg(h, 7);
    match bits(h, 15, 13) {
        0b000 if bits(h, 12, 12) == 0 => Some(Form16::CSlli {
            rd,
            imm: i32::from(bits(h, 6, 2)),
        }),
        0b010 if rd.number() != 0 => Some(Form16::CLwsp {
            rd,
            imm: load_offset(h),
        }),
        0b100 => decode_jump_or_move(h),
        0b110 => Some(Form16::CSwsp {
            rs2: long_reg(h, 2),
            imm: store_offset(h),
        }),
        _ => None,
    }
}

/// C.JR, C.MV, C.EBREAK, C.JALR or C.ADD (low bits 10, top bits 100).
#[tactic(auto, unfolding(crate::specs::mirror::jump_or_move))]
fn decode_jump_or_move(h: u16) -> Option<Form16>
    ensures { result ≡ jump_or_move h }
{
    let first = long_reg(h, 7);
    let second = long_reg(h, 2);
    if bits(h, 12, 12) == 0 {
        if second.number() != 0 {
            Some(Form16::CMv {
                rd: first,
                rs2: second,
            })
        } else if first.number() != 0 {
            Some(Form16::CJr { rs1: first })
        } else {
            None
        }
    } else if second.number() != 0 {
        Some(Form16::CAdd {
            rd: first,
            rs2: second,
        })
    } else if first.number() != 0 {
        Some(Form16::CJalr { rs1: first })
    } else {
        Some(Form16::CEbreak)
    }
}

/// The form of a halfword, by its quadrant; none where no row of the table has it.
#[tactic(auto, unfolding(crate::specs::mirror::decoded))]
fn decode_halfword(h: u16) -> Option<Form16>
    ensures { result ≡ decoded h }
{
    match bits(h, 1, 0) {
        0b00 => decode_quadrant0(h),
        0b01 => decode_quadrant1(h),
        0b10 => decode_quadrant2(h),
        _ => None,
    }
}

/// The form of a halfword, if a row of the table gives it.
#[tactic(auto, using(crate::proofs::Exact::decoded_found, crate::proofs::Exact::decoded_only))]
pub fn decode16(h: u16) -> Option<Form16>
    // A row gives the halfword for these fields.
    ensures found { IfSome result (λ f. IsHalfwordOf h f) }
    // Where a row gives the halfword for a form's fields, the result is that form.
    ensures only { (f : Form16) → IsHalfwordOf h f → result ≡ Some f }
{
    decode_halfword(h)
}
