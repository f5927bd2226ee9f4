//! The fields of a halfword. An immediate's bits lie in it as the table's row says.
ghost use Rattle.std.specs.Prelude.{◌≡◌, ◌<◌, ◌≤◌, pos, ◌*ℤ◌};
ghost use Rattle.rv_comp.specs.mirror.{extended, short, long, word_offset, six, jump_offset, branch_offset, stack_step, stack_address, load_offset, store_offset};

use crate::bits::bits;
use rv_word::Reg;

/// The register x8 to x15 of the three bits from `low` on.
pub(super) fn short_reg(h: u16, low: u32) -> Reg
    requires { low < 8 }
    ensures { result ≡ short h low }
{
    Reg::numbered(8 + bits(h, low + 2, low) as u8)
}

/// The register of the five bits from `low` on.
pub(super) fn long_reg(h: u16, low: u32) -> Reg
    requires { low < 8 }
    ensures { result ≡ long h low }
{
    Reg::numbered(bits(h, low + 4, low) as u8)
}

/// A number of `width` bits, read as a signed one (two's complement).
#[tactic(auto, unfolding(crate::specs::mirror::extended))]
pub(super) fn sign_extended(number: u16, width: u32) -> i32
    requires some { 0 < width }
    requires few { width ≤ 16 }
    ensures { result ≡ extended width number }
{
    if u32::from(number) < 1 << (width - 1) {
        i32::from(number)
    } else {
        i32::from(number) - (1 << width)
    }
}

/// The immediate of C.LW and C.SW.
#[tactic(auto, unfolding(crate::specs::mirror::word_offset))]
pub(super) fn word_offset(h: u16) -> i32
    ensures { result ≡ pos (word_offset h) }
{
    i32::from(bits(h, 12, 10) << 3 | bits(h, 6, 6) << 2 | bits(h, 5, 5) << 6)
}

/// The six bits of an immediate in bits 12 and 6:2, beside a register; whether they are signed the
/// form says.
#[tactic(auto, unfolding(crate::specs::mirror::six))]
pub(super) fn six_bits(h: u16) -> u16
    ensures { result ≡ six h }
{
    bits(h, 12, 12) << 5 | bits(h, 6, 2)
}

/// The offset of C.JAL and C.J, in bytes.
#[tactic(auto, unfolding(crate::specs::mirror::jump_offset))]
pub(super) fn jump_offset(h: u16) -> i32
    ensures { result ≡ extended 12 (jump_offset h) }
{
    let offset = bits(h, 12, 12) << 11
        | bits(h, 11, 11) << 4
        | bits(h, 10, 9) << 8
        | bits(h, 8, 8) << 10
        | bits(h, 7, 7) << 6
        | bits(h, 6, 6) << 7
        | bits(h, 5, 3) << 1
        | bits(h, 2, 2) << 5;
    sign_extended(offset, 12)
}

/// The offset of C.BEQZ and C.BNEZ, in bytes.
#[tactic(auto, unfolding(crate::specs::mirror::branch_offset))]
pub(super) fn branch_offset(h: u16) -> i32
    ensures { result ≡ extended 9 (branch_offset h) }
{
    let offset = bits(h, 12, 12) << 8
        | bits(h, 11, 10) << 3
        | bits(h, 6, 5) << 6
        | bits(h, 4, 3) << 1
        | bits(h, 2, 2) << 5;
    sign_extended(offset, 9)
}

/// The immediate of C.ADDI4SPN: a multiple of 4, without a sign.
#[tactic(auto, unfolding(crate::specs::mirror::stack_address))]
pub(super) fn stack_address(h: u16) -> u16
    ensures { result ≡ stack_address h }
{
    bits(h, 12, 11) << 4 | bits(h, 10, 7) << 6 | bits(h, 6, 6) << 2 | bits(h, 5, 5) << 3
}

/// The ten bits of the immediate of C.ADDI16SP, which the caller reads as a signed number: a multiple of
/// 16 in bytes; 0 belongs to no instruction (`decode_upper` gives `None`).
#[tactic(auto, unfolding(crate::specs::mirror::stack_step))]
pub(super) fn stack_step(h: u16) -> u16
    ensures { result ≡ stack_step h }
{
    bits(h, 12, 12) << 9
        | bits(h, 6, 6) << 4
        | bits(h, 5, 5) << 6
        | bits(h, 4, 3) << 7
        | bits(h, 2, 2) << 5
}

/// The immediate of C.LUI: the number that it writes, a multiple of 4096.
#[tactic(auto, unfolding(crate::specs::mirror::extended))]
pub(super) fn upper_imm(h: u16) -> i32
    ensures { result ≡ extended 6 (six h) *ℤ pos 4096 }
{
    let six = six_bits(h);
    sign_extended(six, 6) * 4096
}

/// The immediate of C.LWSP.
#[tactic(auto, unfolding(crate::specs::mirror::load_offset))]
pub(super) fn load_offset(h: u16) -> i32
    ensures { result ≡ pos (load_offset h) }
{
    i32::from(bits(h, 12, 12) << 5 | bits(h, 6, 4) << 2 | bits(h, 3, 2) << 6)
}

/// The immediate of C.SWSP.
#[tactic(auto, unfolding(crate::specs::mirror::store_offset))]
pub(super) fn store_offset(h: u16) -> i32
    ensures { result ≡ pos (store_offset h) }
{
    i32::from(bits(h, 12, 9) << 2 | bits(h, 8, 7) << 6)
}
