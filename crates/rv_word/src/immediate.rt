//! Signed numbers as the bits of a word hold them: immediates and offsets, both ways.
ghost use Rattle.std.specs.Prelude.{◌≡◌, ◌^◌, ◌<◌, pos, IfSome};
ghost use Rattle.std.specs.Option.{SomeIff};
ghost use Rattle.rv_word.specs.Spelling.{modulo, minus, IsBetween};
ghost use Rattle.rv_word.specs.Spelling.{IsImm12, IsBranchOffset, IsJumpOffset};

/// The signed number that these 12 bits hold.
pub(crate) fn signed12(bits: u32) -> i32
    requires { bits < 2 ^ 12 }
    ensures value { modulo 12 result ≡ bits }
    ensures range { IsImm12 result }
{
    if bits < 1 << 11 {
        bits as i32
    } else {
        bits as i32 - (1 << 12)
    }
}

/// The signed number that these 13 bits hold.
pub(crate) fn signed13(bits: u32) -> i32
    requires { bits < 2 ^ 13 }
    ensures value { modulo 13 result ≡ bits }
    ensures range { IsBetween (minus 4096) (pos 4095) result }
{
    if bits < 1 << 12 {
        bits as i32
    } else {
        bits as i32 - (1 << 13)
    }
}

/// The signed number that these 21 bits hold.
pub(crate) fn signed21(bits: u32) -> i32
    requires { bits < 2 ^ 21 }
    ensures value { modulo 21 result ≡ bits }
    ensures range { IsBetween (minus 1048576) (pos 1048575) result }
{
    if bits < 1 << 20 {
        bits as i32
    } else {
        bits as i32 - (1 << 21)
    }
}

/// The 12 bits of an immediate; `None` unless it is one of -2048 to 2047.
pub(crate) fn imm12_bits(imm: i32) -> Option<u32>
    ensures value { SomeIff result (IsImm12 imm) (modulo 12 imm) }
    ensures small { IfSome result (λ bits. bits < 2 ^ 12) }
{
    if imm < -2048 || imm > 2047 {
        None
    } else if imm < 0 {
        Some((imm + 4096) as u32)
    } else {
        Some(imm as u32)
    }
}

/// The five bits of a shift amount; `None` unless it is one of 0 to 31.
pub(crate) fn shift_bits(amount: i32) -> Option<u32>
    ensures value { SomeIff result (IsBetween (pos 0) (pos 31) amount) (modulo 5 amount) }
    ensures small { IfSome result (λ bits. bits < 32) }
{
    if amount < 0 || amount > 31 {
        None
    } else {
        Some(amount as u32)
    }
}

/// The 13 bits of a branch's offset in bytes; `None` unless it is even and one of -4096 to 4094.
pub(crate) fn branch_offset_bits(offset: i32) -> Option<u32>
    ensures value { SomeIff result (IsBranchOffset offset) (modulo 13 offset) }
    ensures small { IfSome result (λ bits. bits < 2 ^ 13) }
{
    if offset < -4096 || offset > 4094 {
        return None;
    }
    let bits = if offset < 0 {
        (offset + 8192) as u32
    } else {
        offset as u32
    };
    if bits % 2 == 0 { Some(bits) } else { None }
}

/// The 21 bits of a jump's offset in bytes; `None` unless it is even and one of -1048576 to
/// 1048574.
pub(crate) fn jump_offset_bits(offset: i32) -> Option<u32>
    ensures value { SomeIff result (IsJumpOffset offset) (modulo 21 offset) }
    ensures small { IfSome result (λ bits. bits < 2 ^ 21) }
{
    if offset < -1048576 || offset > 1048574 {
        return None;
    }
    let bits = if offset < 0 {
        (offset + 2097152) as u32
    } else {
        offset as u32
    };
    if bits % 2 == 0 { Some(bits) } else { None }
}
