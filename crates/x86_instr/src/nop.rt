//! Nops of one to nine bytes.
ghost use Rattle.std.specs.Prelude.{◌≡◌, ◌≤◌, ◌++◌, length, OnOk};
ghost use Rattle.x86_instr.specs.Spelling.{nop_bytes};

use crate::instr::NopSize;
use std::alloc::AllocError;

/// Appends one instruction that does nothing, of that size: the bytes that Intel's manual recommends.
pub(crate) fn put_nop(out: &mut Vec<u8>, size: NopSize) -> Result<(), AllocError>
    ensures { OnOk result (out.new.items ≡ out.old.items ++ nop_bytes size) }
{
    match size {
        NopSize::One => out.extend_from_slice(&[0x90])?,
        NopSize::Two => out.extend_from_slice(&[0x66, 0x90])?,
        NopSize::Three => out.extend_from_slice(&[0x0F, 0x1F, 0x00])?,
        NopSize::Four => out.extend_from_slice(&[0x0F, 0x1F, 0x40, 0])?,
        NopSize::Five => out.extend_from_slice(&[0x0F, 0x1F, 0x44, 0, 0])?,
        NopSize::Six => out.extend_from_slice(&[0x66, 0x0F, 0x1F, 0x44, 0, 0])?,
        NopSize::Seven => out.extend_from_slice(&[0x0F, 0x1F, 0x80, 0, 0, 0, 0])?,
        NopSize::Eight => out.extend_from_slice(&[0x0F, 0x1F, 0x84, 0, 0, 0, 0, 0])?,
        NopSize::Nine => out.extend_from_slice(&[0x66, 0x0F, 0x1F, 0x84, 0, 0, 0, 0, 0])?,
    }
    Ok(())
}

impl NopSize {
    /// How many bytes the nop has, 1 to 9.
    pub fn bytes(self) -> u32
        ensures is { result ≡ length (nop_bytes self) }
        ensures few { result ≤ 9 }
    {
        match self {
            NopSize::One => 1,
            NopSize::Two => 2,
            NopSize::Three => 3,
            NopSize::Four => 4,
            NopSize::Five => 5,
            NopSize::Six => 6,
            NopSize::Seven => 7,
            NopSize::Eight => 8,
            NopSize::Nine => 9,
        }
    }
}
