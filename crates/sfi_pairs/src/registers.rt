//! The tests for the registers that have a part in a sandbox's confinement.
ghost use Rattle.std.specs.Prelude.{◌≡◌};
ghost use Rattle.sfi_formats.specs.Formats.{is_reserved, is_withheld, is_data_register, is_data_register_in, is_reserved_in};

use rv_word::Reg;
use sfi_formats::{
    CODE_BASE_REGISTER, CODE_MASK_REGISTER, DATA_BASE_REGISTER, DATA_MASK_REGISTER, Format,
    OFFSET_REGISTER, SCRATCH,
};

/// Whether the register is one of the four that hold bounds of the regions, x24 to x27. Nothing in
/// a sandbox may write it, unless it is a data register, as x26 where masks are single: see
/// [`is_reserved_in`].
#[inline]
pub fn is_reserved(register: Reg) -> bool
    ensures { result ≡ is_reserved register }
{
    let number = register.number();
    number == CODE_BASE_REGISTER
        || number == CODE_MASK_REGISTER
        || number == DATA_BASE_REGISTER
        || number == DATA_MASK_REGISTER
}

/// Whether a source of code in bundles may not name the register: it is reserved, or the one in
/// which expansions make addresses.
pub fn is_withheld(register: Reg) -> bool
    ensures { result ≡ is_withheld register }
{
    is_reserved(register) || register.number() == SCRATCH
}

/// Whether it is a data register in each format of code in words: its value lies in the data region
/// or at most 1020 bytes beside it, or, where masks are single, in the first addresses, as many as
/// the data have, or as near to these.
#[inline]
pub fn is_data_register(register: Reg) -> bool
    ensures { result ≡ is_data_register register }
{
    matches!(register.number(), 2 | 3 | 4 | 29)
}

/// Whether it is a data register of code in words of this format: where masks are single x26 and
/// x31, too.
#[inline]
pub fn is_data_register_in(format: Format, register: Reg) -> bool
    ensures { result ≡ is_data_register_in format register }
{
    match register.number() {
        DATA_BASE_REGISTER | OFFSET_REGISTER => format.has_single_mask(),
        _ => is_data_register(register),
    }
}

/// Whether nothing in a sandbox of code in words of this format may write the register: x24, x25
/// and x27, and x26 where masks have two steps.
#[inline]
pub fn is_reserved_in(format: Format, register: Reg) -> bool
    ensures { result ≡ is_reserved_in format register }
{
    is_reserved(register) && !is_data_register_in(format, register)
}
