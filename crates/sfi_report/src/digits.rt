//! Hexadecimal digits.
ghost use Rattle.std.specs.Prelude.{◌≡◌, ◌++◌, ◌⊎◌, OnOk, length, string_bytes};
ghost use Rattle.sfi_report.specs.Listing.{hex_digits, word_digits};

use std::alloc::AllocError;

/// Appends the number in eight hexadecimal digits, in lower case, to the text. The one error is
/// that an allocation was refused.
pub fn push_eight_digits(out: &mut String, number: u32) -> Result<(), AllocError>
    ensures { OnOk result (string_bytes out.new ≡ string_bytes out.old ++ hex_digits 8 number) }
{
    write!(out, "{number:08x}")
}

/// Appends the number in four hexadecimal digits, in lower case.
pub(crate) fn push_four_digits(out: &mut String, number: u16) -> Result<(), AllocError>
    ensures { OnOk result (string_bytes out.new ≡ string_bytes out.old ++ hex_digits 4 number) }
{
    write!(out, "{number:04x}")
}

/// Appends the number in two hexadecimal digits, in lower case.
pub(crate) fn push_two_digits(out: &mut String, number: u8) -> Result<(), AllocError>
    ensures { OnOk result (string_bytes out.new ≡ string_bytes out.old ++ hex_digits 2 number) }
{
    write!(out, "{number:02x}")
}

/// Appends the number that two bytes hold, the lowest first, in four digits.
pub(crate) fn push_halfword(out: &mut String, bytes: &[u8]) -> Result<(), AllocError>
    requires { length bytes.now ≡ 2 }
    ensures { OnOk result (string_bytes out.new ≡ string_bytes out.old ++ word_digits bytes.now) }
{
    push_four_digits(out, u16::from_le_bytes([bytes[0], bytes[1]]))
}

/// Appends the number that two or four bytes hold, the lowest first, in two digits for each byte:
/// so the listing has an instruction's bytes.
pub(crate) fn push_word(out: &mut String, bytes: &[u8]) -> Result<(), AllocError>
    requires { (length bytes.now ≡ 2) ⊎ (length bytes.now ≡ 4) }
    ensures { OnOk result (string_bytes out.new ≡ string_bytes out.old ++ word_digits bytes.now) }
{
    if bytes.len() == 2 {
        return push_halfword(out, bytes);
    }
    push_eight_digits(
        out,
        u32::from_le_bytes([bytes[0], bytes[1], bytes[2], bytes[3]]),
    )
}
