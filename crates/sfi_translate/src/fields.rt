//! The parts of a line of the text, `FORM(FIELD,FIELD..)`. Each function appends one to `out`; its one
//! error is that an allocation was refused. The macros of sfi_native.h read these fields, and paste a
//! register's number to a name (`r##rs1`): so it is plain decimal. examples/translate/lines.py writes the
//! same text.
ghost use Rattle.std.specs.Prelude.{◌≡◌, ◌++◌, OnOk, string_bytes};
ghost use Rattle.sfi_translate.specs.Translation.{opening, name_field, number_field, signed_field, address_field, closing, address_line};

use rv_word::Reg;
use sfi_report::push_eight_digits;
use std::alloc::AllocError;

/// Appends what an instruction's line begins with, `FORM(ADDRESS,SIZE`: the address in eight hexadecimal
/// digits, the size in bytes. Further fields and `push_closing` follow.
#[tactic(auto, unfolding(crate::specs::Translation::opening))]
pub(crate) fn push_opening(
    out: &mut String,
    form: &str,
    at: u32,
    size: u32,
) -> Result<(), AllocError>
    ensures { OnOk result
        (string_bytes out.new ≡ string_bytes out.old ++ opening form.now at size) }
{
    out.push_str(form)?;
    out.push_str("(")?;
    push_eight_digits(out, at)?;
    write!(out, ",{size}")
}

/// Appends a comma and a name.
#[tactic(auto, unfolding(crate::specs::Translation::name_field))]
pub(crate) fn push_name_field(out: &mut String, name: &str) -> Result<(), AllocError>
    ensures { OnOk result (string_bytes out.new ≡ string_bytes out.old ++ name_field name.now) }
{
    out.push_str(",")?;
    out.push_str(name)
}

/// Appends a comma and a number that is never negative, in decimal.
#[tactic(auto, unfolding(crate::specs::Translation::number_field))]
pub(crate) fn push_number_field(out: &mut String, number: usize) -> Result<(), AllocError>
    ensures { OnOk result (string_bytes out.new ≡ string_bytes out.old ++ number_field number) }
{
    write!(out, ",{number}")
}

/// Appends a comma and a register's number, in decimal.
#[tactic(auto, unfolding(crate::specs::Translation::number_field))]
pub(crate) fn push_register_field(out: &mut String, register: Reg) -> Result<(), AllocError>
    ensures { OnOk result (string_bytes out.new ≡ string_bytes out.old ++ number_field register) }
{
    let number = register.number();
    write!(out, ",{number}")
}

/// Appends a comma and a number that may be negative, in decimal.
#[tactic(auto, unfolding(crate::specs::Translation::signed_field))]
pub(crate) fn push_signed_field(out: &mut String, number: i32) -> Result<(), AllocError>
    ensures { OnOk result (string_bytes out.new ≡ string_bytes out.old ++ signed_field number) }
{
    write!(out, ",{number}")
}

/// Appends a comma and an address, in eight hexadecimal digits.
#[tactic(auto, unfolding(crate::specs::Translation::address_field))]
pub(crate) fn push_address_field(out: &mut String, at: u32) -> Result<(), AllocError>
    ensures { OnOk result (string_bytes out.new ≡ string_bytes out.old ++ address_field at) }
{
    out.push_str(",")?;
    push_eight_digits(out, at)
}

/// Appends the end of a line: a bracket and a line feed.
#[tactic(auto, unfolding(crate::specs::Translation::closing))]
pub(crate) fn push_closing(out: &mut String) -> Result<(), AllocError>
    ensures { OnOk result (string_bytes out.new ≡ string_bytes out.old ++ closing) }
{
    out.push_str(")\n")
}

/// Appends the line `FORM(ADDRESS)`, with the address in eight hexadecimal digits.
#[tactic(auto, unfolding(crate::specs::Translation::address_line))]
pub(crate) fn push_address_line(out: &mut String, form: &str, at: u32) -> Result<(), AllocError>
    ensures { OnOk result
        (string_bytes out.new ≡ string_bytes out.old ++ address_line form.now at) }
{
    out.push_str(form)?;
    out.push_str("(")?;
    push_eight_digits(out, at)?;
    push_closing(out)
}
