//! The names of a sandbox, in the listing and the map: what the table at the end of its first data
//! bytes says that it exports and imports, with addresses.
ghost use Rattle.std.specs.Prelude.{◌≡◌, ◌≤◌, ◌++◌, List, OnOk, IfOk, string_bytes};
ghost use Rattle.std.specs.List.{All, flat_map};
ghost use Rattle.sfi_names.specs.Tables.{Named, entries, IsNamed, IsName};
ghost use Rattle.sfi_names.specs.Tables.{named};
ghost use Rattle.sfi_report.specs.Listing.{kind_word, name_line, interface_line, IsNamesText};
ghost use Rattle.sfi_report.specs.private.{Adds};

use crate::digits::push_eight_digits;
use sfi_names::{Kind, NameEntry, Names, first_name_entry};
use std::alloc::{AllocError, Global};

/// Writes the word for a name of this kind, and a space after it.
#[tactic(auto, unfolding(crate::specs::Listing::kind_word))]
fn push_kind(out: &mut String, kind: Kind) -> Result<(), AllocError>
    ensures { OnOk result (string_bytes out.new ≡ string_bytes out.old ++ kind_word kind) }
{
    match kind {
        Kind::Exports => out.push_str("export "),
        Kind::Imports => out.push_str("import "),
    }
}

/// Writes the bytes of a name.
fn push_name_bytes(out: &mut String, name: &[u8]) -> Result<(), AllocError>
    requires { IsName name.now }
    ensures { OnOk result (string_bytes out.new ≡ string_bytes out.old ++ name.now) }
{
    for byte in name {
        out.push(char::from(*byte))?;
    }
    Ok(())
}

/// Writes the line of a name, `KIND ADDRESS NAME`.
fn push_name_line(out: &mut String, kind: Kind, entry: &NameEntry<'_>) -> Result<(), AllocError>
    requires { IsNamed (named entry.now) }
    ensures { OnOk result (string_bytes out.new
        ≡ string_bytes out.old ++ name_line kind (named entry.now)) }
{
    push_kind(out, kind)?;
    push_eight_digits(out, entry.address)?;
    out.push_str(" ")?;
    push_name_bytes(out, entry.name)?;
    out.push_str("\n")
}

/// Writes the lines of the names whose entries in the table are these bytes, one after another.
fn push_entries(out: &mut String, kind: Kind, bytes: &[u8]) -> Result<(), AllocError>
    ensures { (es : List Named) → All IsNamed es → bytes.now ≡ entries es
        → OnOk result (string_bytes out.new
        ≡ string_bytes out.old ++ flat_map (name_line kind) es) }
{
    let mut rest = bytes;
    while let Some((entry, more)) = first_name_entry(rest) {
        push_name_line(out, kind, &entry)?;
        rest = more;
    }
    Ok(())
}

/// Writes the line of the version of the host's interface.
fn push_interface_line(out: &mut String, version: u32) -> Result<(), AllocError>
    ensures { OnOk result (string_bytes out.new
        ≡ string_bytes out.old ++ interface_line version) }
{
    write!(out, "interface {version}\n")
}

/// Writes the lines of the table of names in which the first data bytes end, if they end in one.
pub(crate) fn push_names(out: &mut String, init: &[u8]) -> Result<(), AllocError>
    ensures { OnOk result (Adds (string_bytes out.old) (string_bytes out.new)
        (IsNamesText init.now)) }
{
    let Ok(names) = Names::at_end(init) else {
        return Ok(());
    };
    push_interface_line(out, names.version)?;
    push_entries(out, Kind::Exports, names.exports)?;
    push_entries(out, Kind::Imports, names.imports)
}

/// The lines of the names that the table at the end of a sandbox's first data bytes tells, as the
/// listing has them: no text where there is no table. The one error is that an allocation was refused.
pub fn names_text(alloc: Global, init: &[u8]) -> Result<String, AllocError>
    ensures text { IfOk result (λ text. IsNamesText init.now (string_bytes text)) }
{
    let mut out = String::new(alloc);
    push_names(&mut out, init)?;
    Ok(out)
}
