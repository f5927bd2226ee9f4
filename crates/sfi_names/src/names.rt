//! A table of names at the end of bytes.
ghost use Rattle.std.specs.Prelude.{◌≡◌, ◌↔◌, ◌++◌, Ok, Err, IfOk, IfErr, IfSome, IfNone, IsOkAnd, OnOk};
ghost use Rattle.sfi_names.specs.declared.fault.NamesFault.{NamesFault};
ghost use Rattle.sfi_names.specs.Tables.{Table, magic, spelling};
ghost use Rattle.sfi_names.specs.Tables.{EndsIn, HasTable, IsNamesOf};
ghost use Rattle.sfi_names.specs.Tables.{address_of};
ghost use Rattle.sfi_names.specs.Faults.{IsFault};

use crate::entry::{address_named, are_name_entries, push_number};
use crate::fault::NamesFault;
use crate::footer::{cut_end, footer_of};
use std::alloc::AllocError;

/// The four bytes in which a table ends.
pub(crate) const MAGIC: [u8; 4] = *b"SFIN";

/// A table of names, as it lies in bytes. [`first_name_entry`](crate::first_name_entry) goes through its
/// exports and imports.
#[derive(Clone, Copy)]
pub struct Names<'a> {
    /// The version of the host's interface, for which the code is made.
    pub version: u32,
    /// What a host may call or use: entries, one after another.
    pub exports: &'a [u8],
    /// The gates that the code calls: entries, one after another.
    pub imports: &'a [u8],
}

impl<'a> Names<'a> {
    /// The table in which the bytes end, or why there is none. Its entries are tested, too.
    pub fn at_end(bytes: &'a [u8]) -> Result<Names<'a>, NamesFault>
        ensures found { IfOk result (λ n. (t : Table) × HasTable bytes.entry.now t
            × IsNamesOf n t) }
        ensures fault { IfErr result (λ k. IsFault bytes.entry.now k) }
        ensures only_found { (t : Table) → HasTable bytes.entry.now t
            → IsOkAnd result (λ n. IsNamesOf n t) }
        ensures only_fault { (k : NamesFault) → IsFault bytes.entry.now k → result ≡ Err k }
    {
        match before_magic(bytes) {
            None => Err(NamesFault::NoTable),
            Some(before) => match names_before(before) {
                None => Err(NamesFault::BadTable),
                Some(names) => Ok(names),
            },
        }
    }

    /// The address of the first export of that name; `None` if there is none.
    pub fn export_named(&self, name: &[u8]) -> Option<u32>
        ensures { (t : Table) → IsNamesOf self.now t → result ≡ address_of name.now t.exports }
    {
        address_named(self.exports, name)
    }

    /// The address of the first import of that name, which is its gate's; `None` if there is none.
    pub fn import_named(&self, name: &[u8]) -> Option<u32>
        ensures { (t : Table) → IsNamesOf self.now t → result ≡ address_of name.now t.imports }
    {
        address_named(self.imports, name)
    }

    /// Appends the table's bytes, as [`at_end`](Names::at_end) reads them. An error means that
    /// memory ran out.
    pub fn push(&self, bytes: &mut Vec<u8>) -> Result<(), AllocError>
        requires { (t : Table) × IsNamesOf self.now t }
        ensures { (t : Table) → IsNamesOf self.now t
            → OnOk result (bytes.new.items ≡ bytes.old.items ++ spelling t) }
    {
        bytes.extend_from_slice(self.exports)?;
        bytes.extend_from_slice(self.imports)?;
        push_number(bytes, self.version)?;
        push_number(bytes, self.exports.len() as u32)?;
        push_number(bytes, self.imports.len() as u32)?;
        bytes.extend_from_slice(&MAGIC)?;
        Ok(())
    }
}

/// The bytes before the magic; `None` if they don't end in it.
fn before_magic(bytes: &[u8]) -> Option<&[u8]>
    ensures found { IfSome result (λ b. bytes.now ≡ b.now ++ magic) }
    ensures none { IfNone result (EndsIn bytes.now magic → ⊥) }
{
    let (before, end) = cut_end(bytes, MAGIC.len())?;
    if end == MAGIC.as_slice() {
        Some(before)
    } else {
        None
    }
}

/// The table that ends in `bytes` and the magic after them; `None` if what they end in is no
/// table's.
fn names_before(bytes: &[u8]) -> Option<Names<'_>>
    ensures found { IfSome result (λ n. (t : Table) × HasTable (bytes.now ++ magic) t
        × IsNamesOf n t) }
    ensures none { IfNone result ((t : Table) → HasTable (bytes.now ++ magic) t → ⊥) }
{
    let footer = footer_of(bytes)?;
    let (before, imports) = cut_end(footer.before, footer.imports_bytes as usize)?;
    let (_, exports) = cut_end(before, footer.exports_bytes as usize)?;
    if !are_name_entries(exports) {
        return None;
    }
    if !are_name_entries(imports) {
        return None;
    }
    Some(Names {
        version: footer.version,
        exports,
        imports,
    })
}
