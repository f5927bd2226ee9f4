//! The table of a sandbox of an image.
ghost use Rattle.std.specs.Prelude.{◌≡◌, ℕ, Result, Ok, Err, IfOk, IfErr, IsOkAnd};
ghost use Rattle.sfi_names.specs.declared.image.Missing.{Missing};
ghost use Rattle.sfi_names.specs.declared.image.Missing.TheVariants.{NoImage};
ghost use Rattle.sfi_names.specs.Images.{IsInitOf, HasTableOf, HasNoTable, IsAnswer, IsEntryAnswer};
ghost use Rattle.sfi_names.specs.private.{HasNoInit};
ghost use Rattle.sfi_names.specs.Tables.{Named, Table};
ghost use Rattle.sfi_names.specs.Tables.{IsNamesOf, IsName, named};

use crate::entry::{NameEntry, entry_at};
use crate::fault::NamesFault;
use crate::names::Names;
use sfi_image::{LayoutFault, sandbox_of};

/// Why an image has no address for a name, or no entry at an index.
#[derive(Clone, Copy, Debug, PartialEq, Eq)]
pub enum Missing {
    /// The bytes are no image.
    NoImage,
    /// The image has no sandbox of the number.
    NoSandbox,
    /// The sandbox's first data bytes don't end in the magic of a table.
    NoTable,
    /// They end in the magic, but the bytes before it are not those of a table.
    BadTable,
    /// The table doesn't have the name, or no entry of the index.
    NoName,
}

impl Missing {
    ghost use Rattle.sfi_names.specs.Images.{number_of};

    /// The number by which C knows it, 1 to 5: that of `enum sfi_run_names` of `sfi_run`'s
    /// include/sfi_run.h.
    pub fn number(self) -> u32
        ensures { result ≡ number_of self }
    {
        match self {
            Missing::NoImage => 1,
            Missing::NoSandbox => 2,
            Missing::NoTable => 3,
            Missing::BadTable => 4,
            Missing::NoName => 5,
        }
    }
}

impl From<LayoutFault> for Missing {
    ghost from_gives = { λ _ m. m ≡ NoImage };

    // Which fault it is, a check of the image says.
    fn from(_fault: LayoutFault) -> Missing {
        Missing::NoImage
    }
}

/// Which of a table's two lists of names.
#[derive(Clone, Copy, Debug, PartialEq, Eq)]
pub enum Kind {
    /// Functions that a host may call, and objects of the data that it may use.
    Exports,
    /// Gates that the code calls.
    Imports,
}

/// The table of the image's sandbox `number`, counted from 0. What is wrong is said in the order
/// of the variants of [`Missing`], and never `NoName`. Of the image it looks at the layout alone.
pub fn names_in<'a>(image: &'a [u8], number: u32) -> Result<Names<'a>, Missing>
    ensures found { IfOk result (λ n. (t : Table) × HasTableOf image.entry.now number t
        × IsNamesOf n t) }
    ensures missing { IfErr result (λ m. HasNoTable image.entry.now number m) }
    ensures only_found { (t : Table) → HasTableOf image.entry.now number t
        → IsOkAnd result (λ n. IsNamesOf n t) }
    ensures only_missing { (m : Missing) → HasNoTable image.entry.now number m → result ≡ Err m }
{
    read_names(image, number)
}

/// The address that a name stands for in the table of the image's sandbox `number`, counted
/// from 0: the first of that kind with that name.
pub fn address_in(image: &[u8], number: u32, kind: Kind, name: &[u8]) -> Result<u32, Missing>
    ensures answer { IsAnswer image.now number kind name.now result }
    ensures only { (r : Result ℕ Missing) → IsAnswer image.now number kind name.now r
        → result ≡ r }
{
    find_address(image, number, kind, name)
}

/// The work of [`address_in`], apart: its contract is all that the proof of that function's takes.
fn find_address(image: &[u8], number: u32, kind: Kind, name: &[u8]) -> Result<u32, Missing>
    ensures { IsAnswer image.now number kind name.now result }
{
    let names = read_names(image, number)?;
    let found = match kind {
        Kind::Exports => names.export_named(name),
        Kind::Imports => names.import_named(name),
    };
    match found {
        Some(address) => Ok(address),
        None => Err(Missing::NoName),
    }
}

/// The entry at an index among those of that kind, in the table of the image's sandbox `number`;
/// both are counted from 0.
pub fn entry_in<'a>(
    image: &'a [u8],
    number: u32,
    kind: Kind,
    index: u32,
) -> Result<NameEntry<'a>, Missing>
    ensures found { IfOk result (λ e.
        IsEntryAnswer image.entry.now number kind index (Ok (named e))) }
    ensures name { IfOk result (λ e. IsName e.name.now) }
    ensures missing { IfErr result (λ m.
        IsEntryAnswer image.entry.now number kind index (Err m)) }
    ensures only_found { (e : Named) → IsEntryAnswer image.entry.now number kind index (Ok e)
        → IsOkAnd result (λ f. named f ≡ e) }
    ensures only_missing { (m : Missing)
        → IsEntryAnswer image.entry.now number kind index (Err m) → result ≡ Err m }
{
    find_entry(image, number, kind, index)
}

/// The work of [`entry_in`], apart: its contract is all that the proof of that function's takes.
fn find_entry<'a>(
    image: &'a [u8],
    number: u32,
    kind: Kind,
    index: u32,
) -> Result<NameEntry<'a>, Missing>
    ensures found { IfOk result (λ e.
        IsEntryAnswer image.entry.now number kind index (Ok (named e))) }
    ensures missing { IfErr result (λ m.
        IsEntryAnswer image.entry.now number kind index (Err m)) }
{
    let names = read_names(image, number)?;
    let entries = match kind {
        Kind::Exports => names.exports,
        Kind::Imports => names.imports,
    };
    match entry_at(entries, index) {
        Some(entry) => Ok(entry),
        None => Err(Missing::NoName),
    }
}

/// The work of [`names_in`], apart: its contract is all that the proof of that function's takes.
fn read_names<'a>(image: &'a [u8], number: u32) -> Result<Names<'a>, Missing>
    ensures found { IfOk result (λ n. (t : Table) × HasTableOf image.entry.now number t
        × IsNamesOf n t) }
    ensures missing { IfErr result (λ m. HasNoTable image.entry.now number m) }
{
    match Names::at_end(init_bytes(image, number)?) {
        Ok(names) => Ok(names),
        Err(NamesFault::NoTable) => Err(Missing::NoTable),
        Err(NamesFault::BadTable) => Err(Missing::BadTable),
    }
}

/// The first data bytes of the image's sandbox `number`, counted from 0, in which a table may end;
/// an error if the bytes are no image, or it has no such sandbox.
fn init_bytes<'a>(image: &'a [u8], number: u32) -> Result<&'a [u8], Missing>
    ensures found { IfOk result (λ d. IsInitOf image.entry.now number d.now) }
    ensures missing { IfErr result (λ m. HasNoInit image.entry.now number m) }
{
    match sandbox_of(image, number)? {
        Some((view, _)) => Ok(view.init),
        None => Err(Missing::NoSandbox),
    }
}
