//! The calls by which C reads the table of names of an image. They return a number of `sfi_run_names`
//! in include/sfi_run.h: 0, or that of a `Missing` of `sfi_names`.
ghost use Rattle.std.specs.Prelude.{◌≡◌, ◌≢◌, ℕ, ◌≤◌, Ok, Err};
ghost use Rattle.sfi_names.specs.declared.image.Missing.{Missing};
ghost use Rattle.sfi_names.specs.Tables.{Named, Table};
ghost use Rattle.sfi_names.specs.Images.{HasTableOf, HasNoTable, IsAnswer, IsEntryAnswer, number_of};
ghost use Rattle.sfi_run.specs.Names.{IsToldEntry};

use sfi_names::{Kind, address_in, entry_in, names_in};

/// Writes to `address` what `name` stands for among the exports or the imports, as `kind` says, of
/// the image's sandbox `sandbox`. Returns 0, or the number of a [`Missing`], and nothing is written.
fn tell_address(image: &[u8], sandbox: u32, kind: Kind, name: &[u8], address: &mut u32) -> u32
    ensures known { result ≤ 5 }

    // What each status means.
    ensures found { result ≡ 0 → IsAnswer image.now sandbox kind name.now (Ok address.new) }
    ensures missing { (m : Missing) → result ≡ number_of m
        → IsAnswer image.now sandbox kind name.now (Err m) }
    ensures unwritten { result ≢ 0 → address.new ≡ address.old }

    // Which bytes get it.
    ensures only_found { (a : ℕ) → IsAnswer image.now sandbox kind name.now (Ok a)
        → (result ≡ 0) × (address.new ≡ a) }
    ensures only_missing { (m : Missing)
        → IsAnswer image.now sandbox kind name.now (Err m) → result ≡ number_of m }
{
    match address_in(image, sandbox, kind, name) {
        Ok(found) => {
            *address = found;
            0
        }
        Err(missing) => missing.number(),
    }
}

/// Writes to `address` what a name stands for among the exports of the image's sandbox
/// `sandbox`, counted from 0. Returns 0, or the number of a [`Missing`].
#[unsafe(no_mangle)]
pub extern "C" fn sfi_run_export(image: &[u8], sandbox: u32, name: &[u8], address: &mut u32) -> u32
    ensures known { result ≤ 5 }

    // What each status means.
    ensures found { result ≡ 0 → IsAnswer image.now sandbox Kind.Exports name.now (Ok address.new) }
    ensures missing { (m : Missing) → result ≡ number_of m
        → IsAnswer image.now sandbox Kind.Exports name.now (Err m) }
    ensures unwritten { result ≢ 0 → address.new ≡ address.old }

    // Which bytes get it.
    ensures only_found { (a : ℕ) → IsAnswer image.now sandbox Kind.Exports name.now (Ok a)
        → (result ≡ 0) × (address.new ≡ a) }
    ensures only_missing { (m : Missing)
        → IsAnswer image.now sandbox Kind.Exports name.now (Err m) → result ≡ number_of m }
{
    tell_address(image, sandbox, Kind::Exports, name, address)
}

/// Writes to `address` what a name stands for among the imports: the address of its gate. Returns
/// as [`sfi_run_export`] does.
#[unsafe(no_mangle)]
pub extern "C" fn sfi_run_import(image: &[u8], sandbox: u32, name: &[u8], address: &mut u32) -> u32
    ensures known { result ≤ 5 }

    // What each status means.
    ensures found { result ≡ 0 → IsAnswer image.now sandbox Kind.Imports name.now (Ok address.new) }
    ensures missing { (m : Missing) → result ≡ number_of m
        → IsAnswer image.now sandbox Kind.Imports name.now (Err m) }
    ensures unwritten { result ≢ 0 → address.new ≡ address.old }

    // Which bytes get it.
    ensures only_found { (a : ℕ) → IsAnswer image.now sandbox Kind.Imports name.now (Ok a)
        → (result ≡ 0) × (address.new ≡ a) }
    ensures only_missing { (m : Missing)
        → IsAnswer image.now sandbox Kind.Imports name.now (Err m) → result ≡ number_of m }
{
    tell_address(image, sandbox, Kind::Imports, name, address)
}

/// How many bytes a name has at most: `SFI_RUN_NAME_MOST` of the header.
const NAME_MOST: usize = 255;

/// Writes the entry at `index` among the exports or the imports, as `kind` says: its name to the
/// first bytes of `name`, how many these are, and its address. Returns as `tell_address` does.
fn tell_entry(
    image: &[u8],
    sandbox: u32,
    kind: Kind,
    index: u32,
    name: &mut [u8; NAME_MOST],
    name_size: &mut u32,
    address: &mut u32,
) -> u32
    ensures known { result ≤ 5 }

    // What each status means.
    ensures found { result ≡ 0 → (e : Named) × IsEntryAnswer image.now sandbox kind index (Ok e)
        × IsToldEntry e name.old name.new name_size.new address.new }
    ensures missing { (m : Missing) → result ≡ number_of m
        → IsEntryAnswer image.now sandbox kind index (Err m) }
    ensures name_unwritten { result ≢ 0 → name.new ≡ name.old }
    ensures numbers_unwritten { result ≢ 0
        → (name_size.new ≡ name_size.old) × (address.new ≡ address.old) }

    // Which bytes get it.
    ensures only_found { (e : Named) → IsEntryAnswer image.now sandbox kind index (Ok e)
        → (result ≡ 0) × IsToldEntry e name.old name.new name_size.new address.new }
    ensures only_missing { (m : Missing)
        → IsEntryAnswer image.now sandbox kind index (Err m) → result ≡ number_of m }
{
    match entry_in(image, sandbox, kind, index) {
        Ok(entry) => {
            name[..entry.name.len()].copy_from_slice(entry.name);
            *name_size = entry.name.len() as u32;
            *address = entry.address;
            0
        }
        Err(missing) => missing.number(),
    }
}

/// Writes the entry at an index among the exports of the image's sandbox `sandbox`, both counted
/// from 0: its name to the first bytes of `name`, how many these are, and its address. Returns as
/// [`sfi_run_export`] does; of a table that has no entry of the index `NoName`.
#[unsafe(no_mangle)]
pub extern "C" fn sfi_run_export_at(
    image: &[u8],
    sandbox: u32,
    index: u32,
    name: &mut [u8; NAME_MOST],
    name_size: &mut u32,
    address: &mut u32,
) -> u32
    ensures known { result ≤ 5 }

    // What each status means.
    ensures found { result ≡ 0 → (e : Named) × IsEntryAnswer image.now sandbox Kind.Exports index (Ok e)
        × IsToldEntry e name.old name.new name_size.new address.new }
    ensures missing { (m : Missing) → result ≡ number_of m
        → IsEntryAnswer image.now sandbox Kind.Exports index (Err m) }
    ensures name_unwritten { result ≢ 0 → name.new ≡ name.old }
    ensures numbers_unwritten { result ≢ 0
        → (name_size.new ≡ name_size.old) × (address.new ≡ address.old) }

    // Which bytes get it.
    ensures only_found { (e : Named) → IsEntryAnswer image.now sandbox Kind.Exports index (Ok e)
        → (result ≡ 0) × IsToldEntry e name.old name.new name_size.new address.new }
    ensures only_missing { (m : Missing)
        → IsEntryAnswer image.now sandbox Kind.Exports index (Err m) → result ≡ number_of m }
{
    tell_entry(
        image,
        sandbox,
        Kind::Exports,
        index,
        name,
        name_size,
        address,
    )
}

/// Writes the entry at an index among the imports. Returns as [`sfi_run_export_at`] does.
#[unsafe(no_mangle)]
pub extern "C" fn sfi_run_import_at(
    image: &[u8],
    sandbox: u32,
    index: u32,
    name: &mut [u8; NAME_MOST],
    name_size: &mut u32,
    address: &mut u32,
) -> u32
    ensures known { result ≤ 5 }

    // What each status means.
    ensures found { result ≡ 0 → (e : Named) × IsEntryAnswer image.now sandbox Kind.Imports index (Ok e)
        × IsToldEntry e name.old name.new name_size.new address.new }
    ensures missing { (m : Missing) → result ≡ number_of m
        → IsEntryAnswer image.now sandbox Kind.Imports index (Err m) }
    ensures name_unwritten { result ≢ 0 → name.new ≡ name.old }
    ensures numbers_unwritten { result ≢ 0
        → (name_size.new ≡ name_size.old) × (address.new ≡ address.old) }

    // Which bytes get it.
    ensures only_found { (e : Named) → IsEntryAnswer image.now sandbox Kind.Imports index (Ok e)
        → (result ≡ 0) × IsToldEntry e name.old name.new name_size.new address.new }
    ensures only_missing { (m : Missing)
        → IsEntryAnswer image.now sandbox Kind.Imports index (Err m) → result ≡ number_of m }
{
    tell_entry(
        image,
        sandbox,
        Kind::Imports,
        index,
        name,
        name_size,
        address,
    )
}

/// Writes to `version` the version of the host's interface that the table of the image's sandbox
/// `sandbox` states. Returns as [`sfi_run_export`] does, and never `NoName`.
#[unsafe(no_mangle)]
pub extern "C" fn sfi_run_api(image: &[u8], sandbox: u32, version: &mut u32) -> u32
    ensures known { result ≤ 4 }

    // What each status means.
    ensures found { result ≡ 0 → (t : Table) × HasTableOf image.now sandbox t
        × (version.new ≡ t.version) }
    ensures missing { (m : Missing) → result ≡ number_of m → HasNoTable image.now sandbox m }
    ensures unwritten { result ≢ 0 → version.new ≡ version.old }

    // Which bytes get it.
    ensures only_found { (t : Table) → HasTableOf image.now sandbox t
        → (result ≡ 0) × (version.new ≡ t.version) }
    ensures only_missing { (m : Missing) → HasNoTable image.now sandbox m → result ≡ number_of m }
{
    match names_in(image, sandbox) {
        Ok(names) => {
            *version = names.version;
            0
        }
        Err(missing) => missing.number(),
    }
}
