//! The tables of names for which a text asks: a sandbox's table has the names and addresses of what
//! it exports to the host and of the gates that it imports, and stands at the end of its first data
//! bytes.
ghost use Rattle.std.specs.Prelude.{◌≡◌, ◌+◌, ◌++◌, ◌≤◌, ◌↔◌, ℕ, List, length, map, slice_get, Ok, Some, IsTrue, IfOk, IfErr, OnOk};
ghost use Rattle.std.specs.List.{All};
ghost use Rattle.sfi_formats.specs.Limits.{sandboxes_most};
ghost use Rattle.sfi_source.specs.Names.{IsShortLabel};
ghost use Rattle.sfi_source.specs.Source.{IsSandbox};
ghost use Rattle.sfi_names.specs.Tables.{Named, IsNamed, entry, entries};
ghost use Rattle.sfi_link.specs.Linked.{IsLinkedImage, contents, each_with};
ghost use Rattle.sfi_build.specs.Tables.{address_in, entry_with, entries_of, is_unlisted, tail_of, tails_from, sandbox_with};
ghost use Rattle.sfi_build.specs.private.{IsEntryStop, IsTableStop};

use crate::address::placed_address;
use crate::fault::BuildFault;
use crate::table_fault::TableFault;
use sfi_formats::Place;
use sfi_names::{NameEntry, Names as Table};
use sfi_rewrite::Placed;
use sfi_source::{Names, SourcePart};
use sfi_text::{Listed, SharedNames};
use std::alloc::Global;

/// How many bytes a table has after its entries: three numbers of 4 bytes and the magic of 4. The
/// layout is that of `sfi_names`, which writes the table.
const FOOTER_BYTES: usize = 16;

/// Appends the table's entry of `one`, a name that the text lists for sandbox `sandbox`: its text,
/// of `names`, and its address in the image of what is placed. A name without an address is
/// `Unknown`.
fn push_listed(
    bytes: &mut Vec<u8>,
    placed: &Placed,
    places: &[Place],
    sandbox: u32,
    names: &Names,
    one: &Listed,
) -> Result<(), BuildFault>
    requires few { length placed.now ≤ sandboxes_most }
    requires linked { (bytes : List ℕ) × IsLinkedImage places.now placed.now bytes }
    requires names { All (λ e. IsShortLabel e.0) names.now }
    ensures pushed { OnOk result ((e : Named) × IsNamed e
        × (entry_with (slice_get (map (λ e. e.0) names.now) one.now.name)
        (address_in places.now sandbox (slice_get placed.now sandbox) one.now.name) ≡ Some e)
        × (bytes.new.items ≡ bytes.old.items ++ entry e)) }
    ensures fault { IfErr result (IsEntryStop
        (entry_with (slice_get (map (λ e. e.0) names.now) one.now.name)
        (address_in places.now sandbox (slice_get placed.now sandbox) one.now.name)) one.now.line) }
{
    let name = names.text(one.name);
    let address = placed_address(placed, places, sandbox, one.name);
    let (Some(name), Some(address)) = (name, address) else {
        return Err(BuildFault::Names(TableFault::Unknown { line: one.line }));
    };
    let entry = NameEntry {
        address,
        name: name.as_bytes(),
    };
    entry.push(bytes)?;
    Ok(())
}

/// The bytes of the table's entries of all names that the text lists for sandbox `sandbox`, in
/// their order; or the fault of the first that has no address.
fn entries_of(
    alloc: Global,
    placed: &Placed,
    places: &[Place],
    sandbox: u32,
    names: &Names,
    listed: &[Listed],
) -> Result<Vec<u8>, BuildFault>
    requires few { length placed.now ≤ sandboxes_most }
    requires linked { (bytes : List ℕ) × IsLinkedImage places.now placed.now bytes }
    requires names { All (λ e. IsShortLabel e.0) names.now }
    ensures entries { IfOk result (λ bytes. (es : List Named) × All IsNamed es
        × (bytes.items ≡ entries es)
        × (entries_of (address_in places.now sandbox (slice_get placed.now sandbox))
        (map (λ e. e.0) names.now) listed.now ≡ Ok es)) }
    ensures fault { IfErr result (IsTableStop
        (entries_of (address_in places.now sandbox (slice_get placed.now sandbox))
        (map (λ e. e.0) names.now) listed.now)) }
{
    let mut bytes = Vec::new(alloc);
    for one in listed {
        push_listed(&mut bytes, placed, places, sandbox, names, one)?;
    }
    Ok(bytes)
}

/// Whether the text lists no name for a sandbox, which then gets no table.
fn is_unlisted(shared: &SharedNames) -> bool
    ensures { result ≡ is_unlisted shared.now }
{
    shared.exports.is_empty() && shared.imports.is_empty()
}

/// Whether `room` bytes hold a table whose entries take `exports` and `imports` bytes. No sum is
/// made, so that none can overflow.
fn has_room(room: usize, exports: usize, imports: usize) -> bool
    ensures { IsTrue result ↔ (exports + imports + FOOTER_BYTES ≤ room) }
{
    exports <= room && imports <= room - exports && FOOTER_BYTES <= room - exports - imports
}

/// The first data bytes of sandbox `sandbox`, whose source is `part`: those of the source, and
/// after them its table, if the text lists names for it (`shared`).
fn init_with_table(
    alloc: Global,
    placed: &Placed,
    places: &[Place],
    sandbox: u32,
    shared: &SharedNames,
    part: &SourcePart,
) -> Result<Vec<u8>, BuildFault>
    requires few { length placed.now ≤ sandboxes_most }
    requires linked { (bytes : List ℕ) × IsLinkedImage places.now placed.now bytes }
    requires right { IsSandbox part.now }
    ensures init { IfOk result (λ init. (tail : List ℕ) × (init.items ≡ part.now.bytes ++ tail)
        × (tail_of (address_in places.now sandbox (slice_get placed.now sandbox)) sandbox shared.now
        part.now ≡ Ok tail)) }
    ensures fault { IfErr result (IsTableStop
        (tail_of (address_in places.now sandbox (slice_get placed.now sandbox)) sandbox shared.now
        part.now)) }
{
    let mut init = Vec::new(alloc);
    init.extend_from_slice(part.bytes())?;
    if is_unlisted(shared) {
        return Ok(init);
    }
    let names = part.names();
    let exports = entries_of(alloc, placed, places, sandbox, names, &shared.exports)?;
    let imports = entries_of(alloc, placed, places, sandbox, names, &shared.imports)?;
    let room = part.data_size() as usize - part.bytes().len();
    if !has_room(room, exports.len(), imports.len()) {
        return Err(BuildFault::Names(TableFault::NoRoom { sandbox }));
    }
    let table = Table {
        version: 0,
        exports: &exports,
        imports: &imports,
    };
    table.push(&mut init)?;
    Ok(init)
}

/// The first data bytes of each sandbox, with its table, or the fault of the first sandbox that has
/// one. `shared` has the names that the text lists for each of the sandboxes `parts`.
pub(crate) fn inits_of(
    alloc: Global,
    placed: &Placed,
    places: &[Place],
    shared: &[SharedNames],
    parts: &[SourcePart],
) -> Result<Vec<Vec<u8>>, BuildFault>
    requires few { length placed.now ≤ sandboxes_most }
    requires linked { (bytes : List ℕ) × IsLinkedImage places.now placed.now bytes }
    requires right { All IsSandbox parts.now }
    requires short { length parts.now ≤ sandboxes_most }
    requires listed { length shared.now ≡ length parts.now }
    ensures inits { IfOk result (λ inits. (tails : List (List ℕ))
        × (tails_from places.now placed.now 0 shared.now parts.now ≡ Ok tails)
        × (contents inits.items ≡ map (λ s. s.bytes) (each_with sandbox_with tails parts.now))) }
    ensures fault { IfErr result (IsTableStop
        (tails_from places.now placed.now 0 shared.now parts.now)) }
{
    let mut inits = Vec::new(alloc);
    for (sandbox, part) in parts.iter().enumerate() {
        let listed = &shared[sandbox];
        let init = init_with_table(alloc, placed, places, sandbox as u32, listed, part)?;
        inits.push(init)?;
    }
    Ok(inits)
}
