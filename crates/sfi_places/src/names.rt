//! Writing a table of names for another place, in the bytes of an image.
ghost use Rattle.std.specs.Prelude.{◌≡◌, ℕ, ◌+◌, List, length, map, IfSome, IfNone};
ghost use Rattle.std.specs.List.{All};
ghost use Rattle.sfi_image.specs.Keeping.{LiesAt};
ghost use Rattle.sfi_names.specs.Tables.{Named, Table, HasTable, IsNamed, entry, entries};
ghost use Rattle.sfi_places.specs.Moving.{holds, address_there, entry_there, AreFirstThere};
ghost use Rattle.sfi_places.specs.private.{IsReplaced, HasRoomThere};

use crate::numbers::{read_number, write_number};
use sfi_formats::Place;
use sfi_image::Fields;
use sfi_names::Names;

// Of an entry of a table of names (specs/Tables of `sfi_names`): which byte says how long its name
// is, and at which the name begins, counted from 0. And how many bytes a table has after its
// entries: its three numbers and the magic.
const LENGTH_AT: usize = 4;

const NAME_AT: usize = 5;

const FOOTER_BYTES: usize = 16;

/// Whether the address is one of the `size` addresses from `base` on, those of a region.
fn is_within(base: u32, size: u32, address: u32) -> bool
    ensures { result ≡ holds (record { base = base; size = size }) address }
{
    base <= address && address - base < size
}

/// What an address becomes where the sandbox with these fields moves to the place. One in neither
/// of its regions stays.
fn address_there(fields: &Fields, to: Place, address: u32) -> u32
    requires { HasRoomThere fields.now to }
    ensures { result ≡ address_there fields.now to address }
{
    if is_within(fields.code_base, fields.code_size, address) {
        return to.code_base + (address - fields.code_base);
    }
    if is_within(fields.data_base, fields.data_size, address) {
        return to.data_base + (address - fields.data_base);
    }
    address
}

/// Writes the entry at byte `at` of the image for the place, and returns how many bytes it has. One
/// whose name begins with a dot is a claim of the tools (tools/suygapid/image/names.py): it has a
/// number, no address, and stays.
fn write_entry(image: &mut [u8], at: usize, fields: &Fields, to: Place) -> usize
    requires room { HasRoomThere fields.now to }
    requires lies { (e : Named) × IsNamed e × LiesAt image.old at (entry e) }
    ensures len { (e : Named) → IsNamed e → LiesAt image.old at (entry e)
        → result ≡ length (entry e) }
    ensures written { (e : Named) → IsNamed e
        → IsReplaced image.old image.new at (entry e) (entry (entry_there fields.now to e)) }
{
    let size = image[at + LENGTH_AT] as usize;
    if image[at + NAME_AT] != b'.' {
        let address = read_number(image, at);
        write_number(image, at, address_there(fields, to, address));
    }
    NAME_AT + size
}

/// Writes the entries of a table of names, from byte `begin` of the image up to `end`, for the
/// place.
fn write_entries(image: &mut [u8], begin: usize, end: usize, fields: &Fields, to: Place)
    requires room { HasRoomThere fields.now to }
    requires lies { (es : List Named) × All IsNamed es × LiesAt image.old begin (entries es)
        × (end ≡ begin + length (entries es)) }
    ensures { (es : List Named) → All IsNamed es → end ≡ begin + length (entries es)
        → IsReplaced image.old image.new begin (entries es)
        (entries (map (entry_there fields.now to) es)) }
{
    let mut at = begin;
    while at < end {
        at += write_entry(image, at, fields, to);
    }
}

/// How many bytes the entries, exports and imports, have of the table of names in which the bytes
/// end; `None` if they don't end in one.
fn entries_len(bytes: &[u8]) -> Option<usize>
    ensures found { IfSome result (λ n. (t : Table) × HasTable bytes.now t
        × (n ≡ length (entries t.exports) + length (entries t.imports))) }
    ensures none { IfNone result ((t : Table) → HasTable bytes.now t → ⊥) }
{
    match Names::at_end(bytes) {
        Ok(names) => Some(names.exports.len() + names.imports.len()),
        Err(_) => None,
    }
}

/// Writes the table of names for the place, if the first data bytes of the sandbox with these
/// fields end in one. They lie from byte `begin` of the image up to `end`.
pub(crate) fn write_names(image: &mut [u8], begin: usize, end: usize, fields: &Fields, to: Place)
    requires room { HasRoomThere fields.now to }
    requires lies { (first : List ℕ) × LiesAt image.old begin first
        × (end ≡ begin + length first) }
    ensures { (first : List ℕ) → LiesAt image.old begin first → end ≡ begin + length first
        → (now : List ℕ) × AreFirstThere fields.now to first now
        × IsReplaced image.old image.new begin first now }
{
    if let Some(len) = entries_len(&image[begin..end]) {
        let end = end - FOOTER_BYTES;
        write_entries(image, end - len, end, fields, to);
    }
}
