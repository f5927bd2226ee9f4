//! Names with their addresses, one after another. An entry is the address in four bytes,
//! little-endian, a byte that says how many bytes the name has, and the name: `entry` of
//! specs/Tables says the same.
ghost use Rattle.std.specs.Prelude.{◌≡◌, ◌≢◌, ℕ, ◌<◌, ◌≤◌, ◌+◌, ◌++◌, ◌↔◌, ◌-◌, List, length, IsTrue, Some, None, IfSome, IfNone, OnOk, slice_get};
ghost use Rattle.std.specs.List.{All};
ghost use Rattle.sfi_image.specs.Spelling.{number, IsWord};
ghost use Rattle.sfi_names.specs.Tables.{Named, entry, entries, IsName, IsNamed};
ghost use Rattle.sfi_names.specs.Tables.{named};
ghost use Rattle.sfi_names.specs.Tables.{address_of};

use byteorder::{ByteOrder, LittleEndian};
use std::alloc::AllocError;

/// How many bytes a number has, in a table as in an image.
pub(crate) const NUMBER_BYTES: usize = 4;

/// A name with its address.
#[derive(Clone, Copy)]
pub struct NameEntry<'a> {
    /// Where the function, the object or the gate lies, as the table says.
    pub address: u32,
    /// Its 1 to 255 bytes, each a visible character of ASCII.
    pub name: &'a [u8],
}

/// The little-endian number in the first four bytes, and the bytes after it.
pub(crate) fn number_at(bytes: &[u8]) -> (u32, &[u8])
    requires { NUMBER_BYTES ≤ length bytes.now }
    ensures front { bytes.now ≡ number result.0 ++ result.1.now }
    ensures word { IsWord result.0 }
    ensures len { length result.1.now + NUMBER_BYTES ≡ length bytes.now }
{
    let (front, rest) = bytes.split_at(NUMBER_BYTES);
    (LittleEndian::read_u32(front), rest)
}

/// Appends the number in four bytes, little-endian. An error means that memory ran out.
#[tactic(auto, unfolding(sfi_image::specs::Spelling::number))]
pub(crate) fn push_number(bytes: &mut Vec<u8>, n: u32) -> Result<(), AllocError>
    ensures { OnOk result (bytes.new.items ≡ bytes.old.items ++ number n) }
{
    let mut four = [0; NUMBER_BYTES];
    LittleEndian::write_u32(&mut four, n);
    bytes.extend_from_slice(&four)?;
    Ok(())
}

impl NameEntry<'_> {
    /// Appends the entry's bytes. An error means that memory ran out.
    #[tactic(auto, using(std::proofs::Common::append_assoc), unfolding(crate::specs::Tables::entry))]
    pub fn push(&self, bytes: &mut Vec<u8>) -> Result<(), AllocError>
        requires { IsName self.now.name.now }
        ensures { OnOk result (bytes.new.items ≡ bytes.old.items ++ entry (named self.now)) }
    {
        push_number(bytes, self.address)?;
        bytes.push(self.name.len() as u8)?;
        bytes.extend_from_slice(self.name)?;
        Ok(())
    }
}

/// Whether the bytes are a name: 1 to 255, each a visible character of ASCII.
fn is_name(bytes: &[u8]) -> bool
    ensures { IsTrue result ↔ IsName bytes.now }
{
    if bytes.is_empty() {
        return false;
    }
    if bytes.len() > 255 {
        return false;
    }
    bytes.iter().all(|byte| 33 <= *byte && *byte <= 126)
}

/// The entry at the front of the bytes, and the bytes after it; or none, if no entry begins them.
pub fn first_name_entry(bytes: &[u8]) -> Option<(NameEntry<'_>, &[u8])>
    ensures found { IfSome result (λ f. IsNamed (named f.0)
        × (bytes.now ≡ entry (named f.0) ++ f.1.now)) }
    ensures none { IfNone result ((e : Named) (rest : List ℕ) → IsNamed e
        → bytes.now ≢ entry e ++ rest) }
    ensures falls { IfSome result (λ f. length f.1.now < length bytes.now) }
{
    if bytes.len() <= NUMBER_BYTES {
        return None;
    }
    let (address, rest) = number_at(bytes);
    let size = rest[0] as usize;
    let rest = &rest[1..];
    if rest.len() < size {
        return None;
    }
    let (name, rest) = rest.split_at(size);
    if is_name(name) {
        Some((NameEntry { address, name }, rest))
    } else {
        None
    }
}

/// Whether the bytes are entries, one after another, and nothing else; true where there is no byte.
pub(crate) fn are_name_entries(bytes: &[u8]) -> bool
    ensures { IsTrue result ↔ ((es : List Named) × All IsNamed es × (bytes.now ≡ entries es)) }
{
    let mut rest = bytes;
    while !rest.is_empty() {
        match first_name_entry(rest) {
            Some((_, more)) => rest = more,
            None => return false,
        }
    }
    true
}

/// The address of the first of the entries in `bytes` that has the name; `None` if none has it.
pub(crate) fn address_named(bytes: &[u8], name: &[u8]) -> Option<u32>
    ensures { (es : List Named) → All IsNamed es → bytes.now ≡ entries es
        → result ≡ address_of name.now es }
{
    let mut rest = bytes;
    while let Some((entry, more)) = first_name_entry(rest) {
        if entry.name == name {
            return Some(entry.address);
        }
        rest = more;
    }
    None
}

/// The entry of that index, counted from 0, among the entries in `bytes`; `None` if there are not
/// so many.
pub(crate) fn entry_at(bytes: &[u8], index: u32) -> Option<NameEntry<'_>>
    ensures found { IfSome result (λ f. (es : List Named) → All IsNamed es
        → bytes.now ≡ entries es → slice_get es index ≡ Some (named f)) }
    ensures none { IfNone result ((es : List Named) → All IsNamed es
        → bytes.now ≡ entries es → slice_get es index ≡ None) }
{
    let mut rest = bytes;
    let mut before = index;
    while let Some((entry, more)) = first_name_entry(rest) {
        if before == 0 {
            return Some(entry);
        }
        before -= 1;
        rest = more;
    }
    None
}
