//! A cursor over an image's bytes, which steps from sandbox to sandbox.
ghost use Rattle.std.specs.Prelude.{◌≡◌, ◌<◌, ◌++◌, ◌∷◌, [], ℕ, List, length, slice_get, IfOk, IfErr, IfSome, IfNone};
ghost use Rattle.std.specs.List.{flat_map};
ghost use Rattle.sfi_formats.specs.declared.format.Format.{Format};
ghost use Rattle.sfi_image.specs.declared.part.Gate.{Gate};
ghost use Rattle.sfi_image.specs.Spelling.{Part, gate};
ghost use Rattle.sfi_image.specs.Parts.{IsImage};
ghost use Rattle.sfi_image.specs.Faults.{IsFault};
ghost use Rattle.sfi_image.specs.Prefixes.{ImagePrefix, after_gates, after_init, after_parts, part_of};
ghost use Rattle.sfi_image.specs.Prefixes.ImagePrefix.{AfterCount, InCode};
ghost use Rattle.sfi_image.specs.Keeping.{HasPassed, HasRead, IsViewOf, unread};
ghost use Rattle.sfi_image.specs.private.{MayTake};
ghost use Rattle.sfi_image.specs.private.{Gives, LeadsOn};

use crate::fault::LayoutFault;
use crate::fields::Fields;
use crate::layout_reader::LayoutReader;
use crate::part::Gate;
use crate::reading::{FIELDS_BYTES, GATE_BYTES, MAGIC_BYTES, NUMBER_BYTES, fields_at, gate_at};
use crate::want::Want;
use sfi_formats::Format;

/// A sandbox as it lies in the bytes of an image.
#[derive(Clone, Copy)]
pub struct PartView<'a> {
    /// Its seven fields, and the image's format.
    pub fields: Fields,
    /// Its gates, of 8 bytes each.
    pub gates: &'a [u8],
    /// All bytes of the code region.
    pub code: &'a [u8],
    /// The first bytes of the data region.
    pub init: &'a [u8],
}

impl<'a> PartView<'a> {
    /// Gate `index`, counted from 0; `None` where there are no more than `index` gates.
    pub fn gate(&self, index: u32) -> Option<Gate>
        requires { (p : Part) × IsViewOf self.now p }
        ensures { (p : Part) → IsViewOf self.now p → result ≡ slice_get p.gates index }
    {
        if index >= self.fields.gate_count {
            return None;
        }
        let (gate, _) = gate_at(&self.gates[GATE_BYTES * index as usize..]);
        Some(gate)
    }
}

/// Reads an image's layout from all of its bytes, and takes no memory.
#[derive(Drop)]
pub struct ImageCursor<'a> {
    reader: LayoutReader,
    rest: &'a [u8],
}

impl<'a> ImageCursor<'a> {
    /// A cursor before the first sandbox, with the magic and the count read, or their fault.
    pub fn new(bytes: &'a [u8]) -> Result<ImageCursor<'a>, LayoutFault>
        ensures begun { IfOk result (λ c. (format : Format) × (n : ℕ)
            × HasPassed bytes.entry.now format n [] c) }
        ensures fault { IfErr result (λ k. IsFault bytes.entry.now k) }
    {
        let mut cursor = ImageCursor {
            reader: LayoutReader::new(),
            rest: bytes,
        };
        cursor.take(MAGIC_BYTES)?;
        cursor.take(NUMBER_BYTES)?;
        Ok(cursor)
    }

    /// The image's format.
    pub fn format(&self) -> Format
        ensures { (bytes : List ℕ) (format : Format) (n : ℕ) (ps : List Part)
            → HasPassed bytes format n ps self.now → result ≡ format }
    {
        self.reader.format()
    }

    /// The bytes that it has not read.
    pub fn unread(&self) -> &'a [u8]
        ensures { result.now ≡ unread self.now }
    {
        self.rest
    }

    /// The next sandbox, or none at the image's end. The error is the first fault of the bytes,
    /// also of those after the last sandbox; then the cursor isn't to be used any more.
    pub fn next_part(&mut self) -> Result<Option<PartView<'a>>, LayoutFault>
        requires { (bytes : List ℕ) × (format : Format) × (n : ℕ) × (ps : List Part)
            × HasPassed bytes format n ps self.old }
        ensures part { IfOk result (λ next. IfSome next (λ v.
            (bytes : List ℕ) (format : Format) (n : ℕ) (ps : List Part)
            → HasPassed bytes format n ps self.old
            → (p : Part) × IsViewOf v p × HasPassed bytes format n (ps ++ p ∷ []) self.new)) }
        ensures falls { IfOk result (λ next. IfSome next (λ v.
            length (unread self.new) < length (unread self.old))) }
        ensures end { IfOk result (λ next. IfNone next (
            (bytes : List ℕ) (format : Format) (n : ℕ) (ps : List Part)
            → HasPassed bytes format n ps self.old → IsImage bytes ps)) }
        ensures stays { IfOk result (λ next. IfNone next (self.new ≡ self.old)) }
        ensures fault { IfErr result (λ k.
            (bytes : List ℕ) (format : Format) (n : ℕ) (ps : List Part)
            → HasPassed bytes format n ps self.old → IsFault bytes k) }
    {
        if let Want::End = self.reader.wants() {
            if self.rest.is_empty() {
                return Ok(None);
            }
            return Err(LayoutFault::Trailing);
        }
        let view = self.take_part()?;
        Ok(Some(view))
    }

    /// Reads the sandbox that comes next.
    fn take_part(&mut self) -> Result<PartView<'a>, LayoutFault>
        requires { (bytes : List ℕ) × (format : Format) × (n : ℕ) × (ps : List Part)
            × HasRead bytes (AfterCount format n ps) self.old }
        ensures { (bytes : List ℕ) (format : Format) (n : ℕ) (ps : List Part)
            → HasRead bytes (AfterCount format n ps) self.old
            → Gives (λ v. (p : Part) × (p.format ≡ format) × IsViewOf v p
            × HasRead bytes (after_parts format n (ps ++ p ∷ [])) self.new)
            (IsFault bytes) result }
    {
        let fields = self.take_fields()?;
        let gates = self.take_gates(&fields)?;
        let code = self.take_code(&fields)?;
        let init = self.take_init(&fields)?;
        Ok(PartView {
            fields,
            gates,
            code,
            init,
        })
    }

    /// Hands the next `len` bytes to the reader, and returns them; `Short` if there are fewer.
    fn take(&mut self, len: usize) -> Result<&'a [u8], LayoutFault>
        requires { MayTake self.old.reader len }
        ensures { (bytes : List ℕ) (x : ImagePrefix) → HasRead bytes x self.old
            → Gives (λ s. LeadsOn bytes x len s.now self.old self.new) (IsFault bytes) result }
    {
        if self.rest.len() < len {
            return Err(LayoutFault::Short);
        }
        let (front, rest) = self.rest.split_at(len);
        if let Some(fault) = self.reader.advance(front) {
            return Err(fault);
        }
        self.rest = rest;
        Ok(front)
    }

    /// Reads the seven fields of the sandbox that comes next.
    fn take_fields(&mut self) -> Result<Fields, LayoutFault>
        requires { (bytes : List ℕ) × (format : Format) × (n : ℕ) × (ps : List Part)
            × HasRead bytes (AfterCount format n ps) self.old }
        ensures { (bytes : List ℕ) (format : Format) (n : ℕ) (ps : List Part)
            → HasRead bytes (AfterCount format n ps) self.old
            → Gives (λ f. (f.format ≡ format) × HasRead bytes (after_gates n ps f []) self.new)
            (IsFault bytes) result }
    {
        let format = self.reader.format();
        let front = self.take(FIELDS_BYTES)?;
        let (fields, _) = fields_at(format, front);
        Ok(fields)
    }

    /// Reads the sandbox's gates: their bytes.
    fn take_gates(&mut self, fields: &Fields) -> Result<&'a [u8], LayoutFault>
        requires { (bytes : List ℕ) × (n : ℕ) × (ps : List Part)
            × HasRead bytes (after_gates n ps fields.now []) self.old }
        ensures { (bytes : List ℕ) (n : ℕ) (ps : List Part)
            → HasRead bytes (after_gates n ps fields.now []) self.old
            → Gives (λ s. (gs : List Gate) × (s.now ≡ flat_map gate gs)
            × HasRead bytes (InCode n ps fields.now gs []) self.new)
            (IsFault bytes) result }
    {
        let all = self.rest;
        for _ in 0..fields.gate_count {
            self.take(GATE_BYTES)?;
        }
        Ok(&all[..all.len() - self.rest.len()])
    }

    /// Reads all of the sandbox's code.
    fn take_code(&mut self, fields: &Fields) -> Result<&'a [u8], LayoutFault>
        requires { (bytes : List ℕ) × (n : ℕ) × (ps : List Part) × (gs : List Gate)
            × HasRead bytes (InCode n ps fields.now gs []) self.old }
        ensures { (bytes : List ℕ) (n : ℕ) (ps : List Part) (gs : List Gate)
            → HasRead bytes (InCode n ps fields.now gs []) self.old
            → Gives (λ s. (length s.now ≡ fields.now.code_size)
            × HasRead bytes (after_init n ps fields.now gs s.now []) self.new)
            (IsFault bytes) result }
    {
        self.take(fields.code_size as usize)
    }

    /// Reads the sandbox's first data bytes. If there are none, the reader is past them already,
    /// and is handed nothing.
    fn take_init(&mut self, fields: &Fields) -> Result<&'a [u8], LayoutFault>
        requires { (bytes : List ℕ) × (n : ℕ) × (ps : List Part) × (gs : List Gate)
            × (code : List ℕ) × HasRead bytes (after_init n ps fields.now gs code []) self.old }
        ensures { (bytes : List ℕ) (n : ℕ) (ps : List Part) (gs : List Gate) (code : List ℕ)
            → HasRead bytes (after_init n ps fields.now gs code []) self.old
            → Gives (λ s. (length s.now ≡ fields.now.init_len)
            × HasRead bytes (after_parts fields.now.format n
            (ps ++ part_of fields.now gs code s.now ∷ [])) self.new)
            (IsFault bytes) result }
    {
        if fields.init_len == 0 {
            return Ok(&self.rest[..0]);
        }
        self.take(fields.init_len as usize)
    }
}
