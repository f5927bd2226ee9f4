//! From what is placed to an image.
ghost use Rattle.std.specs.Prelude.{◌≡◌, ◌≢◌, ◌+◌, ◌*◌, ◌<◌, ◌≤◌, ◌^◌, ℕ, List, [], length, get_or, Err, IfOk, IfErr};
ghost use Rattle.std.specs.List.{All};
ghost use Rattle.sfi_source.specs.Source.{Sandbox};
ghost use Rattle.sfi_image.specs.Spelling.{view, views};
ghost use Rattle.sfi_rewrite.specs.Placed.{IsPlacedPart, IsPlaced, AreOf, format_of};
ghost use Rattle.sfi_link.specs.declared.fault.LinkFault.{LinkFault};
ghost use Rattle.sfi_link.specs.declared.fault.LinkFault.TheVariants.{TooManySandboxes};
ghost use Rattle.sfi_link.specs.declared.fault.LinkFault.TheVariants as fault;
ghost use Rattle.sfi_formats.specs.Places.{place_of};
ghost use Rattle.sfi_link.specs.Linked.{IsRightPlace};
ghost use Rattle.sfi_link.specs.Linked.{gates_from, part_with, IsLinkedCode, AreLinkedFrom};
ghost use Rattle.sfi_link.specs.Linked.{contents, parts_with, AreLinkedCodes, with_bytes, each_with};
ghost use Rattle.sfi_link.specs.Linked.{IsLinkedImage, ArePlacements, IsBuild};
ghost use Rattle.sfi_link.specs.Linked.{HaveUsualPlaces};
ghost use Rattle.sfi_formats.specs.Limits.{bundle_size, gates_most, sandboxes_most};
ghost use Rattle.sfi_link.specs.Faults.{IsPartFault, IsLinkFault};
ghost use Rattle.sfi_link.specs.private.{AreCodes, Links, set_init};
ghost use Rattle.sfi_link.specs.Faults.{UnlessMemory, AnswersItems, AnswersFault};

use crate::bases::bases_of;
use crate::code_region::linked_code;
use crate::fault::LinkFault;
use sfi_formats::{BUNDLE_SIZE, Format, Place, SANDBOX_COUNT_MOST};
use sfi_image::{Gate, ImageFault, SandboxPart, write_image_as};
use sfi_rewrite::{Placed, PlacedPart};
use sfi_source::SourceGate;
use std::alloc::{AllocError, Global};

/// The gates as an image has them: the stubs, of 16 bytes each, lie one after another from
/// `address` on.
fn gates_from(alloc: Global, address: u32, gates: &[SourceGate]) -> Result<Vec<Gate>, AllocError>
    requires few { length gates.now ≤ gates_most }
    requires room { address + bundle_size * length gates.now < 2 ^ 32 }
    ensures { IfOk result (λ listed. listed.items ≡ gates_from address gates.now) }
{
    let mut listed = Vec::new(alloc);
    for (k, gate) in gates.iter().enumerate() {
        listed.push(Gate {
            address: address + BUNDLE_SIZE * k as u32,
            service: gate.service,
        })?;
    }
    Ok(listed)
}

/// Sandbox `number`, with `code` as its whole code region and `init` as its first data bytes, as a
/// part of an image.
fn linked_part<'a>(
    alloc: Global,
    given: &[Place],
    number: u32,
    placed: &PlacedPart,
    code: &'a [u8],
    init: &'a [u8],
) -> Result<SandboxPart<'a>, AllocError>
    requires few { number < sandboxes_most }
    requires right { IsPlacedPart placed.now }
    requires made { IsLinkedCode given.now number placed.now code.now
        × IsRightPlace placed.now (length code.now) (place_of given.now placed.now.format number) }
    ensures { IfOk result (λ part. view placed.now.format part
        ≡ set_init init.entry.now (part_with given.now number placed.now code.entry.now)) }
{
    let at = bases_of(given, number, placed);
    let gates = gates_from(alloc, at.code, placed.gates())?;
    Ok(SandboxPart {
        code_base: at.code,
        data_base: at.data,
        data_size: placed.data_size(),
        start: at.start,
        gates,
        code,
        init,
    })
}

/// The code region's bytes of each sandbox, linked, or the fault of the first sandbox that has one.
fn codes_of(
    alloc: Global,
    given: &[Place],
    placed: &[PlacedPart],
) -> Result<Vec<Vec<u8>>, LinkFault>
    requires right { IsPlaced placed.now }
    requires few { length placed.now ≤ sandboxes_most }
    ensures { Links (λ codes. AreCodes given.now 0 [] [] placed.now (contents codes.items))
        (IsPartFault given.now 0 [] [] placed.now) result }
{
    let mut codes = Vec::new(alloc);
    let mut spans = Vec::new(alloc);
    for (number, part) in placed.iter().enumerate() {
        let code = linked_code(alloc, given, number as u32, part, &mut spans)?;
        codes.push(code)?;
    }
    Ok(codes)
}

/// The first data bytes of sandbox `number`, counted from 0: entry `number` of `inits`, or those of
/// its source where `inits` has no such entry.
fn init_of<'a>(inits: &'a [Vec<u8>], number: usize, placed: &'a PlacedPart) -> &'a [u8]
    ensures listed { number < length inits.entry.now
        → result.now ≡ get_or (contents inits.entry.now) number result.now }
    ensures own { length inits.entry.now ≤ number → result.now ≡ placed.entry.now.bytes }
{
    match inits.get(number) {
        Some(init) => init,
        None => placed.bytes(),
    }
}

/// Each sandbox, all of this format, with its code and its first data bytes.
fn linked_parts<'a>(
    alloc: Global,
    given: &[Place],
    format: Format,
    placed: &'a [PlacedPart],
    codes: &'a [Vec<u8>],
    inits: &'a [Vec<u8>],
) -> Result<Vec<SandboxPart<'a>>, AllocError>
    requires right { All IsPlacedPart placed.now }
    requires few { length placed.now ≤ sandboxes_most }
    requires format { AreOf format placed.now }
    requires linked { AreLinkedFrom given.now 0 placed.now (parts_with given.now 0 placed.now (contents codes.now)) }
    ensures { IfOk result (λ parts. views format parts.items
        ≡ each_with set_init (contents inits.entry.now)
        (parts_with given.now 0 placed.entry.now (contents codes.entry.now))) }
{
    let mut parts = Vec::new(alloc);
    for (number, part) in placed.iter().enumerate() {
        let init = init_of(inits, number, part);
        let linked = linked_part(alloc, given, number as u32, part, &codes[number], init)?;
        parts.push(linked)?;
    }
    Ok(parts)
}

/// The code region's bytes of each sandbox, with all names replaced by the addresses that they have
/// in the image at these places; or the fault that [`link_at`] answers there. [`image_of`] makes
/// the image of them.
pub fn codes_at(alloc: Global, placed: &Placed, places: &[Place]) -> Result<Vec<Vec<u8>>, LinkFault>
    ensures codes { IfOk result
        (λ codes. AreLinkedCodes places.now placed.now (contents codes.items)) }
    ensures fault { IfErr result (UnlessMemory (IsLinkFault places.now placed.now)) }
    ensures too_many { sandboxes_most < length placed.now → result ≡ Err TooManySandboxes }
    // What the type of `placed` keeps.
    ensures placed { IsPlaced placed.now }
{
    let placed = placed.parts();
    if placed.len() > SANDBOX_COUNT_MOST {
        return Err(LinkFault::TooManySandboxes);
    }
    if places.len() > placed.len() {
        return Err(LinkFault::Place {
            sandbox: placed.len() as u32,
        });
    }
    codes_of(alloc, places, placed)
}

/// Writes the image of what is placed. `codes` is what [`codes_at`] made of it at the same places,
/// and `inits` has the first data bytes of the first sandboxes; one without an entry there has
/// those of its source. The image has a right layout and breaks no rule.
pub fn image_of(
    alloc: Global,
    placed: &Placed,
    places: &[Place],
    codes: &[Vec<u8>],
    inits: &[Vec<u8>],
) -> Result<Vec<u8>, AllocError>
    requires codes { AreLinkedCodes places.now placed.now (contents codes.now) }
    requires inits { IsPlaced (each_with with_bytes (contents inits.now) placed.now) }
    ensures { IfOk result (λ bytes. IsLinkedImage places.now
        (each_with with_bytes (contents inits.now) placed.now) bytes.items) }
{
    let format = placed.format();
    let parts = linked_parts(alloc, places, format, placed.parts(), codes, inits)?;
    match write_image_as(alloc, format, &parts) {
        Ok(bytes) => Ok(bytes),
        Err(ImageFault::Memory) => Err(AllocError),
        Err(ImageFault::Layout(_)) => unreachable!(),
    }
}

/// The image of what is placed, or its fault.
fn linked_image(alloc: Global, placed: &Placed, places: &[Place]) -> Result<Vec<u8>, LinkFault>
    ensures links { Links (λ bytes. IsLinkedImage places.now placed.now bytes.items)
        (IsLinkFault places.now placed.now) result }
    // What the type of `placed` keeps: `no_place` of the calls rests on it.
    ensures placed { IsPlaced placed.now }
    ensures too_many { sandboxes_most < length placed.now → result ≡ Err TooManySandboxes }
{
    let codes = codes_at(alloc, placed, places)?;
    Ok(image_of(alloc, placed, places, &codes, &[])?)
}

/// Gives the names their addresses, and writes the image: sandbox after sandbox its stubs,
/// its code and c.ebreaks after it. The sandboxes lie at the places, in order; those for which none
/// is given lie at their usual ones.
pub fn link_at(alloc: Global, placed: &Placed, places: &[Place]) -> Result<Vec<u8>, LinkFault>
    // What each answer means: the image has a right layout and breaks no rule.
    ensures image { IfOk result (λ bytes. IsLinkedImage places.now placed.now bytes.items) }
    ensures fault { IfErr result (UnlessMemory (IsLinkFault places.now placed.now)) }

    // Which placed sources get each answer, want of memory aside.
    ensures only_image { (bytes : List ℕ)
        → IsLinkedImage places.now placed.now bytes → AnswersItems bytes result }
    ensures only_fault { (f : LinkFault)
        → IsLinkFault places.now placed.now f → AnswersFault f result }

    // Too many sandboxes get their fault, whatever memory there is.
    ensures too_many { sandboxes_most < length placed.now → result ≡ Err TooManySandboxes }

    // Where no place is given, and there is a usual one for each, no fault is that of a place.
    ensures no_place { places.now ≡ []
        → HaveUsualPlaces (format_of placed.now) (length placed.now)
        → (sandbox : ℕ) → result ≢ Err (fault.Place sandbox) }

    // The image is the build of each source that is placed so.
    ensures build { (source : List Sandbox) → ArePlacements source placed.now
        → IfOk result (λ bytes. IsBuild places.now source bytes.items) }
{
    linked_image(alloc, placed, places)
}

/// Links what is placed, as [`link_at`] does, with each sandbox at its usual place.
pub fn link(alloc: Global, placed: &Placed) -> Result<Vec<u8>, LinkFault>
    // What each answer means: the image has a right layout and breaks no rule.
    ensures image { IfOk result (λ bytes. IsLinkedImage [] placed.now bytes.items) }
    ensures fault { IfErr result (UnlessMemory (IsLinkFault [] placed.now)) }

    // Which placed sources get each answer, want of memory aside.
    ensures only_image { (bytes : List ℕ)
        → IsLinkedImage [] placed.now bytes → AnswersItems bytes result }
    ensures only_fault { (f : LinkFault) → IsLinkFault [] placed.now f → AnswersFault f result }

    // Too many sandboxes get their fault, whatever memory there is.
    ensures too_many { sandboxes_most < length placed.now → result ≡ Err TooManySandboxes }

    // Where there is a usual place for each, no fault is that of a place.
    ensures no_place { HaveUsualPlaces (format_of placed.now) (length placed.now)
        → (sandbox : ℕ) → result ≢ Err (fault.Place sandbox) }

    // The image is the build of each source that is placed so.
    ensures build { (source : List Sandbox) → ArePlacements source placed.now
        → IfOk result (λ bytes. IsBuild [] source bytes.items) }
{
    link_at(alloc, placed, &[])
}
