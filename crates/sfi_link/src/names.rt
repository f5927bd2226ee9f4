//! The addresses of a source's gates and labels in the image that is linked.
ghost use Rattle.std.specs.Prelude.{◌≡◌, ◌≢◌, ◌≤◌, ◌<◌, ◌++◌, ℕ, List, [], length, map, Some, Err, IfOk, IfErr, OnOk};
ghost use Rattle.std.specs.List.{All};
ghost use Rattle.sfi_formats.specs.Limits.{sandboxes_most};
ghost use Rattle.sfi_rewrite.specs.Placed.{IsPlacedPart, format_of};
ghost use Rattle.sfi_image.specs.Spelling.{Part};
ghost use Rattle.sfi_link.specs.declared.fault.LinkFault.{LinkFault};
ghost use Rattle.sfi_link.specs.declared.fault.LinkFault.TheVariants.{TooManySandboxes};
ghost use Rattle.sfi_link.specs.declared.fault.LinkFault.TheVariants as fault;
ghost use Rattle.sfi_link.specs.Code.{address_of, IsInReach, AreInReach};
ghost use Rattle.sfi_link.specs.Faults.{UnlessMemory, AnswersItems, AnswersFault};
ghost use Rattle.sfi_link.specs.Faults.{IsLinkFault};
ghost use Rattle.sfi_link.specs.Linked.{AreLinkedFrom, HaveUsualPlaces};
ghost use Rattle.sfi_link.specs.Names.{MapEntry, kind_of, entry_of, entries_of, map_from, IsLinkedMap};

use crate::address::address_of;
use crate::bases::{Bases, bases_of};
use crate::fault::LinkFault;
use crate::linker::link_at;
use sfi_formats::Place;
use sfi_rewrite::{Placed, PlacedName, PlacedPart};
use sfi_source::{Names, Source, SourcePart};
use std::alloc::{AllocError, Global};
use std::marker::Model;

/// What has an address in an image.
#[derive(Clone, Copy)]
pub enum NameKind {
    /// A gate: the address is that of its stub.
    Gate,
    /// A label in the code.
    Code,
    /// A label in the data.
    Data,
}

/// A gate or a label of a source, with the address that it has in the image that is linked.
#[derive(Drop)]
pub struct NameAddress {
    sandbox: u32,
    name: String,
    kind: NameKind,
    address: u32,
}

impl Model for NameAddress {
    ghost use Rattle.std.specs.Prelude.{string_bytes};
    ghost use Rattle.sfi_link.specs.Names.{MapEntry};

    ghost Value = { MapEntry };

    ghost view = { λ n. record {
      sandbox = n.sandbox;
      name = string_bytes n.name;
      kind = n.kind;
      address = n.address;
    } };
}

impl NameAddress {
    /// The number of the sandbox that has the name, counted from 0.
    pub fn sandbox(&self) -> u32
        ensures { result ≡ self.now.sandbox }
    {
        self.sandbox
    }

    /// The gate's or label's name.
    pub fn name(&self) -> &str
        ensures { result.now ≡ self.now.name }
    {
        self.name.as_str()
    }

    /// What the name stands for.
    pub fn kind(&self) -> NameKind
        ensures { result ≡ self.now.kind }
    {
        self.kind
    }

    /// The address for which the name stands.
    pub fn address(&self) -> u32
        ensures { result ≡ self.now.address }
    {
        self.address
    }
}

/// What the name names; `None` where it names nothing.
fn kind_of(named: PlacedName) -> Option<NameKind>
    ensures { result ≡ kind_of named }
{
    match named {
        PlacedName::Gate(_) => Some(NameKind::Gate),
        PlacedName::Code(_) => Some(NameKind::Code),
        PlacedName::Data(_) => Some(NameKind::Data),
        PlacedName::Unknown => None,
    }
}

/// Appends the name of sandbox `number` with the address of what it names, or nothing where it
/// names nothing.
fn list_name(
    alloc: Global,
    listed: &mut Vec<NameAddress>,
    number: u32,
    at: Bases,
    name: &str,
    named: PlacedName,
) -> Result<(), AllocError>
    requires near { IsInReach at named }
    ensures { OnOk result (listed.new.items
        ≡ listed.old.items ++ entry_of number (Some name.now) (kind_of named) (address_of at named)) }
{
    let (Some(kind), Some(address)) = (kind_of(named), address_of(at, named)) else {
        return Ok(());
    };
    listed.push(NameAddress {
        sandbox: number,
        name: String::from_str(alloc, name)?,
        kind,
        address,
    })?;
    Ok(())
}

/// Appends the gates and labels of sandbox `number`, which lies at `at`. `names` has their texts,
/// and `placed` what they name, in the same order.
fn list_names(
    alloc: Global,
    listed: &mut Vec<NameAddress>,
    number: u32,
    at: Bases,
    names: &Names,
    placed: &[PlacedName],
) -> Result<(), AllocError>
    requires near { AreInReach at placed.now }
    ensures { OnOk result (listed.new.items
        ≡ listed.old.items ++ entries_of number at (map (λ e. e.0) names.now) 0 placed.now) }
{
    for (place, named) in placed.iter().enumerate() {
        let Some(name) = names.text(place) else {
            continue;
        };
        list_name(alloc, listed, number, at, name, *named)?;
    }
    Ok(())
}

/// The gates and labels of the sandboxes, with their addresses where the sandboxes lie at the
/// places `given` or their usual ones. A sandbox of `source` and one of `placed` with the same
/// number are taken for the same.
fn listed_names(
    alloc: Global,
    given: &[Place],
    source: &[SourcePart],
    placed: &[PlacedPart],
) -> Result<Vec<NameAddress>, AllocError>
    requires few { length placed.now ≤ sandboxes_most }
    requires right { All IsPlacedPart placed.now }
    requires linked { (parts : List Part) × AreLinkedFrom given.now 0 placed.now parts }
    ensures { IfOk result (λ names. names.items ≡ map_from given.now 0 source.now placed.now) }
{
    let mut listed = Vec::new(alloc);
    for (number, part) in placed.iter().enumerate() {
        let Some(sandbox) = source.get(number) else {
            continue;
        };
        let at = bases_of(given, number as u32, part);
        list_names(
            alloc,
            &mut listed,
            number as u32,
            at,
            sandbox.names(),
            part.names(),
        )?;
    }
    Ok(listed)
}

/// The gates and labels of a source in the image that [`link_at`](crate::link_at) makes of what was
/// placed of it: sandbox after sandbox, in the order in which their names are first seen, each with
/// its address. Where that makes no image, the fault is the same. (That it was placed of this
/// source is for the caller to say: the two are matched by their order, and what has no match is
/// left out.)
pub fn names_of(
    alloc: Global,
    source: &Source,
    placed: &Placed,
    places: &[Place],
) -> Result<Vec<NameAddress>, LinkFault>
    // What each answer means.
    ensures mapped { IfOk result
        (λ entries. IsLinkedMap places.now source.now placed.now entries.items) }
    ensures fault { IfErr result (UnlessMemory (IsLinkFault places.now placed.now)) }

    // Which placed sources get each answer, want of memory aside.
    ensures only_mapped { (entries : List MapEntry)
        → IsLinkedMap places.now source.now placed.now entries → AnswersItems entries result }
    ensures only_fault { (f : LinkFault)
        → IsLinkFault places.now placed.now f → AnswersFault f result }

    // Too many sandboxes get their fault, whatever memory there is.
    ensures too_many { sandboxes_most < length placed.now → result ≡ Err TooManySandboxes }

    // Where no place is given, and there is a usual one for each, no fault is that of a place.
    ensures no_place { places.now ≡ []
        → HaveUsualPlaces (format_of placed.now) (length placed.now)
        → (sandbox : ℕ) → result ≢ Err (fault.Place sandbox) }
{
    link_at(alloc, placed, places)?;
    Ok(listed_names(alloc, places, source.parts(), placed.parts())?)
}
