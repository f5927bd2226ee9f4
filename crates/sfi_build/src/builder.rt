//! From a text to an image, and to the addresses of its names.
ghost use Rattle.std.specs.Prelude.{◌≡◌, ◌≢◌, ◌⊎◌, ◌<◌, ℕ, List, [], length, Err, IfOk, IfErr};
ghost use Rattle.sfi_source.specs.Source.{Sandbox};
ghost use Rattle.sfi_text.specs.Texts.{most_bytes, first_line};
ghost use Rattle.sfi_text.specs.declared.cause.TextCause.TheVariants.{Limit};
ghost use Rattle.sfi_build.specs.declared.fault.BuildFault.{BuildFault};
ghost use Rattle.sfi_build.specs.declared.fault.BuildFault.TheVariants.{Text, Link};
ghost use Rattle.sfi_link.specs.declared.fault.LinkFault.TheVariants as fault;
ghost use Rattle.sfi_link.specs.Linked.{IsBuild};
ghost use Rattle.sfi_link.specs.Names.{MapEntry};
ghost use Rattle.sfi_link.specs.Standing.{ImageRunsAs};
ghost use Rattle.sfi_build.specs.Texts.{MeansWhole, IsTextBuild, IsTextMap, IsCleanImage, IsBuildFault, HasUsualPlaces, IsWantOfMemory, AnswersBuild, AnswersBuildFault};

use crate::fault::BuildFault;
use crate::tables::inits_of;
use sfi_formats::Place;
use sfi_link::{NameAddress, codes_at, image_of, names_of};
use sfi_rewrite::rewrite;
use sfi_text::{SourceText, parse_text};
use std::alloc::Global;

/// The image of the text, or its fault. The code is linked before the tables of names are made,
/// since these have the names' addresses, and both before the image, which holds the tables.
fn build_from_text(alloc: Global, text: &str, places: &[Place]) -> Result<Vec<u8>, BuildFault>
    ensures built { IfOk result (λ bytes. IsTextBuild places.now text.now bytes.items) }
    ensures fault { IfErr result (λ f. IsWantOfMemory f ⊎ IsBuildFault places.now text.now f) }
    ensures too_long { most_bytes < length text.now → result ≡ Err (Text (first_line Limit)) }
{
    let SourceText { source, shared } = parse_text(alloc, text)?;
    let placed = rewrite(alloc, &source)?;
    let codes = codes_at(alloc, &placed, places)?;
    let inits = inits_of(alloc, &placed, places, &shared, source.parts())?;
    Ok(image_of(alloc, &placed, places, &codes, &inits)?)
}

/// Reads a source, places it, links it and makes its tables of names: the image of a text, or the
/// first fault of the four in this order. The image has a right layout and breaks no rule, so the
/// checker accepts it. The sandboxes lie at the places, in order; those for which none is given lie
/// at their usual ones.
pub fn build_at(alloc: Global, text: &str, places: &[Place]) -> Result<Vec<u8>, BuildFault>
    // What each answer means.
    ensures built { IfOk result (λ bytes. IsTextBuild places.now text.now bytes.items) }
    ensures build { (source : List Sandbox) → MeansWhole places.now text.now source
        → IfOk result (λ bytes. IsBuild places.now source bytes.items) }
    ensures runs_as { (source : List Sandbox) → MeansWhole places.now text.now source
        → IfOk result (λ bytes. ImageRunsAs places.now source bytes.items) }
    ensures clean { IfOk result (λ bytes. IsCleanImage bytes.items) }
    ensures fault { IfErr result (λ f. IsWantOfMemory f ⊎ IsBuildFault places.now text.now f) }

    // Which texts get each answer, want of memory aside.
    ensures only_built { (bytes : List ℕ)
        → IsTextBuild places.now text.now bytes → AnswersBuild bytes result }
    ensures only_fault { (f : BuildFault)
        → IsBuildFault places.now text.now f → AnswersBuildFault f result }

    // Where no place is given, and there is a usual one for each, no fault is that of a place.
    ensures no_place { places.now ≡ [] → HasUsualPlaces text.now
        → (sandbox : ℕ) → result ≢ Err (Link (fault.Place sandbox)) }

    // A text above its limit gets its fault, whatever memory there is.
    ensures too_long { most_bytes < length text.now → result ≡ Err (Text (first_line Limit)) }
{
    build_from_text(alloc, text, places)
}

/// Builds the image of a text, as [`build_at`] does, with each sandbox at its usual place.
pub fn build(alloc: Global, text: &str) -> Result<Vec<u8>, BuildFault>
    // What each answer means.
    ensures built { IfOk result (λ bytes. IsTextBuild [] text.now bytes.items) }
    ensures build { (source : List Sandbox) → MeansWhole [] text.now source
        → IfOk result (λ bytes. IsBuild [] source bytes.items) }
    ensures runs_as { (source : List Sandbox) → MeansWhole [] text.now source
        → IfOk result (λ bytes. ImageRunsAs [] source bytes.items) }
    ensures clean { IfOk result (λ bytes. IsCleanImage bytes.items) }
    ensures fault { IfErr result (λ f. IsWantOfMemory f ⊎ IsBuildFault [] text.now f) }

    // Which texts get each answer, want of memory aside.
    ensures only_built { (bytes : List ℕ)
        → IsTextBuild [] text.now bytes → AnswersBuild bytes result }
    ensures only_fault { (f : BuildFault)
        → IsBuildFault [] text.now f → AnswersBuildFault f result }

    // Where there is a usual place for each, no fault is that of a place.
    ensures no_place { HasUsualPlaces text.now
        → (sandbox : ℕ) → result ≢ Err (Link (fault.Place sandbox)) }

    // A text above its limit gets its fault, whatever memory there is.
    ensures too_long { most_bytes < length text.now → result ≡ Err (Text (first_line Limit)) }
{
    build_at(alloc, text, &[])
}

/// The gates and labels of the text, or its fault. The tables of names are made for their fault
/// alone, so that a text has a map just where it has a build.
fn map_from_text(
    alloc: Global,
    text: &str,
    places: &[Place],
) -> Result<Vec<NameAddress>, BuildFault>
    ensures mapped { IfOk result (λ entries. IsTextMap places.now text.now entries.items) }
    ensures fault { IfErr result (λ f. IsWantOfMemory f ⊎ IsBuildFault places.now text.now f) }
    ensures too_long { most_bytes < length text.now → result ≡ Err (Text (first_line Limit)) }
{
    let SourceText { source, shared } = parse_text(alloc, text)?;
    let placed = rewrite(alloc, &source)?;
    let names = names_of(alloc, &source, &placed, places)?;
    inits_of(alloc, &placed, places, &shared, source.parts())?;
    Ok(names)
}

/// The gates and labels of a text in the image that is built of it with its sandboxes at these
/// places: sandbox after sandbox, in the order in which their names are first seen, each with its
/// address. A text that has no build there has none, but the fault of its build.
pub fn names_at(alloc: Global, text: &str, places: &[Place]) -> Result<Vec<NameAddress>, BuildFault>
    // What each answer means.
    ensures mapped { IfOk result (λ entries. IsTextMap places.now text.now entries.items) }
    ensures fault { IfErr result (λ f. IsWantOfMemory f ⊎ IsBuildFault places.now text.now f) }

    // Which texts get each answer, want of memory aside.
    ensures only_mapped { (entries : List MapEntry)
        → IsTextMap places.now text.now entries → AnswersBuild entries result }
    ensures only_fault { (f : BuildFault)
        → IsBuildFault places.now text.now f → AnswersBuildFault f result }

    // Where no place is given, and there is a usual one for each, no fault is that of a place.
    ensures no_place { places.now ≡ [] → HasUsualPlaces text.now
        → (sandbox : ℕ) → result ≢ Err (Link (fault.Place sandbox)) }

    // A text above its limit gets its fault, whatever memory there is.
    ensures too_long { most_bytes < length text.now → result ≡ Err (Text (first_line Limit)) }
{
    map_from_text(alloc, text, places)
}
