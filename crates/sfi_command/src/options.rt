//! What the parser found for options. An option is given by its name in the command's row, without
//! the two hyphens.

ghost use Rattle.std.specs.Prelude.{◌≡◌, ℕ, IfErr, IfOk, IfSome, None, codes};
ghost use Rattle.clap.specs.Matches.{found_of};
ghost use Rattle.clap.specs.Walk.{rows_of};
ghost use Rattle.sfi_command.specs.Command.{IsCount, IsGiven, SpellPlaces, texts_of};
ghost use Rattle.sfi_command.specs.private.{ArePlacesFault};

use crate::job::JobFault;
use crate::places::parse_places;
use clap::ArgMatches;
use sfi_formats::Place;
use std::alloc::Global;

/// Whether the option, which takes no value, was given.
pub(crate) fn is_given(found: &ArgMatches<'_>, option: &str) -> bool
    ensures { IsGiven option.now (rows_of (found_of found.now)) result }
{
    match found.get_str(option) {
        Some(value) => value == "true",
        None => false,
    }
}

/// The decimal number that the option's text is, from `least` to `most`, which are those of the
/// option's row; `None` where there is no text or it is no such number. (The parser refuses such
/// words before.)
pub(crate) fn count_of(found: &ArgMatches<'_>, option: &str, least: u32, most: u32) -> Option<u32>
    ensures some { IfSome result (IsCount option.now least most (rows_of (found_of found.now))) }
    ensures none { result ≡ None → (n : ℕ)
        → ¬ IsCount option.now least most (rows_of (found_of found.now)) n }
{
    let text = found.get_str(option)?;
    match text.parse::<u32>() {
        Ok(count) if least <= count && count <= most => Some(count),
        _ => None,
    }
}

/// The places that the uses of `--at` spell, in their order: no places where it wasn't given. A
/// text that spells no place is a `Usage`.
pub(crate) fn places_of(alloc: Global, found: &ArgMatches<'_>) -> Result<Vec<Place>, JobFault>
    ensures places { IfOk result (λ places.
        SpellPlaces (texts_of (codes "at") (rows_of (found_of found.now))) places.items) }
    ensures fault { IfErr result
        (ArePlacesFault (texts_of (codes "at") (rows_of (found_of found.now)))) }
{
    match found.get_strs("at") {
        Some(texts) => parse_places(alloc, texts),
        None => Ok(Vec::new(alloc)),
    }
}
