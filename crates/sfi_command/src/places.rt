//! The places that the option `--at` gives.

ghost use Rattle.std.specs.Prelude.{◌≡◌, ℕ, IfErr, IfOk, IfSome, map};
ghost use Rattle.sfi_command.specs.Command.{SpellsAddress, SpellsPlace, SpellPlaces};
ghost use Rattle.sfi_command.specs.private.{ArePlacesFault, IsTextFault};
ghost use Rattle.sfi_formats.specs.declared.place.Place.{Place};

use crate::job::{JobFault, usage_fault};
use sfi_formats::Place;
use std::alloc::Global;

// The most digits of an address.
const ADDRESS_DIGITS: usize = 8;

const NO_PLACE: &str = "\
error: '--at' wants CODE:DATA, two hexadecimal addresses

For more information, try '--help'.
";

/// The address that the text spells, in 1 to 8 hexadecimal digits of either case and nothing else;
/// `None` for any other text.
fn parse_address(text: &str) -> Option<u32>
    ensures some { IfSome result (SpellsAddress text.now) }
    ensures none { result ≡ None → (address : ℕ) → ¬ SpellsAddress text.now address }
{
    if text.len() > ADDRESS_DIGITS || text.starts_with('+') {
        return None;
    }
    match u32::from_str_radix(text, 16) {
        Ok(address) => Some(address),
        Err(_) => None,
    }
}

/// The place that the text spells, `CODE:DATA`, two addresses; `None` for any other text.
fn parse_place(text: &str) -> Option<Place>
    ensures some { IfSome result (SpellsPlace text.now) }
    ensures none { result ≡ None → (place : Place) → ¬ SpellsPlace text.now place }
{
    let (code, data) = text.split_once(':')?;
    let code_base = parse_address(code)?;
    let data_base = parse_address(data)?;
    Some(Place {
        code_base,
        data_base,
    })
}

/// The place that the text of an `--at` spells, or a `Usage` where it spells none.
pub(crate) fn place_that(alloc: Global, text: &str) -> Result<Place, JobFault>
    ensures place { IfOk result (SpellsPlace text.now) }
    ensures fault { IfErr result (IsTextFault text.now) }
{
    match parse_place(text) {
        Some(place) => Ok(place),
        None => Err(usage_fault(alloc, NO_PLACE)),
    }
}

/// The places that the texts of `--at` spell, in their order, or a `Usage` where one spells none.
pub(crate) fn parse_places(alloc: Global, texts: &[&str]) -> Result<Vec<Place>, JobFault>
    ensures places { IfOk result
        (λ places. SpellPlaces (map (λ t. t.now) texts.now) places.items) }
    ensures fault { IfErr result (ArePlacesFault (map (λ t. t.now) texts.now)) }
{
    let mut places = Vec::new(alloc);
    for text in texts {
        let Some(place) = parse_place(text) else {
            return Err(usage_fault(alloc, NO_PLACE));
        };
        match places.push(place) {
            Ok(()) => {}
            Err(_) => return Err(JobFault::Memory),
        }
    }
    Ok(places)
}
