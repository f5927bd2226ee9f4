//! The command `map`.

ghost use Rattle.std.specs.Prelude.{codes};
ghost use Rattle.sfi_command.specs.private.{IsAsked};

use crate::commands::PLACES;
use crate::job::{Job, JobFault};
use crate::options::places_of;
use crate::rows::CommandRow;
use clap::ArgMatches;
use std::alloc::Global;

pub(super) const MAP: CommandRow = CommandRow {
    name: "map",
    about: "Say where the gates and labels of a source text lie in its image",
    options: &[PLACES],
    notes: "\
Reads a source text as `sfi build` does, and prints a line for each gate and
label: its sandbox, what it is (gate, code or data), its name, and its address in
the image that is built with the same --at:
  sandbox=S gate NAME at=AAAAAAAA

Exit status:
  0  the source can be built, and its map is printed
  2  the source or a place has a fault, and the line says which
  3, 4, 5  as `sfi help` says

Example:
  sfi map < examples/hi.s",
};

/// The map that these options ask for.
pub(super) fn asked_map(alloc: Global, found: &ArgMatches<'_>) -> Result<Job, JobFault>
    ensures { IsAsked (codes "map") found.now result }
{
    let places = places_of(alloc, found)?;
    Ok(Job::Map { places })
}
