//! The command `build`.

ghost use Rattle.std.specs.Prelude.{codes};
ghost use Rattle.sfi_command.specs.private.{IsAsked};

use crate::commands::{PLACES, RAW_OUTPUT};
use crate::job::{Job, JobFault};
use crate::options::{is_given, places_of};
use crate::rows::CommandRow;
use clap::ArgMatches;
use std::alloc::Global;

pub(super) const BUILD: CommandRow = CommandRow {
    name: "build",
    about: "Make the image of a source text",
    options: &[PLACES, RAW_OUTPUT],
    notes: "\
Reads a source text, in UTF-8, and prints the image on one line of hexadecimal
digits, or with --raw its bytes. `sfi check` accepts what is built.

The first --at is the place of the first sandbox, and so on. A sandbox without
one has its usual place: code at N times 01000000, data 00800000 above it, where
N counts the sandboxes from 1. In the fourth format its code lies 00800000
higher, and its data at 80000000, half of that for the next one, and so on.

Exit status:
  0  built
  2  the source or a place has a fault, and the line says which
  3, 4, 5  as `sfi help` says

Example:
  sfi build < examples/hi.s > hi.hex
  sfi build --raw < examples/hi.s > hi.image
  sfi build --at 20500000:80000000 < examples/hi.s > hi.hex",
};

/// The build that these options ask for.
pub(super) fn asked_build(alloc: Global, found: &ArgMatches<'_>) -> Result<Job, JobFault>
    ensures { IsAsked (codes "build") found.now result }
{
    let places = places_of(alloc, found)?;
    let raw = is_given(found, "raw");
    Ok(Job::Build { raw, places })
}
