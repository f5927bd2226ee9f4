//! The command `move`.

ghost use Rattle.std.specs.Prelude.{IfErr, IfOk, codes};
ghost use Rattle.clap.specs.Matches.{found_of};
ghost use Rattle.clap.specs.Walk.{first_of, rows_of};
ghost use Rattle.sfi_command.specs.Command.{IsPlaceOf};
ghost use Rattle.sfi_command.specs.private.{IsAsked, IsPlaceFault};

use crate::commands::RAW_OUTPUT;
use crate::job::{Job, JobFault, no_job_fault};
use crate::options::{count_of, is_given};
use crate::places::place_that;
use crate::rows::{CommandRow, OptionRow, Takes};
use clap::ArgMatches;
use sfi_formats::Place;
use std::alloc::Global;

// The largest number of a sandbox.
const SANDBOX_MOST: u32 = u32::MAX;

pub(super) const MOVE: CommandRow = CommandRow {
    name: "move",
    about: "Write an image with a sandbox at another place, if it is accepted",
    options: &[
        OptionRow {
            name: "at",
            takes: Takes::Needed("CODE:DATA"),
            about: "Where the sandbox's code and data are to begin, in hexadecimal",
        },
        OptionRow {
            name: "sandbox",
            takes: Takes::Count("N", "0", 0, SANDBOX_MOST),
            about: "The sandbox, counted from 0",
        },
        RAW_OUTPUT,
    ],
    notes: "\
Reads an image, and prints it with that sandbox at that place, on one line of
hexadecimal digits, or with --raw as bytes. Its bases, its start and its gates'
addresses change, and those of its code and data in its table of names, if it has
one; no other byte of its code or first data does. So it is accepted, too; it does
what it did where its code was made for any place, as by `sfi-cc --movable`.

Exit status:
  0  moved
  1  refused: the image breaks rules, and the verdict is printed
  2  the input is no image, it has no such sandbox (move fault 2), or the place is
     wrong (move fault 3): a base is no multiple of its region's size, there is no
     room for a guard zone, or two regions or guard zones meet
  3, 4, 5  as `sfi help` says

Example:
  sfi move --at 02000000:02800000 < hi.hex > moved.hex",
};

/// The place that the option `--at` spells, or a `Usage` where it spells none or wasn't given;
/// without it the parser refuses the words before.
fn place_of(alloc: Global, found: &ArgMatches<'_>) -> Result<Place, JobFault>
    ensures place { IfOk result (IsPlaceOf (first_of (codes "at") (rows_of (found_of found.now)))) }
    ensures fault { IfErr result
        (IsPlaceFault (first_of (codes "at") (rows_of (found_of found.now)))) }
{
    match found.get_str("at") {
        Some(text) => place_that(alloc, text),
        None => Err(no_job_fault(alloc)),
    }
}

/// The move that these options ask for.
pub(super) fn asked_move(alloc: Global, found: &ArgMatches<'_>) -> Result<Job, JobFault>
    ensures { IsAsked (codes "move") found.now result }
{
    let place = place_of(alloc, found)?;
    let Some(sandbox) = count_of(found, "sandbox", 0, SANDBOX_MOST) else {
        return Err(no_job_fault(alloc));
    };
    let raw = is_given(found, "raw");
    Ok(Job::Move {
        raw,
        sandbox,
        place,
    })
}
