//! The command `convert`.

ghost use Rattle.std.specs.Prelude.{Some, codes};
ghost use Rattle.clap.specs.Matches.{found_of};
ghost use Rattle.clap.specs.Walk.{rows_of};
ghost use Rattle.sfi_command.specs.Command.{Names};

use crate::commands::RAW_OUTPUT;
use crate::job::Job;
use crate::options::is_given;
use crate::rows::CommandRow;
use clap::ArgMatches;

pub(super) const CONVERT: CommandRow = CommandRow {
    name: "convert",
    about: "Write an image of the first format in the second format",
    options: &[RAW_OUTPUT],
    notes: "\
Reads an image of the first format, and prints the same sandboxes in the second
format, in which x2 is a stack pointer, on one line of hexadecimal digits, or
with --raw as bytes.

Exit status:
  0  converted
  1  refused: the code breaks a rule of either format; the verdict is printed
  2  the input is no image, or its format isn't the first
  3, 4, 5  as `sfi help` says

Example:
  sfi convert < old.hex > new.hex",
};

/// The conversion that these options ask for.
pub(super) fn asked_convert(found: &ArgMatches<'_>) -> Job
    ensures { Names (Some (codes "convert", rows_of (found_of found.now))) result }
{
    let raw = is_given(found, "raw");
    Job::Convert { raw }
}
