//! The command `translate`.

ghost use Rattle.std.specs.Prelude.{Some, codes};
ghost use Rattle.clap.specs.Matches.{found_of};
ghost use Rattle.clap.specs.Walk.{rows_of};
ghost use Rattle.sfi_command.specs.Command.{Names};

use crate::job::Job;
use crate::options::is_given;
use crate::rows::{CommandRow, OptionRow, Takes};
use clap::ArgMatches;

pub(super) const TRANSLATE: CommandRow = CommandRow {
    name: "translate",
    about: "Write an image as C, if it is accepted",
    options: &[OptionRow {
        name: "whole",
        takes: Takes::Nothing,
        about: "A whole program, which takes the options of `sfi run` but --report, and prints its lines",
    }],
    notes: "\
Reads an image, and prints it as C for a host: a line that includes sfi_native.h,
and for each sandbox its regions, its gates, its first data and a line for each
instruction. sfi_native.h gives these lines their meaning.

Exit status:
  0  translated
  1  refused: the image breaks rules, and the verdict is printed
  2  the input is no image
  3, 4, 5  as `sfi help` says

Example:
  sfi translate --whole < hi.hex > hi.c
  gcc -O2 hi.c -o hi
  ./hi --rounds 10 --quantum 5000 --input 4869",
};

/// The translation that these options ask for.
pub(super) fn asked_translate(found: &ArgMatches<'_>) -> Job
    ensures { Names (Some (codes "translate", rows_of (found_of found.now))) result }
{
    let whole = is_given(found, "whole");
    Job::Translate { whole }
}
