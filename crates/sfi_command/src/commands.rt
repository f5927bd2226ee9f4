//! The commands, each in a file of its own: its row, of which the command line, its help and the
//! documents are made, and the job that its options ask for.

ghost use Rattle.sfi_command.specs.private.{IsAsked};

mod build;
mod check;
mod convert;
mod dis;
mod exec;
mod map;
mod moving;
mod native;
mod run;
mod translate;

use crate::job::{Job, JobFault, no_job_fault};
use crate::rows::{CommandRow, OptionRow, Takes};
use clap::ArgMatches;
use std::alloc::Global;

/// The version of the program and of its crates.
pub const VERSION: &str = "0.1.0";

/// The program as a row, which has no options of its own.
pub(crate) const PROGRAM: CommandRow = CommandRow {
    name: "sfi",
    about: "Build, map, check, list, convert, move, translate, compile and run images of sandboxed RISC-V code (RV32IMC)",
    options: &[],
    notes: "\
Each command reads standard input and writes standard output, lines about
faults too. An image is read as its own bytes where these begin with the magic
of a format, else as hexadecimal text: digits of either case, with white space
between them. `sfi help COMMAND` says more of a command.

Exit status:
  0  done: the image is accepted, built, mapped, listed, run, converted, moved,
     translated or compiled
  1  refused: the image breaks rules, and the verdict is printed
  2  the input or the text of --input has a fault, which one line names
  3  a usage error, or a help or version text
  4  memory ran out, and nothing is printed
  5  a read or a write failed, and what is printed may be cut short

Example:
  sfi build < examples/hi.s > hi.hex
  sfi check < hi.hex
  sfi run < hi.hex",
};

const PLACES: OptionRow = OptionRow {
    name: "at",
    takes: Takes::Texts("CODE:DATA"),
    about: "Where a sandbox's code and data begin, in hexadecimal; once for each sandbox, in order",
};

const RAW_OUTPUT: OptionRow = OptionRow {
    name: "raw",
    takes: Takes::Nothing,
    about: "Write the image's bytes, and not their digits",
};

/// The rows of the commands, in the order of the program's help.
pub(crate) const COMMANDS: &[CommandRow] = &[
    check::CHECK,
    dis::DIS,
    build::BUILD,
    map::MAP,
    run::RUN,
    convert::CONVERT,
    moving::MOVE,
    translate::TRANSLATE,
    native::NATIVE,
    exec::EXEC,
];

/// The job that the subcommand of this name asks for, with what was found for its options. Each row
/// of `COMMANDS` has a case here, by the same name.
pub(crate) fn job_named(alloc: Global, name: &str, found: &ArgMatches<'_>) -> Result<Job, JobFault>
    ensures { IsAsked name.now found.now result }
{
    match name {
        "check" => check::asked_check(alloc, found),
        "dis" => Ok(Job::Dis),
        "build" => build::asked_build(alloc, found),
        "map" => map::asked_map(alloc, found),
        "run" => run::asked_run(alloc, found),
        "convert" => Ok(convert::asked_convert(found)),
        "move" => moving::asked_move(alloc, found),
        "translate" => Ok(translate::asked_translate(found)),
        "native" => Ok(Job::Native),
        "exec" => exec::asked_exec(alloc, found),
        _ => Err(no_job_fault(alloc)),
    }
}
