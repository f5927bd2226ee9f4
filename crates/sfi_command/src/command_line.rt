//! The job that the words of a command line ask for.

ghost use Rattle.std.specs.Prelude.{◌≡◌, ◌≢◌, IfErr, IfOk, map, string_bytes};
ghost use Rattle.clap.specs.Simple.{app_of};
ghost use Rattle.clap.specs.Values.{kind_of};
ghost use Rattle.sfi_command.specs.Command.{Asks, IsFaultOf, number_of, sfi};

use crate::commands::{COMMANDS, PROGRAM, VERSION, job_named};
use crate::escaped::escaped;
use crate::job::{Job, JobFault, no_job_fault};
use crate::rows::program_of;
use clap::error::ErrorKind;
use clap::{Command, Error};
use std::alloc::{AllocError, Global};

/// The error's text, with control characters escaped: it may cite a word as it was given.
fn shown(alloc: Global, error: &Error) -> Result<String, AllocError> {
    let text = error.to_string(alloc)?;
    escaped(alloc, text.as_str())
}

/// The fault for an error of the parser: `Usage` with what is printed for words that don't parse,
/// or ask for help or the version; or `Memory`.
fn usage(alloc: Global, error: Error) -> JobFault
    ensures refused { number_of result ≡ 1 → kind_of error ≢ ErrorKind.OutOfMemory }
    ensures other { number_of result ≢ 2 }
{
    if error.kind() == ErrorKind::OutOfMemory {
        return JobFault::Memory;
    }
    match shown(alloc, &error) {
        Ok(text) => JobFault::Usage(text),
        Err(_) => JobFault::Memory,
    }
}

/// The program with its subcommands.
fn sfi_program<'a>(alloc: Global) -> Result<Command<'a>, AllocError>
    ensures { IfOk result (λ c. app_of c ≡ sfi) }
{
    program_of(alloc, &PROGRAM, VERSION, COMMANDS)
}

/// The job that the words ask for. The first word is the program's name, as `env::args` gives it.
///
/// Words that don't parse, have an `--at` that is no place, or ask for both `--raw` and `--report`,
/// for help or for the version, are a `Usage`, with the text to print. `Hex` comes of words that
/// parse, where the text of `--input` has an odd number of digits or something that is no digit.
pub fn job_of(alloc: Global, words: &[String]) -> Result<Job, JobFault>
    ensures job { IfOk result (Asks (map string_bytes words.now)) }
    ensures fault { IfErr result (IsFaultOf (map string_bytes words.now)) }
{
    let program = sfi_program(alloc)?;
    let matches = match program.try_get_matches_from(words) {
        Ok(matches) => matches,
        Err(error) => return Err(usage(alloc, error)),
    };
    match matches.subcommand() {
        Some((name, found)) => job_named(alloc, name, found),
        None => Err(no_job_fault(alloc)),
    }
}
