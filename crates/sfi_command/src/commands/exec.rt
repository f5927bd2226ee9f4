//! The command `exec`.

ghost use Rattle.std.specs.Prelude.{◌≡◌, ℕ, IfSome, None, codes};
ghost use Rattle.clap.specs.Matches.{found_of};
ghost use Rattle.clap.specs.Walk.{first_of, rows_of};
ghost use Rattle.sfi_command.specs.Command.{IsBudget};
ghost use Rattle.sfi_command.specs.private.{IsAsked};

use crate::job::{Job, JobFault, no_job_fault};
use crate::rows::{CommandRow, OptionRow, Takes};
use clap::ArgMatches;
use std::alloc::Global;

pub(super) const EXEC: CommandRow = CommandRow {
    name: "exec",
    about: "Check an image file and, if it is accepted, run its sandboxes as a process",
    options: &[
        OptionRow {
            name: "image",
            takes: Takes::Word("IMAGE"),
            about: "A file with an image, as bytes or as hexadecimal text",
        },
        OptionRow {
            name: "budget",
            takes: Takes::Number("N"),
            about: "Steps that each sandbox may do at most; without it there is no bound to wait for",
        },
        OptionRow {
            name: "interpret",
            takes: Takes::Nothing,
            about: "Go step by step, also where native code would run the image",
        },
    ],
    notes: "\
Runs the sandboxes of an image file one after another: each begins when the one
before has ended, and goes on with the input that is left. A get takes standard
input as it comes. What is put goes to standard output, and may have any length: at
once where that is a terminal, else once the sandbox gets input, makes a call of
another service, or none in 10000000 steps, and at the end. Else they run as in
`sfi run`. A sandbox that waits for a word from a later one waits for ever: give
--budget.

Of each sandbox that doesn't exit, standard error has a line, of its trap or of its
steps that are used up; then come pc and registers of each, as with `run --report`:
  sandbox=S trap=CAUSE at=AAAAAAAA steps=N
  sandbox=S ready steps=N

Where there is no run, or it can't go on, standard error says why, by the line of
`sfi check` on what isn't accepted, by an error about the words, or by one of
  exec fault 2 Image PATH: REASON    the image's file can't be read
  exec fault 3 Memory                memory ran out
  exec fault 4 Read                  standard input can't be read
  exec fault 5 Write                 standard output can't be written

Exit status: that of the first sandbox that has one other than 0, or else 0:
  0 to 255  the low 8 bits of its exit code; where it is one of the following,
       standard error tells them apart
  124  its steps are used up
  126  it trapped
Where there is no run, or it can't go on:
  125  for each of the lines above
  3  for an error about the words, and for this help

Example:
  sfi build --raw < examples/hi.s > hi.image
  sfi exec hi.image",
};

/// The steps that the text of `--budget` allows, or 2^64 - 1 where it wasn't given; `None` where
/// the text is no number from 1 on, which the parser refuses before.
fn budget_of(found: &ArgMatches<'_>) -> Option<u64>
    ensures some { IfSome result (IsBudget (first_of (codes "budget") (rows_of (found_of found.now)))) }
    ensures none { result ≡ None → (n : ℕ)
        → ¬ IsBudget (first_of (codes "budget") (rows_of (found_of found.now))) n }
{
    let Some(text) = found.get_str("budget") else {
        return Some(u64::MAX);
    };
    match text.parse::<u64>() {
        Ok(budget) if budget >= 1 => Some(budget),
        _ => None,
    }
}

/// The run in a process that these options ask for. `--interpret` makes no difference here: it is
/// for tools/suygapid/native/exec.c, which runs images by native code and leaves words with it to
/// this program.
pub(super) fn asked_exec(alloc: Global, found: &ArgMatches<'_>) -> Result<Job, JobFault>
    ensures { IsAsked (codes "exec") found.now result }
{
    let Some(path) = found.get_str("image") else {
        return Err(no_job_fault(alloc));
    };
    let Some(budget) = budget_of(found) else {
        return Err(no_job_fault(alloc));
    };
    let image = String::from_str(alloc, path)?;
    Ok(Job::Exec { image, budget })
}
