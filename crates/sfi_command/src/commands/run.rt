//! The command `run`.

ghost use Rattle.std.specs.Prelude.{◌≡◌, ◌≢◌, IfErr, IfOk, codes};
ghost use Rattle.clap.specs.Matches.{found_of};
ghost use Rattle.clap.specs.Walk.{first_of, rows_of};
ghost use Rattle.sfi_command.specs.Command.{IsInputOf, number_of};
ghost use Rattle.sfi_command.specs.private.{IsAsked, IsInputFault};

use crate::job::{Job, JobFault, RunOptions, no_job_fault};
use crate::options::{count_of, is_given};
use crate::rows::{CommandRow, OptionRow, Takes};
use clap::ArgMatches;
use hex::FromHexError;
use std::alloc::Global;

// These two are `rounds_most` and `quantum_most` of specs/Command, and in the texts of the rows
// below.
const ROUNDS_MOST: u32 = 10000;

const QUANTUM_MOST: u32 = 1000000;

pub(super) const RUN: CommandRow = CommandRow {
    name: "run",
    about: "Check an image and, if it is accepted, run its sandboxes by turns",
    options: &[
        OptionRow {
            name: "rounds",
            takes: Takes::Count("N", "1", 1, ROUNDS_MOST),
            about: "Turns of each sandbox, from 1 to 10000",
        },
        OptionRow {
            name: "quantum",
            takes: Takes::Count("Q", "1000", 1, QUANTUM_MOST),
            about: "Steps of a turn at most, from 1 to 1000000",
        },
        OptionRow {
            name: "input",
            takes: Takes::Text("HEX"),
            about: "What each sandbox reads, as hexadecimal digits",
        },
        OptionRow {
            name: "report",
            takes: Takes::Nothing,
            about: "After all lines on sandboxes, print pc and registers of each that has not exited",
        },
    ],
    notes: "\
Reads an image, and prints for each sandbox a line of its state (ready, an exit
code or a trap), its steps and its output in hexadecimal digits:
  sandbox=S exit=D steps=N out=HEX

With --report, five lines follow for each sandbox that trapped or is ready: its pc
with the instruction there as `sfi dis` prints it, and its registers x1 to x31:
  sandbox=S pc=AAAAAAAA HEX INSTRUCTION
  x1=HEX x2=HEX ..

Exit status:
  0  run, whatever the sandboxes did
  1  refused: the image breaks rules, and the verdict is printed
  2  the input is no image, or --input spells no bytes
  3, 4, 5  as `sfi help` says

Example:
  sfi run < hi.hex
  sfi run --rounds 10 --quantum 5000 --input 4869 < hi.hex",
};

/// The fault of a text of `--input` that didn't decode: `Hex`, or `Memory` where that ran out.
fn hex_fault(error: FromHexError) -> JobFault
    ensures refused { number_of result ≡ 2 → error ≢ FromHexError.OutOfMemory }
    ensures other { number_of result ≢ 1 }
{
    match error {
        FromHexError::InvalidHexCharacter { .. }
        | FromHexError::OddLength
        | FromHexError::InvalidStringLength => JobFault::Hex,
        FromHexError::OutOfMemory => JobFault::Memory,
    }
}

/// The bytes that the text of `--input` spells, or no bytes where it wasn't given.
fn input_of(alloc: Global, found: &ArgMatches<'_>) -> Result<Vec<u8>, JobFault>
    ensures bytes { IfOk result
        (λ bytes. IsInputOf (first_of (codes "input") (rows_of (found_of found.now))) bytes.items) }
    ensures fault { IfErr result
        (IsInputFault (first_of (codes "input") (rows_of (found_of found.now)))) }
{
    let Some(text) = found.get_str("input") else {
        return Ok(Vec::new(alloc));
    };
    match hex::decode(alloc, text.as_bytes()) {
        Ok(bytes) => Ok(bytes),
        Err(error) => Err(hex_fault(error)),
    }
}

/// The run that these options ask for.
pub(super) fn asked_run(alloc: Global, found: &ArgMatches<'_>) -> Result<Job, JobFault>
    ensures { IsAsked (codes "run") found.now result }
{
    let input = input_of(alloc, found)?;
    let Some(rounds) = count_of(found, "rounds", 1, ROUNDS_MOST) else {
        return Err(no_job_fault(alloc));
    };
    let Some(quantum) = count_of(found, "quantum", 1, QUANTUM_MOST) else {
        return Err(no_job_fault(alloc));
    };
    let report = is_given(found, "report");
    Ok(Job::Run(RunOptions {
        rounds,
        quantum,
        input,
        report,
    }))
}
