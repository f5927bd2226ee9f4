//! The program `sfi`: the commands of `sfi_tool` over the arguments,
//! standard input and standard output.
#![tactic(auto)]

mod explaining;
mod keeping;
mod sentences;

use crate::explaining::explained;
use crate::keeping::{KeptInput, KeptOutput};
use sfi_tool::{
    ExecFault, Input, Interruption, Job, JobFault, exec, job_of, read_image, run_tool, write_out,
};
use std::alloc::Global;
use std::env;
use std::fmt::Display;
use std::fs::File;
use std::io::{self, BufWriter, Error, ErrorKind, IsTerminal};
use std::process::ExitCode;

/// What is written where an argument isn't UTF-8, in the form of the errors about other words.
const NO_TEXT: &[u8] = b"error: an argument is not UTF-8\n\nFor more information, try '--help'.\n";

/// The status for arguments that can't be had: 4 where an allocation was refused; else they aren't
/// UTF-8, which is written to standard output, and it is 3, or 5 where that can't be written.
fn without_words(rt: &HostRuntime, kind: ErrorKind) -> u8 {
    if kind == ErrorKind::OutOfMemory {
        return 4;
    }
    let mut writer = io::writer(rt);
    if write_out(&mut writer, NO_TEXT) {
        3
    } else {
        5
    }
}

// The status where `exec` gives none of a sandbox. Its help and docs/sfi.1 state it.
const NOT_RUN: u8 = 125;

/// Says on standard error why there is no status of a sandbox, and gives `NOT_RUN`. Of an image that
/// isn't accepted nothing is said here: `exec` has written its line.
fn not_run(rt: &HostRuntime, fault: ExecFault) -> u8 {
    if fault != ExecFault::NotAccepted {
        let _ = eprintln!(rt; "exec fault {} {fault}", fault.number());
    }
    NOT_RUN
}

/// Says on standard error why the image's file can't be read, and gives `NOT_RUN`. The line is that of the
/// help (`sfi_command` src/commands/exec.rt), with the path as a Rust string, so that it stays one line;
/// examples/test.sh tries it.
fn say_unreadable<D: Display>(rt: &HostRuntime, path: &str, reason: &D) -> u8 {
    let fault = ExecFault::Image;
    let _ = eprintln!(rt; "exec fault {} {fault} {path:?}: {reason}", fault.number());
    NOT_RUN
}

/// Opens a file to read it. A folder can be opened, but not read.
fn open_file(rt: &HostRuntime, path: &str) -> io::Result<File> {
    let file = File::open(rt, path)?;
    if file.metadata()?.is_dir() {
        return Err(Error::from(ErrorKind::IsADirectory));
    }
    Ok(file)
}

/// Runs the sandboxes of an image over standard input and output. What they put is seen at once where that
/// is a terminal.
fn exec_image(
    rt: &HostRuntime,
    alloc: Global,
    image: &Input,
    budget: u64,
) -> Result<u8, ExecFault> {
    let mut reader = rt.stdin();
    let mut errors = rt.stderr();
    let mut output = rt.stdout();
    if output.is_terminal() {
        let ended = exec(alloc, budget, image, &mut reader, &mut output, &mut errors)?;
        return Ok(ended.status);
    }
    let Ok(mut writer) = BufWriter::new(alloc, output) else {
        return Err(ExecFault::Interrupted(Interruption::Memory));
    };
    let ended = exec(alloc, budget, image, &mut reader, &mut writer, &mut errors)?;
    Ok(ended.status)
}

/// Runs the sandboxes of the image in that file, and gives the program's status: theirs, or 125 where
/// there is no run, which standard error explains. The file takes the number of a standard stream that is
/// closed, so it is read and closed before the streams are used; a closed one then fails as closed.
/// No contract says this: examples/test.sh tries it.
fn exec_file(rt: &HostRuntime, alloc: Global, path: &str, budget: u64) -> u8 {
    let file = match open_file(rt, path) {
        Ok(file) => file,
        Err(error) => return say_unreadable(rt, path, &error),
    };
    let image = match read_image(alloc, file) {
        Ok(image) => image,
        Err(ExecFault::Image) => return say_unreadable(rt, path, &"it can't be read"),
        Err(fault) => return not_run(rt, fault),
    };
    match exec_image(rt, alloc, &image, budget) {
        Ok(status) => status,
        Err(fault) => not_run(rt, fault),
    }
}

/// Runs `exec`, if the words name it, and gives the status. What is wrong with them goes to standard
/// error, since standard output is the sandboxes'. `None` where they name another command, or ask
/// for a help text: `run_explained` does that.
fn run_exec(rt: &HostRuntime, alloc: Global, words: &[String]) -> Option<u8> {
    if words.get(1)?.as_str() != "exec" {
        return None;
    }
    let asked = job_of(alloc, words);
    match &asked {
        Ok(Job::Exec { image, budget }) => Some(exec_file(rt, alloc, image.as_str(), *budget)),
        Err(JobFault::Usage(text)) if text.as_str().starts_with("error: ") => {
            write_out(&mut rt.stderr(), text.as_bytes());
            Some(3)
        }
        Err(JobFault::Memory) => Some(not_run(rt, ExecFault::Interrupted(Interruption::Memory))),
        Ok(_) | Err(_) => None,
    }
}

/// How much is kept of a text: all that a source may have.
const MOST_TEXT: usize = 1 << 20;

/// How much is kept of an output: more than the line of a fault has.
const MOST_LINE: usize = 100;

/// Whether a command reads a source, whose fault is at one of its lines.
fn reads_source(words: &[String]) -> bool {
    match words.get(1) {
        Some(word) => word.as_str() == "build" || word.as_str() == "map",
        None => false,
    }
}

/// Says on standard error what the fault is that `line`, of standard output, names; `text` is the
/// source that was read, or empty. Nothing is said where memory or standard error is refused.
fn explain(rt: &HostRuntime, alloc: Global, line: &[u8], text: &[u8]) {
    let Ok(fault) = str::from_utf8(line) else {
        return;
    };
    let read = match str::from_utf8(text) {
        Ok(read) => read,
        Err(_) => "",
    };
    let found = explained(alloc, fault, read);
    if let Ok(Some(said)) = found {
        let _ = eprintln!(rt; "{said}");
    }
}

/// Runs a command but `exec`, and gives the status. Standard error then says what the fault is that
/// standard output names.
fn run_explained(rt: &HostRuntime, alloc: Global, words: &[String]) -> u8 {
    let mut reader = KeptInput {
        reader: rt.reader(),
        most: if reads_source(words) { MOST_TEXT } else { 0 },
        bytes: Vec::new(alloc),
    };
    let mut writer = KeptOutput {
        writer: io::writer(rt),
        most: MOST_LINE,
        bytes: Vec::new(alloc),
    };
    let status = run_tool(alloc, words, &mut reader, &mut writer);
    if status == 2 {
        explain(rt, alloc, writer.bytes.as_slice(), reader.bytes.as_slice());
    }
    status
}

/// The arguments, or why they can't be had: they aren't UTF-8, or memory ran out.
fn words_of(rt: &HostRuntime, alloc: Global) -> Result<Vec<String>, ErrorKind> {
    let args = match env::args(rt) {
        Ok(args) => args,
        Err(error) => return Err(error.kind()),
    };
    match args.collect::<Vec<String>>(alloc) {
        Ok(words) => Ok(words),
        Err(_) => Err(ErrorKind::OutOfMemory),
    }
}

/// Runs the command that the arguments name, and exits with its status.
fn main(rt: HostRuntime) -> ExitCode {
    let alloc = rt.alloc();
    let status = match words_of(&rt, alloc) {
        Ok(words) => match run_exec(&rt, alloc, words.as_slice()) {
            Some(status) => status,
            None => run_explained(&rt, alloc, words.as_slice()),
        },
        Err(kind) => without_words(&rt, kind),
    };
    ExitCode::from(status)
}
