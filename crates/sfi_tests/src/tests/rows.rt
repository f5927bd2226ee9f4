//! Tests as rows of text: an input, the commands that read it, and what each of them prints.
//!
//! A table begins with a line `N commands`, of how many its rows have. A row begins with a line `= NAME`. Each line after it
//! has a word and what belongs to that. Short lines stand together on one, with `; ` between them, also after the name:
//! `= NAME; LINE; LINE`. What stands above the first row of a table is in each of its rows, before the row's own lines.
//!
//! The input is the smallest image, and after the word `source` it is empty. These add to it:
//!
//! - `| LINE`: a line; `times N LINE`: N such lines; `+ N TEXT`: N times the text, with no line feed;
//! - `text NAME`: the text of that name (rows/texts.rt); `texts N NAME`: N times that text;
//! - `bytes DIGITS`: the bytes that the digits spell.
//!
//! These edit the digits of the image that the input is so far, one after another; AT counts bytes,
//! from 0:
//!
//! - `put AT DIGITS`: the digits replace as many of the image's, from byte AT on;
//! - `insert AT DIGITS`: they are inserted before that byte;
//! - `end AT N DIGITS`: N times, they replace all from that byte on;
//! - `cut AT`: all from that byte on is removed.
//!
//! The commands that read it:
//!
//! - `$ COMMAND`: the command, which reads the bytes that the input's digits spell if it is `check --raw`. In
//!   `$ COMMAND | COMMAND` the second reads what the first prints, if that ends in status 0;
//! - `input N DIGITS`: N times the digits are the `--input` of each, or of its second command.
//!
//! Each of them prints what these add:
//!
//! - `> LINE`: a line; `>+ N TEXT`: N times the text, with no line feed; `>text NAME`: the text of that name;
//! - `..`: any text, of several lines or none; `>.. TEXT`: the text, and any after it;
//! - `as COMMAND`: what that command prints of the input so far.
//!
//! Each ends in the status that a printed line tells, which is 1 if the line begins with `refused`, 2 if it has the word
//! `fault`, and 3 if it begins with `error:`; else in status 0. A line `status N` says another.
//!
//! `# NOTE` is a note. A line with another word, or with no number where one belongs, fails the test.
mod builds;
mod images;
mod lines;
mod reports;
mod runs;
mod single;
mod texts;
mod typed;
mod word_sources;
mod words;

use super::image::{edited, smallest};
use super::stream::run_in_pieces;
use super::{Outcome, run};
use lines::{ANY, Line, count_of, line_of, push_part, status_told, unfolded};
use std::alloc::Global;
use std::process::Abort;
use std::str::from_utf8;
use std::test::Fail;

/// What a row says but for its commands: what they read, the digits of their `--input`, what they
/// have to print (`ANY` in it stands for any text), and the status in which they have to end.
#[derive(Drop)]
struct Row {
    input: Vec<u8>,
    digits: Vec<u8>,
    said: Vec<u8>,
    status: u8,
}

// Appends the bytes that hexadecimal digits spell.
fn push_bytes(alloc: Global, text: &mut Vec<u8>, digits: &str) -> Result<(), Fail> {
    let bytes = hex::decode(alloc, digits.as_bytes())?;
    Ok(text.extend_from_slice(bytes.as_slice())?)
}

/// Adds to `said` what the command prints of the row's input so far, whatever its status.
fn push_printed(alloc: Global, row: &mut Row, command: &str) -> Result<(), Fail> {
    let Outcome { status: _, text } = answer(alloc, row, command)?;
    Ok(row.said.extend_from_slice(text.as_slice())?)
}

/// Adds to the row what a line of it says; lines count in their order, since an edit changes the
/// input so far.
fn add_line(alloc: Global, row: &mut Row, line: Line<'_>) -> Result<(), Fail> {
    match line {
        Line::Note | Line::Command => {}
        Line::Change(edit) => row.input = edited(alloc, row.input.as_slice(), &edit)?,
        Line::Source => row.input.clear(),
        Line::Input(part) => push_part(&mut row.input, part)?,
        Line::Bytes(digits) => push_bytes(alloc, &mut row.input, digits)?,
        Line::Digits(part) => push_part(&mut row.digits, part)?,
        Line::Said(part) => {
            row.status = row.status.max(status_told(&part));
            push_part(&mut row.said, part)?;
        }
        Line::SaidBy(command) => push_printed(alloc, row, command)?,
        Line::Status(status) => row.status = status,
    }
    Ok(())
}

/// The row of these lines, named `name`; a test failure where one of them isn't written as rows
/// are.
fn read_row(alloc: Global, name: &str, lines: &str) -> Result<Row, Fail> {
    let mut row = Row {
        input: smallest(alloc)?,
        digits: Vec::new(alloc),
        said: Vec::new(alloc),
        status: 0,
    };
    for text in lines.lines() {
        let Some(line) = line_of(text) else {
            return Err(Fail::new(format_args!("{name}: no line of a row: {text}")));
        };
        add_line(alloc, &mut row, line)?;
    }
    Ok(row)
}

/// The bytes of the image that these lines of a row make of the smallest one.
pub(super) fn image_of(alloc: Global, lines: &str) -> Result<Vec<u8>, Fail> {
    let row = read_row(alloc, "an image", lines)?;
    Ok(hex::decode(alloc, row.input.as_slice())?)
}

/// What the command prints of the input, and its status. If it is `check --raw`, it is given the
/// bytes that the input's digits spell, and these in pieces.
fn printed(alloc: Global, command: &str, input: &[u8]) -> Result<Outcome, Fail> {
    if !command.contains("check --raw") {
        return Ok(run(alloc, command, input)?);
    }
    let bytes = hex::decode(alloc, input.trim_ascii())?;
    Ok(run_in_pieces(alloc, command, bytes.as_slice())?)
}

/// What the first command prints, if it ends in another status than 0; else what the second prints
/// of that.
fn piped(alloc: Global, first: &str, second: &str, input: &[u8]) -> Result<Outcome, Fail> {
    let Outcome { status, text } = printed(alloc, first, input)?;
    match status {
        0 => printed(alloc, second, text.as_slice()),
        _ => Ok(Outcome { status, text }),
    }
}

/// The command with the row's digits, if it has any, as its `--input`.
fn with_digits(alloc: Global, row: &Row, command: &str) -> Result<String, Fail> {
    match from_utf8(row.digits.as_slice())? {
        "" => Ok(String::from_str(alloc, command)?),
        digits => Ok(format!(in alloc; "{command} --input {digits}")?),
    }
}

/// What the command prints of the row's input, or the second of two with ` | ` between them.
fn answer(alloc: Global, row: &Row, command: &str) -> Result<Outcome, Fail> {
    let command = with_digits(alloc, row, command)?;
    match command.as_str().split_once(" | ") {
        Some((first, second)) => piped(alloc, first, second, row.input.as_slice()),
        None => printed(alloc, command.as_str(), row.input.as_slice()),
    }
}

/// Whether the text has these parts, which `ANY` separates, in this order, and none over another;
/// any text may be before, between and after them.
fn has_parts(text: &str, parts: &str) -> bool {
    let mut rest = text;
    for part in parts.split(ANY) {
        match rest.split_once(part) {
            Some((_, after)) => rest = after,
            None => return false,
        }
    }
    true
}

/// Whether the text is `said`, with any text, also none, in place of each `ANY`.
fn is_said(text: &str, said: &str) -> bool {
    let Some((front, rest)) = said.split_once(ANY) else {
        return text == said;
    };
    let (parts, end) = rest.rsplit_once(ANY).unwrap_or(("", rest));
    match text.strip_prefix(front) {
        Some(text) => match text.strip_suffix(end) {
            Some(text) => has_parts(text, parts),
            None => false,
        },
        None => false,
    }
}

/// Tries that the command prints what the row says, and ends in its status.
fn try_command(
    rt: &impl Abort,
    alloc: Global,
    row: &Row,
    name: &str,
    command: &str,
) -> Result<(), Fail> {
    let said = from_utf8(row.said.as_slice())?;
    let Outcome { status, text } = answer(alloc, row, command)?;
    let text = from_utf8(text.as_slice())?;
    assert!(rt; is_said(text, said), "{name}: {command} prints\n{text}");
    assert_eq!(rt; status, row.status, "{name}: {command}");
    Ok(())
}

/// Tries each command of the row with this text: its name, and then its lines.
fn try_row(rt: &impl Abort, alloc: Global, text: &str) -> Result<(), Fail> {
    let (name, lines) = text.split_once('\n').unwrap_or((text, ""));
    let row = read_row(alloc, name, lines)?;
    for line in lines.lines() {
        if let Some(command) = line.strip_prefix("$ ") {
            try_command(rt, alloc, &row, name, command)?;
        }
    }
    Ok(())
}

/// Tries each of the rows, which have `count` commands in all, so that none is passed over.
fn try_each(rt: &impl Abort, alloc: Global, rows: &str, count: Option<usize>) -> Result<(), Fail> {
    assert!(rt; rows.starts_with("\n= "), "{rows}");
    assert_eq!(rt; Some(rows.matches("\n$ ").count()), count, "{rows}");
    for text in rows.split("\n= ").skip(1) {
        try_row(rt, alloc, text)?;
    }
    Ok(())
}

/// Tries each row of the table. The number with which it begins has to be that of its rows'
/// commands, of which those of its head count in each.
fn try_rows(rt: &impl Abort, alloc: Global, table: &str) -> Result<(), Fail> {
    let rows = unfolded(alloc, table)?;
    try_each(rt, alloc, from_utf8(rows.as_slice())?, count_of(table))
}

// One table of all of them would be too large a constant for the prover.

/// Verdicts on images of each layout fault and rule, by docs/IMAGE.md.
#[test]
fn image_rows(rt: HostRuntime) -> Result<(), Fail> {
    try_rows(&rt, rt.alloc(), images::LAYOUTS)?;
    try_rows(&rt, rt.alloc(), images::RULES)?;
    try_rows(&rt, rt.alloc(), images::SAFE)?;
    try_rows(&rt, rt.alloc(), images::SAFE_WORDS)?;
    try_rows(&rt, rt.alloc(), images::DIGITS)?;
    try_rows(&rt, rt.alloc(), images::BYTES)
}

/// Verdicts on code, and images built of texts, in the first and the second format.
#[test]
fn format_rows(rt: HostRuntime) -> Result<(), Fail> {
    try_rows(&rt, rt.alloc(), images::FIRST)?;
    try_rows(&rt, rt.alloc(), images::SECOND)?;
    try_rows(&rt, rt.alloc(), builds::WRITES)?;
    try_rows(&rt, rt.alloc(), builds::FIRST_WRITES)?;
    try_rows(&rt, rt.alloc(), builds::KEPT)
}

/// Verdicts on code in words (the third format), by the table of its rules in docs/IMAGE.md.
#[test]
fn typed_rows(rt: HostRuntime) -> Result<(), Fail> {
    try_rows(&rt, rt.alloc(), typed::KEPT)?;
    try_rows(&rt, rt.alloc(), typed::BROKEN)?;
    try_rows(&rt, rt.alloc(), typed::DATA_BROKEN)?;
    try_rows(&rt, rt.alloc(), typed::STEPS)?;
    try_rows(&rt, rt.alloc(), typed::OTHERS_BROKEN)
}

/// Runs of code in words, and the registers that `sfi run --report` prints.
#[test]
fn typed_runs(rt: HostRuntime) -> Result<(), Fail> {
    try_rows(&rt, rt.alloc(), typed::RUNS)?;
    try_rows(&rt, rt.alloc(), typed::STATES)
}

/// Images built of texts in the third format, by the tables of docs/SOURCE.md.
#[test]
fn word_source_rows(rt: HostRuntime) -> Result<(), Fail> {
    try_rows(&rt, rt.alloc(), word_sources::EXPANSIONS)?;
    try_rows(&rt, rt.alloc(), word_sources::IMAGES)?;
    try_rows(&rt, rt.alloc(), word_sources::REFUSED)
}

/// The fourth format, code in words with single masks: verdicts, runs and builds, by docs/IMAGE.md
/// and docs/SOURCE.md.
#[test]
fn single_rows(rt: HostRuntime) -> Result<(), Fail> {
    try_rows(&rt, rt.alloc(), single::KEPT)?;
    try_rows(&rt, rt.alloc(), single::BROKEN)?;
    try_rows(&rt, rt.alloc(), single::LAYOUTS)?;
    try_rows(&rt, rt.alloc(), single::RUNS)?;
    try_rows(&rt, rt.alloc(), single::ANSWERS)?;
    try_rows(&rt, rt.alloc(), single::EXPANSIONS)?;
    try_rows(&rt, rt.alloc(), single::BUILDS)
}

/// Words of command lines: those that are refused, and places of `--at`.
#[test]
fn command_line_rows(rt: HostRuntime) -> Result<(), Fail> {
    try_rows(&rt, rt.alloc(), words::USAGE)?;
    try_rows(&rt, rt.alloc(), words::ALLOWED)?;
    try_rows(&rt, rt.alloc(), words::REFUSED)
}

/// What is printed for help, the version, and words that don't parse.
#[test]
fn help_rows(rt: HostRuntime) -> Result<(), Fail> {
    try_rows(&rt, rt.alloc(), words::TEXTS)?;
    try_rows(&rt, rt.alloc(), words::HELP)
}

/// Images built of texts, digit for digit, and the faults of texts that aren't built.
#[test]
fn build_rows(rt: HostRuntime) -> Result<(), Fail> {
    try_rows(&rt, rt.alloc(), builds::BUILDS)?;
    try_rows(&rt, rt.alloc(), builds::REFUSED)?;
    try_rows(&rt, rt.alloc(), builds::DIRECTIVES)
}

/// What `check --report`, `convert`, `move`, `translate` and `dis` print.
#[test]
fn report_rows(rt: HostRuntime) -> Result<(), Fail> {
    try_rows(&rt, rt.alloc(), reports::REPORTS)?;
    try_rows(&rt, rt.alloc(), reports::CONVERSIONS)?;
    try_rows(&rt, rt.alloc(), reports::CONVERTED)?;
    try_rows(&rt, rt.alloc(), reports::MOVES)?;
    try_rows(&rt, rt.alloc(), reports::MOVED)?;
    try_rows(&rt, rt.alloc(), reports::TRANSLATIONS)?;
    try_rows(&rt, rt.alloc(), reports::LISTINGS)
}

/// What `sfi run` and `sfi map` print.
#[test]
fn run_rows(rt: HostRuntime) -> Result<(), Fail> {
    try_rows(&rt, rt.alloc(), runs::IMAGES)?;
    try_rows(&rt, rt.alloc(), runs::RUNS)?;
    try_rows(&rt, rt.alloc(), runs::STATES)?;
    try_rows(&rt, rt.alloc(), runs::NEIGHBOURS)?;
    try_rows(&rt, rt.alloc(), runs::MAPS)
}

// Those that take long stand alone, since a test has a minute.

/// Images at the limits of a layout, and one step beyond.
#[test]
fn image_limits(rt: HostRuntime) -> Result<(), Fail> {
    try_rows(&rt, rt.alloc(), images::LIMITS)
}

/// Layouts of code in words, and larger regions.
#[test]
fn typed_limits(rt: HostRuntime) -> Result<(), Fail> {
    try_rows(&rt, rt.alloc(), typed::LAYOUTS)
}

/// Texts at the limits of what can be built, and one step beyond; and listings of what is built.
#[test]
fn text_limits(rt: HostRuntime) -> Result<(), Fail> {
    try_rows(&rt, rt.alloc(), builds::LIMITS)?;
    try_rows(&rt, rt.alloc(), builds::LISTED)
}

/// The most code of the second format.
#[test]
fn long_texts(rt: HostRuntime) -> Result<(), Fail> {
    try_rows(&rt, rt.alloc(), builds::LONG_TEXTS)
}

/// Texts with an instruction, or a bundle, more than a sandbox may have.
#[test]
fn too_long_texts(rt: HostRuntime) -> Result<(), Fail> {
    try_rows(&rt, rt.alloc(), builds::TOO_LONG_TEXTS)
}

/// Puts and gets at their limits, and one byte beyond.
#[test]
fn put_and_get_limits(rt: HostRuntime) -> Result<(), Fail> {
    try_rows(&rt, rt.alloc(), runs::BYTES)
}
