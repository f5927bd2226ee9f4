//! Says on standard error what a fault is, and where: the line on standard output names it.
//! page/faults.js finds the same words for the page, so a change here has to be made there, too.

use crate::sentences::sentence_of;
use std::alloc::{AllocError, Global};

/// A part of a line, and how many bytes are before it.
#[derive(Drop)]
struct Part<'a> {
    from: usize,
    text: &'a str,
}

/// The line's statement, behind its labels, from its first character to the line's end.
fn statement(line: &str) -> Part<'_> {
    let text = match line.rsplit_once(':') {
        Some((_, behind)) => behind.trim_start(),
        None => line.trim_start(),
    };
    let from = line.len().saturating_sub(text.len());
    Part { from, text }
}

/// The name at the line's end: what follows the last blank, and in that the last comma.
fn last_name(line: &str) -> Part<'_> {
    let word = line.split_whitespace().last().unwrap_or("");
    let text = match word.rsplit_once(',') {
        Some((_, behind)) => behind,
        None => word,
    };
    let from = line.len().saturating_sub(text.len());
    Part { from, text }
}

/// The first word of `left`, which is the end of `line` and begins with that word.
fn first_word<'a>(line: &'a str, left: &'a str) -> Part<'a> {
    let text = left.split_whitespace().next().unwrap_or("");
    let from = line.len().saturating_sub(left.len());
    Part { from, text }
}

/// The line's first label, or the name behind its directive.
fn stated_name(line: &str) -> Part<'_> {
    let plain = line.trim_start();
    if let Some((label, _)) = plain.split_once(':') {
        let from = line.len().saturating_sub(plain.len());
        let text = label.trim_end();
        return Part { from, text };
    }
    let directive = plain.split_whitespace().next().unwrap_or("");
    let behind = plain.strip_prefix(directive).unwrap_or("");
    first_word(line, behind.trim_start())
}

/// The line of that number, counted from 1, without a comment; empty where the text has no such line.
fn line_of(text: &str, number: usize) -> &str {
    let line = text.lines().nth(number.saturating_sub(1)).unwrap_or("");
    let code = match line.split_once('#') {
        Some((code, _)) => code,
        None => line,
    };
    code.trim_end()
}

/// Whether a text looks like C.
fn is_c(text: &str) -> bool {
    text.contains("#include") || text.contains("int main(")
}

/// The line `<stdin>:LINE:COLUMN: SENTENCE 'WORD'` for a fault in line `number`, counted from 1, of
/// the source `text`. `fault` is the line on standard output, and `says` the sentence on it. The
/// fault's name decides which word of the line it is about; columns are counted from 1, in bytes.
fn at_line(
    alloc: Global,
    says: &str,
    fault: &str,
    text: &str,
    number: usize,
) -> Result<String, AllocError> {
    let line = line_of(text, number);
    let (part, mark) = if fault.contains(" Unknown") {
        (last_name(line), "")
    } else if fault.contains(" LabelTwice") {
        (stated_name(line), "")
    } else if fault.contains(" Word") {
        let found = statement(line);
        (first_word(line, found.text), "")
    } else {
        (statement(line), ":")
    };
    let column = part.from.saturating_add(1);
    let word = part.text;
    format!(in alloc; "<stdin>:{number}:{column}: {says}{mark} '{word}'")
}

/// The line that says what a fault is. `fault` is the line on standard output that names it, and
/// `text` the source that has it, as far as it was kept; empty where none was. `None` where the
/// first line names no fault that is known.
pub(crate) fn explained(
    alloc: Global,
    fault: &str,
    text: &str,
) -> Result<Option<String>, AllocError> {
    let Some(says) = sentence_of(fault) else {
        return Ok(None);
    };
    if fault.starts_with("source") && is_c(text) {
        let said = "<stdin>:1:1: this is no assembly: tools/sfi-cc makes an image of C";
        return String::from_str(alloc, said).map(Some);
    }
    let number = match fault.split_once(" line ") {
        Some((_, number)) => number.trim().parse::<usize>().unwrap_or(0),
        None => 0,
    };
    if number == 0 || text.is_empty() {
        return (format!(in alloc; "<stdin>: {says}")).map(Some);
    }
    at_line(alloc, says, fault, text, number).map(Some)
}
