//! The lines of a row, as rows.rt says how they are written.
use super::super::image::{Edit, end_in, insert, put};
use super::texts::text_named;
use std::alloc::{AllocError, Global};

/// What stands for any text, also none, in what a row says is printed. No command prints this
/// character.
pub(super) const ANY: &str = "\0";

/// A text that is added `times` times, each time with `end` after it: a line feed, nothing or
/// `ANY`.
pub(super) struct Part<'a> {
    times: usize,
    text: &'a str,
    end: &'a str,
}

/// What a line of a row says.
pub(super) enum Line<'a> {
    /// Nothing: it is a note.
    Note,
    /// The input's digits are edited so.
    Change(Edit<'a>),
    /// The input is empty from here on, no image.
    Source,
    /// This is appended to the input.
    Input(Part<'a>),
    /// The bytes that these hexadecimal digits spell are appended to the input.
    Bytes(&'a str),
    /// A command, which reads the input once the whole row is read.
    Command,
    /// This is appended to the digits of `--input`.
    Digits(Part<'a>),
    /// This is appended to what each command has to print.
    Said(Part<'a>),
    /// What this command prints of the input so far is appended to that.
    SaidBy(&'a str),
    /// Each command has to end in this status.
    Status(u8),
}

/// The number that decimal digits spell; `None` where they spell none, here and below wherever a
/// line lacks what belongs to its word.
fn number(digits: &str) -> Option<usize> {
    digits.parse().ok()
}

// A part with the text once.
fn once<'a>(text: &'a str, end: &'a str) -> Part<'a> {
    Part {
        times: 1,
        text,
        end,
    }
}

/// The part of a line's rest `N TEXT`: the text N times.
fn many<'a>(rest: &'a str, end: &'a str) -> Option<Part<'a>> {
    let (times, text) = rest.split_once(' ')?;
    Some(Part {
        times: number(times)?,
        text,
        end,
    })
}

/// The edit of a line with this first word, `put`, `insert`, `end` or `cut`, and this rest.
fn edit_of<'a>(word: &str, rest: &'a str) -> Option<Edit<'a>> {
    if word == "cut" {
        return Some(end_in(number(rest)?, "", 0));
    }
    let (at, digits) = rest.split_once(' ')?;
    let at = number(at)?;
    match word {
        "put" => Some(put(at, digits)),
        "insert" => Some(insert(at, digits)),
        "end" => {
            let (times, digits) = digits.split_once(' ')?;
            Some(end_in(at, digits, number(times)?))
        }
        _ => None,
    }
}

/// The text of that name in rows/texts.rt, `times` times; `None` where none has the name.
fn named<'a>(times: usize, name: &'a str) -> Option<Part<'a>> {
    let text = text_named(name)?;
    Some(Part {
        times,
        text,
        end: "",
    })
}

/// What a line with this first word and this rest appends to the input; `None` for any other word.
fn input_of<'a>(word: &str, rest: &'a str) -> Option<Part<'a>> {
    match word {
        "|" => Some(once(rest, "\n")),
        "times" => many(rest, "\n"),
        "+" => many(rest, ""),
        "text" => named(1, rest),
        "texts" => {
            let (times, name) = rest.split_once(' ')?;
            named(number(times)?, name)
        }
        _ => None,
    }
}

/// What a line with this first word and this rest appends to what has to be printed; `None` for any
/// other word.
fn said_of<'a>(word: &str, rest: &'a str) -> Option<Part<'a>> {
    match word {
        ">" => Some(once(rest, "\n")),
        ">+" => many(rest, ""),
        ">text" => named(1, rest),
        ">.." | ".." => Some(once(rest, ANY)),
        _ => None,
    }
}

/// What the line says, by its first word; `None` where it isn't written as rows.rt says.
pub(super) fn line_of<'a>(line: &'a str) -> Option<Line<'a>> {
    let (word, rest) = line.split_once(' ').unwrap_or((line, ""));
    match word {
        "#" => Some(Line::Note),
        "source" => Some(Line::Source),
        "bytes" => Some(Line::Bytes(rest)),
        "$" => Some(Line::Command),
        "input" => Some(Line::Digits(many(rest, "")?)),
        "as" => Some(Line::SaidBy(rest)),
        "status" => Some(Line::Status(rest.parse().ok()?)),
        "put" | "insert" | "end" | "cut" => Some(Line::Change(edit_of(word, rest)?)),
        ">" | ">+" | ">text" | ">.." | ".." => Some(Line::Said(said_of(word, rest)?)),
        _ => Some(Line::Input(input_of(word, rest)?)),
    }
}

/// Appends the part to the bytes.
pub(super) fn push_part(bytes: &mut Vec<u8>, part: Part<'_>) -> Result<(), AllocError> {
    let Part { times, text, end } = part;
    for _ in 0..times {
        bytes.extend_from_slice(text.as_bytes())?;
        bytes.extend_from_slice(end.as_bytes())?;
    }
    Ok(())
}

/// The status in which a command ends that prints this line: 1 for a refusal, 2 for a fault, 3 for
/// words that don't parse, else 0. A row has the greatest of its lines'.
pub(super) fn status_told(part: &Part<'_>) -> u8 {
    let text = part.text;
    if text.starts_with("refused ") {
        1
    } else if text.contains(" fault ") {
        2
    } else if text.starts_with("error: ") {
        3
    } else {
        0
    }
}

/// Appends each of the lines after a line feed of its own; in `lines` several may be on one, with
/// `; ` between them.
fn push_lines(text: &mut Vec<u8>, lines: &str) -> Result<(), AllocError> {
    for line in lines.lines() {
        for part in line.split("; ") {
            text.extend_from_slice("\n".as_bytes())?;
            text.extend_from_slice(part.as_bytes())?;
        }
    }
    Ok(())
}

/// Appends the row, its name first, then the lines of the table's head, then its own, each on a
/// line of its own.
fn push_row(text: &mut Vec<u8>, head: &str, row: &str) -> Result<(), AllocError> {
    let (first, rest) = row.split_once('\n').unwrap_or((row, ""));
    let (name, more) = first.split_once("; ").unwrap_or((first, ""));
    text.extend_from_slice("\n= ".as_bytes())?;
    text.extend_from_slice(name.as_bytes())?;
    push_lines(text, head)?;
    push_lines(text, more)?;
    push_lines(text, rest)
}

/// The number N in the table's first line, `N commands`; `None` where that is missing.
pub(super) fn count_of(table: &str) -> Option<usize> {
    let (digits, _) = table.split_once(" commands\n")?;
    number(digits)
}

/// The rows of the table without shorthand: each line on its own, and the table's head repeated in
/// each row.
pub(super) fn unfolded(alloc: Global, table: &str) -> Result<Vec<u8>, AllocError> {
    let (head, rows) = table.split_once("\n= ").unwrap_or(("", ""));
    let (_, head) = head.split_once('\n').unwrap_or(("", ""));
    let mut text = Vec::new(alloc);
    for row in rows.split("\n= ") {
        push_row(&mut text, head, row)?;
    }
    Ok(text)
}
