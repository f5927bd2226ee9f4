//! Words of a command line as a terminal may show them.

use std::alloc::{AllocError, Global};

/// Appends `\u{DIGITS}`, with the character's number in hexadecimal, in place of a control
/// character, which would move a terminal's cursor or change its colours.
fn push_escape(out: &mut String, c: char) -> Result<(), AllocError> {
    out.push_str("\\u{")?;
    write!(out, "{:x}", c as u32)?;
    out.push('}')
}

/// The text, with `\u{DIGITS}` in place of each control character but a line feed.
pub(crate) fn escaped(alloc: Global, text: &str) -> Result<String, AllocError> {
    let mut out = String::new(alloc);
    for c in text.chars() {
        if c.is_control() && c != '\n' {
            push_escape(&mut out, c)?;
        } else {
            out.push(c)?;
        }
    }
    Ok(out)
}
