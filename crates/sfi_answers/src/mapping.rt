//! The command `map`.
ghost use Rattle.std.specs.Prelude.{◌≡◌, ◌++◌, List, ℕ, OnOk, IfOk, string_bytes, ◌≤◌, length};
ghost use Rattle.sfi_image.specs.Parts.{IsImage};
ghost use Rattle.sfi_image.specs.Spelling.{Part};
ghost use Rattle.sfi_answers.specs.Building.{kind_name, map_line, lines_in, IsTableText, IsMapFrom, map};
ghost use Rattle.sfi_answers.specs.Answers.{Answers};
ghost use Rattle.sfi_io.specs.Hexadecimal.{limit};

use crate::building::source_text;
use crate::fault::Stop;
use crate::verdict::Answer;
use sfi_build::{build_at, names_at};
use sfi_formats::{Format, Place};
use sfi_image::{Image, ImageFault, parse_image};
use sfi_link::{NameAddress, NameKind};
use sfi_report::{names_text, push_eight_digits};
use std::alloc::{AllocError, Global};

/// The word that a map prints for a name of this kind.
fn kind_name(kind: NameKind) -> &'static str
    ensures { result.now ≡ kind_name kind }
{
    match kind {
        NameKind::Gate => "gate",
        NameKind::Code => "code",
        NameKind::Data => "data",
    }
}

/// Appends the line of a gate or label. page/page.js and tools/suygapid/trace/programs.py read it
/// by regular expressions.
fn push_map_line(out: &mut String, entry: &NameAddress) -> Result<(), AllocError>
    ensures { OnOk result (string_bytes out.new
        ≡ string_bytes out.old ++ map_line entry.now) }
{
    let sandbox = entry.sandbox();
    let kind = kind_name(entry.kind());
    let name = entry.name();
    write!(out, "sandbox={sandbox} {kind} {name} at=")?;
    push_eight_digits(out, entry.address())?;
    out.push_str("\n")
}

/// Appends the lines of the gates and labels of sandbox `sandbox`.
fn push_map_lines(out: &mut String, sandbox: u32, entries: &[NameAddress]) -> Result<(), AllocError>
    ensures { OnOk result (string_bytes out.new
        ≡ string_bytes out.old ++ lines_in sandbox entries.now) }
{
    for entry in entries {
        if entry.sandbox() == sandbox {
            push_map_line(out, entry)?;
        }
    }
    Ok(())
}

/// The lines of the table of names at the end of a sandbox's first data bytes, `init`. There are
/// none without a table, nor in the first format, in which a source can't ask for one.
fn names_text_of_format(alloc: Global, format: Format, init: &[u8]) -> Result<String, AllocError>
    ensures { IfOk result (λ text. IsTableText format init.now (string_bytes text)) }
{
    match format {
        Format::Sfi1 => Ok(String::new(alloc)),
        Format::Sfi2 | Format::Sfiw | Format::Sfis => names_text(alloc, init),
    }
}

/// Appends what the map says of sandbox number `sandbox`: the lines of its gates and labels among
/// `entries`, and those of the table in which its first data bytes `init` end.
fn push_sandbox_map(
    alloc: Global,
    out: &mut String,
    sandbox: u32,
    entries: &[NameAddress],
    format: Format,
    init: &[u8],
) -> Result<(), AllocError>
    ensures { OnOk result ((table : List ℕ) × IsTableText format init.now table
        × (string_bytes out.new ≡ string_bytes out.old ++ (lines_in sandbox entries.now ++ table))) }
{
    push_map_lines(out, sandbox, entries)?;
    let table = names_text_of_format(alloc, format, init)?;
    out.push_str(&table)
}

/// The map of an image. `entries` are the gates and labels of all its sandboxes.
fn map_text(alloc: Global, entries: &[NameAddress], image: &Image<'_>) -> Result<String, AllocError>
    ensures { IfOk result (λ text. IsMapFrom 0 entries.now image.now (string_bytes text)) }
{
    let mut text = String::new(alloc);
    let format = image.format();
    for (sandbox, part) in image.parts().iter().enumerate() {
        push_sandbox_map(alloc, &mut text, sandbox as u32, entries, format, part.init)?;
    }
    Ok(text)
}

/// The map of the image with these bytes. `entries` are the gates and labels of all its sandboxes.
pub(crate) fn map_lines(
    alloc: Global,
    entries: &[NameAddress],
    bytes: &[u8],
) -> Result<String, AllocError>
    requires { (parts : List Part) × IsImage bytes.now parts }
    ensures { IfOk result (λ text. (parts : List Part) × IsImage bytes.now parts
        × IsMapFrom 0 entries.now parts (string_bytes text)) }
{
    match parse_image(alloc, bytes) {
        Ok(image) => map_text(alloc, entries, &image),
        Err(ImageFault::Memory) => Err(AllocError),
        Err(ImageFault::Layout(_)) => unreachable!(),
    }
}

/// The map of the source text in the image that it makes with its sandboxes at these places: for
/// each sandbox the lines of its gates and labels, with their addresses, and then, but in the first
/// format, lines of the names that the table at the end of its first data tells, if there is one.
pub fn map_answer(alloc: Global, places: &[Place], text: &[u8]) -> Result<Answer, Stop>
    requires { length text.now ≤ limit }
    ensures { Answers (map places.now) text.now result }
{
    let source = source_text(text)?;
    let names = names_at(alloc, source, places)?;
    let bytes = build_at(alloc, source, places)?;
    Ok(Answer::lines(0, map_lines(alloc, &names, &bytes)?))
}
