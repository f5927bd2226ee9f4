//! Reading the text of a source.
ghost use Rattle.std.specs.Prelude.{◌≡◌, ◌∷◌, [], ◌⊎◌, ◌<◌, ◌≤◌, List, length, MatchOption, MatchResult, IfOk, IfErr, OnOk, Err};
ghost use Rattle.sfi_text.specs.declared.fault.TextFault.{TextFault};
ghost use Rattle.sfi_text.specs.declared.cause.TextCause.TheVariants as causes;
ghost use Rattle.sfi_text.specs.Tokens.{memory};
ghost use Rattle.sfi_text.specs.Texts.{Leads};
ghost use Rattle.sfi_source.specs.Source.{Sandbox};
ghost use Rattle.sfi_text.specs.Texts.{most_bytes, first_line, uncommented, lines, LinesLead, FirstRefused, LineFault, MeansSource, MeansText, IsFault};
ghost use Rattle.sfi_text.specs.SoFar.{SharedNames};
ghost use Rattle.sfi_text.specs.private.Lines.{BeginsWithLine};

use crate::cause::TextCause;
use crate::fault::TextFault;
use crate::progress::Progress;
use crate::source_text::SourceText;
use sfi_source::Source;
use std::alloc::Global;

/// The most bytes of a text: `most_bytes` of specs/Texts.
const MOST_BYTES: usize = 1048576;

/// The line without its comment.
fn uncommented(line: &str) -> &str
    ensures { result.now ≡ uncommented line.now }
{
    match line.split_once('#') {
        Some((code, _)) => code,
        None => line,
    }
}

/// The first line of a text and what follows its line feed; `None` where it has none.
fn first_line(text: &str) -> Option<(&str, &str)>
    ensures { MatchOption result (lines text.now ≡ text.now ∷ [])
        (λ x. BeginsWithLine text.now x.0.now x.1.now) }
{
    text.split_once('\n')
}

/// The fault of a line that is refused for this cause.
fn fault_at(line: u32, cause: TextCause) -> TextFault
    ensures { ((cause ≡ causes.Memory) × (result ≡ memory))
        ⊎ ((cause ≡ causes.Memory → ⊥) × (result.cause ≡ cause) × (result.line ≡ line)) }
{
    match cause {
        TextCause::Memory => TextFault { line: 0, cause },
        TextCause::Word
        | TextCause::Register
        | TextCause::Number
        | TextCause::Operands
        | TextCause::LabelTwice
        | TextCause::Directive
        | TextCause::Limit => TextFault { line, cause },
    }
}

/// Reads a line, of number `number`, from 1, with its comment left out.
fn read_line(
    progress: &mut Progress,
    alloc: Global,
    number: u32,
    line: &str,
) -> Result<(), TextFault>
    ensures leads { OnOk result (Leads number progress.old (uncommented line.now) progress.new) }
    ensures fault { IfErr result (λ f. (f ≡ memory) ⊎ LineFault number progress.old line.now f) }
{
    match progress.line(alloc, number, uncommented(line)) {
        Ok(()) => Ok(()),
        Err(cause) => Err(fault_at(number, cause)),
    }
}

/// Reads the lines of a text, up to the first that is refused.
fn read_lines(progress: &mut Progress, alloc: Global, text: &str) -> Result<(), TextFault>
    requires { length text.now ≤ most_bytes }
    ensures lead { OnOk result (LinesLead 1 progress.old (lines text.now) progress.new) }
    ensures fault { IfErr result (λ f.
        (f ≡ memory) ⊎ FirstRefused 1 progress.old (lines text.now) f) }
{
    let mut rest = text;
    let mut number = 1;
    while let Some((line, after)) = first_line(rest) {
        match read_line(progress, alloc, number, line) {
            Ok(()) => {}
            Err(f) => return Err(f),
        }
        rest = after;
        number += 1;
    }
    read_line(progress, alloc, number, rest)
}

/// What a text means, or its fault.
fn read_text(alloc: Global, text: &str) -> Result<SourceText, TextFault>
    ensures meaning { IfOk result (λ l. MeansText text.now l.source l.shared.items) }
    ensures fault { IfErr result (λ f. (f ≡ memory) ⊎ IsFault text.now f) }
    ensures too_long { most_bytes < length text.now → result ≡ Err (first_line causes.Limit) }
{
    if text.len() > MOST_BYTES {
        return Err(TextFault {
            line: 1,
            cause: TextCause::Limit,
        });
    }
    let mut progress = Progress::new(alloc);
    read_lines(&mut progress, alloc, text)?;
    progress.finish(text)
}

/// The source that a text means, with what its sandboxes' tables of names are to have: one sandbox at
/// least, each begun by a `.sandbox` line.
///
/// A line has labels, each a name and a colon, and then a statement or nothing; `#` begins a
/// comment. A text has at most 1048576 bytes. The fault of a text is that of the first line that is
/// refused, and its cause that of the first token there that departs from a statement that may come
/// there; `Limit` on line 1 for a longer text,
/// and `Directive` on line 1 for one that begins no sandbox.
pub fn parse_text(alloc: Global, text: &str) -> Result<SourceText, TextFault>
    ensures meaning { IfOk result (λ l. MeansText text.now l.source l.shared.items) }
    ensures only_meaning { (s : List Sandbox) (t : List SharedNames) → MeansText text.now s t
        → MatchResult result (λ l. (l.source ≡ s) × (l.shared.items ≡ t)) (λ f. f ≡ memory) }
    ensures fault { IfErr result (λ f. (f ≡ memory) ⊎ IsFault text.now f) }
    ensures only_fault { (f : TextFault) → IsFault text.now f
        → MatchResult result (λ _. ⊥) (λ g. (g ≡ f) ⊎ (g ≡ memory)) }
    ensures too_long { most_bytes < length text.now → result ≡ Err (first_line causes.Limit) }
{
    read_text(alloc, text)
}

/// The source that a text means, as [`parse_text`] reads it.
pub fn parse_source(alloc: Global, text: &str) -> Result<Source, TextFault>
    ensures source { IfOk result (λ s. MeansSource text.now s) }
    ensures only_source { (s : List Sandbox) → MeansSource text.now s
        → MatchResult result (λ t. t ≡ s) (λ f. f ≡ memory) }
    ensures fault { IfErr result (λ f. (f ≡ memory) ⊎ IsFault text.now f) }
    ensures only_fault { (f : TextFault) → IsFault text.now f
        → MatchResult result (λ _. ⊥) (λ g. (g ≡ f) ⊎ (g ≡ memory)) }
    ensures too_long { most_bytes < length text.now → result ≡ Err (first_line causes.Limit) }
{
    match parse_text(alloc, text) {
        Ok(meaning) => Ok(meaning.source),
        Err(fault) => Err(fault),
    }
}
