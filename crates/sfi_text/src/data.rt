//! Reading the list of numbers that stands after `.word`, `.half` or `.byte`. A text is what is
//! left of the line.
ghost use Rattle.std.specs.Prelude.{◌≡◌, IfOk, IfErr, OnOk, ◌⊎◌};
ghost use Rattle.std.specs.Option.{option_map};
ghost use Rattle.sfi_text.specs.declared.cause.TextCause.TheVariants as cause;
ghost use Rattle.sfi_text.specs.Keywords.{data_kind};
ghost use Rattle.sfi_text.specs.Lines.{NumberDeparts, MoreDeparts, ListDeparts};
ghost use Rattle.sfi_text.specs.private.Lines.{ReadsNumber, ReadsMore, ReadsList, ReadsOne, ReadsAnother, MoreDepartsAfter};

use crate::cause::TextCause;
use crate::constant::push_number_bytes;
use crate::form::NumberKind;
use crate::keyword::DataWidth;
use crate::lexer::{NextToken, next_token};
use crate::read::{read_mark, read_number};
use std::alloc::Global;

/// The number of this kind at the front of the text, and what follows it.
fn read_first(kind: NumberKind, text: &str) -> Result<(i64, &str), TextCause>
    ensures ok { IfOk result (λ first. ReadsNumber kind text.now first.0 first.1.now) }
    ensures cause { IfErr result (λ e. NumberDeparts kind text.now e) }
{
    match next_token(text) {
        NextToken::End => Err(TextCause::Operands),
        NextToken::Stuck => Err(TextCause::Word),
        NextToken::Token(token, rest) => match read_number(token, kind) {
            Ok(number) => Ok((number, rest)),
            Err(e) => Err(e),
        },
    }
}

/// Reads the number at the front of the text, appends its bytes, and returns what follows it.
fn read_one<'a>(bytes: &mut Vec<u8>, width: DataWidth, text: &'a str) -> Result<&'a str, TextCause>
    ensures ok { IfOk result (λ rest.
        ReadsOne width bytes.old.items bytes.new.items text.now rest.now) }
    ensures cause { IfErr result (λ e.
        (e ≡ cause.Memory) ⊎ NumberDeparts (data_kind width) text.now e) }
{
    match read_first(width.kind(), text) {
        Ok((number, rest)) => match push_number_bytes(bytes, width, number) {
            Ok(()) => Ok(rest),
            Err(_) => Err(TextCause::Memory),
        },
        Err(e) => Err(e),
    }
}

/// Reads a comma at the front of the text and then a number, as `read_one` does; returns `None` for
/// a blank text.
fn read_another<'a>(
    bytes: &mut Vec<u8>,
    width: DataWidth,
    text: &'a str,
) -> Result<Option<&'a str>, TextCause>
    ensures ok { IfOk result (λ next.
        ReadsAnother width bytes.old.items bytes.new.items text.now
        (option_map (λ rest. rest.now) next)) }
    ensures cause { IfErr result (λ e.
        (e ≡ cause.Memory) ⊎ MoreDeparts (data_kind width) text.now e) }
{
    match next_token(text) {
        NextToken::End => Ok(None),
        NextToken::Stuck => Err(TextCause::Word),
        NextToken::Token(comma, after) => match read_mark(comma, ",") {
            Ok(()) => match read_one(bytes, width, after) {
                Ok(rest) => Ok(Some(rest)),
                Err(e) => Err(e),
            },
            Err(e) => Err(e),
        },
    }
}

/// Reads the numbers of all of the text, each after a comma, and appends their bytes.
fn read_more(bytes: &mut Vec<u8>, width: DataWidth, text: &str) -> Result<(), TextCause>
    ensures ok { OnOk result (ReadsMore width bytes.old.items bytes.new.items text.now) }
    ensures cause { IfErr result (λ e.
        (e ≡ cause.Memory) ⊎ MoreDepartsAfter (data_kind width) text.now e) }
{
    let mut rest = text;
    loop {
        match read_another(bytes, width, rest) {
            Ok(Some(next)) => rest = next,
            Ok(None) => return Ok(()),
            Err(e) => return Err(e),
        }
    }
}

/// The bytes of a list of numbers, which is all of the text: one number at least, with commas
/// between.
pub(crate) fn read_list(alloc: Global, width: DataWidth, text: &str) -> Result<Vec<u8>, TextCause>
    ensures ok { IfOk result (λ bytes. ReadsList width text.now bytes.items) }
    ensures cause { IfErr result (λ e.
        (e ≡ cause.Memory) ⊎ ListDeparts (data_kind width) text.now e) }
{
    let mut bytes = Vec::new(alloc);
    match read_one(&mut bytes, width, text) {
        Ok(rest) => match read_more(&mut bytes, width, rest) {
            Ok(()) => Ok(bytes),
            Err(e) => Err(e),
        },
        Err(e) => Err(e),
    }
}
