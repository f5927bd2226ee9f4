//! Reading the operands of a statement off its text.
ghost use Rattle.std.specs.Prelude.{◌≡◌, ◌≤◌, ◌↔◌, IfOk, OnOk, OnErr, IfErr, IsTrue, Bool, length, ℕ, ℤ};
ghost use Rattle.sfi_formats.specs.Limits.{name_most};
ghost use Rattle.sfi_text.specs.declared.cause.TextCause.{TextCause};
ghost use Rattle.sfi_text.specs.declared.cause.TextCause.TheVariants as cause;
ghost use Rattle.sfi_text.specs.Tokens.{IsNumber, IsToken, is_too_long};
ghost use Rattle.sfi_source.specs.Names.{IsLabel, begins_label};
ghost use Rattle.sfi_text.specs.Tokens.{IsRegister};
ghost use Rattle.sfi_text.specs.Operands.{IsNumberOf};
ghost use Rattle.sfi_text.specs.Operands.{OperandValues, Stands, Departs, part_cause, label_cause, mode_name, SaysFormat};
ghost use Rattle.sfi_formats.specs.declared.format.Format.{Format};
ghost use Rattle.sfi_text.specs.private.Reading.{values_of};
ghost use Rattle.sfi_text.specs.private.Reading.{Reads, SameAt, has_no_repeat, is_fresh, KeepsOthers};

use crate::cause::TextCause;
use crate::form::{NumberKind, OperandPart};
use crate::lexer::{NextToken, next_token};
use crate::number::parse_number;
use crate::operands::Operands;
use crate::register::register;
use rv_word::Reg;
use sfi_formats::{Format, NAME_MOST_BYTES};

/// The register that the token names; else the error is `Register`.
fn read_register(token: &str) -> Result<Reg, TextCause>
    ensures ok { IfOk result (λ r. IsRegister token.now r) }
    ensures err { OnErr result ((r : ℕ) → IsRegister token.now r → ⊥) }
    ensures cause { IfErr result (λ e. e ≡ cause.Register) }
{
    match register(token) {
        Some(r) => Ok(r),
        None => Err(TextCause::Register),
    }
}

/// Tests that the token is this mark; else the error is `Operands`.
pub(crate) fn read_mark(token: &str, mark: &str) -> Result<(), TextCause>
    ensures ok { IfOk result (λ _. token.now ≡ mark.now) }
    ensures err { OnErr result (token.now ≡ mark.now → ⊥) }
    ensures cause { IfErr result (λ e. e ≡ cause.Operands) }
{
    if token == mark {
        Ok(())
    } else {
        Err(TextCause::Operands)
    }
}

/// The number of this kind that the token writes; else the error is `Number`.
#[tactic(auto, using(crate::proofs::Numbers::kind_in_reach))]
pub(crate) fn read_number(token: &str, kind: NumberKind) -> Result<i64, TextCause>
    ensures ok { IfOk result (λ z. IsNumber token.now z × IsNumberOf kind z) }
    ensures err { OnErr result ((z : ℤ) → IsNumber token.now z → IsNumberOf kind z → ⊥) }
    ensures cause { IfErr result (λ e. e ≡ cause.Number) }
{
    match parse_number(token) {
        Some(z) => {
            if kind.holds(z) {
                Ok(z)
            } else {
                Err(TextCause::Number)
            }
        }
        None => Err(TextCause::Number),
    }
}

/// Whether the token begins with a letter or `_`.
fn begins_label(token: &str) -> bool
    ensures { result ≡ begins_label token.now }
{
    match token.as_bytes() {
        [first, ..] => first.is_ascii_alphabetic() || *first == b'_',
        [] => false,
    }
}

/// Whether the token is a name that a label, a gate or a target may have, of any length.
pub(crate) fn is_label(token: &str) -> bool
    requires { IsToken token.now }
    ensures { IsTrue result ↔ IsLabel token.now }
{
    begins_label(token)
}

/// Whether the token begins as a label's name does, and has more bytes than a name may have.
fn is_too_long(token: &str) -> bool
    ensures { result ≡ is_too_long token.now }
{
    begins_label(token) && token.len() > NAME_MOST_BYTES
}

/// The name that the token is: one that a label, a gate or a target may have. The error is `Limit`
/// for one that is too long, and `Operands` for other tokens.
fn read_label(token: &str) -> Result<&str, TextCause>
    requires { IsToken token.now }
    ensures ok { IfOk result (λ name.
        IsLabel name.now × (length name.now ≤ name_most) × (name.now ≡ token.now)) }
    ensures err { OnErr result (IsLabel token.now → length token.now ≤ name_most → ⊥) }
    ensures cause { IfErr result (λ e. e ≡ label_cause token.now) }
{
    if !is_label(token) {
        Err(TextCause::Operands)
    } else if is_too_long(token) {
        Err(TextCause::Limit)
    } else {
        Ok(token)
    }
}

/// True for `rvc`, false for `norvc`; the error for other tokens is `Operands`.
fn read_mode(token: &str) -> Result<bool, TextCause>
    ensures ok { IfOk result (λ rvc. token.now ≡ mode_name rvc) }
    ensures err { OnErr result ((rvc : Bool) → token.now ≡ mode_name rvc → ⊥) }
    ensures cause { IfErr result (λ e. e ≡ cause.Operands) }
{
    if token == "rvc" {
        Ok(true)
    } else if token == "norvc" {
        Ok(false)
    } else {
        Err(TextCause::Operands)
    }
}

/// The format that the token says: `words`, `single` or the number 1 or 2; else the error is
/// `Number`. `format_name` of `print.rt` writes these.
fn read_format(token: &str) -> Result<Format, TextCause>
    ensures ok { IfOk result (SaysFormat token.now) }
    ensures err { OnErr result ((f : Format) → SaysFormat token.now f → ⊥) }
    ensures cause { IfErr result (λ e. e ≡ cause.Number) }
{
    if token == "words" {
        return Ok(Format::Sfiw);
    }
    if token == "single" {
        return Ok(Format::Sfis);
    }
    match parse_number(token) {
        Some(1) => Ok(Format::Sfi1),
        Some(2) => Ok(Format::Sfi2),
        Some(_) => Err(TextCause::Number),
        None => Err(TextCause::Number),
    }
}

impl<'a> Operands<'a> {
    /// Takes the token for this part of the form: sets the operand, or tests that it is the mark.
    fn put(&mut self, part: OperandPart, token: &'a str) -> Result<(), TextCause>
        requires { IsToken token.now }
        ensures stands { OnOk result (Stands (values_of self.new) part token.now) }
        ensures others { OnOk result (KeepsOthers part (values_of self.old) (values_of self.new)) }
        ensures err { OnErr result ((o : OperandValues) → Stands o part token.now → ⊥) }
        ensures cause { IfErr result (λ e. e ≡ part_cause part token.now) }
    {
        match part {
            OperandPart::Rd => self.rd = read_register(token)?,
            OperandPart::Rs1 => self.rs1 = read_register(token)?,
            OperandPart::Rs2 => self.rs2 = read_register(token)?,
            OperandPart::Number(kind) => self.number = read_number(token, kind)?,
            OperandPart::Name => self.name = read_label(token)?,
            OperandPart::Mode => self.compressed = read_mode(token)?,
            OperandPart::ImageFormat => self.format = read_format(token)?,
            OperandPart::Comma => read_mark(token, ",")?,
            OperandPart::Open => read_mark(token, "(")?,
            OperandPart::Close => read_mark(token, ")")?,
        }
        Ok(())
    }
}

/// Sets the operands of this form, which are all of the text; the range of each is tested. On an
/// error those before it may be set.
fn set_operands<'a>(
    form: &[OperandPart],
    text: &'a str,
    operands: &mut Operands<'a>,
) -> Result<(), TextCause>
    requires { IsTrue (has_no_repeat form.now) }
    ensures reads { OnOk result (Reads (values_of operands.new) form.now text.now) }
    ensures others { OnOk result ((p : OperandPart) → IsTrue (is_fresh p form.now)
        → SameAt p (values_of operands.new) (values_of operands.old)) }
    ensures cause { IfErr result (λ e. Departs form.now text.now e) }
{
    match form.split_first() {
        None => match next_token(text) {
            NextToken::End => Ok(()),
            NextToken::Stuck => Err(TextCause::Word),
            NextToken::Token(..) => Err(TextCause::Operands),
        },
        Some((part, more)) => match next_token(text) {
            NextToken::End => Err(TextCause::Operands),
            NextToken::Stuck => Err(TextCause::Word),
            NextToken::Token(token, rest) => match operands.put(*part, token) {
                Ok(()) => set_operands(more, rest, operands),
                Err(e) => Err(e),
            },
        },
    }
}

/// Reads the operands of this form, which are all of the text. The error is that of the first token
/// that departs from the form.
pub(crate) fn read_operands<'a>(
    form: &[OperandPart],
    text: &'a str,
) -> Result<Operands<'a>, TextCause>
    requires { IsTrue (has_no_repeat form.now) }
    ensures reads { IfOk result (λ o. Reads (values_of o) form.now text.now) }
    ensures cause { IfErr result (λ e. Departs form.now text.now e) }
{
    let mut operands = Operands::none();
    match set_operands(form, text, &mut operands) {
        Ok(()) => Ok(operands),
        Err(e) => Err(e),
    }
}
