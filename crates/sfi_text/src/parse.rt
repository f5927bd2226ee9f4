//! Reading the text of one instruction.
ghost use Rattle.std.specs.Prelude.{◌≡◌, ◌⊎◌, ◌↔◌, IfOk, IfErr, IsTrue, Ok, Err};
ghost use Rattle.sfi_text.specs.declared.cause.TextCause.{TextCause};
ghost use Rattle.sfi_text.specs.declared.cause.TextCause.TheVariants as cause;
ghost use Rattle.sfi_text.specs.private.Reading.{FollowsName, FollowsToken};
ghost use Rattle.rv_word.specs.declared.instr.Instr.{Instr};
ghost use Rattle.rv_word.specs.Spelling.{InRange};
ghost use Rattle.sfi_text.specs.Tokens.{IsToken};
ghost use Rattle.sfi_source.specs.Names.{IsName};
ghost use Rattle.sfi_text.specs.Statement.{Means, Refused, RefusedAt, IsBareFence, OperandsDepart};

use crate::cause::TextCause;
use crate::lexer::{NextToken, begins_name, next_token};
use crate::mnemonic::Mnemonic;
use crate::operands::x0;
use crate::read::read_operands;
use rv_word::Instr;

/// Whether the token is a name, and no number or mark.
fn is_name_token(token: &str) -> bool
    requires { IsToken token.now }
    ensures { IsTrue result ↔ IsName token.now }
{
    match token.as_bytes() {
        [first, ..] => begins_name(*first),
        [] => false,
    }
}

/// Why a token that begins a statement and is no keyword is refused.
pub(crate) fn name_cause(token: &str) -> TextCause
    requires { IsToken token.now }
    ensures { (IsName token.now × (result ≡ cause.Word))
        ⊎ ((IsName token.now → ⊥) × (result ≡ cause.Operands)) }
{
    if is_name_token(token) {
        TextCause::Word
    } else {
        TextCause::Operands
    }
}

/// Whether the instruction is a fence without operands.
fn is_bare_fence(name: Mnemonic, rest: &str) -> bool
    ensures { IsTrue result ↔ IsBareFence name rest.now }
{
    match name {
        Mnemonic::Fence => match next_token(rest) {
            NextToken::End => true,
            NextToken::Token(..) => false,
            NextToken::Stuck => false,
        },
        _ => false,
    }
}

/// The instruction of this name whose operands are the rest of the text. A bare `fence` orders all
/// accesses: it is `fence 255, x0, x0`.
pub(crate) fn after_name(name: Mnemonic, rest: &str) -> Result<Instr, TextCause>
    ensures ok { IfOk result (λ i. FollowsName rest.now name i) }
    ensures cause { IfErr result (λ e. OperandsDepart name rest.now e) }
{
    if is_bare_fence(name, rest) {
        return Ok(Instr::Fence {
            imm: 255,
            rd: x0(),
            rs1: x0(),
        });
    }
    match read_operands(name.form(), rest) {
        Ok(o) => Ok(o.instr(name)),
        Err(e) => Err(e),
    }
}

/// The instruction of the text whose first token is `token`, with `rest` after it.
fn after_token(token: &str, rest: &str) -> Result<Instr, TextCause>
    requires { IsToken token.now }
    ensures ok { IfOk result (λ i. FollowsToken token.now rest.now i) }
    ensures cause { IfErr result (λ e. RefusedAt token.now rest.now e) }
{
    match Mnemonic::from_name(token) {
        Some(name) => after_name(name, rest),
        None => Err(name_cause(token)),
    }
}

/// The instruction that a text means: one statement that is an instruction and no
/// pseudo-instruction, with a number for its target where it jumps or branches.
///
/// Names are in lower case, registers have either of their names (x8 also fp), numbers are decimal
/// or hexadecimal after `0x`, and a fence may leave out its operands. The cause of a refusal is
/// that of the first token that departs from this: `Word` for a first name that no instruction has
/// and for what forms no token, `Register` and `Number` for what stands in the place of one,
/// `Operands` for any other token, for one beyond the last operand and for one that is missing.
pub fn parse_instr(text: &str) -> Result<Instr, TextCause>
    ensures means { IfOk result (λ i. Means text.now i) }
    ensures only { (i : Instr) → Means text.now i → result ≡ Ok i }
    ensures in_range { IfOk result (λ i. InRange i) }
    ensures cause { IfErr result (λ e. Refused text.now e) }
    ensures only_cause { (e : TextCause) → Refused text.now e → result ≡ Err e }
{
    match next_token(text) {
        NextToken::End => Err(TextCause::Operands),
        NextToken::Stuck => Err(TextCause::Word),
        NextToken::Token(token, rest) => after_token(token, rest),
    }
}
