//! Reading what a line states, after its labels.
ghost use Rattle.std.specs.Prelude.{◌≡◌, ◌⊎◌, IfOk, IfErr, MatchResult};
ghost use Rattle.sfi_text.specs.declared.cause.TextCause.{TextCause};
ghost use Rattle.sfi_text.specs.declared.cause.TextCause.TheVariants as cause;
ghost use Rattle.sfi_text.specs.Tokens.{IsToken};
ghost use Rattle.sfi_text.specs.Keywords.{branch_form, jal_form, branch_states, jal_states, pseudo_form, pseudo_states, directive_form, directive_states, keyword_name};
ghost use Rattle.sfi_text.specs.Operands.{Departs};
ghost use Rattle.sfi_text.specs.Lines.{StatesAfter, InstrDeparts, RefusedWith, NameRefused};
ghost use Rattle.sfi_text.specs.private.Lines.{ReadsRow, ReadsInstr, ReadsAfter};
ghost use Rattle.sfi_text.specs.SoFar.{Stated};
ghost use Rattle.sfi_text.specs.private.Lines.{stated, IsRightStatement};

use crate::cause::TextCause;
use crate::data::read_list;
use crate::form::OperandPart;
use crate::from_operands::{branch_to, jal_to};
use crate::keyword::{Directive, Keyword, Pseudo};
use crate::mnemonic::Mnemonic;
use crate::parse::{after_name, name_cause};
use crate::read::read_operands;
use crate::statement::{SandboxStatement, Statement};
use rv_word::Cond;
use std::alloc::Global;

/// The keyword that the token is, with which a statement begins. The error is `Word` for any other
/// name, and `Operands` for a number or a mark.
pub(crate) fn read_keyword(token: &str) -> Result<Keyword, TextCause>
    requires { IsToken token.now }
    ensures ok { IfOk result (λ k. keyword_name k ≡ token.now) }
    ensures cause { IfErr result (λ e. NameRefused token.now e) }
{
    match Keyword::from_name(token) {
        Some(keyword) => Ok(keyword),
        None => Err(name_cause(token)),
    }
}

/// What stands after a branch's name in a source, where its target is a name.
fn branch_form() -> &'static [OperandPart]
    ensures { result.now ≡ branch_form }
{
    &[
        OperandPart::Rs1,
        OperandPart::Comma,
        OperandPart::Rs2,
        OperandPart::Comma,
        OperandPart::Name,
    ]
}

/// What stands after `jal` in a source, where its target is a name.
fn jal_form() -> &'static [OperandPart]
    ensures { result.now ≡ jal_form }
{
    &[OperandPart::Rd, OperandPart::Comma, OperandPart::Name]
}

/// The branch on this condition with the operands in `rest`, the line after the branch's name.
fn read_branch<'a>(cond: Cond, rest: &'a str) -> Result<Statement<'a>, TextCause>
    ensures ok { IfOk result (λ s. ReadsRow branch_form (branch_states cond) rest.now (stated s)) }
    ensures cause { IfErr result (λ e. Departs branch_form rest.now e) }
{
    match read_operands(branch_form(), rest) {
        Ok(o) => Ok(branch_to(cond, o.rs1, o.rs2, o.name)),
        Err(e) => Err(e),
    }
}

/// The `jal` with the operands in `rest`, the line after its name.
fn read_jal<'a>(rest: &'a str) -> Result<Statement<'a>, TextCause>
    ensures ok { IfOk result (λ s. ReadsRow jal_form jal_states rest.now (stated s)) }
    ensures cause { IfErr result (λ e. Departs jal_form rest.now e) }
{
    match read_operands(jal_form(), rest) {
        Ok(o) => Ok(jal_to(o.rd, o.name)),
        Err(e) => Err(e),
    }
}

/// What the pseudo-instruction states with the operands in `rest`, the line after its name.
fn read_pseudo<'a>(name: Pseudo, rest: &'a str) -> Result<Statement<'a>, TextCause>
    ensures ok { IfOk result (λ s.
        ReadsRow (pseudo_form name) (pseudo_states name) rest.now (stated s)) }
    ensures cause { IfErr result (λ e. Departs (pseudo_form name) rest.now e) }
{
    match read_operands(name.form(), rest) {
        Ok(o) => Ok(name.statement(&o)),
        Err(e) => Err(e),
    }
}

/// What the directive states with the operands in `rest`, the line after its name.
fn read_directive<'a>(name: Directive, rest: &'a str) -> Result<Statement<'a>, TextCause>
    ensures ok { IfOk result (λ s.
        ReadsRow (directive_form name) (directive_states name) rest.now (stated s)) }
    ensures cause { IfErr result (λ e. Departs (directive_form name) rest.now e) }
{
    match read_operands(name.form(), rest) {
        Ok(o) => Ok(name.statement(&o)),
        Err(e) => Err(e),
    }
}

/// The instruction with the operands in `rest`, the line after its name.
fn read_instr<'a>(name: Mnemonic, rest: &'a str) -> Result<Statement<'a>, TextCause>
    ensures ok { IfOk result (λ s. ReadsInstr name rest.now (stated s)) }
    ensures cause { IfErr result (λ e. InstrDeparts name rest.now e) }
{
    match name {
        Mnemonic::Branch(cond) => read_branch(cond, rest),
        Mnemonic::Jal => read_jal(rest),
        _ => match after_name(name, rest) {
            Ok(instr) => Ok(Statement::Within(SandboxStatement::One(instr))),
            Err(e) => Err(e),
        },
    }
}

/// What the text after a keyword states with it, and its error, as `read_statement` returns them.
fn read_after<'a>(
    alloc: Global,
    keyword: Keyword,
    rest: &'a str,
) -> Result<Statement<'a>, TextCause>
    ensures ok { IfOk result (λ s. ReadsAfter keyword rest.now (stated s)) }
    ensures cause { IfErr result (λ e. (e ≡ cause.Memory) ⊎ RefusedWith keyword rest.now e) }
{
    match keyword {
        Keyword::Instr(name) => read_instr(name, rest),
        Keyword::Pseudo(name) => read_pseudo(name, rest),
        Keyword::Directive(name) => read_directive(name, rest),
        Keyword::Numbers(width) => match read_list(alloc, width, rest) {
            Ok(bytes) => Ok(Statement::Within(SandboxStatement::Bytes(bytes))),
            Err(e) => Err(e),
        },
    }
}

/// What the text after a keyword states with it.
///
/// The cause of a refusal is that of the first token that departs: `Register` and `Number` for
/// what stands in the place of one, `Limit` for a name that is too long, `Word` for what
/// forms no token, `Operands` for any other, for one beyond the last and for one that is missing.
/// Only a list of data takes memory.
pub(crate) fn read_statement<'a>(
    alloc: Global,
    keyword: Keyword,
    rest: &'a str,
) -> Result<Statement<'a>, TextCause>
    ensures states { IfOk result (λ s. StatesAfter keyword rest.now (stated s)) }
    ensures only { (s : Stated) → StatesAfter keyword rest.now s
        → MatchResult result (λ t. stated t ≡ s) (λ e. e ≡ cause.Memory) }
    ensures cause { IfErr result (λ e. (e ≡ cause.Memory) ⊎ RefusedWith keyword rest.now e) }
    ensures right { IfOk result (λ s. IsRightStatement (stated s)) }
    ensures only_cause { (e : TextCause) → RefusedWith keyword rest.now e
        → MatchResult result (λ _. ⊥) (λ f. (f ≡ e) ⊎ (f ≡ cause.Memory)) }
{
    read_after(alloc, keyword, rest)
}
