//! The source so far, and how the lines of a text change it.
ghost use Rattle.std.specs.Prelude.{◌≡◌, ◌⊎◌, ◌↔◌, List, ℕ, None, Some, IsTrue, IfOk, IfErr, OnOk, MatchOption, codes};
ghost use Rattle.sfi_text.specs.declared.cause.TextCause.TheVariants as cause;
ghost use Rattle.sfi_text.specs.SoFar.{Labels, RefusesLabel, MayCome, Does, HasNoRoom};
ghost use Rattle.sfi_text.specs.Texts.{BeginsWithName, IsTaken, IsGateTwice, IsKnown, LeadsAfter, Leads, LabelRefused, RefusedAfter, RefusedFrom, LineRefused};
ghost use Rattle.sfi_text.specs.private.Lines.{IsLineStart, PassesTo, LeadsFrom};
ghost use Rattle.sfi_text.specs.SoFar.{format_or_sfi1, has_tables, nothing, with_sandbox};
ghost use Rattle.sfi_text.specs.private.Lines.{stated, position_of_stated};
ghost use Rattle.sfi_text.specs.Texts.{LeadsFromNothing, MeansText, IsFault};
ghost use Rattle.sfi_text.specs.Tokens.{memory};
ghost use Rattle.sfi_source.specs.Names.{IsLabel};
ghost use Rattle.sfi_text.specs.Tokens.{IsToken, Takes};

use crate::cause::TextCause;
use crate::draft::Draft;
use crate::fault::TextFault;
use crate::keyword::Keyword;
use crate::lexer::{NextToken, body, next_token};
use crate::line::{read_keyword, read_statement};
use crate::number::after_prefix;
use crate::read::is_label;
use crate::source_text::{SharedNames, SourceText};
use crate::statement::{Position, Statement};
use sfi_formats::{Format, NAME_MOST_BYTES};
use sfi_source::{Source, SourcePart};
use std::alloc::Global;
use std::marker::Model;

/// The source so far: its format, if the text has said it, the sandboxes that are finished, and the
/// sandbox begun last.
#[derive(Drop)]
pub struct Progress {
    format: Option<Format>,
    finished: Vec<SourcePart>,
    /// Of each finished sandbox what its table of names is to have.
    shared: Vec<SharedNames>,
    begun: Option<Draft>,
}

impl Model for Progress {
    ghost use Rattle.sfi_text.specs.SoFar.{SoFar};

    ghost Value = { SoFar };

    ghost view = { λ p.
        record {
          format = p.format;
          finished = p.finished.items;
          shared = p.shared.items;
          begun = p.begun;
        } };
}

/// Whether sources of the format may say what only later formats have: `.export`, `.import` and
/// `.movable`.
fn has_tables(format: Format) -> bool
    ensures { result ≡ has_tables format }
{
    match format {
        Format::Sfi1 => false,
        Format::Sfi2 | Format::Sfiw | Format::Sfis => true,
    }
}

/// What follows the colon with which a text begins, spaces aside; `None` where it begins otherwise.
fn after_colon(text: &str) -> Option<&str>
    ensures { MatchOption result ((rest : List ℕ) → Takes text.now (codes ":") rest → ⊥)
        (λ rest. Takes text.now (codes ":") rest.now) }
{
    after_prefix(body(text), ":")
}

/// The first token of a text, and what follows it, where the token is a name that a label may have;
/// else `None`.
fn label_name(text: &str) -> Option<(&str, &str)>
    ensures { MatchOption result ((name rest : List ℕ) → BeginsWithName text.now name rest → ⊥)
        (λ x. BeginsWithName text.now x.0.now x.1.now) }
{
    match next_token(text) {
        NextToken::Token(name, rest) => {
            if is_label(name) {
                Some((name, rest))
            } else {
                None
            }
        }
        NextToken::End => None,
        NextToken::Stuck => None,
    }
}

/// What follows the colon of a label, where `token` is a name that a label may have and `after`
/// begins with a colon; else `None`.
fn after_label<'a>(token: &str, after: &'a str) -> Option<&'a str>
    requires { IsToken token.now }
    ensures { MatchOption result
        ((rest : List ℕ) → IsLabel token.now → Takes after.now (codes ":") rest → ⊥)
        (λ rest. IsLabel token.now × Takes after.now (codes ":") rest.now) }
{
    if is_label(token) {
        after_colon(after)
    } else {
        None
    }
}

/// What a line, or the rest of it, begins with.
#[derive(Clone, Copy)]
enum LineStart<'a> {
    /// A label: its name, and what follows its colon.
    Label(&'a str, &'a str),
    /// Something else.
    Other(NextToken<'a>),
}

/// Whether a text, a line or the rest of it, begins with a label.
fn line_start(text: &str) -> LineStart<'_>
    ensures { IsLineStart text.now result }
{
    let next = next_token(text);
    match next {
        NextToken::Token(name, after) => match after_label(name, after) {
            Some(rest) => LineStart::Label(name, rest),
            None => LineStart::Other(next),
        },
        NextToken::End => LineStart::Other(next),
        NextToken::Stuck => LineStart::Other(next),
    }
}

/// Whether a text begins with a name that a label or a gate has already.
fn is_name_taken(draft: &Draft, text: &str) -> bool
    ensures { IsTrue result ↔ IsTaken draft.now text.now }
{
    match label_name(text) {
        Some((name, _)) => !draft.is_free(name),
        None => false,
    }
}

impl Progress {
    /// The source so far before the first line.
    pub(crate) fn new(alloc: Global) -> Progress
        ensures { result ≡ nothing }
    {
        Progress {
            format: None,
            finished: Vec::new(alloc),
            shared: Vec::new(alloc),
            begun: None,
        }
    }

    /// Whether a statement that has to stand at such a position may come next.
    fn may_come(&self, position: Position) -> bool
        ensures { IsTrue result ↔ MayCome position self.now }
    {
        match (position, &self.begun) {
            (Position::Head, None) => self.format.is_none(),
            (Position::Head, Some(_)) => false,
            (Position::Outside, _) => true,
            (Position::Gates | Position::Code | Position::Data, None) => false,
            (Position::Gates, Some(draft)) => !draft.is_opened(),
            (Position::Code, Some(draft)) => !draft.is_in_data(),
            (Position::Data, Some(draft)) => draft.is_in_data(),
        }
    }

    /// Adds a label that stands here, or refuses it: no sandbox is begun, its name is too long, or a
    /// label or gate has the name already.
    fn add_label(&mut self, alloc: Global, name: &str) -> Result<(), TextCause>
        ensures labels { OnOk result (Labels name.now self.old self.new) }
        ensures cause { IfErr result (λ e. (e ≡ cause.Memory) ⊎ RefusesLabel name.now self.old e) }
    {
        match &mut self.begun {
            None => Err(TextCause::Directive),
            Some(draft) => {
                if name.len() > NAME_MOST_BYTES {
                    Err(TextCause::Limit)
                } else if draft.is_free(name) {
                    draft.place_label(alloc, name)
                } else {
                    Err(TextCause::LabelTwice)
                }
            }
        }
    }

    /// Reads the labels at the front of a line, and returns what stands after them.
    fn read_labels<'a>(&mut self, alloc: Global, line: &'a str) -> Result<NextToken<'a>, TextCause>
        ensures passes { IfOk result (λ next. PassesTo self.old line.now self.new next) }
        ensures cause { IfErr result (λ e. (e ≡ cause.Memory) ⊎ LabelRefused self.old line.now e) }
    {
        let mut text = line;
        loop {
            match line_start(text) {
                LineStart::Label(name, rest) => match self.add_label(alloc, name) {
                    Ok(()) => text = rest,
                    Err(e) => return Err(e),
                },
                LineStart::Other(next) => return Ok(next),
            }
        }
    }

    /// Whether the statement adds a gate, and a label or a gate has its name already.
    fn is_gate_twice(&self, keyword: Keyword, text: &str) -> bool
        ensures { IsTrue result ↔ IsGateTwice keyword self.now text.now }
    {
        match &self.begun {
            Some(draft) => keyword.makes_gate() && is_name_taken(draft, text),
            None => false,
        }
    }

    /// The format: SFI1 where the text says none.
    fn format(&self) -> Format
        ensures { result ≡ format_or_sfi1 self.now.format }
    {
        match self.format {
            Some(format) => format,
            None => Format::Sfi1,
        }
    }

    /// Whether the keyword is one of the language of the format.
    fn is_known(&self, keyword: Keyword) -> bool
        ensures { IsTrue result ↔ IsKnown keyword self.now }
    {
        !keyword.is_added() || has_tables(self.format())
    }

    /// Finishes the sandbox begun last, if there is one, and begins one with `data_size` bytes of
    /// data.
    fn begin(&mut self, alloc: Global, data_size: u32) -> Result<(), TextCause>
        ensures begins { OnOk result (self.new ≡ with_sandbox data_size self.old) }
        ensures memory { IfErr result (λ e. e ≡ cause.Memory) }
    {
        if let Some(draft) = self.begun.take() {
            let (part, shared) = draft.finish();
            self.finished.push(part)?;
            self.shared.push(shared)?;
        }
        self.begun = Some(Draft::new(alloc, self.format(), data_size));
        Ok(())
    }

    /// Does what the line of number `line` states, which may come here; `Limit` if there is no room
    /// for it.
    fn apply_statement(
        &mut self,
        alloc: Global,
        line: u32,
        statement: &Statement<'_>,
    ) -> Result<(), TextCause>
        requires { MayCome (position_of_stated (stated statement.now)) self.old }
        ensures does { OnOk result (Does line (stated statement.now) self.old self.new) }
        ensures cause { IfErr result (λ e. (e ≡ cause.Memory)
            ⊎ (HasNoRoom (stated statement.now) self.old × (e ≡ cause.Limit))) }
    {
        match statement {
            Statement::Format(format) => {
                self.format = Some(*format);
                Ok(())
            }
            Statement::Sandbox { data_size } => self.begin(alloc, *data_size),
            Statement::Within(what) => match &mut self.begun {
                Some(draft) => draft.apply_statement(alloc, line, what),
                None => Err(TextCause::Directive),
            },
        }
    }

    /// Does what a keyword states with the text after it, on the line of number `line`.
    fn after_keyword(
        &mut self,
        alloc: Global,
        line: u32,
        keyword: Keyword,
        text: &str,
    ) -> Result<(), TextCause>
        ensures leads { OnOk result (LeadsAfter keyword line self.old text.now self.new) }
        ensures cause { IfErr result (λ e.
            (e ≡ cause.Memory) ⊎ RefusedAfter keyword self.old text.now e) }
    {
        if !self.is_known(keyword) {
            return Err(TextCause::Word);
        }
        if !self.may_come(keyword.position()) {
            return Err(TextCause::Directive);
        }
        if self.is_gate_twice(keyword, text) {
            return Err(TextCause::LabelTwice);
        }
        let statement = read_statement(alloc, keyword, text)?;
        self.apply_statement(alloc, line, &statement)
    }

    /// Does what the statement states that has `token` first, and `rest` after it.
    fn statement(
        &mut self,
        alloc: Global,
        line: u32,
        token: &str,
        rest: &str,
    ) -> Result<(), TextCause>
        requires { IsToken token.now }
        ensures leads { OnOk result (LeadsFrom line token.now rest.now self.old self.new) }
        ensures cause { IfErr result (λ e.
            (e ≡ cause.Memory) ⊎ RefusedFrom self.old token.now rest.now e) }
    {
        let keyword = read_keyword(token)?;
        self.after_keyword(alloc, line, keyword, rest)
    }

    /// Reads a line, `text`, which has no comment: its labels, and then its statement, if any.
    /// `line` is its number, from 1.
    pub(crate) fn line(&mut self, alloc: Global, line: u32, text: &str) -> Result<(), TextCause>
        ensures leads { OnOk result (Leads line self.old text.now self.new) }
        ensures cause { IfErr result (λ e. (e ≡ cause.Memory) ⊎ LineRefused self.old text.now e) }
    {
        match self.read_labels(alloc, text)? {
            NextToken::End => Ok(()),
            NextToken::Stuck => Err(TextCause::Word),
            NextToken::Token(token, rest) => self.statement(alloc, line, token, rest),
        }
    }

    /// What a text means whose lines were all read; `Directive` on line 1 if it begins no sandbox.
    pub(crate) fn finish(self, text: &str) -> Result<SourceText, TextFault>
        requires { LeadsFromNothing text.now self }
        ensures meaning { IfOk result (λ l. MeansText text.now l.source l.shared.items) }
        ensures fault { IfErr result (λ f. (f ≡ memory) ⊎ IsFault text.now f) }
    {
        let mut parts = self.finished;
        let mut shared = self.shared;
        match self.begun {
            Some(draft) => {
                let (part, last) = draft.finish();
                parts.push(part)?;
                shared.push(last)?;
                Ok(SourceText {
                    source: Source::new(parts),
                    shared,
                })
            }
            None => Err(TextFault {
                line: 1,
                cause: TextCause::Directive,
            }),
        }
    }
}
