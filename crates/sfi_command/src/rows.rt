//! Rows of commands and of their options, and the command line that they make.

ghost use Rattle.std.specs.Prelude.{◌≡◌, IfOk, false, map};
ghost use Rattle.clap.specs.Simple.{app_of, new_app};
ghost use Rattle.clap.specs.Walk.{rule_of};
ghost use Rattle.clap.specs.declared.builder.command.Command.TheViews.{out-Command};
ghost use Rattle.sfi_command.specs.Command.{program_named, required_argument_rule, with_all};
ghost use Rattle.sfi_command.specs.private.{IsCommandOf, named_rule, rule_of_row, shape_of_row};

use clap::builder::ValueParser;
use clap::{Arg, ArgAction, Command, value_parser};
use std::alloc::{AllocError, Global};

/// What an option takes. The first text of each is the word by which help calls the value.
#[derive(Clone, Copy)]
pub(crate) enum Takes<'a> {
    Nothing,
    Text(&'a str),
    /// A text, and the option may be given again and again.
    Texts(&'a str),
    /// A text, and the option has to be given.
    Needed(&'a str),
    /// A number. After the word come what it is where the option isn't given, the least and the
    /// most.
    Count(&'a str, &'a str, u32, u32),
    /// A number from 1 to 18446744073709551615.
    Number(&'a str),
    /// A text that has to be given, without the option's name.
    Word(&'a str),
}

/// An option by its name without hyphens, with what it takes and the line that help has for it.
pub(crate) struct OptionRow<'a> {
    pub(crate) name: &'a str,
    pub(crate) takes: Takes<'a>,
    pub(crate) about: &'a str,
}

/// A command, with the line that says what it does and the notes at the end of its help.
pub(crate) struct CommandRow<'a> {
    pub(crate) name: &'a str,
    pub(crate) about: &'a str,
    pub(crate) options: &'a [OptionRow<'a>],
    pub(crate) notes: &'a str,
}

/// An argument, which has to be given, without an option's name before it. `name` is for finding
/// it, and `about` is the line that help has for it.
fn word_named<'a>(alloc: Global, name: &'a str, about: &'a str) -> Arg<'a>
    ensures rule { rule_of result ≡ required_argument_rule name.now }
    ensures local { result.global ≡ false }
{
    Arg::new(alloc, name).help(about).required(true)
}

/// An option `--NAME`, with the line that help has for it. What it takes is still to be added.
fn option_named<'a>(alloc: Global, name: &'a str, about: &'a str) -> Arg<'a>
    ensures rule { rule_of result ≡ named_rule name.now }
    ensures local { result.global ≡ false }
{
    Arg::new(alloc, name).long(name).help(about)
}

/// The option or argument of this row, as clap has it. `rule_of_row` of specs/private says the same
/// of what the parser makes of it.
fn option_of<'a>(alloc: Global, row: &OptionRow<'a>) -> Arg<'a>
    ensures rule { rule_of result ≡ rule_of_row row.now }
    ensures local { result.global ≡ false }
{
    if let Takes::Word(word) = row.takes {
        return word_named(alloc, row.name, row.about).value_name(word);
    }
    let option = option_named(alloc, row.name, row.about);
    match row.takes {
        Takes::Nothing => option.action(ArgAction::SetTrue),
        Takes::Text(word) => option.value_name(word),
        Takes::Texts(word) => option.value_name(word).action(ArgAction::Append),
        Takes::Needed(word) => option.value_name(word).required(true),
        Takes::Count(word, usual, least, most) => option
            .value_name(word)
            .default_value(usual)
            .value_parser(ValueParser::signed(i64::from(least), i64::from(most))),
        Takes::Number(word) => option
            .value_name(word)
            .value_parser(value_parser!(u64).range(1..)),
        Takes::Word(word) => option.value_name(word),
    }
}

/// A command without options, with the line that says what it does and the notes at the end of its
/// help.
fn command_named<'a>(alloc: Global, name: &'a str, about: &'a str, notes: &'a str) -> Command<'a>
    ensures app { app_of result ≡ new_app name.now }
    ensures local { (out-Command result).has_globals ≡ false }
{
    Command::new(alloc, name).about(about).after_help(notes)
}

/// The command of this row, with its options.
fn command_of<'a>(alloc: Global, row: &CommandRow<'a>) -> Result<Command<'a>, AllocError>
    ensures { IfOk result (IsCommandOf (shape_of_row row.now)) }
{
    let mut command = command_named(alloc, row.name, row.about, row.notes);
    for option in row.options {
        command = command.arg(option_of(alloc, option))?;
    }
    Ok(command)
}

/// The program of the row `row`, with its version and a subcommand for each of the rows `commands`.
pub(crate) fn program_of<'a>(
    alloc: Global,
    row: &CommandRow<'a>,
    version: &'a str,
    commands: &[CommandRow<'a>],
) -> Result<Command<'a>, AllocError>
    ensures { IfOk result (λ c. app_of c ≡ with_all (program_named row.now.name.now)
        (map shape_of_row commands.now)) }
{
    let mut program = command_named(alloc, row.name, row.about, row.notes)
        .version(version)
        .subcommand_required(true);
    for command in commands {
        program = program.subcommand(command_of(alloc, command)?)?;
    }
    Ok(program)
}
