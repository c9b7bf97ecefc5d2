//! A command as `clap` reads it.

ghost use Rattle.std.specs.Prelude.{◌≡◌, false, IfOk};
ghost use Rattle.std.specs.Option.{option_map};
ghost use Rattle.clap.specs.Matches.{found_of};
ghost use Rattle.clap.specs.Simple.{app_of};
ghost use Rattle.clap.specs.Values.{kind_of};
ghost use Rattle.clap.specs.Walk.{first_of, rows_of, rule_of};
ghost use Rattle.wfc_outside.specs.Gives.{Gives};
ghost use Rattle.wfc_words.specs.Commands.{app_of_command, app_with, rule_of_word, word_text};
ghost use Rattle.wfc_words.specs.Request.{fault_by, is_flag_given, matches_by, texts};
ghost use Rattle.wfc_words.specs.Rows.{group_view, row_view, word_view};

use crate::commands::{CommandRow, requires_it, row, takes};
use crate::fault::CommandFault;
use crate::groups::Argument;
use crate::kinds::CommandKind;
use clap::error::ErrorKind;
use clap::{Arg, ArgAction, ArgMatches, Command, Error};
use std::alloc::{AllocError, Global};

/// A word of a command as `clap` has it.
fn arg<'a>(alloc: Global, argument: Argument<'a>) -> Arg<'a>
    ensures rule { rule_of result ≡ rule_of_word (word_view argument.entry) }
    ensures local { result.global ≡ false }
{
    match argument {
        Argument::Required(name) => Arg::new(alloc, name).required(true).action(ArgAction::Set),
        Argument::Choice(name) => Arg::new(alloc, name).long(name).action(ArgAction::Set),
        Argument::Demand(name) => Arg::new(alloc, name)
            .long(name)
            .required(true)
            .action(ArgAction::Set),
        Argument::Flag(name) => Arg::new(alloc, name).long(name).action(ArgAction::SetTrue),
    }
}

/// The simple command of a row of the table.
fn simple<'a>(alloc: Global, row: CommandRow<'a>) -> Result<Command<'a>, AllocError>
    ensures app { IfOk result (λ command. app_of command ≡ app_of_command (row_view row.entry)) }
{
    let mut command = Command::new(alloc, row.name)
        .no_binary_name(true)
        .disable_help_flag(true)
        .disable_version_flag(true);
    for group in row.groups {
        command = with_group(alloc, command, group)?;
    }
    Ok(command)
}

/// The command with the words of a group behind its own.
fn with_group<'a>(
    alloc: Global,
    command: Command<'a>,
    group: &[Argument<'a>],
) -> Result<Command<'a>, AllocError>
    ensures app { IfOk result (λ grown.
        app_of grown ≡ app_with (app_of command.entry) (group_view group.now)) }
{
    let mut grown = command;
    for argument in group {
        grown = grown.arg(arg(alloc, *argument))?;
    }
    Ok(grown)
}

/// What `clap` finds among the words behind a command's name.
pub(crate) fn matches<'a>(
    alloc: Global,
    kind: CommandKind,
    words: &'a [String],
) -> Result<ArgMatches<'a>, CommandFault>
    ensures exact { Gives CommandFault.NoMemory (λ found. rows_of (found_of found)) result
        (matches_by kind (texts words.entry.now)) }
{
    match simple(alloc, row(kind))?.try_get_matches_from(words) {
        Ok(found) => Ok(found),
        Err(error) => Err(fault(&error)),
    }
}

/// What an error of `clap` is to a caller.
fn fault(error: &Error) -> CommandFault
    ensures value { result ≡ fault_by (kind_of error.now) }
{
    match error.kind() {
        ErrorKind::OutOfMemory => CommandFault::NoMemory,
        _ => CommandFault::Refused,
    }
}

/// The text of a word: always one of a word that must be there, and none of a word that the command doesn't have.
pub(crate) fn text<'a>(kind: CommandKind, matches: &ArgMatches<'a>, name: &str) -> Option<&'a str>
    ensures value { option_map (λ text. text.now) result
        ≡ word_text kind name.now (rows_of (found_of matches.now)) }
{
    if requires_it(kind, name) {
        return Some(text_found(matches, name).unwrap_or(""));
    }
    if takes(kind, name) {
        return text_found(matches, name);
    }
    None
}

/// The text that `clap` found of a word.
fn text_found<'a>(matches: &ArgMatches<'a>, name: &str) -> Option<&'a str>
    ensures value { option_map (λ text. text.now) result
        ≡ first_of name.now (rows_of (found_of matches.now)) }
{
    matches.get_str(name)
}

/// Whether a flag is given.
pub(crate) fn flag(kind: CommandKind, matches: &ArgMatches<'_>, name: &str) -> bool
    ensures value { result ≡ is_flag_given kind name.now (rows_of (found_of matches.now)) }
{
    text(kind, matches, name).is_some_and(|text| text == "true")
}
