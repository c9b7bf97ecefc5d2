//! The table of the commands.

ghost use Rattle.std.specs.Prelude.{◌≡◌, find};
ghost use Rattle.std.specs.List.{list_any};
ghost use Rattle.std.specs.Str.{bytes_eq};
ghost use Rattle.wfc_words.specs.Commands.{command_named, command_row, is_required_word, is_word, requires_word, takes_word};
ghost use Rattle.wfc_words.specs.Rows.{row_view, some_word};

use crate::groups::{
    Argument, BLOCK, DEMANDED_PINS, EDGES, FILE, FORM, FORMAT, LAYERS, MASK, MODEL, NUMBER, PINS,
    RACE, REFUTATION, RUN, SAMPLE, SIDES, STEPS,
};
use crate::kinds::CommandKind;

/// A command's name, and its words by groups that commands share.
#[derive(Clone, Copy)]
pub(crate) struct CommandRow<'a> {
    pub(crate) name: &'a str,
    pub(crate) groups: &'a [&'a [Argument<'a>]],
}

/// The row of a command.
pub(crate) fn row(kind: CommandKind) -> CommandRow<'static>
    ensures value { row_view result ≡ command_row kind }
{
    match kind {
        CommandKind::Learn => LEARN_ROW,
        CommandKind::Fill => FILL_ROW,
        CommandKind::Domains => DOMAINS_ROW,
        CommandKind::Refute => REFUTE_ROW,
        CommandKind::Check => CHECK_ROW,
        CommandKind::Upgrade => UPGRADE_ROW,
        CommandKind::Demo => DEMO_ROW,
        CommandKind::Race => RACE_ROW,
        CommandKind::Explain => EXPLAIN_ROW,
        CommandKind::Grow => GROW_ROW,
        CommandKind::BoxFill => BOX_FILL_ROW,
        CommandKind::BoxRefute => BOX_REFUTE_ROW,
        CommandKind::BoxCheck => BOX_CHECK_ROW,
    }
}

const LEARN_ROW: CommandRow<'static> = CommandRow {
    name: "learn",
    groups: &[FILE, MODEL, SAMPLE],
};

const FILL_ROW: CommandRow<'static> = CommandRow {
    name: "fill",
    groups: &[FILE, MODEL, SIDES, SAMPLE, EDGES, PINS, MASK, RUN, FORM],
};

const DOMAINS_ROW: CommandRow<'static> = CommandRow {
    name: "domains",
    groups: &[FILE, MODEL, SIDES, SAMPLE, EDGES, PINS, MASK, STEPS],
};

const REFUTE_ROW: CommandRow<'static> = CommandRow {
    name: "refute",
    groups: &[FILE, MODEL, SIDES, SAMPLE, EDGES, PINS, MASK, RUN, FORMAT],
};

const CHECK_ROW: CommandRow<'static> = CommandRow {
    name: "check",
    groups: CHECKED,
};

const UPGRADE_ROW: CommandRow<'static> = CommandRow {
    name: "upgrade",
    groups: CHECKED,
};

/// The words of a refutation that is read.
const CHECKED: &[&[Argument<'static>]] = &[
    FILE, MODEL, SIDES, REFUTATION, SAMPLE, EDGES, PINS, MASK,
];

const DEMO_ROW: CommandRow<'static> = CommandRow {
    name: "demo",
    groups: &[NUMBER],
};

const RACE_ROW: CommandRow<'static> = CommandRow {
    name: "race",
    groups: &[FILE, MODEL, SIDES, SAMPLE, EDGES, PINS, MASK, RUN, RACE],
};

const EXPLAIN_ROW: CommandRow<'static> = CommandRow {
    name: "explain",
    groups: &[FILE, MODEL, SIDES, SAMPLE, EDGES, DEMANDED_PINS, MASK, RUN],
};

const GROW_ROW: CommandRow<'static> = CommandRow {
    name: "grow",
    groups: &[FILE, MODEL, SIDES, SAMPLE, PINS, RUN, FORM, BLOCK],
};

const BOX_FILL_ROW: CommandRow<'static> = CommandRow {
    name: "box-fill",
    groups: &[FILE, SIDES, LAYERS, EDGES, PINS, RUN, FORM],
};

const BOX_REFUTE_ROW: CommandRow<'static> = CommandRow {
    name: "box-refute",
    groups: &[FILE, SIDES, LAYERS, EDGES, PINS, RUN, FORMAT],
};

const BOX_CHECK_ROW: CommandRow<'static> = CommandRow {
    name: "box-check",
    groups: &[FILE, SIDES, LAYERS, REFUTATION, EDGES, PINS],
};

/// All commands.
const COMMANDS: [CommandKind; 13] = [
    CommandKind::Learn,
    CommandKind::Fill,
    CommandKind::Domains,
    CommandKind::Refute,
    CommandKind::Check,
    CommandKind::Upgrade,
    CommandKind::Demo,
    CommandKind::Race,
    CommandKind::Explain,
    CommandKind::Grow,
    CommandKind::BoxFill,
    CommandKind::BoxRefute,
    CommandKind::BoxCheck,
];

/// The command that a word names.
pub(crate) fn kind_named(word: &str) -> Option<CommandKind>
    ensures value { result ≡ command_named word.now }
{
    named_among(&COMMANDS, word)
}

fn named_among(kinds: &[CommandKind], word: &str) -> Option<CommandKind>
    ensures value { result ≡ find (λ kind. bytes_eq (command_row kind).name word.now) kinds.now }
{
    kinds.iter().copied().find(|kind| row(*kind).name == word)
}

/// Whether the command has the word.
pub(crate) fn takes(kind: CommandKind, name: &str) -> bool
    ensures value { result ≡ takes_word kind name.now }
{
    any_takes(row(kind).groups, name)
}

fn any_takes(groups: &[&[Argument<'_>]], name: &str) -> bool
    ensures value { result ≡ list_any (λ group. some_word (is_word name.now) group.now) groups.now }
{
    groups.iter().any(|group| group_takes(group, name))
}

fn group_takes(group: &[Argument<'_>], name: &str) -> bool
    ensures value { result ≡ some_word (is_word name.now) group.now }
{
    group.iter().any(|argument| argument.name() == name)
}

/// Whether the command has the word, and refuses words that lack it.
pub(crate) fn requires_it(kind: CommandKind, name: &str) -> bool
    ensures value { result ≡ requires_word kind name.now }
{
    any_requires(row(kind).groups, name)
}

fn any_requires(groups: &[&[Argument<'_>]], name: &str) -> bool
    ensures value { result
        ≡ list_any (λ group. some_word (is_required_word name.now) group.now) groups.now }
{
    groups.iter().any(|group| group_requires(group, name))
}

fn group_requires(group: &[Argument<'_>], name: &str) -> bool
    ensures value { result ≡ some_word (is_required_word name.now) group.now }
{
    group.iter().any(|argument| argument.is_required() && argument.name() == name)
}
