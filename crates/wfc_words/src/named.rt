//! The values that are no numbers, by their texts.

ghost use Rattle.std.specs.Prelude.{◌≡◌};
ghost use Rattle.wfc_words.specs.Named.{form_named, is_rankable, model_asked, rule_asked, rule_named, source_of};
ghost use Rattle.wfc_words.specs.Named.{takes_tiles, rule_without_ranks, model_without_tiles};

use crate::kinds::{CommandKind, SourceModel};
use wfc_choose::RuleKind;
use wfc_render::Form;
use wfc_text::number;

/// The model that a text says, of those that the command's map may have.
pub(crate) fn model_asked(kind: CommandKind, text: &str) -> Option<SourceModel>
    ensures value { result ≡ model_asked kind text.now }
{
    if takes_tiles(kind) {
        return source_of(text);
    }
    model_without_tiles(source_of(text))
}

/// Whether the command's map, if it has one, may be made of tiles.
fn takes_tiles(kind: CommandKind) -> bool
    ensures value { result ≡ takes_tiles kind }
{
    !matches!(kind, CommandKind::Grow)
}

/// The model, if it isn't that of tiles.
fn model_without_tiles(source: Option<SourceModel>) -> Option<SourceModel>
    ensures value { result ≡ model_without_tiles source }
{
    match source {
        Some(SourceModel::Tiles) => None,
        _ => source,
    }
}

/// The model: the side of a window, or the word `tiles`.
fn source_of(text: &str) -> Option<SourceModel>
    ensures value { result ≡ source_of text.now }
{
    if text == "tiles" {
        return Some(SourceModel::Tiles);
    }
    match number(text.as_bytes(), 1, 6) {
        Ok(n) => Some(SourceModel::Overlap { n: n as u32 }),
        Err(_) => None,
    }
}

/// The rule that a text names, of those that the command's runs may have.
pub(crate) fn rule_asked(kind: CommandKind, text: &str) -> Option<RuleKind>
    ensures value { result ≡ rule_asked kind text.now }
{
    if is_rankable(kind) {
        return rule_named(text);
    }
    rule_without_ranks(rule_named(text))
}

/// Whether the command's runs, if it has any, may have the rule that goes by ranks.
fn is_rankable(kind: CommandKind) -> bool
    ensures value { result ≡ is_rankable kind }
{
    !matches!(
        kind,
        CommandKind::Race | CommandKind::Explain | CommandKind::Grow
    )
}

/// The rule, if it doesn't go by ranks.
fn rule_without_ranks(rule: Option<RuleKind>) -> Option<RuleKind>
    ensures value { result ≡ rule_without_ranks rule }
{
    match rule {
        Some(RuleKind::Ranked) => None,
        _ => rule,
    }
}

fn rule_named(text: &str) -> Option<RuleKind>
    ensures value { result ≡ rule_named text.now }
{
    if text == "scanline" {
        return Some(RuleKind::Scanline);
    }
    if text == "fewest" {
        return Some(RuleKind::Fewest);
    }
    if text == "ranked" {
        return Some(RuleKind::Ranked);
    }
    None
}

/// The form that a text names, as a form that is asked for.
pub(crate) fn form_named(text: &str) -> Option<Option<Form>>
    ensures value { result ≡ form_named text.now }
{
    if text == "p6" {
        return Some(Some(Form::P6));
    }
    if text == "p3" {
        return Some(Some(Form::P3));
    }
    if text == "grid" {
        return Some(Some(Form::Grid));
    }
    if text == "cells" {
        return Some(Some(Form::Cells));
    }
    None
}
