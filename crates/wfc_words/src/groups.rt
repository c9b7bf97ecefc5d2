//! The words of commands, by groups that commands share.

ghost use Rattle.std.specs.Prelude.{◌≡◌};
ghost use Rattle.wfc_words.specs.Commands.{is_required, word_name};
ghost use Rattle.wfc_words.specs.Rows.{word_view};

use crate::texts;

/// A word behind a command's name.
#[derive(Clone, Copy)]
pub(crate) enum Argument<'a> {
    /// A text that must be there, at its place.
    Required(&'a str),
    /// `--name TEXT` or `--name=TEXT`, once or not at all.
    Choice(&'a str),
    /// `--name TEXT` or `--name=TEXT`, once.
    Demand(&'a str),
    /// `--name`, once or not at all.
    Flag(&'a str),
}

impl<'a> Argument<'a> {
    /// The name of the word.
    pub(crate) fn name(self) -> &'a str
        ensures value { result.now ≡ word_name (word_view self.entry) }
    {
        match self {
            Argument::Required(name) => name,
            Argument::Choice(name) => name,
            Argument::Demand(name) => name,
            Argument::Flag(name) => name,
        }
    }

    /// Whether words without it are refused.
    pub(crate) fn is_required(self) -> bool
        ensures value { result ≡ is_required (word_view self.entry) }
    {
        match self {
            Argument::Required(_) | Argument::Demand(_) => true,
            Argument::Choice(_) | Argument::Flag(_) => false,
        }
    }
}

/// The file that a map is made from.
pub(crate) const FILE: &[Argument<'static>] = &[Argument::Required(texts::FILE)];

/// The side of a window of a sample, or that the file is a tile set.
pub(crate) const MODEL: &[Argument<'static>] = &[Argument::Required(texts::MODEL)];

/// The sides of the map.
pub(crate) const SIDES: &[Argument<'static>] = &[
    Argument::Required(texts::WIDTH),
    Argument::Required(texts::HEIGHT),
];

/// The layers of a box.
pub(crate) const LAYERS: &[Argument<'static>] = &[Argument::Required(texts::DEPTH)];

/// The file of a refutation that is read.
pub(crate) const REFUTATION: &[Argument<'static>] = &[Argument::Required(texts::REFUTATION)];

/// How windows are taken from a sample.
pub(crate) const SAMPLE: &[Argument<'static>] = &[
    Argument::Choice(texts::SYMMETRY),
    Argument::Flag(texts::WRAP_IN),
];

/// Whether the map goes on over its edges.
pub(crate) const EDGES: &[Argument<'static>] = &[Argument::Flag(texts::WRAP_OUT)];

/// The file of pins.
pub(crate) const PINS: &[Argument<'static>] = &[Argument::Choice(texts::PINS)];

/// The file of pins, which must be there.
pub(crate) const DEMANDED_PINS: &[Argument<'static>] = &[Argument::Demand(texts::PINS)];

/// The file of a tile map's holes.
pub(crate) const MASK: &[Argument<'static>] = &[Argument::Choice(texts::MASK)];

/// The file of steps.
pub(crate) const STEPS: &[Argument<'static>] = &[Argument::Choice(texts::STEPS)];

/// How a run goes.
pub(crate) const RUN: &[Argument<'static>] = &[
    Argument::Choice(texts::SEED),
    Argument::Choice(texts::BUDGET),
    Argument::Choice(texts::RULE),
];

/// The form of a written map.
pub(crate) const FORM: &[Argument<'static>] = &[Argument::Choice(texts::FORM)];

/// The format of a written refutation.
pub(crate) const FORMAT: &[Argument<'static>] = &[Argument::Choice(texts::FORMAT)];

/// The number of a demonstration.
pub(crate) const NUMBER: &[Argument<'static>] = &[Argument::Required(texts::NUMBER)];

/// How many seeds race, and by how many turns.
pub(crate) const RACE: &[Argument<'static>] = &[
    Argument::Demand(texts::SEEDS),
    Argument::Choice(texts::QUANTUM),
];

/// The side of a block of a large map.
pub(crate) const BLOCK: &[Argument<'static>] = &[Argument::Choice(texts::BLOCK)];
