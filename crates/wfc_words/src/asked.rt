//! What a command is asked for.

ghost use Rattle.std.specs.Prelude.{◌≡◌};
ghost use Rattle.std.specs.Option.{option_map};

use crate::kinds::{CommandKind, SourceModel};
use std::marker::Model;
use wfc_choose::RuleKind;
use wfc_render::Form;

/// What a command is asked for. A field whose word the command doesn't have holds the default of that value; without a
/// default a number is 0, a truth value false, a text empty, an optional value none, and the source `Overlap { n: 0 }`.
#[derive(Debug, Drop)]
pub struct Request {
    pub command: CommandKind,
    /// The name of the sample's file, or of the tile set's.
    pub file: String,
    pub source: SourceModel,
    /// The sides of the map, in pixels or tiles.
    pub width: u32,
    pub height: u32,
    /// How many of the eight images of each window of the sample count.
    pub symmetry: u8,
    /// Whether windows go over the edges of the sample.
    pub wrap_in: bool,
    /// Whether windows go over the edges of the map.
    pub wrap_out: bool,
    /// The names of the files of pins, of steps, and of a refutation.
    pub pins: Option<String>,
    pub steps: Option<String>,
    pub refutation: Option<String>,
    pub seed: u64,
    /// How many retractions a run may make.
    pub budget: u32,
    pub rule: RuleKind,
    /// The form of the written map, by the kind of the sample where none is asked for.
    pub form: Option<Form>,
    /// The number of a demonstration.
    pub number: u32,
    /// The format of a written refutation.
    pub format: u8,
    /// The name of the file of a tile map's holes.
    pub mask: Option<String>,
    /// How many seeds race, from `seed` on.
    pub seeds: u32,
    /// How many turns a runner makes in a round.
    pub quantum: u32,
    /// The side of a block of a large map, in pixels.
    pub block: u32,
    /// The layers of a box.
    pub depth: u32,
}

impl Model for Request {
    ghost use Rattle.std.specs.Option.{option_map};
    ghost use Rattle.std.specs.String.{string_bytes};
    ghost use Rattle.wfc_words.specs.RequestView.{RequestView};

    ghost Value = { RequestView };

    ghost view = { λ r. record {
      command = r.command;
      file = string_bytes r.file;
      source = r.source;
      width = r.width;
      height = r.height;
      symmetry = r.symmetry;
      wrap_in = r.wrap_in;
      wrap_out = r.wrap_out;
      pins = option_map string_bytes r.pins;
      steps = option_map string_bytes r.steps;
      refutation = option_map string_bytes r.refutation;
      seed = r.seed;
      budget = r.budget;
      rule = r.rule;
      form = r.form;
      number = r.number;
      format = r.format;
      mask = option_map string_bytes r.mask;
      seeds = r.seeds;
      quantum = r.quantum;
      block = r.block;
      depth = r.depth;
    } };
}

impl Request {
    /// The name of the sample's file, or of the tile set's.
    pub fn file(&self) -> &str
        ensures value { result.now ≡ self.now.file }
    {
        self.file.as_str()
    }

    /// The name of the pins file.
    pub fn pins(&self) -> Option<&str>
        ensures value { option_map (λ name. name.now) result ≡ self.now.pins }
    {
        text_of(&self.pins)
    }

    /// The name of the steps file.
    pub fn steps(&self) -> Option<&str>
        ensures value { option_map (λ name. name.now) result ≡ self.now.steps }
    {
        text_of(&self.steps)
    }

    /// The name of the file of a refutation.
    pub fn refutation(&self) -> Option<&str>
        ensures value { option_map (λ name. name.now) result ≡ self.now.refutation }
    {
        text_of(&self.refutation)
    }

    /// The name of the file of a tile map's holes.
    pub fn mask(&self) -> Option<&str>
        ensures value { option_map (λ name. name.now) result ≡ self.now.mask }
    {
        text_of(&self.mask)
    }
}

ghost use Rattle.std.specs.String.{string_bytes};

/// A name that may be missing, as a text.
fn text_of(name: &Option<String>) -> Option<&str>
    ensures value { option_map (λ text. text.now) result ≡ option_map string_bytes name.now }
{
    match name {
        Some(name) => Some(name.as_str()),
        None => None,
    }
}
