//! The values among the words, by groups in the order of their names.

ghost use Rattle.std.specs.Prelude.{◌≡◌, ◌≤◌, IfOk};
ghost use Rattle.clap.specs.Matches.{found_of};
ghost use Rattle.clap.specs.Walk.{rows_of};
ghost use Rattle.wfc_words.specs.Rows.{range_view};
ghost use Rattle.wfc_words.specs.Values.{form_value, map_values, model_value, number_value, race_values, rule_value};
ghost use Rattle.wfc_words.specs.Values.{run_values, space_values, unless_masked, values_of, writing_values};

use crate::fault::{CommandFault, ValueName};
use crate::kinds::{CommandKind, SourceModel};
use crate::named::{form_named, model_asked, rule_asked};
use crate::numbers::{
    BUDGET, DEPTH, FORMAT, HEIGHT, NUMBER, NumberRow, QUANTUM, SEED, SYMMETRY, WIDTH, block, seeds,
};
use crate::simple::text;
use clap::ArgMatches;
use wfc_choose::RuleKind;
use wfc_render::Form;
use wfc_text::number;

/// The values of a request.
#[derive(Clone, Copy)]
pub(crate) struct Values {
    pub(crate) map: MapValues,
    pub(crate) run: RunValues,
    pub(crate) writing: WritingValues,
    pub(crate) race: RaceValues,
    pub(crate) space: SpaceValues,
}

/// What a map is made of, its sides, and how many images of a window count.
#[derive(Clone, Copy)]
pub(crate) struct MapValues {
    pub(crate) source: SourceModel,
    pub(crate) width: u32,
    pub(crate) height: u32,
    pub(crate) symmetry: u8,
}

/// How a run goes.
#[derive(Clone, Copy)]
pub(crate) struct RunValues {
    pub(crate) seed: u64,
    pub(crate) budget: u32,
    pub(crate) rule: RuleKind,
}

/// What is written, and how.
#[derive(Clone, Copy)]
pub(crate) struct WritingValues {
    pub(crate) form: Option<Form>,
    pub(crate) number: u32,
    pub(crate) format: u8,
}

/// How many seeds race, and how many turns a runner makes in a round.
#[derive(Clone, Copy)]
pub(crate) struct RaceValues {
    pub(crate) seeds: u32,
    pub(crate) quantum: u32,
}

/// The side of a block in pixels, and the layers of a box.
#[derive(Clone, Copy)]
pub(crate) struct SpaceValues {
    pub(crate) block: u32,
    pub(crate) depth: u32,
}

/// All values, or the first that isn't in its range.
pub(crate) fn values_among(
    kind: CommandKind,
    matches: &ArgMatches<'_>,
) -> Result<Values, CommandFault>
    ensures exact { result ≡ values_of kind (rows_of (found_of matches.now)) }
{
    let map = map_among(kind, matches)?;
    let run = run_among(kind, matches)?;
    let writing = writing_among(kind, matches, map.source)?;
    let race = race_among(kind, matches, run.seed)?;
    let space = space_among(kind, matches, map.source)?;
    Ok(Values {
        map,
        run,
        writing,
        race,
        space,
    })
}

fn map_among(kind: CommandKind, matches: &ArgMatches<'_>) -> Result<MapValues, CommandFault>
    ensures exact { result ≡ map_values kind (rows_of (found_of matches.now)) }
{
    let source = model_among(kind, matches)?;
    let width = number_among(kind, matches, WIDTH)?;
    let height = number_among(kind, matches, HEIGHT)?;
    let symmetry = number_among(kind, matches, SYMMETRY)?;
    Ok(MapValues {
        source,
        width: width as u32,
        height: height as u32,
        symmetry: symmetry as u8,
    })
}

fn run_among(kind: CommandKind, matches: &ArgMatches<'_>) -> Result<RunValues, CommandFault>
    ensures exact { result ≡ run_values kind (rows_of (found_of matches.now)) }
{
    let seed = number_among(kind, matches, SEED)?;
    let budget = number_among(kind, matches, BUDGET)?;
    let rule = rule_among(kind, matches)?;
    Ok(RunValues {
        seed,
        budget: budget as u32,
        rule,
    })
}

fn writing_among(
    kind: CommandKind,
    matches: &ArgMatches<'_>,
    source: SourceModel,
) -> Result<WritingValues, CommandFault>
    ensures exact { result ≡ writing_values kind (rows_of (found_of matches.now)) source }
{
    let form = form_among(kind, matches)?;
    let number = number_among(kind, matches, NUMBER)?;
    let format = number_among(kind, matches, FORMAT)?;
    let values = WritingValues {
        form,
        number: number as u32,
        format: format as u8,
    };
    unless_masked(kind, matches, source, values)
}

/// A mask is for tile maps alone.
fn unless_masked(
    kind: CommandKind,
    matches: &ArgMatches<'_>,
    source: SourceModel,
    values: WritingValues,
) -> Result<WritingValues, CommandFault>
    ensures exact { result ≡ unless_masked kind (rows_of (found_of matches.now)) source values }
{
    match (source, text(kind, matches, ValueName::Mask.word())) {
        (SourceModel::Overlap { .. }, Some(_)) => Err(CommandFault::Value {
            name: ValueName::Mask,
        }),
        _ => Ok(values),
    }
}

fn race_among(
    kind: CommandKind,
    matches: &ArgMatches<'_>,
    seed: u64,
) -> Result<RaceValues, CommandFault>
    ensures exact { result ≡ race_values kind (rows_of (found_of matches.now)) seed }
{
    let seeds = number_among(kind, matches, seeds(seed))?;
    let quantum = number_among(kind, matches, QUANTUM)?;
    Ok(RaceValues {
        seeds: seeds as u32,
        quantum: quantum as u32,
    })
}

fn space_among(
    kind: CommandKind,
    matches: &ArgMatches<'_>,
    source: SourceModel,
) -> Result<SpaceValues, CommandFault>
    ensures exact { result ≡ space_values kind (rows_of (found_of matches.now)) source }
{
    let block = number_among(kind, matches, block(source))?;
    let depth = number_among(kind, matches, DEPTH)?;
    Ok(SpaceValues {
        block: block as u32,
        depth: depth as u32,
    })
}

/// A number of the table.
fn number_among(
    kind: CommandKind,
    matches: &ArgMatches<'_>,
    row: NumberRow,
) -> Result<u64, CommandFault>
    requires absent_in { row.absent ≤ row.most }
    ensures exact { result
        ≡ number_value kind (rows_of (found_of matches.now)) (range_view row) }
    ensures in_range { IfOk result (λ n. n ≤ row.most) }
{
    match text(kind, matches, row.name.word()) {
        None => Ok(row.absent),
        Some(text) => match number(text.as_bytes(), row.least, row.most) {
            Ok(n) => Ok(n),
            Err(_) => Err(CommandFault::Value { name: row.name }),
        },
    }
}

fn model_among(kind: CommandKind, matches: &ArgMatches<'_>) -> Result<SourceModel, CommandFault>
    ensures exact { result ≡ model_value kind (rows_of (found_of matches.now)) }
{
    match text(kind, matches, ValueName::Model.word()) {
        None => Ok(SourceModel::Overlap { n: 0 }),
        Some(text) => model_asked(kind, text).ok_or(CommandFault::Value {
            name: ValueName::Model,
        }),
    }
}

fn rule_among(kind: CommandKind, matches: &ArgMatches<'_>) -> Result<RuleKind, CommandFault>
    ensures exact { result ≡ rule_value kind (rows_of (found_of matches.now)) }
{
    match text(kind, matches, ValueName::Rule.word()) {
        None => Ok(RuleKind::Fewest),
        Some(text) => rule_asked(kind, text).ok_or(CommandFault::Value {
            name: ValueName::Rule,
        }),
    }
}

fn form_among(kind: CommandKind, matches: &ArgMatches<'_>) -> Result<Option<Form>, CommandFault>
    ensures exact { result ≡ form_value kind (rows_of (found_of matches.now)) }
{
    match text(kind, matches, ValueName::Form.word()) {
        None => Ok(None),
        Some(text) => form_named(text).ok_or(CommandFault::Value {
            name: ValueName::Form,
        }),
    }
}
