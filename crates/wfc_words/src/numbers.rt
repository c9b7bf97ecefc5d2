//! The table of the numbers among the words.

ghost use Rattle.std.specs.Prelude.{◌≡◌, ◌≤◌};
ghost use Rattle.wfc_words.specs.Numbers.{block_range, least_block, seeds_from, seeds_range};
ghost use Rattle.wfc_words.specs.Rows.{range_view};

use crate::fault::ValueName;
use crate::kinds::SourceModel;

/// A number among the words: its name, its range, and what stands for it where the words have none.
#[derive(Clone, Copy)]
pub(crate) struct NumberRow {
    pub(crate) name: ValueName,
    pub(crate) least: u64,
    pub(crate) most: u64,
    pub(crate) absent: u64,
}

pub(crate) const WIDTH: NumberRow = NumberRow {
    name: ValueName::Width,
    least: 1,
    most: 4096,
    absent: 0,
};

pub(crate) const HEIGHT: NumberRow = NumberRow {
    name: ValueName::Height,
    least: 1,
    most: 4096,
    absent: 0,
};

pub(crate) const SYMMETRY: NumberRow = NumberRow {
    name: ValueName::Symmetry,
    least: 1,
    most: 8,
    absent: 1,
};

pub(crate) const SEED: NumberRow = NumberRow {
    name: ValueName::Seed,
    least: 0,
    most: u64::MAX,
    absent: 0,
};

pub(crate) const BUDGET: NumberRow = NumberRow {
    name: ValueName::Budget,
    least: 0,
    most: 1_000_000_000,
    absent: 1_000_000,
};

pub(crate) const NUMBER: NumberRow = NumberRow {
    name: ValueName::Number,
    least: 0,
    most: 1_000_000,
    absent: 0,
};

pub(crate) const FORMAT: NumberRow = NumberRow {
    name: ValueName::Format,
    least: 1,
    most: 2,
    absent: 2,
};

pub(crate) const QUANTUM: NumberRow = NumberRow {
    name: ValueName::Quantum,
    least: 1,
    most: 1_000_000,
    absent: 1,
};

pub(crate) const DEPTH: NumberRow = NumberRow {
    name: ValueName::Depth,
    least: 1,
    most: 256,
    absent: 0,
};

/// The row of how many seeds race, of which the first is this one: each fits 64 bits.
pub(crate) fn seeds(seed: u64) -> NumberRow
    ensures row { range_view result ≡ seeds_range seed }
    ensures limit { result.most ≤ 8 }
{
    NumberRow {
        name: ValueName::Seeds,
        least: 1,
        most: (u64::MAX - seed).min(7) + 1,
        absent: 0,
    }
}

/// The row of the side of a block, in pixels, of a map of this source: a block holds a window.
pub(crate) fn block(source: SourceModel) -> NumberRow
    ensures row { range_view result ≡ block_range source }
    ensures limit { result.most ≡ 4096 }
{
    NumberRow {
        name: ValueName::Block,
        least: least_block(source),
        most: 4096,
        absent: 512,
    }
}

/// The least side of a block, in pixels.
fn least_block(source: SourceModel) -> u64
    ensures value { result ≡ least_block source }
{
    match source {
        SourceModel::Overlap { n } => n as u64,
        SourceModel::Tiles => 1,
    }
}
