//! A bounded search for a legal assignment: what one turn does, how a run ends, and what its ends mean.
#![tactic(auto)]

ghost use Rattle.std.specs.Prelude.{◌≡◌};

mod course;
pub mod examples;
mod follow;
mod last;
pub mod laws;
mod search;
mod telling;
mod turning;
mod volumes;

pub use search::Search;
pub use volumes::volume;

/// The largest budget that a run is given.
pub const MAX_BUDGET: u32 = 1_000_000_000;

/// How a run ends.
#[derive(Clone, Copy, Debug, PartialEq, Eq)]
pub enum Outcome {
    /// Each cell has one value, and these are a legal assignment.
    Map,
    /// There is no legal assignment.
    NoMap,
    /// As many retractions were made as the budget allows.
    Spent,
}

/// What a turn did.
#[derive(Clone, Copy, Debug, PartialEq, Eq)]
pub enum Turn {
    /// The cell was given the value.
    Chose { cell: u32, value: u16 },
    /// The value, which was the last one given, was ruled out at the cell.
    Retracted { cell: u32, value: u16 },
    /// The run is at its end.
    Ended(Outcome),
}

impl Turn {
    ghost use Rattle.wfc_search.specs.Search.{outcome_after};

    /// The outcome, if it is an end.
    #[inline]
    pub fn outcome(self) -> Option<Outcome>
        ensures value { result ≡ outcome_after self }
    {
        match self {
            Turn::Ended(outcome) => Some(outcome),
            Turn::Chose { .. } => None,
            Turn::Retracted { .. } => None,
        }
    }
}
