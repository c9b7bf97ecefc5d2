//! The run of a problem with the words of a seed: opened over the engine of counters, made to its
//! end, and what it came to.
#![tactic(auto)]

ghost use Rattle.std.specs.Prelude.{◌≡◌};

pub mod examples;
pub mod laws;
mod runs;

pub use runs::{Ran, RunEnd, open_search, outcome_counted, run, run_counted, words_of_seed};
