//! The commands that make several runs of one problem: `race`, and of problems that differ in their pins: `explain`.
#![tactic(auto)]

mod cores;
mod explain_command;
mod explaining;
pub mod laws;
pub mod order;
mod race_command;
mod races;
mod racing;

pub use explain_command::explain;
pub use explaining::{EXPLAIN_CHOOSERS, MAX_LINES};
pub use race_command::race;
pub use racing::{MAX_RACE, race_task};
