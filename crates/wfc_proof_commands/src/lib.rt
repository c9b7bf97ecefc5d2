//! The commands of refutations: `refute`, `check` and `upgrade`.
#![tactic(auto)]

mod check_command;
mod checking;
pub mod laws;
pub mod order;
mod refute_command;
mod refuting;
mod upgrade_command;
mod upgrading;

pub use check_command::{check, check_answer};
pub use checking::{check_task, refutation, shape};
pub use refute_command::{refute, refute_verdict};
pub use refuting::refute_task;
pub use upgrade_command::upgrade;
pub use upgrading::{Upgrading, upgrade_task};
