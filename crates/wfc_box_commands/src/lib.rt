//! The commands of boxes of tiles: `box-fill`, `box-refute` and `box-check`. They are `fill`, `refute` and `check` at
//! another kind of maps.
#![tactic(auto)]

mod check_command;
mod files;
mod fill_command;
mod filling;
pub mod laws;
pub mod order;
mod refute_command;
mod steps;

pub use check_command::box_check;
pub use fill_command::box_fill;
pub use filling::{BoxFilling, box_fill_task};
pub use refute_command::box_refute;
