//! The commands that write a map, or what one is made by: `fill`, `learn`, `domains` and `demo`.
#![tactic(auto)]

mod demo_command;
mod demonstration;
mod domains_command;
mod fill_command;
mod filling;
pub mod laws;
mod learn_command;
mod learning;
pub mod order;
mod stepping;
mod walk;

pub use demo_command::demo;
pub use demonstration::{Demonstration, demo_task};
pub use domains_command::domains;
pub use fill_command::{fill, fill_sample};
pub use filling::{Filled, Filling, TileFilling, fill_sample_task, fill_tiles_task};
pub use learn_command::learn;
pub use learning::{Learned, learn_task};
pub use stepping::{Stepping, domains_task};
