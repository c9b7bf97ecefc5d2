//! The command that makes a large map block by block: `grow`.
#![tactic(auto)]

mod grow_command;
mod growing;
pub mod laws;
pub mod order;
mod stuck_block;

pub use grow_command::grow;
pub use growing::{GROW_CHOOSERS, Growing, growing_task};
