//! What the problems of all kinds of maps share: steps along the sides of a map, pins by number,
//! and the tables and lists that problems are made of.
#![tactic(auto)]

mod flags;
pub mod laws;
mod lists;
mod mark;
mod steps;

pub use flags::{all_set, cut_row};
pub use lists::push_if;
pub use mark::PinMark;
pub use steps::{along, down_by, left_by, right_by, up_by};
