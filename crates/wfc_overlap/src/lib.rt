//! The constraint problem of a sample, and why its legal assignments are the legal pictures.
//!
//! A cell stands for a place of the output at which a window begins, and its value for the pattern
//! that stands there.
#![tactic(auto)]

mod base;
pub mod examples;
mod groups;
pub mod laws;
mod layout;
mod neighbours;
mod painting;
mod pins;
mod problem;
mod supports;

pub use painting::picture_of;
pub use pins::{marks, symbol_texts};
pub use problem::{
    build, checked_window_marks, problem_of_marks, window_base_of_marks, window_parts_of_marks,
};
pub use supports::support_lists;
pub use wfc_places::PinMark;
