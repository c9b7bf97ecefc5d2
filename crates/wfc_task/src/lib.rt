//! How a problem of two dimensions is posed by a request: what is read for it and refused, in order, and which maps it
//! is the problem of.
#![tactic(auto)]

mod files;
pub mod laws;
mod lesson;
pub mod order;
mod posing;
mod sampled;
mod sources;
mod steps;
mod tile_files;
mod tile_steps;

pub use files::{pins, problem, sample};
pub use lesson::Taught;
pub use posing::posed_problem;
pub use sources::window_side_of;
pub use steps::{AskedOutput, numbered_picture, patterns_of_picture, posed_for, sample_layout};
pub use tile_files::{mask, pictures, tile_set, tiled_problem};
pub use tile_steps::{tile_document, tile_layout};
