//! The constraint problem of a tile set, and why its legal assignments are the legal tile maps.
//!
//! A cell stands for a place of the map that is no hole, and its value for the variant that stands
//! there.
#![tactic(auto)]

mod base;
pub mod examples;
mod holes;
pub mod laws;
mod neighbours;
mod painting;
mod pins;
mod problem;
mod reading;
mod supports;

pub use base::tile_base_of_marks;
pub use holes::Mask;
pub use painting::{tiles_of, tiles_of_masked};
pub use problem::{build, build_masked, checked_plain, checked_tile_marks, tile_parts_of_marks};
pub use reading::{MaskFault, mask};
pub use supports::{variants_fit, weights};
