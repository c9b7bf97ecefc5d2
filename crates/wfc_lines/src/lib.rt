//! The one line that the error stream gets where a command ends with another status than 0: a call a kind of line.
//!
//! A line is `wfc: `, a text and LF. Each call puts the whole line, or a front of it and then a fault of the sink was
//! counted. None takes memory.
#![tactic(auto)]

mod building;
mod checks;
mod commands;
mod explanations;
mod grids;
mod growing;
pub mod laws;
mod layouts;
mod learning;
mod line;
mod masks;
mod outcome;
mod palettes;
mod pin_files;
mod ppms;
mod races;
mod reads;
mod stacks;
mod step_files;
mod tile_sets;

pub use building::build;
pub use checks::check;
pub use commands::{chooser, command};
pub use explanations::many_pins;
pub use grids::grid;
pub use growing::{many_blocks, stuck};
pub use layouts::render;
pub use learning::learn;
pub use line::{count, plain, put_named, put_numbered, twice_numbered};
pub use masks::{mask, mask_grid};
pub use outcome::{budget_spent, map_exists, no_domains, no_map, no_memory, out_failed};
pub use palettes::palette;
pub use pin_files::pins;
pub use ppms::ppm;
pub use races::race;
pub use reads::unread_file;
pub use stacks::stack;
pub use step_files::{range, steps};
pub use tile_sets::tiles;
