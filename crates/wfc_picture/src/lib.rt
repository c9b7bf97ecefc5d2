//! Pictures of numbers, and the palettes that say which symbol each number stands for.
#![tactic(auto)]

pub mod laws;
mod palette;
mod picture;
mod symbol;

pub use palette::{MAX_COLOURS, MAX_PIXELS, Palette, PaletteFault};
pub use picture::{Picture, ShapeFault};
pub use symbol::{Colour, Kind, Symbol};
