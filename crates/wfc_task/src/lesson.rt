//! What a sample teaches.

use wfc_pattern::Patterns;
use wfc_picture::{Kind, Palette};

/// What a sample teaches, the palette of its numbers, and how a map of it is written.
#[derive(Drop)]
pub struct Taught {
    pub kind: Kind,
    pub palette: Palette,
    pub patterns: Patterns,
}
