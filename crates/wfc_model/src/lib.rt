//! What the program is about, as definitions alone: pictures, windows and their images, what a sample teaches, and
//! which pictures are legal. The definitions stand in `specs/`; `laws` checks them on small cases and proves what
//! the crates above rest on.
#![tactic(auto)]

pub mod laws;

/// The most columns, and the most rows, that a map may have.
pub const MAX_OUTPUT_SIDE: u32 = 4096;
