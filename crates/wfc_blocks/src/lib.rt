//! Large maps, grown block by block.
//!
//! An area is covered by blocks that overlap. Each is filled by a run of its own, which keeps what
//! the blocks before it set, so that the whole is a legal picture.
#![tactic(auto)]

mod block;
mod canvas;
mod cover;
mod ends;
pub mod examples;
mod growing;
mod grown;
pub mod laws;
mod lines;
mod pins;
mod whole;

pub use block::Block;
pub use grown::{GrowFault, Grown, Stuck};
pub use whole::grow;

/// The most blocks that an area is grown in.
pub const MAX_BLOCKS: u64 = 64;

/// What stands for a pixel of which no number is set. Each number is below it.
pub(crate) const UNSET: u16 = 65_535;
