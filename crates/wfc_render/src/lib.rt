//! The bytes of maps and of the texts about samples and domains.
#![tactic(auto)]

mod blocks;
mod colours;
mod form;
mod gathering;
pub mod laws;
mod layouts;
mod learned;
mod maps;
mod tile_texts;
mod tiled;

pub use blocks::write_block;
pub use form::{Form, Layout, RenderFault};
pub use layouts::{MAX_MAP_PIXELS, layout};
pub use learned::{learned_overlap, push_head};
pub use maps::picture_bytes;
pub use tile_texts::learned_tiles;
pub use tiled::tile_bytes;
