//! Character grids: pictures whose pixels are bytes of printable ASCII, one line of text a row.
#![tactic(auto)]

ghost use Rattle.std.specs.Prelude.{◌≡◌};
ghost use Rattle.wfc_grid.specs.Grid.{IsGrid};

pub mod laws;
mod reading;
mod writing;

pub use reading::{GridFault, MAX_GRID_BYTES, read};
use std::marker::Model;
pub use writing::write;

/// A grid: `width` times `height` bytes, row by row. Both sides are at least 1, and each byte is 0x20 to 0x7E.
#[derive(Debug, Drop)]
pub struct Grid {
    pub width: u32,
    pub height: u32,
    pub bytes: Vec<u8>,
}

impl Model for Grid {
    ghost use Rattle.wfc_grid.specs.Grid.{GridView, IsGrid};

    ghost Value = { GridView };

    ghost view = { λ g. record { width = g.width; height = g.height; bytes = g.bytes.items } };

    ghost invariant = { λ g. IsGrid record { width = g.width; height = g.height; bytes = g.bytes.items } };
}

impl Grid {
    /// The bytes, row by row.
    pub fn as_bytes(&self) -> &[u8]
        ensures bytes { result.now ≡ self.now.bytes }
        ensures grid { IsGrid self.now }
    {
        self.bytes.as_slice()
    }
}
