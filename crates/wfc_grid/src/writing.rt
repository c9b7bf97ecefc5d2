//! Writing a grid.

ghost use Rattle.std.specs.Prelude.{◌≡◌, IfOk};
ghost use Rattle.wfc_grid.specs.Grid.{raster_of_grid};
ghost use Rattle.wfc_grid.specs.Spelling.{SpellsGrid, grid_text};

use crate::Grid;
use std::alloc::Global;
use wfc_outside::NoMemory;

/// The text of a grid: each row with a LF behind it.
pub fn write(alloc: Global, grid: &Grid) -> Result<Vec<u8>, NoMemory>
    ensures text { IfOk result (λ text. text.items ≡ grid_text (raster_of_grid grid.now).rows) }
    ensures spelled { IfOk result (λ text. SpellsGrid text.items grid.now) }
{
    let mut text = Vec::with_capacity(alloc, grid.bytes.len() + grid.height as usize)?;
    for row in grid.bytes.chunks_exact(grid.width as usize) {
        text.extend_from_slice(row)?;
        text.push(b'\n')?;
    }
    Ok(text)
}
