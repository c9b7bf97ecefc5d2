//! Which variants each cell may have: those that meet the pins and bans of its place.

ghost use Rattle.std.specs.Prelude.{◌≡◌, ◌+◌, ◌*◌, ◌<◌, ◌≤◌, length, replicate, true, [], IfOk, IfSome};
ghost use Rattle.wfc_tileset.specs.Tiles.{variant_total};
ghost use Rattle.wfc_places.specs.Flags.{HasFlags, IsRowCut};
ghost use Rattle.wfc_places.specs.Marks.{suits};
ghost use Rattle.wfc_tiled.specs.Cut.{cell_of_mark, meets_at};
ghost use Rattle.wfc_tiled.specs.Mask.{IsMask};
ghost use Rattle.wfc_tiled.specs.Maps.{ArePlaced};
ghost use Rattle.wfc_tiled.specs.Tiles.{tile_base_table};

use crate::holes::Mask;
use std::alloc::Global;
use wfc_outside::NoMemory;
use wfc_places::{PinMark, all_set, cut_row};
use wfc_tileset::TileSet;

/// For each cell and variant whether the variant meets all pins and bans of the cell's place, cell
/// by cell.
pub fn tile_base_of_marks(
    alloc: Global,
    tiles: &TileSet,
    mask: &Mask,
    marks: &[PinMark],
) -> Result<Vec<bool>, NoMemory>
    requires placed { ArePlaced mask.now marks.now }
    ensures value { IfOk result (λ flags. flags.items ≡ tile_base_table tiles.now mask.now
        marks.now) }
{
    let count = tiles.variants() as usize;
    let mut flags = all_set(alloc, mask.cells() as usize * count)?;
    cut_all(&mut flags, tiles, mask, marks);
    Ok(flags)
}

/// Takes away what doesn't meet the pins and bans.
fn cut_all(flags: &mut [bool], tiles: &TileSet, mask: &Mask, marks: &[PinMark])
    requires placed { ArePlaced mask.now marks.now }
    requires all { HasFlags (variant_total tiles.now.tiles) (length mask.now.places) flags.old
        (meets_at mask.now []) }
    ensures met { HasFlags (variant_total tiles.now.tiles) (length mask.now.places) flags.new
        (meets_at mask.now marks.now) }
{
    for mark in marks {
        cut_by_mark(flags, tiles, mask, mark);
    }
}

/// Takes away what doesn't meet a pin or a ban, at the cell of its place.
fn cut_by_mark(flags: &mut [bool], tiles: &TileSet, mask: &Mask, mark: &PinMark)
    requires column_in { mark.now.column < mask.now.width }
    requires row_in { mark.now.row < mask.now.height }
    requires table { length flags.old ≡ length mask.now.places * variant_total tiles.now.tiles }
    ensures mask { IsMask mask.now }
    ensures cut { IfSome (cell_of_mark mask.now mark.now) (λ cell.
        IsRowCut (variant_total tiles.now.tiles) flags.old flags.new cell (suits mark.now)) }
{
    if let Some(cell) = mask.cell(mark.column, mark.row) {
        cut_row(flags, tiles.variants(), mark, cell as usize);
    }
}
