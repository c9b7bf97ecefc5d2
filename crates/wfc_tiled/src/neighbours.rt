//! What lies beside each place.

ghost use Rattle.std.specs.Prelude.{◌≡◌, ◌+◌, ◌<◌, ◌≤◌, ◌++◌, ◌*◌, OnOk, IfOk, IfSome};
ghost use Rattle.wfc_tiled.specs.Tiles.{tiles_beside, tile_beside, tile_neighbour_table};

use crate::holes::Mask;
use std::alloc::Global;
use wfc_outside::NoMemory;
use wfc_places::{along, down_by, left_by, right_by, up_by};
use wfc_problem::NO_CELL;

/// For each place, direction by direction, the cell that lies there, or `NO_CELL`: four entries a
/// place.
pub(crate) fn neighbours(alloc: Global, mask: &Mask, wrap: bool) -> Result<Vec<u32>, NoMemory>
    ensures value { IfOk result (λ table. table.items ≡ tile_neighbour_table mask.now wrap) }
{
    let mut table = Vec::with_capacity(alloc, mask.cells() as usize * 4)?;
    for place in mask.places() {
        push_place(&mut table, mask, wrap, *place)?;
    }
    Ok(table)
}

/// Writes what lies beside a place behind the table.
fn push_place(table: &mut Vec<u32>, mask: &Mask, wrap: bool, place: u32) -> Result<(), NoMemory>
    requires place_in { place < mask.now.width * mask.now.height }
    ensures place { OnOk result (table.new.items
        ≡ table.old.items ++ tiles_beside mask.now wrap place) }
{
    let x = place % mask.width();
    let y = place / mask.width();
    for dir in 0..4 {
        table.push(tile_beside(mask, wrap, x, y, dir))?;
    }
    Ok(())
}

/// The cell beside a place in a direction, or `NO_CELL`.
fn tile_beside(mask: &Mask, wrap: bool, x: u32, y: u32, dir: u8) -> u32
    requires x_in { x < mask.now.width }
    requires y_in { y < mask.now.height }
    ensures value { result ≡ tile_beside mask.now wrap x y dir }
{
    let Some(u) = along(x, right_by(dir), left_by(dir), mask.width(), wrap) else {
        return NO_CELL;
    };
    let Some(v) = along(y, down_by(dir), up_by(dir), mask.height(), wrap) else {
        return NO_CELL;
    };
    match mask.cell(u, v) {
        Some(cell) => cell,
        None => NO_CELL,
    }
}
