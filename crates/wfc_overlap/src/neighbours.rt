//! What lies beside each place.

ghost use Rattle.std.specs.Prelude.{◌≡◌, ◌+◌, ◌*◌, ◌<◌, ◌≤◌, ◌++◌, IfOk, vec_capacity, vec_len};
ghost use Rattle.std.specs.Option.{ForSome};
ghost use Rattle.std.specs.List.{flat_map};
ghost use Rattle.wfc_overlap.specs.Layout.{cell_in, output_of, row_places};
ghost use Rattle.wfc_overlap.specs.Sample.{places_beside, window_neighbour_table};

use crate::layout::Layout;
use std::alloc::Global;
use wfc_outside::NoMemory;
use wfc_places::along;
use wfc_problem::NO_CELL;

/// For each place and direction the place that lies there, or `NO_CELL`.
pub(crate) fn neighbours(alloc: Global, layout: Layout) -> Result<Vec<u32>, NoMemory>
    ensures value { IfOk result (λ table. table.items
        ≡ window_neighbour_table layout.n (output_of layout)) }
{
    let mut table = Vec::with_capacity(alloc, layout.cells() as usize * 4)?;
    for y in 0..layout.rows {
        push_row(&mut table, layout, y);
    }
    Ok(table)
}

/// Writes what lies beside the places of a row behind the table, which has room for it.
fn push_row(table: &mut Vec<u32>, layout: Layout, y: u32)
    requires y_in { y < layout.rows }
    requires room { vec_len table.old + layout.columns * 4 ≤ vec_capacity table.old }
    ensures row { table.new.items ≡ table.old.items
        ++ flat_map (places_beside layout.n (output_of layout)) (row_places layout.columns y) }
    ensures length { vec_len table.new ≡ vec_len table.old + layout.columns * 4 }
    ensures capacity { vec_capacity table.new ≡ vec_capacity table.old }
{
    for x in 0..layout.columns {
        push_place(table, layout, x, y);
    }
}

/// Writes what lies to the left of a place, below it, to its right and above it behind the table, which
/// has room for it.
fn push_place(table: &mut Vec<u32>, layout: Layout, x: u32, y: u32)
    requires x_in { x < layout.columns }
    requires y_in { y < layout.rows }
    requires room { vec_len table.old + 4 ≤ vec_capacity table.old }
    ensures place { table.new.items
        ≡ table.old.items ++ places_beside layout.n (output_of layout) (x, y) }
    ensures length { vec_len table.new ≡ vec_len table.old + 4 }
    ensures capacity { vec_capacity table.new ≡ vec_capacity table.old }
{
    let left = along(x, 0, 1, layout.columns, layout.wrap);
    let right = along(x, 1, 0, layout.columns, layout.wrap);
    let up = along(y, 0, 1, layout.rows, layout.wrap);
    let down = along(y, 1, 0, layout.rows, layout.wrap);
    table.push_reserved(cell_in(layout, left, Some(y)));
    table.push_reserved(cell_in(layout, Some(x), down));
    table.push_reserved(cell_in(layout, right, Some(y)));
    table.push_reserved(cell_in(layout, Some(x), up));
}

/// The cell of a column and a row, or `NO_CELL` where one of them isn't there.
#[inline]
fn cell_in(layout: Layout, x: Option<u32>, y: Option<u32>) -> u32
    requires x_in { ForSome x (λ x. x < layout.columns) }
    requires y_in { ForSome y (λ y. y < layout.rows) }
    ensures value { result ≡ cell_in layout.columns x y }
{
    match (x, y) {
        (Some(x), Some(y)) => y * layout.columns + x,
        _ => NO_CELL,
    }
}
