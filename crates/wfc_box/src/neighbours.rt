//! What lies beside each place of a box.

ghost use Rattle.std.specs.Prelude.{◌≡◌, ◌<◌, ◌≤◌, ◌++◌, IfOk, OnOk};
ghost use Rattle.wfc_problem.specs.declared.TheConstants.{MAX_PAIRS};
ghost use Rattle.wfc_box.specs.BoxProblem.{above, all_beside_in_box, below, beside_in_box, beside_in_layer, box_neighbours};
ghost use Rattle.wfc_box.specs.Boxes.{IsFrame, area, places_in};

use crate::frame::{Frame, area, places};
use std::alloc::Global;
use wfc_outside::NoMemory;
use wfc_places::{along, down_by, left_by, right_by, up_by};
use wfc_problem::NO_CELL;

/// For each place and direction the cell that lies there, or `NO_CELL`.
pub(crate) fn neighbours(alloc: Global, frame: Frame) -> Result<Vec<u32>, NoMemory>
    requires frame { IsFrame frame }
    requires few { places_in frame ≤ MAX_PAIRS }
    ensures value { IfOk result (λ table. table.items ≡ box_neighbours frame) }
{
    let cells = places(frame) as u32;
    let mut table = Vec::with_capacity(alloc, cells as usize * 6)?;
    for cell in 0..cells {
        push_cell(&mut table, frame, cell)?;
    }
    Ok(table)
}

/// Writes what lies beside a cell behind the table.
fn push_cell(table: &mut Vec<u32>, frame: Frame, cell: u32) -> Result<(), NoMemory>
    requires frame { IsFrame frame }
    requires few { places_in frame ≤ MAX_PAIRS }
    requires cell_in { cell < places_in frame }
    ensures cell { OnOk result (table.new.items ≡ table.old.items ++ all_beside_in_box frame cell) }
{
    for dir in 0..6 {
        table.push(beside(frame, cell, dir))?;
    }
    Ok(())
}

/// The cell beside a cell in a direction, or `NO_CELL`.
fn beside(frame: Frame, cell: u32, dir: u8) -> u32
    requires frame { IsFrame frame }
    requires few { places_in frame ≤ MAX_PAIRS }
    requires cell_in { cell < places_in frame }
    ensures value { result ≡ beside_in_box frame cell dir }
{
    let area = area(frame);
    if dir < 4 {
        beside_in_layer(frame, cell / area, cell % area, dir)
    } else if dir == 4 {
        above(frame, cell)
    } else {
        below(frame, cell)
    }
}

/// The cell beside a place of a layer in one of the first four directions, or `NO_CELL`.
fn beside_in_layer(frame: Frame, layer: u32, place: u32, dir: u8) -> u32
    requires frame { IsFrame frame }
    requires few { places_in frame ≤ MAX_PAIRS }
    requires layer_in { layer < frame.depth }
    requires place_in { place < area frame }
    ensures value { result ≡ beside_in_layer frame layer place dir }
{
    let x = place % frame.width;
    let y = place / frame.width;
    let Some(u) = along(x, right_by(dir), left_by(dir), frame.width, frame.wrap) else {
        return NO_CELL;
    };
    let Some(v) = along(y, down_by(dir), up_by(dir), frame.height, frame.wrap) else {
        return NO_CELL;
    };
    layer * area(frame) + (v * frame.width + u)
}

/// The cell above a cell, or `NO_CELL`.
fn above(frame: Frame, cell: u32) -> u32
    requires frame { IsFrame frame }
    requires few { places_in frame ≤ MAX_PAIRS }
    requires cell_in { cell < places_in frame }
    ensures value { result ≡ above frame cell }
{
    let area = area(frame);
    if cell / area + 1 < frame.depth {
        cell + area
    } else {
        NO_CELL
    }
}

/// The cell below a cell, or `NO_CELL`.
fn below(frame: Frame, cell: u32) -> u32
    requires frame { IsFrame frame }
    ensures value { result ≡ below frame cell }
{
    let area = area(frame);
    if 0 < cell / area {
        cell - area
    } else {
        NO_CELL
    }
}
