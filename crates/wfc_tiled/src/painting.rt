//! Tile maps of assignments.

ghost use Rattle.std.specs.Prelude.{◌≡◌, ◌*◌, ◌<◌, ◌≤◌, length, IfOk};
ghost use Rattle.wfc_model.specs.Raster.{IsFilled, raster_of};
ghost use Rattle.wfc_tiled.specs.Mask.{cell_number, plain_mask};
ghost use Rattle.wfc_tiled.specs.Maps.{IsLegalMapWith, number_of_cell, numbers_of_cells, tile_map};

use crate::holes::Mask;
use std::alloc::Global;
use wfc_model::MAX_OUTPUT_SIDE;
use wfc_outside::NoMemory;
use wfc_picture::Picture;
use wfc_tileset::HOLE;

/// The map of `width` by `height` tiles that an assignment makes: each variant in its place.
pub fn tiles_of(
    alloc: Global,
    width: u32,
    height: u32,
    assignment: &[u16],
) -> Result<Picture, NoMemory>
    requires some_width { 0 < width }
    requires some_height { 0 < height }
    requires width_limit { width ≤ MAX_OUTPUT_SIDE }
    requires height_limit { height ≤ MAX_OUTPUT_SIDE }
    requires each_cell { length assignment.now ≡ width * height }
    ensures value { IfOk result (λ picture. picture
        ≡ tile_map (plain_mask width height) assignment.now) }
    ensures legal { IfOk result (IsLegalMapWith (plain_mask width height) assignment.now) }
{
    let mask = Mask::plain(alloc, width, height)?;
    tiles_of_masked(alloc, &mask, assignment)
}

/// The map with holes that an assignment makes: each variant in its place, and `HOLE` at each hole.
pub fn tiles_of_masked(alloc: Global, mask: &Mask, assignment: &[u16]) -> Result<Picture, NoMemory>
    requires each_cell { length assignment.now ≡ length mask.now.places }
    ensures value { IfOk result (λ picture. picture ≡ tile_map mask.now assignment.now) }
    ensures legal { IfOk result (IsLegalMapWith mask.now assignment.now) }
{
    let numbers = numbers(alloc, mask, assignment)?;
    Ok(picture_from(mask.width(), mask.height(), numbers))
}

/// The picture of these numbers, of which there are as many as it has places.
fn picture_from(width: u32, height: u32, numbers: Vec<u32>) -> Picture
    requires filled { IsFilled width height numbers.items }
    ensures value { result ≡ raster_of width height numbers.items }
{
    Picture::new(width, height, numbers).unwrap()
}

/// The numbers of the map, row by row.
fn numbers(alloc: Global, mask: &Mask, assignment: &[u16]) -> Result<Vec<u32>, NoMemory>
    requires each_cell { length assignment.now ≡ length mask.now.places }
    ensures value { IfOk result (λ numbers. numbers.items
        ≡ numbers_of_cells mask.now assignment.now) }
{
    let count = mask.width() * mask.height();
    let mut numbers = Vec::with_capacity(alloc, count as usize)?;
    for place in 0..count {
        numbers.push(number_at(mask, assignment, place))?;
    }
    Ok(numbers)
}

/// What stands at a place.
fn number_at(mask: &Mask, assignment: &[u16], place: u32) -> u32
    requires each_cell { length assignment.now ≡ length mask.now.places }
    ensures value { result ≡ number_of_cell assignment.now (cell_number mask.now place) }
{
    match mask.cell_of(place) {
        Some(cell) => u32::from(assignment[cell as usize]),
        None => HOLE,
    }
}
