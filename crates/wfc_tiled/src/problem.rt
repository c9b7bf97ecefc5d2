//! The problem of a tile set.

ghost use Rattle.std.specs.Prelude.{◌≡◌, ◌<◌, ◌≤◌, IfOk};
ghost use Rattle.wfc_outside.specs.Gives.{Gives};
ghost use Rattle.wfc_tiled.specs.Built.{tile_map_problem, checked_tile_map_pins, tile_pair_count, roomy_mask};
ghost use Rattle.wfc_tiled.specs.Mask.{IsMask, plain_mask};
ghost use Rattle.wfc_tiled.specs.Maps.{ArePlaced};
ghost use Rattle.wfc_tiled.specs.Tiles.{problem_of_tiles};
ghost use Rattle.wfc_tileset.specs.TileSets.{IsTileSet};

use crate::base::tile_base_of_marks;
use crate::holes::Mask;
use crate::neighbours::neighbours;
use crate::pins::marks;
use crate::supports::{supports, weights};
use std::alloc::Global;
use wfc_model::MAX_OUTPUT_SIDE;
use wfc_outside::NoMemory;
use wfc_pins::{BuildFault, PinLine};
use wfc_places::PinMark;
use wfc_problem::{MAX_PAIRS, Parts, Problem};
use wfc_tileset::TileSet;

/// The problem of a tile set for a map of `width` by `height` tiles without holes: a cell for each
/// place, row by row, and the variants as values.
///
/// The first of these faults is answered: too many pairs of a cell and a variant, and then the first
/// line at fault, where a place outside comes before an unknown symbol. A ban is looked at as a pin
/// is.
pub fn build(
    alloc: Global,
    tiles: &TileSet,
    width: u32,
    height: u32,
    wrap: bool,
    pins: &[PinLine],
) -> Result<Problem, BuildFault>
    requires some_width { 0 < width }
    requires some_height { 0 < height }
    requires width_limit { width ≤ MAX_OUTPUT_SIDE }
    requires height_limit { height ≤ MAX_OUTPUT_SIDE }
    ensures exact { Gives BuildFault.NoMemory (λ problem. problem) result
        (tile_map_problem tiles.now (plain_mask width height) wrap pins.now) }
{
    let mask = checked_plain(alloc, tiles, width, height)?;
    build_masked(alloc, tiles, &mask, wrap, pins)
}

/// The mask without holes for a map of `width` by `height` tiles, but for too many pairs of a cell
/// and a variant, as `build` looks at them: before it takes memory.
pub fn checked_plain(
    alloc: Global,
    tiles: &TileSet,
    width: u32,
    height: u32,
) -> Result<Mask, BuildFault>
    requires some_width { 0 < width }
    requires some_height { 0 < height }
    requires width_limit { width ≤ MAX_OUTPUT_SIDE }
    requires height_limit { height ≤ MAX_OUTPUT_SIDE }
    ensures exact { Gives BuildFault.NoMemory (λ mask. mask) result
        (roomy_mask tiles.now (plain_mask width height)) }
{
    let product = u64::from(width) * u64::from(height) * u64::from(tiles.variants());
    if product > MAX_PAIRS {
        return Err(BuildFault::TooLarge { product });
    }
    Ok(Mask::plain(alloc, width, height)?)
}

/// The problem of a tile set for a map with holes: a cell for each place that is no hole, row by
/// row, and the variants as values.
///
/// The faults are those of `build`; of one line, a place outside comes before a hole, and this
/// before an unknown symbol.
pub fn build_masked(
    alloc: Global,
    tiles: &TileSet,
    mask: &Mask,
    wrap: bool,
    pins: &[PinLine],
) -> Result<Problem, BuildFault>
    ensures exact { Gives BuildFault.NoMemory (λ problem. problem) result
        (tile_map_problem tiles.now mask.now wrap pins.now) }
{
    let marks = checked_tile_marks(alloc, tiles, mask, pins)?;
    let parts = tile_parts_of_marks(alloc, tiles, mask, wrap, &marks)?;
    Ok(Problem::from_known(parts))
}

/// What the lines of a pins file mean for the problem that `build_masked` builds, or the first of
/// its faults.
pub fn checked_tile_marks(
    alloc: Global,
    tiles: &TileSet,
    mask: &Mask,
    pins: &[PinLine],
) -> Result<Vec<PinMark>, BuildFault>
    ensures exact { Gives BuildFault.NoMemory (λ marks. marks.items) result
        (checked_tile_map_pins tiles.now mask.now pins.now) }
    ensures few_pairs { IfOk result (λ marks. tile_pair_count tiles.now mask.now ≤ MAX_PAIRS) }
    ensures placed { IfOk result (λ marks. ArePlaced mask.now marks.items) }
    ensures tile_set { IsTileSet tiles.now }
    ensures mask { IsMask mask.now }
{
    let product = u64::from(mask.cells()) * u64::from(tiles.variants());
    if product > MAX_PAIRS {
        return Err(BuildFault::TooLarge { product });
    }
    marks(alloc, tiles, mask, pins)
}

/// What the problem of a tile set for a map with holes is made of, with these pins and bans.
pub fn tile_parts_of_marks(
    alloc: Global,
    tiles: &TileSet,
    mask: &Mask,
    wrap: bool,
    marks: &[PinMark],
) -> Result<Parts, NoMemory>
    requires placed { ArePlaced mask.now marks.now }
    ensures value { IfOk result (λ parts. parts
        ≡ problem_of_tiles tiles.now mask.now wrap marks.now) }
{
    Ok(Parts {
        cells: mask.cells(),
        dirs: 4,
        neighbours: neighbours(alloc, mask, wrap)?,
        weights: weights(alloc, tiles)?,
        supports: supports(alloc, tiles)?,
        base: tile_base_of_marks(alloc, tiles, mask, marks)?,
    })
}
