//! Tile sets, masks and problems for the tests.

use std::alloc::{AllocError, Global};
use std::process::Abort;
use std::test::Fail;
use wfc_grid::{Grid, GridFault};
use wfc_pins::{BuildFault, PinFault, PinLine, read_pins};
use wfc_problem::Problem;
use wfc_tiled::{Mask, MaskFault, build, build_masked, mask};
use wfc_tileset::{TileFault, TileSet, read};

/// One straight line, which may go on to the right.
const LINES: &[u8] =
    b"[[tile]]\nname = 'line'\nclass = 'I'\n[[pair]]\nleft = 'line 0'\nright = 'line 0'\n";

/// Thirty variants of five tiles with eight pairs.
const MANY: &[u8] = b"tile = [{name = 'f', class = 'F', weight = 3}, \
      {name = 'g', class = 'F'}, {name = 'h', class = 'F'}, {name = 'l', class = 'L', weight = 2}, \
      {name = 'i', class = 'I', weight = 1000000}]\n\
      pair = [{left = 'f 1', right = 'g 5'}, {left = 'g', right = 'h'}, {left = 'h 2', right = 'l 3'}, \
      {left = 'l 1', right = 'i'}, {left = 'i', right = 'f 6'}, {left = 'i 1', right = 'h 7'}, \
      {left = 'l 2', right = 'l'}, {left = 'f', right = 'f'}]\n";

/// The width and the height of a map, and whether it wraps.
pub(super) type Sides = (u32, u32, bool);

/// No cell, where one is looked for.
pub(super) const NONE: u32 = 99_999_999;

/// The tile set of a document.
fn tile_set(rt: &impl Abort, alloc: Global, text: &[u8]) -> Result<TileSet, TileFault> {
    assert!(rt; text.len() < 1_000_000);
    read(alloc, text)
}

/// The tile set of a straight line, of two variants.
pub(super) fn lines(rt: &impl Abort, alloc: Global) -> Result<TileSet, TileFault> {
    tile_set(rt, alloc, LINES)
}

/// The tile set of thirty variants.
pub(super) fn many(rt: &impl Abort, alloc: Global) -> Result<TileSet, TileFault> {
    tile_set(rt, alloc, MANY)
}

/// The grid of a text.
pub(super) fn grid_of(rt: &impl Abort, alloc: Global, text: &[u8]) -> Result<Grid, GridFault> {
    assert!(rt; text.len() < 2_000_000);
    wfc_grid::read(alloc, text)
}

/// The mask of a grid for a map of these sides, or why there is none.
pub(super) fn mask_for(
    rt: &impl Abort,
    alloc: Global,
    grid: &Grid,
    width: u32,
    height: u32,
) -> Result<Mask, MaskFault> {
    assert!(rt; 0 < width && width <= 4096 && 0 < height && height <= 4096);
    assert!(rt; grid.as_bytes().len() <= 1_048_576);
    mask(alloc, grid, width, height)
}

/// The mask of a text for a map of these sides.
pub(super) fn mask_of(
    rt: &impl Abort,
    alloc: Global,
    text: &[u8],
    width: u32,
    height: u32,
) -> Result<Mask, Fail> {
    let grid = grid_of(rt, alloc, text)?;
    Ok(mask_for(rt, alloc, &grid, width, height)?)
}

/// The text of a mask of 4,096 by 256 places, of which each sixteen in a row begin with four that
/// are no holes.
pub(super) fn strips(alloc: Global) -> Result<Vec<u8>, AllocError> {
    let mut text = Vec::new(alloc);
    for _ in 0..256 {
        for _ in 0..256 {
            text.extend_from_slice(b"....############")?;
        }
        text.push(b'\n')?;
    }
    Ok(text)
}

/// The lines of a pins file.
fn lines_of(rt: &impl Abort, alloc: Global, text: &[u8]) -> Result<Vec<PinLine>, PinFault> {
    assert!(rt; text.len() < 1_000_000);
    read_pins(alloc, text)
}

/// The problem of a map without holes, or why there is none.
fn built(
    rt: &impl Abort,
    alloc: Global,
    tiles: &TileSet,
    sides: Sides,
    pins: &[PinLine],
) -> Result<Problem, BuildFault> {
    let (width, height, wrap) = sides;
    assert!(rt; 0 < width && width <= 4096 && 0 < height && height <= 4096);
    build(alloc, tiles, width, height, wrap, pins)
}

/// The problem of a map with holes, or why there is none.
fn built_masked(
    alloc: Global,
    tiles: &TileSet,
    mask: &Mask,
    wrap: bool,
    pins: &[PinLine],
) -> Result<Problem, BuildFault> {
    build_masked(alloc, tiles, mask, wrap, pins)
}

/// The problem of a map without holes with the lines of a text.
pub(super) fn problem_of(
    rt: &impl Abort,
    alloc: Global,
    tiles: &TileSet,
    sides: Sides,
    text: &[u8],
) -> Result<Problem, Fail> {
    let pins = lines_of(rt, alloc, text)?;
    Ok(built(rt, alloc, tiles, sides, &pins)?)
}

/// The problem of a map with holes with the lines of a text.
pub(super) fn masked_problem_of(
    rt: &impl Abort,
    alloc: Global,
    tiles: &TileSet,
    mask: &Mask,
    wrap: bool,
    text: &[u8],
) -> Result<Problem, Fail> {
    let pins = lines_of(rt, alloc, text)?;
    Ok(built_masked(alloc, tiles, mask, wrap, &pins)?)
}

/// Why there is no problem of a map without holes with the lines of a text.
pub(super) fn fault_of(
    rt: &impl Abort,
    alloc: Global,
    tiles: &TileSet,
    sides: Sides,
    text: &[u8],
) -> Result<Option<BuildFault>, PinFault> {
    let pins = lines_of(rt, alloc, text)?;
    Ok(built(rt, alloc, tiles, sides, &pins).err())
}

/// Why there is no problem of a map with holes with the lines of a text.
pub(super) fn masked_fault_of(
    rt: &impl Abort,
    alloc: Global,
    tiles: &TileSet,
    mask: &Mask,
    text: &[u8],
) -> Result<Option<BuildFault>, PinFault> {
    let pins = lines_of(rt, alloc, text)?;
    Ok(built_masked(alloc, tiles, mask, false, &pins).err())
}
