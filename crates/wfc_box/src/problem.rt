//! The problem of a box.

ghost use Rattle.std.specs.Prelude.{◌≡◌, ◌<◌, ◌≤◌, IfOk};
ghost use Rattle.wfc_outside.specs.Gives.{Gives};
ghost use Rattle.wfc_problem.specs.declared.TheConstants.{MAX_PAIRS};
ghost use Rattle.wfc_tileset.specs.TileSets.{IsTileSet};
ghost use Rattle.wfc_box.specs.BoxProblem.{problem_of_box};
ghost use Rattle.wfc_box.specs.Boxes.{AreInBox, IsFrame, frame_of, places_in};
ghost use Rattle.wfc_box.specs.Built.{box_built, box_pairs};
ghost use Rattle.wfc_box.specs.Exactly.{IsOfBoxes};

use crate::allowed::Stacks;
use crate::base::base;
use crate::frame::{Frame, places};
use crate::layouts::MAX_DEPTH;
use crate::mark::BoxMark;
use crate::marks::marks;
use crate::neighbours::neighbours;
use crate::pins::BoxPin;
use crate::supports::supports;
use std::alloc::Global;
use wfc_model::MAX_OUTPUT_SIDE;
use wfc_outside::NoMemory;
use wfc_pins::BuildFault;
use wfc_problem::{MAX_PAIRS, Parts, Problem};
use wfc_tiled::weights;
use wfc_tileset::TileSet;

/// The problem of a box of `depth` layers of `width` by `height` tiles: a cell for each place, layer
/// by layer and row by row, and the variants as values. Directions 4 and 5 lead to the next layer
/// and to the one before.
///
/// The first of these faults is answered: too many pairs of a cell and a variant, and then the
/// first line at fault, where a place outside comes before an unknown symbol. A ban is looked at as
/// a pin is.
pub fn build(
    alloc: Global,
    tiles: &TileSet,
    stacks: &Stacks,
    width: u32,
    height: u32,
    depth: u32,
    wrap: bool,
    pins: &[BoxPin],
) -> Result<Problem, BuildFault>
    requires some_width { 0 < width }
    requires some_height { 0 < height }
    requires some_depth { 0 < depth }
    requires width_limit { width ≤ MAX_OUTPUT_SIDE }
    requires height_limit { height ≤ MAX_OUTPUT_SIDE }
    requires depth_limit { depth ≤ MAX_DEPTH }
    ensures exact { Gives BuildFault.NoMemory (λ problem. problem) result
        (box_built tiles.now stacks.now (frame_of width height depth wrap) pins.now) }
    ensures boxes { IfOk result (IsOfBoxes tiles.now stacks.now
        (frame_of width height depth wrap) pins.now) }
{
    let frame = Frame {
        width,
        height,
        depth,
        wrap,
    };
    build_in(alloc, tiles, stacks, frame, pins)
}

/// The problem of a box in a frame, as `build` answers it.
fn build_in(
    alloc: Global,
    tiles: &TileSet,
    stacks: &Stacks,
    frame: Frame,
    pins: &[BoxPin],
) -> Result<Problem, BuildFault>
    requires frame { IsFrame frame }
    ensures exact { Gives BuildFault.NoMemory (λ problem. problem) result
        (box_built tiles.now stacks.now frame pins.now) }
    ensures boxes { IfOk result (IsOfBoxes tiles.now stacks.now frame pins.now) }
{
    let product = pairs(tiles, frame);
    if product > MAX_PAIRS {
        return Err(BuildFault::TooLarge { product });
    }
    let marks = marks(alloc, tiles, frame, pins)?;
    let parts = parts(alloc, tiles, stacks, frame, &marks)?;
    Ok(Problem::from_known(parts))
}

/// How many pairs of a cell and a variant there are.
fn pairs(tiles: &TileSet, frame: Frame) -> u64
    requires frame { IsFrame frame }
    ensures value { result ≡ box_pairs tiles.now frame }
    ensures tile_set { IsTileSet tiles.now }
{
    places(frame) * u64::from(tiles.variants())
}

/// What the problem is made of.
fn parts(
    alloc: Global,
    tiles: &TileSet,
    stacks: &Stacks,
    frame: Frame,
    marks: &[BoxMark],
) -> Result<Parts, NoMemory>
    requires frame { IsFrame frame }
    requires few { box_pairs tiles.now frame ≤ MAX_PAIRS }
    requires few_cells { places_in frame ≤ MAX_PAIRS }
    requires inside { AreInBox frame marks.now }
    ensures value { IfOk result (λ parts. parts
        ≡ problem_of_box tiles.now stacks.now frame marks.now) }
{
    Ok(Parts {
        cells: places(frame) as u32,
        dirs: 6,
        neighbours: neighbours(alloc, frame)?,
        weights: weights(alloc, tiles)?,
        supports: supports(alloc, tiles, stacks)?,
        base: base(alloc, tiles, frame, marks)?,
    })
}
