//! The pinned problem of a tile set.

ghost use Rattle.std.specs.Prelude.{◌≡◌, ◌<◌, ◌≤◌, length};
ghost use Rattle.std.specs.Option.{ForSome};
ghost use Rattle.wfc_outside.specs.Gives.{Gives};
ghost use Rattle.wfc_explain.specs.Masks.{given_mask, held_mask};
ghost use Rattle.wfc_explain.specs.Problems.{pinned_tiles, tiles_pins};

use crate::PinnedProblem;
use crate::kept::{kept_marks, with_base, without_base};
use std::alloc::Global;
use std::marker::Model;
use wfc_model::MAX_OUTPUT_SIDE;
use wfc_outside::NoMemory;
use wfc_overlap::PinMark;
use wfc_pins::{BuildFault, PinLine};
use wfc_problem::{Parts, Problem};
use wfc_tiled::{Mask, checked_plain, checked_tile_marks, tile_base_of_marks, tile_parts_of_marks};
use wfc_tileset::TileSet;

/// The mask that is given, or the one without holes.
#[derive(Drop)]
pub(crate) enum HeldMask<'a> {
    Given(&'a Mask),
    Plain(Mask),
}

impl<'a> HeldMask<'a> {
    /// The mask.
    fn mask(&self) -> &Mask
        ensures value { result.now ≡ held_mask self.now }
    {
        match self {
            HeldMask::Given(mask) => mask,
            HeldMask::Plain(mask) => mask,
        }
    }
}

/// The problem of a tile set for a map of `width` by `height` tiles, whose lines of pins and bans
/// can be left out. It is seen as the tile set, the mask, whether the map wraps, and what the lines
/// mean.
#[derive(Drop)]
pub struct TilePins<'a> {
    tiles: &'a TileSet,
    mask: HeldMask<'a>,
    wrap: bool,
    /// What the lines mean.
    marks: Vec<PinMark>,
    /// What the problem is made of whichever lines are kept: all but the base.
    shared: Parts,
}

impl<'a> Model for TilePins<'a> {
    ghost use Rattle.std.specs.Prelude.{◌≡◌, []};
    ghost use Rattle.wfc_tiled.specs.Tiles.{problem_of_tiles};
    ghost use Rattle.wfc_explain.specs.Masks.{held_mask};
    ghost use Rattle.wfc_explain.specs.Problems.{TilesPins, IsTilesPins};

    ghost Value = { TilesPins };

    ghost view = { λ p. record {
      tiles = p.tiles.now;
      mask = held_mask p.mask;
      wrap = p.wrap;
      pins = p.marks.items;
    } };

    ghost invariant = { λ p. IsTilesPins (record {
      tiles = p.tiles.now;
      mask = held_mask p.mask;
      wrap = p.wrap;
      pins = p.marks.items;
    }) × (p.shared ≡ record
        (problem_of_tiles p.tiles.now (held_mask p.mask) p.wrap []) { base = [] }) };
}

impl<'a> TilePins<'a> {
    /// The pinned problem, with a mask of these sides or without holes. Its faults are those of the
    /// problem of all lines, in their order.
    pub fn new(
        alloc: Global,
        tiles: &'a TileSet,
        width: u32,
        height: u32,
        wrap: bool,
        mask: Option<&'a Mask>,
        pins: &[PinLine],
    ) -> Result<TilePins<'a>, BuildFault>
        requires some_width { 0 < width }
        requires some_height { 0 < height }
        requires width_limit { width ≤ MAX_OUTPUT_SIDE }
        requires height_limit { height ≤ MAX_OUTPUT_SIDE }
        requires mask_width { ForSome mask (λ mask. mask.now.width ≡ width) }
        requires mask_height { ForSome mask (λ mask. mask.now.height ≡ height) }
        requires few_lines { length pins.now ≤ 4294967295 }
        ensures exact { Gives BuildFault.NoMemory (λ pinned. pinned) result
            (tiles_pins tiles.now (given_mask mask.entry width height) wrap pins.now) }
    {
        match mask {
            Some(mask) => TilePins::over(alloc, tiles, HeldMask::Given(mask), wrap, pins),
            None => {
                let mask = checked_plain(alloc, tiles, width, height)?;
                TilePins::over(alloc, tiles, HeldMask::Plain(mask), wrap, pins)
            }
        }
    }

    /// The pinned problem for the places of a mask.
    fn over(
        alloc: Global,
        tiles: &'a TileSet,
        mask: HeldMask<'a>,
        wrap: bool,
        pins: &[PinLine],
    ) -> Result<TilePins<'a>, BuildFault>
        requires few_lines { length pins.now ≤ 4294967295 }
        ensures exact { Gives BuildFault.NoMemory (λ pinned. pinned) result
            (tiles_pins tiles.now (held_mask mask.entry) wrap pins.now) }
    {
        let marks = checked_tile_marks(alloc, tiles, mask.mask(), pins)?;
        let plain = tile_parts_of_marks(alloc, tiles, mask.mask(), wrap, &[])?;
        Ok(TilePins {
            tiles,
            mask,
            wrap,
            marks,
            shared: without_base(alloc, plain),
        })
    }
}

impl<'a> PinnedProblem for TilePins<'a> {
    ghost seen = { pinned_tiles };

    fn lines(&self) -> u32 {
        self.marks.len() as u32
    }

    fn problem(&self, alloc: Global, keep: &[bool]) -> Result<Problem, NoMemory> {
        let kept = kept_marks(alloc, &self.marks, keep)?;
        let base = tile_base_of_marks(alloc, self.tiles, self.mask.mask(), &kept)?;
        let parts = with_base(alloc, &self.shared, base)?;
        Ok(Problem::from_known(parts))
    }
}
