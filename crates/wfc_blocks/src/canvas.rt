//! What is set of an area.

ghost use Rattle.std.specs.Prelude.{◌≡◌, ℕ, ◌<◌, ◌≤◌, length, slice_index_or, IfOk};
ghost use Rattle.wfc_model.specs.Raster.{IsSized};
ghost use Rattle.wfc_blocks.specs.Blocks.{area_with};
ghost use Rattle.wfc_blocks.specs.Canvas.{empty_canvas, canvas_picture, with_block};
ghost use Rattle.wfc_blocks.specs.CanvasView.{HasNumbersBelow, HaveSameSides, IsNumbersOf, LiesWithin};
ghost use Rattle.wfc_blocks.specs.CanvasView.{canvas_of, entry_number, canvas_with, part_of_row, with_pixel};
ghost use Rattle.wfc_blocks.specs.declared.TheConstants.{UNSET};

use crate::UNSET;
use crate::block::Block;
use std::alloc::Global;
use std::marker::Model;
use wfc_model::MAX_OUTPUT_SIDE;
use wfc_outside::NoMemory;
use wfc_picture::Picture;

/// The numbers that are set of an area, row by row, in two bytes each.
#[derive(Drop)]
pub(crate) struct Canvas {
    width: u32,
    height: u32,
    entries: Vec<u16>,
}

impl Model for Canvas {
    ghost use Rattle.std.specs.Prelude.{map};
    ghost use Rattle.wfc_model.specs.Raster.{IsFilled};
    ghost use Rattle.wfc_blocks.specs.CanvasView.{CanvasView, entry_number};

    ghost Value = { CanvasView };

    ghost view = { λ c. record {
      width = c.width;
      height = c.height;
      cells = map entry_number c.entries.items;
    } };

    ghost invariant = { λ c. IsFilled c.width c.height c.entries.items };
}

/// The entries of so many pixels of which none is set.
fn unset_entries(alloc: Global, many: usize) -> Result<Vec<u16>, NoMemory>
    ensures many { IfOk result (λ entries. length entries.items ≡ many) }
    ensures unset { IfOk result (λ entries. (k : ℕ) →
        slice_index_or entries.items k UNSET ≡ UNSET) }
{
    Ok(vec![in alloc; UNSET; many]?)
}

/// The number of an entry, if one is set.
#[inline]
fn entry_number(entry: u16) -> Option<u32>
    ensures value { result ≡ entry_number entry }
{
    if entry == UNSET {
        None
    } else {
        Some(u32::from(entry))
    }
}

impl Canvas {
    /// An area of which nothing is set.
    pub(crate) fn new(alloc: Global, width: u32, height: u32) -> Result<Canvas, NoMemory>
        requires some_width { 0 < width }
        requires some_height { 0 < height }
        ensures width { IfOk result (λ canvas. canvas.width ≡ width) }
        ensures height { IfOk result (λ canvas. canvas.height ≡ height) }
        ensures empty { IfOk result (λ canvas. canvas_of canvas ≡ empty_canvas) }
    {
        Ok(Canvas {
            width,
            height,
            entries: unset_entries(alloc, width as usize * height as usize)?,
        })
    }

    /// The number in column `x` of row `y`, if one is set.
    #[inline]
    pub(crate) fn get(&self, x: u32, y: u32) -> Option<u32>
        requires column_in { x < self.now.width }
        requires row_in { y < self.now.height }
        ensures value { result ≡ canvas_of self.now x y }
    {
        entry_number(self.entries[y as usize * self.width as usize + x as usize])
    }

    /// Sets the number in column `x` of row `y`.
    #[inline]
    fn put(&mut self, x: u32, y: u32, number: u32)
        requires column_in { x < self.old.width }
        requires row_in { y < self.old.height }
        requires small { number < UNSET }
        ensures put { canvas_of self.new ≡ with_pixel (canvas_of self.old) x y number }
        ensures alike { HaveSameSides self.old self.new }
    {
        self.entries[y as usize * self.width as usize + x as usize] = number as u16;
    }

    /// Sets row `j` of a block to that of a picture.
    fn paint_row(&mut self, block: Block, picture: &Picture, j: u32)
        requires width_limit { self.old.width ≤ MAX_OUTPUT_SIDE }
        requires height_limit { self.old.height ≤ MAX_OUTPUT_SIDE }
        requires within { LiesWithin self.old.width self.old.height block }
        requires sized { IsSized picture.now block.width block.height }
        requires small { HasNumbersBelow UNSET picture.now }
        requires row_in { j < block.height }
        ensures painted { canvas_of self.new ≡ canvas_with (canvas_of self.old) block picture.now
            (part_of_row block j block.width) }
        ensures alike { HaveSameSides self.old self.new }
    {
        for i in 0..block.width {
            self.put(block.x + i, block.y + j, picture.at(i, j));
        }
    }

    /// Sets the pixels of a block to those of a picture.
    pub(crate) fn paint(&mut self, block: Block, picture: &Picture)
        requires width_limit { self.old.width ≤ MAX_OUTPUT_SIDE }
        requires height_limit { self.old.height ≤ MAX_OUTPUT_SIDE }
        requires within { LiesWithin self.old.width self.old.height block }
        requires sized { IsSized picture.now block.width block.height }
        requires small { HasNumbersBelow UNSET picture.now }
        ensures painted { canvas_of self.new ≡ with_block (canvas_of self.old) block picture.now }
        ensures alike { HaveSameSides self.old self.new }
    {
        for j in 0..block.height {
            self.paint_row(block, picture, j);
        }
    }

    /// The numbers of all pixels, and 0 where none is set.
    fn numbers(&self, alloc: Global) -> Result<Vec<u32>, NoMemory>
        ensures value { IfOk result (λ numbers. IsNumbersOf self.now numbers.items) }
    {
        let mut numbers = Vec::with_capacity(alloc, self.entries.len())?;
        for entry in &self.entries {
            numbers.push(entry_number(*entry).unwrap_or(0))?;
        }
        Ok(numbers)
    }

    /// The picture of what is set.
    pub(crate) fn picture(&self, alloc: Global) -> Result<Picture, NoMemory>
        ensures value { IfOk result (λ picture. picture
            ≡ canvas_picture (area_with self.now.width self.now.height 0) (canvas_of self.now)) }
    {
        let numbers = self.numbers(alloc)?;
        Ok(Picture::new(self.width, self.height, numbers).unwrap())
    }
}
