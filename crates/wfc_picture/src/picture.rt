//! Pictures of numbers.

ghost use Rattle.std.specs.Prelude.{◌≡◌, ◌≢◌, ◌*◌, ◌%◌, ◌<◌, ◌⊎◌, ◌↔◌, length, IsOk, IfOk, OnErr};
ghost use Rattle.wfc_model.specs.Raster.{Raster, IsFilled, IsRaster, height_of, number_at, raster_of};
ghost use Rattle.wfc_model.specs.Window.{window};

use std::alloc::Global;
use std::marker::Model;
use thiserror::Error;
use wfc_outside::NoMemory;

/// Why numbers are no picture.
#[derive(Clone, Copy, Debug, PartialEq, Eq, Error)]
pub enum ShapeFault {
    #[error("the number of cells is not the product of the sides, or a side is 0")]
    LengthDiffers,
}

/// A picture of numbers, row by row. It is seen as its width and the list of its rows.
#[derive(Debug, Drop)]
pub struct Picture {
    width: u32,
    height: u32,
    cells: Vec<u32>,
}

impl Model for Picture {
    ghost Value = { Raster };

    ghost view = { λ p. raster_of p.width p.height p.cells.items };

    ghost invariant = { λ p. IsFilled p.width p.height p.cells.items };
}

impl Picture {
    /// The picture with these cells, row by row. Takes no memory.
    pub fn new(width: u32, height: u32, cells: Vec<u32>) -> Result<Picture, ShapeFault>
        ensures ok { IfOk result (λ picture. picture ≡ raster_of width height cells.items) }
        ensures filled { IsOk result ↔ IsFilled width height cells.items }
        ensures refused { OnErr result
            ((width ≡ 0) ⊎ (height ≡ 0) ⊎ (length cells.items ≢ width * height)) }
    {
        let places = width as usize * height as usize;
        if width == 0 || height == 0 || cells.len() != places {
            return Err(ShapeFault::LengthDiffers);
        }
        Ok(Picture {
            width,
            height,
            cells,
        })
    }

    /// How many columns there are.
    pub fn width(&self) -> u32
        ensures value { result ≡ self.now.width }
        ensures raster { IsRaster self.now }
    {
        self.width
    }

    /// How many rows there are.
    pub fn height(&self) -> u32
        ensures value { result ≡ height_of self.now }
        ensures raster { IsRaster self.now }
    {
        self.height
    }

    /// The number in column `x` of row `y`.
    pub fn at(&self, x: u32, y: u32) -> u32
        requires column_in { x < self.now.width }
        requires row_in { y < height_of self.now }
        ensures value { result ≡ number_at self.now x y }
    {
        self.cells[y as usize * self.width as usize + x as usize]
    }

    /// The `n` by `n` numbers from column `x` of row `y` on, row by row. Coordinates are taken modulo the sides.
    pub fn window(&self, alloc: Global, x: u32, y: u32, n: u32) -> Result<Vec<u32>, NoMemory>
        ensures exact { IfOk result (λ numbers. numbers.items ≡ window self.now x y n) }
    {
        let side = n as usize;
        let mut numbers = vec![in alloc; 0; side * side]?;
        self.window_into(x, y, n, &mut numbers);
        Ok(numbers)
    }

    /// Writes the window of `window` into `out`. Takes no memory.
    pub fn window_into(&self, x: u32, y: u32, n: u32, out: &mut [u32])
        requires room { length out.old ≡ n * n }
        ensures exact { out.new ≡ window self.now x y n }
    {
        let side = n as usize;
        let mut column = 0;
        let mut row = 0;
        for cell in out.iter_mut() {
            *cell = self.number_modulo(x as usize + column, y as usize + row);
            column += 1;
            if column == side {
                column = 0;
                row += 1;
            }
        }
    }

    /// The number at the coordinates modulo the sides.
    #[inline]
    fn number_modulo(&self, x: usize, y: usize) -> u32
        ensures value { result ≡ number_at self.now (x % self.now.width) (y % height_of self.now) }
    {
        let column = modulo(x, self.width as usize);
        let row = modulo(y, self.height as usize);
        self.cells[row * self.width as usize + column]
    }
}

/// A coordinate modulo a side. One within it, as nearly all are, takes no division.
#[inline]
fn modulo(at: usize, side: usize) -> usize
    requires some { 0 < side }
    ensures value { result ≡ at % side }
{
    if at < side { at } else { at % side }
}
