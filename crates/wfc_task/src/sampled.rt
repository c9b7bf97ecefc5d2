//! What a sample shows, whatever the format of its file.

ghost use Rattle.std.specs.Prelude.{IfOk, Ok, length, ◌*◌, ◌≡◌, ◌≤◌};
ghost use Rattle.wfc_outside.specs.Gives.{Gives};
ghost use Rattle.wfc_task.specs.Lesson.{IsSampled};
ghost use Rattle.wfc_task.specs.Sampled.{shown_colours, shown_by_grid, shown_by_ppm, sampled_view, symbols_of};
ghost use Rattle.wfc_task.specs.Steps.{sampled_in};

use crate::steps::{grid, ppm};
use std::alloc::Global;
use wfc_grid::{Grid, MAX_GRID_BYTES};
use wfc_outside::{MAX_FILE_BYTES, NoMemory};
use wfc_picture::{Kind, MAX_PIXELS, Symbol};
use wfc_plan::{Refusal, Source};
use wfc_ppm::Ppm;
use wfc_tileset::is_ppm_name;
use wfc_words::Request;

/// What a sample shows: how a map of it is written, its width in pixels, and the symbols of its pixels row by row.
#[derive(Drop)]
pub(crate) struct Sampled {
    pub(crate) kind: Kind,
    pub(crate) width: u32,
    pub(crate) symbols: Vec<Symbol>,
}

/// What the bytes of a sample show.
pub(crate) fn sampled_in(alloc: Global, request: &Request, bytes: &[u8]) -> Result<Sampled, Refusal>
    requires short { length bytes.now ≤ MAX_FILE_BYTES }
    ensures exact { Gives Refusal.NoMemory sampled_view result (sampled_in request.now bytes.now) }
    ensures sampled { IfOk result (λ sampled. IsSampled (sampled_view sampled)) }
{
    if is_ppm_name(request.file().as_bytes()) {
        let ppm = ppm(alloc, Source::Sample, bytes)?;
        shown_by_ppm(alloc, ppm)
    } else {
        let grid = grid(alloc, Source::Sample, bytes)?;
        shown_by_grid(alloc, grid)
    }
}

/// What a picture of colours shows. The picture is let go.
fn shown_by_ppm(alloc: Global, ppm: Ppm) -> Result<Sampled, Refusal>
    requires small { ppm.width * ppm.height ≤ MAX_PIXELS }
    ensures exact { Gives Refusal.NoMemory sampled_view result (Ok (shown_by_ppm ppm)) }
    ensures sampled { IfOk result (λ sampled. IsSampled (sampled_view sampled)) }
{
    let width = ppm.width;
    let maxval = ppm.maxval;
    let symbols = colours(alloc, ppm)?;
    Ok(Sampled {
        kind: Kind::Ppm { maxval },
        width,
        symbols,
    })
}

/// What the pixels of a picture of colours show.
fn colours(alloc: Global, ppm: Ppm) -> Result<Vec<Symbol>, NoMemory>
    ensures value { IfOk result (λ symbols. symbols.items ≡ shown_colours ppm) }
{
    let pixels = ppm.pixels.as_slice();
    let mut symbols = Vec::with_capacity(alloc, pixels.len())?;
    for colour in pixels {
        symbols.push(Symbol::Rgb(*colour))?;
    }
    Ok(symbols)
}

/// What a grid shows. The grid is let go.
fn shown_by_grid(alloc: Global, grid: Grid) -> Result<Sampled, Refusal>
    requires small { grid.width * grid.height ≤ MAX_GRID_BYTES }
    ensures exact { Gives Refusal.NoMemory sampled_view result (Ok (shown_by_grid grid)) }
    ensures sampled { IfOk result (λ sampled. IsSampled (sampled_view sampled)) }
{
    let width = grid.width;
    let symbols = symbols(alloc, grid)?;
    Ok(Sampled {
        kind: Kind::Grid,
        width,
        symbols,
    })
}

/// What the pixels of a grid show.
fn symbols(alloc: Global, grid: Grid) -> Result<Vec<Symbol>, NoMemory>
    ensures value { IfOk result (λ symbols. symbols.items ≡ symbols_of grid) }
{
    let bytes = grid.as_bytes();
    let mut symbols = Vec::with_capacity(alloc, bytes.len())?;
    for byte in bytes {
        symbols.push(Symbol::Char(*byte))?;
    }
    Ok(symbols)
}
