//! What small samples teach.

ghost use Rattle.std.specs.Prelude.{◌<◌, ◌≤◌, length};

use std::alloc::Global;
use std::process::Abort;
use std::test::Fail;
use wfc_pattern::{LearnFault, Patterns, learn};
use wfc_picture::{Colour, Palette, PaletteFault, Picture, Symbol};

/// The patterns of a picture.
pub(super) fn taught(
    rt: &impl Abort,
    alloc: Global,
    picture: &Picture,
    n: u32,
    wrap: bool,
) -> Result<Patterns, LearnFault>
    requires some_side { 0 < n }
    requires small_side { n ≤ 6 }
{
    assert!(rt; picture.width() as u64 * picture.height() as u64 <= 1_048_576);
    learn(alloc, picture, n, 1, wrap)
}

/// The patterns of the checkerboard of two by two, wrapped: `ab/ba` and `ba/ab`.
pub(super) fn checkerboard(rt: &impl Abort, alloc: Global) -> Result<Patterns, Fail> {
    let picture = Picture::new(2, 2, Vec::from_slice(alloc, &[0, 1, 1, 0])?)?;
    Ok(taught(rt, alloc, &picture, 2, true)?)
}

/// The pattern of the same checkerboard where it doesn't wrap: `ab/ba` alone.
pub(super) fn flat_checkerboard(rt: &impl Abort, alloc: Global) -> Result<Patterns, Fail> {
    let picture = Picture::new(2, 2, Vec::from_slice(alloc, &[0, 1, 1, 0])?)?;
    Ok(taught(rt, alloc, &picture, 2, false)?)
}

/// The pattern of a sample of one pixel that wraps: three by three that are the same.
pub(super) fn single(rt: &impl Abort, alloc: Global) -> Result<Patterns, Fail> {
    let picture = Picture::new(1, 1, Vec::from_slice(alloc, &[0])?)?;
    Ok(taught(rt, alloc, &picture, 3, true)?)
}

/// The patterns of `a`, `b`, `a` and `c` in a row, one by one.
pub(super) fn in_a_row(rt: &impl Abort, alloc: Global) -> Result<Patterns, Fail> {
    let picture = Picture::new(4, 1, Vec::from_slice(alloc, &[0, 1, 0, 2])?)?;
    Ok(taught(rt, alloc, &picture, 1, false)?)
}

/// The patterns of a large sample whose windows are nearly all different.
pub(super) fn noise(rt: &impl Abort, alloc: Global) -> Result<Patterns, Fail> {
    let mut numbers = Vec::new(alloc);
    let mut state = 1u32;
    for _ in 0..3600 {
        state = state.wrapping_mul(1_664_525).wrapping_add(1_013_904_223);
        numbers.push(state >> 28)?;
    }
    let picture = Picture::new(60, 60, numbers)?;
    Ok(taught(rt, alloc, &picture, 3, true)?)
}

/// The palette of these symbols.
fn palette_of(alloc: Global, symbols: &[Symbol]) -> Result<Palette, PaletteFault>
    requires some { 0 < length symbols.now }
    requires few { length symbols.now ≤ 9 }
{
    let (_picture, palette) = Palette::index(alloc, symbols, 1)?;
    Ok(palette)
}

/// The palette of `a` and `b`.
pub(super) fn letters(alloc: Global) -> Result<Palette, PaletteFault> {
    palette_of(alloc, &[Symbol::Char(b'a'), Symbol::Char(b'b')])
}

/// The palette of a blank and a red.
pub(super) fn blank_and_red(alloc: Global) -> Result<Palette, PaletteFault> {
    let red = Symbol::Rgb(Colour { r: 255, g: 0, b: 7 });
    palette_of(alloc, &[Symbol::Char(b' '), red])
}
