//! Builds for the tests, which look at their problems.

use super::samples::letters;
use std::alloc::{AllocError, Global};
use std::process::Abort;
use std::test::Fail;
use wfc_overlap::build;
use wfc_pattern::Patterns;
use wfc_picture::Palette;
use wfc_pins::{BuildFault, PinFault, PinLine, read_pins};
use wfc_problem::Problem;

/// The width and the height of an output, and whether it wraps.
pub(super) type Sides = (u32, u32, bool);

/// The lines of a pins file.
pub(super) fn lines_of(
    rt: &impl Abort,
    alloc: Global,
    text: &[u8],
) -> Result<Vec<PinLine>, PinFault> {
    assert!(rt; text.len() < 1_000_000);
    read_pins(alloc, text)
}

/// The problem with these lines, or why there is none.
pub(super) fn problem_with(
    rt: &impl Abort,
    alloc: Global,
    patterns: &Patterns,
    palette: &Palette,
    sides: Sides,
    lines: &[PinLine],
) -> Result<Problem, BuildFault> {
    let (width, height, wrap) = sides;
    assert!(rt; 0 < width && width <= 4096);
    assert!(rt; 0 < height && height <= 4096);
    build(alloc, patterns, palette, width, height, wrap, lines)
}

/// The problem with no lines, of a sample of `a` and `b`.
pub(super) fn problem_of(
    rt: &impl Abort,
    alloc: Global,
    patterns: &Patterns,
    sides: Sides,
) -> Result<Problem, Fail> {
    let palette = letters(alloc)?;
    Ok(problem_with(rt, alloc, patterns, &palette, sides, &[])?)
}

/// A byte for each cell and value: `1` where the cell may have the value, and `0` where it mayn't.
fn base_of(alloc: Global, problem: &Problem) -> Result<Vec<u8>, AllocError> {
    let mut text = Vec::new(alloc);
    for cell in 0..problem.cells() {
        for value in 0..problem.values() {
            text.push(if problem.in_base(cell, value) {
                b'1'
            } else {
                b'0'
            })?;
        }
    }
    Ok(text)
}

/// The base of the problem with the lines of a text.
pub(super) fn base_with(
    rt: &impl Abort,
    alloc: Global,
    patterns: &Patterns,
    palette: &Palette,
    sides: Sides,
    text: &[u8],
) -> Result<Vec<u8>, Fail> {
    let lines = lines_of(rt, alloc, text)?;
    let problem = problem_with(rt, alloc, patterns, palette, sides, &lines)?;
    Ok(base_of(alloc, &problem)?)
}

/// Why there is no problem with the lines of a text.
pub(super) fn fault_of(
    rt: &impl Abort,
    alloc: Global,
    patterns: &Patterns,
    palette: &Palette,
    sides: Sides,
    text: &[u8],
) -> Result<Option<BuildFault>, PinFault> {
    let lines = lines_of(rt, alloc, text)?;
    Ok(problem_with(rt, alloc, patterns, palette, sides, &lines).err())
}

/// No cell, where a neighbour is looked for.
pub(super) const NONE: u32 = 99;

/// For each cell what lies to the left, below, to the right and above, or `NONE`.
pub(super) fn neighbours_of(alloc: Global, problem: &Problem) -> Result<Vec<u32>, AllocError> {
    let mut cells = Vec::new(alloc);
    for cell in 0..problem.cells() {
        for dir in 0..problem.dirs() {
            cells.push(problem.neighbour(cell, dir).unwrap_or(NONE))?;
        }
    }
    Ok(cells)
}

/// For each value and direction the values that may stand beside it.
pub(super) fn supports_of(alloc: Global, problem: &Problem) -> Result<Vec<Vec<u16>>, AllocError> {
    let mut lists = Vec::new(alloc);
    for value in 0..problem.values() {
        for dir in 0..problem.dirs() {
            lists.push(Vec::from_slice(alloc, problem.supports(value, dir))?)?;
        }
    }
    Ok(lists)
}

/// How often each value arises.
pub(super) fn weights_of(alloc: Global, problem: &Problem) -> Result<Vec<u32>, AllocError> {
    let mut weights = Vec::new(alloc);
    for value in 0..problem.values() {
        weights.push(problem.weight(value))?;
    }
    Ok(weights)
}
