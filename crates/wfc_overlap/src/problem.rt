//! The problem of a sample.

ghost use Rattle.std.specs.Prelude.{◌≡◌, ◌<◌, ◌≤◌, [], map, IfOk};
ghost use Rattle.wfc_outside.specs.Gives.{Gives};
ghost use Rattle.wfc_pattern.specs.Patterns.{IsPatterns};
ghost use Rattle.wfc_overlap.specs.Bridge.{AreInside, IsRoom};
ghost use Rattle.wfc_overlap.specs.Built.{picture_problem, checked_picture_pins};
ghost use Rattle.wfc_overlap.specs.Layout.{output_of};
ghost use Rattle.wfc_overlap.specs.Sample.{window_base_table, output_with, problem_of_sample, agreement_table};

use crate::base::base;
use crate::layout::Layout;
use crate::neighbours::neighbours;
use crate::pins::marks;
use crate::supports::support_lists;
use std::alloc::Global;
use wfc_model::MAX_OUTPUT_SIDE;
use wfc_outside::NoMemory;
use wfc_pattern::Patterns;
use wfc_picture::Palette;
use wfc_pins::{BuildFault, PinLine};
use wfc_places::PinMark;
use wfc_problem::{MAX_PAIRS, Parts, Problem};

/// The problem of learned patterns for an output of `width` by `height` pixels: a cell for each
/// place at which a window begins, row by row, and the patterns as values. The lines of the pins
/// file are read by the palette of the sample.
///
/// The first of these faults is answered: a side below that of a window, too many pairs of a cell
/// and a pattern, and then the first line at fault, where a place outside comes before an unknown
/// symbol. A ban is looked at as a pin is.
pub fn build(
    alloc: Global,
    patterns: &Patterns,
    palette: &Palette,
    width: u32,
    height: u32,
    wrap: bool,
    pins: &[PinLine],
) -> Result<Problem, BuildFault>
    requires some_width { 0 < width }
    requires some_height { 0 < height }
    requires width_limit { width ≤ MAX_OUTPUT_SIDE }
    requires height_limit { height ≤ MAX_OUTPUT_SIDE }
    ensures exact { Gives BuildFault.NoMemory (λ problem. problem) result
        (picture_problem patterns.now palette.now (output_with width height wrap) pins.now) }
{
    let marks = checked_window_marks(alloc, patterns, palette, width, height, wrap, pins)?;
    let supports = support_lists(alloc, patterns)?;
    let problem = problem_of_marks(alloc, patterns, supports, width, height, wrap, &marks)?;
    Ok(problem)
}

/// What the lines of a pins file mean for the problem that `build` builds, or the first of its
/// faults. Then the output has room for a window.
pub fn checked_window_marks(
    alloc: Global,
    patterns: &Patterns,
    palette: &Palette,
    width: u32,
    height: u32,
    wrap: bool,
    pins: &[PinLine],
) -> Result<Vec<PinMark>, BuildFault>
    requires some_width { 0 < width }
    requires some_height { 0 < height }
    requires width_limit { width ≤ MAX_OUTPUT_SIDE }
    requires height_limit { height ≤ MAX_OUTPUT_SIDE }
    ensures exact { Gives BuildFault.NoMemory (λ marks. marks.items) result
        (checked_picture_pins patterns.now palette.now (output_with width height wrap) pins.now) }
    ensures room { IfOk result (λ marks. IsRoom patterns.now (output_with width height wrap)) }
    ensures inside { IfOk result (λ marks.
        AreInside (output_with width height wrap) marks.items) }
{
    let n = patterns.n();
    if width < n || height < n {
        return Err(BuildFault::SizeBelowN);
    }
    let layout = Layout::new(n, width, height, wrap);
    let product = layout.cells() as u64 * patterns.count() as u64;
    if product > MAX_PAIRS {
        return Err(BuildFault::TooLarge { product });
    }
    marks(alloc, palette, width, height, pins)
}

/// The problem of learned patterns, of which `supports` are the lists, for an output of `width` by
/// `height` pixels that has room for a window, with these pins and bans. The lists can be taken out
/// of the problem again, so that they are made once for many outputs.
pub fn problem_of_marks(
    alloc: Global,
    patterns: &Patterns,
    supports: Vec<Vec<u16>>,
    width: u32,
    height: u32,
    wrap: bool,
    marks: &[PinMark],
) -> Result<Problem, NoMemory>
    requires room { IsRoom patterns.now (output_with width height wrap) }
    requires width_limit { width ≤ MAX_OUTPUT_SIDE }
    requires height_limit { height ≤ MAX_OUTPUT_SIDE }
    requires inside { AreInside (output_with width height wrap) marks.now }
    requires supports { map (λ list. list.items) supports.items ≡ agreement_table patterns.now }
    ensures value { IfOk result (λ problem. problem
        ≡ problem_of_sample patterns.now (output_with width height wrap) marks.now) }
{
    if marks.is_empty() {
        let layout = Layout::new(patterns.n(), width, height, wrap);
        let whole = parts(alloc, patterns, supports, layout, Vec::new(alloc))?;
        return Ok(Problem::from_known_whole(whole));
    }
    let parts = window_parts_of_marks(alloc, patterns, supports, width, height, wrap, marks)?;
    Ok(Problem::from_known(parts))
}

/// What that problem is made of.
pub fn window_parts_of_marks(
    alloc: Global,
    patterns: &Patterns,
    supports: Vec<Vec<u16>>,
    width: u32,
    height: u32,
    wrap: bool,
    marks: &[PinMark],
) -> Result<Parts, NoMemory>
    requires room { IsRoom patterns.now (output_with width height wrap) }
    requires width_limit { width ≤ MAX_OUTPUT_SIDE }
    requires height_limit { height ≤ MAX_OUTPUT_SIDE }
    requires inside { AreInside (output_with width height wrap) marks.now }
    requires supports { map (λ list. list.items) supports.items ≡ agreement_table patterns.now }
    ensures value { IfOk result (λ parts. parts
        ≡ problem_of_sample patterns.now (output_with width height wrap) marks.now) }
    ensures patterns { IsPatterns patterns.now }
{
    let layout = Layout::new(patterns.n(), width, height, wrap);
    let base = base(alloc, patterns, layout, marks)?;
    parts(alloc, patterns, supports, layout, base)
}

/// The base of that problem: for each place and pattern, place by place, whether the pattern meets
/// all pins and bans there.
pub fn window_base_of_marks(
    alloc: Global,
    patterns: &Patterns,
    width: u32,
    height: u32,
    wrap: bool,
    marks: &[PinMark],
) -> Result<Vec<bool>, NoMemory>
    requires room { IsRoom patterns.now (output_with width height wrap) }
    requires width_limit { width ≤ MAX_OUTPUT_SIDE }
    requires height_limit { height ≤ MAX_OUTPUT_SIDE }
    requires inside { AreInside (output_with width height wrap) marks.now }
    ensures value { IfOk result (λ flags. flags.items ≡ window_base_table patterns.now.n
        (output_with width height wrap) patterns.now.windows marks.now) }
{
    let layout = Layout::new(patterns.n(), width, height, wrap);
    base(alloc, patterns, layout, marks)
}

/// What the problem with this base is made of.
fn parts(
    alloc: Global,
    patterns: &Patterns,
    supports: Vec<Vec<u16>>,
    layout: Layout,
    base: Vec<bool>,
) -> Result<Parts, NoMemory>
    requires n { layout.n ≡ patterns.now.n }
    requires supports { map (λ list. list.items) supports.items ≡ agreement_table patterns.now }
    ensures value { IfOk result (λ parts. parts ≡ record (problem_of_sample patterns.now (output_of
        layout) []) { base = base.items }) }
{
    Ok(Parts {
        cells: layout.cells(),
        dirs: 4,
        neighbours: neighbours(alloc, layout)?,
        weights: weights(alloc, patterns)?,
        supports,
        base,
    })
}

/// How often each pattern arises.
fn weights(alloc: Global, patterns: &Patterns) -> Result<Vec<u32>, NoMemory>
    ensures value { IfOk result (λ weights. weights.items ≡ patterns.now.weights) }
{
    let mut weights = Vec::with_capacity(alloc, patterns.count() as usize)?;
    for p in 0..patterns.count() {
        weights.push(patterns.weight(p))?;
    }
    Ok(weights)
}
