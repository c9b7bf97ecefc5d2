//! The call that grows an area.

ghost use Rattle.std.specs.Prelude.{◌≡◌, ◌<◌, ◌≤◌, length, map, IfOk};
ghost use Rattle.wfc_choose.specs.Pick.{Rule};
ghost use Rattle.wfc_outside.specs.Gives.{Gives};
ghost use Rattle.wfc_overlap.specs.Bridge.{window_pair_count};
ghost use Rattle.wfc_overlap.specs.Built.{picture_pins, texts_of};
ghost use Rattle.wfc_pattern.specs.Patterns.{IsPatterns};
ghost use Rattle.wfc_blocks.specs.Blocks.{area_with, block_count, output_of_block};
ghost use Rattle.wfc_blocks.specs.CanvasView.{LiesWithin, canvas_of};
ghost use Rattle.wfc_blocks.specs.Covers.{area_of};
ghost use Rattle.wfc_blocks.specs.Grown.{grow_fault, or_grow_fault, shown_growth, AnswersGrowth, IsShownBy, stuck_in};
ghost use Rattle.wfc_blocks.specs.Growth.{AreNumbersBelow, IsGrowable};
ghost use Rattle.wfc_blocks.specs.Promises.{ShowsLegalMap, ShowsStuckBlock};
ghost use Rattle.wfc_blocks.specs.Steps.{HaltsWithin, growth_at};
ghost use Rattle.wfc_blocks.specs.declared.TheConstants.{MAX_BLOCKS, UNSET};
ghost use Rattle.wfc_picture.specs.declared.palette.TheConstants.{MAX_COLOURS};
ghost use Rattle.wfc_runs.specs.Alike.{HaveRule, PickAlike};

use crate::MAX_BLOCKS;
use crate::block::Block;
use crate::canvas::Canvas;
use crate::cover::Cover;
use crate::growing::{Halt, fill_blocks};
use crate::grown::{GrowFault, Grown, Stuck};
use crate::lines::block_lines;
use std::alloc::Global;
use std::sync::ledger::Ledger;
use wfc_choose::Chooser;
use wfc_domains::Steps;
use wfc_model::MAX_OUTPUT_SIDE;
use wfc_outside::NoMemory;
use wfc_overlap::{PinMark, marks, symbol_texts};
use wfc_pattern::Patterns;
use wfc_picture::Palette;
use wfc_pins::{BuildFault, PinLine};
use wfc_problem::MAX_PAIRS;

/// Grows an area of `width` by `height` pixels in blocks whose sides are at most `side` pixels.
/// Each is filled by a run of its own, with this budget and the words of the seed plus its number,
/// and it keeps what the blocks before it set. A symbol of a line stands for its number in the palette.
/// The patterns may have numbers that the palette lacks.
///
/// The first of these faults is answered: a side below that of a window, more than 64 blocks, too
/// many pairs of a cell and a pattern in the first block, and then the first line at fault, where a
/// place outside comes before an unknown symbol. Memory may run out at any point.
pub fn grow<L: Ledger>(
    alloc: Global,
    patterns: &Patterns,
    palette: &Palette,
    width: u32,
    height: u32,
    side: u32,
    pins: &[PinLine],
    choosers: Vec<Box<dyn Chooser>>,
    seed: u64,
    budget: u32,
    steps: &mut Steps<L>,
) -> Result<Grown, GrowFault>
    requires some_width { 0 < width }
    requires some_height { 0 < height }
    requires width_limit { width ≤ MAX_OUTPUT_SIDE }
    requires height_limit { height ≤ MAX_OUTPUT_SIDE }
    requires side_least { patterns.now.n ≤ side }
    requires side_limit { side ≤ MAX_OUTPUT_SIDE }
    requires small { AreNumbersBelow MAX_COLOURS patterns.now }
    requires choosers { MAX_BLOCKS ≤ length choosers.items }
    requires alike { PickAlike (map (λ chooser. (told chooser).rule) choosers.items) }
    ensures exact { AnswersGrowth (map (λ c. (told c).rule) choosers.items) patterns.now palette.now
        (area_with width height side) pins.now budget seed result }
    ensures legal { IfOk result
        (ShowsLegalMap patterns.now palette.now (area_with width height side) pins.now) }
    ensures stuck { IfOk result
        (ShowsStuckBlock patterns.now palette.now (area_with width height side)) }
{
    let n = patterns.n();
    if width < n || height < n {
        return Err(GrowFault::SizeBelowN);
    }
    let cover = Cover::new(n, width, height, side);
    let count = u64::from(cover.count());
    if count > MAX_BLOCKS {
        return Err(GrowFault::TooManyBlocks { count });
    }
    let product = pairs(patterns, cover.block(0));
    if product > MAX_PAIRS {
        return Err(GrowFault::TooLarge { product });
    }
    let marks = marks_of(alloc, palette, width, height, pins)?;
    let grown = grown_area(
        alloc, patterns, palette, cover, pins, &marks, choosers, seed, budget, steps,
    )?;
    Ok(grown)
}

/// How many pairs of a cell and a pattern a block has.
fn pairs(patterns: &Patterns, block: Block) -> u64
    requires wide { patterns.now.n ≤ block.width }
    requires high { patterns.now.n ≤ block.height }
    requires width_limit { block.width ≤ MAX_OUTPUT_SIDE }
    requires height_limit { block.height ≤ MAX_OUTPUT_SIDE }
    ensures value { result ≡ window_pair_count patterns.now (output_of_block block) }
{
    let n = patterns.n();
    let columns = block.width - n + 1;
    let rows = block.height - n + 1;
    u64::from(rows * columns) * u64::from(patterns.count())
}

/// The pins and bans of the area, or the first line at fault.
fn marks_of(
    alloc: Global,
    palette: &Palette,
    width: u32,
    height: u32,
    pins: &[PinLine],
) -> Result<Vec<PinMark>, GrowFault>
    ensures exact { Gives GrowFault.NoMemory (λ marks. marks.items) result
        (or_grow_fault (picture_pins (texts_of palette.now) width height pins.now)) }
{
    match marks(alloc, palette, width, height, pins) {
        Ok(marks) => Ok(marks),
        Err(fault) => Err(grow_fault(fault)),
    }
}

/// A fault as growing answers it.
fn grow_fault(fault: BuildFault) -> GrowFault
    ensures value { result ≡ grow_fault fault }
{
    match fault {
        BuildFault::SizeBelowN => GrowFault::SizeBelowN,
        BuildFault::PinOutside { line } => GrowFault::PinOutside { line },
        BuildFault::UnknownSymbol { line } => GrowFault::UnknownSymbol { line },
        BuildFault::TooLarge { product } => GrowFault::TooLarge { product },
        BuildFault::NoMemory => GrowFault::NoMemory,
        BuildFault::PinInHole { line } => GrowFault::PinOutside { line },
    }
}

/// Grows an area that has room, by these pins and bans.
fn grown_area<L: Ledger>(
    alloc: Global,
    patterns: &Patterns,
    palette: &Palette,
    cover: Cover,
    pins: &[PinLine],
    marks: &[PinMark],
    choosers: Vec<Box<dyn Chooser>>,
    seed: u64,
    budget: u32,
    steps: &mut Steps<L>,
) -> Result<Grown, NoMemory>
    requires taught { IsPatterns patterns.now }
    requires n { cover.n ≡ patterns.now.n }
    requires small { AreNumbersBelow UNSET patterns.now }
    requires growable { IsGrowable patterns.now (area_of cover) }
    requires enough { block_count cover.n (area_of cover) ≤ length choosers.items }
    ensures grown { (rule : Rule) → HaveRule (map (λ c. (told c).rule) choosers.items) rule →
        IfOk result (IsShownBy patterns.now palette.now cover pins.now rule budget seed marks.now) }
{
    let mut choosers = choosers;
    let mut canvas = Canvas::new(alloc, cover.width, cover.height)?;
    let halt = fill_blocks(
        alloc,
        patterns,
        marks,
        cover,
        &mut canvas,
        &mut choosers,
        budget,
        seed,
        steps,
    )?;
    shown_growth(alloc, palette, &canvas, pins, halt)
}

/// Shows what growing came to.
fn shown_growth(
    alloc: Global,
    palette: &Palette,
    canvas: &Canvas,
    pins: &[PinLine],
    halt: Halt,
) -> Result<Grown, NoMemory>
    requires width_limit { canvas.now.width ≤ MAX_OUTPUT_SIDE }
    requires height_limit { canvas.now.height ≤ MAX_OUTPUT_SIDE }
    requires within { HaltsWithin canvas.now.width canvas.now.height halt }
    ensures value { IfOk result (λ grown. grown ≡ shown_growth (texts_of palette.now) pins.now
        (area_with canvas.now.width canvas.now.height 0) (growth_at halt (canvas_of canvas.now))) }
{
    match halt {
        Halt::Full => Ok(Grown::Map(canvas.picture(alloc)?)),
        Halt::At(block) => Ok(Grown::Stuck(stuck(alloc, palette, canvas, block, pins)?)),
        Halt::Spent => Ok(Grown::Spent),
    }
}

/// A block with the lines of its pins.
fn stuck(
    alloc: Global,
    palette: &Palette,
    canvas: &Canvas,
    block: Block,
    pins: &[PinLine],
) -> Result<Stuck, NoMemory>
    requires width_limit { canvas.now.width ≤ MAX_OUTPUT_SIDE }
    requires height_limit { canvas.now.height ≤ MAX_OUTPUT_SIDE }
    requires within { LiesWithin canvas.now.width canvas.now.height block }
    ensures value { IfOk result (λ stuck. stuck
        ≡ stuck_in (texts_of palette.now) pins.now (canvas_of canvas.now) block) }
{
    let texts = symbol_texts(alloc, palette)?;
    Ok(Stuck {
        block,
        pins: block_lines(alloc, &texts, canvas, block, pins)?,
    })
}
