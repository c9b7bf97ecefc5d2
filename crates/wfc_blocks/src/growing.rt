//! Growing an area block by block.

ghost use Rattle.std.specs.Prelude.{◌≡◌, ◌<◌, ◌≤◌, ◌+◌, ◌++◌, ◌∷◌, [], length, map, IfOk, OnOk};
ghost use Rattle.wfc_choose.specs.Pick.{Rule};
ghost use Rattle.wfc_overlap.specs.Bridge.{IsRoom};
ghost use Rattle.wfc_pattern.specs.Patterns.{IsPatterns};
ghost use Rattle.wfc_blocks.specs.BlockEnds.{AreSupportsOf, FitsBlock};
ghost use Rattle.wfc_blocks.specs.Blocks.{block_count, output_of_block};
ghost use Rattle.wfc_blocks.specs.CanvasView.{HaveSameSides, LiesWithin, canvas_of};
ghost use Rattle.wfc_blocks.specs.Covers.{area_of};
ghost use Rattle.wfc_blocks.specs.Grown.{terms_with};
ghost use Rattle.wfc_blocks.specs.Growth.{AreNumbersBelow, IsGrowable};
ghost use Rattle.wfc_blocks.specs.Steps.{HaltsWithin, IsBlockStep, IsSetBy, GrowsAs};
ghost use Rattle.wfc_blocks.specs.declared.TheConstants.{UNSET};
ghost use Rattle.wfc_runs.specs.Alike.{HaveRule};

use crate::block::Block;
use crate::canvas::Canvas;
use crate::cover::Cover;
use crate::ends::{BlockEnd, run_block};
use crate::pins::block_marks;
use std::alloc::Global;
use std::sync::ledger::Ledger;
use wfc_choose::Chooser;
use wfc_domains::Steps;
use wfc_model::MAX_OUTPUT_SIDE;
use wfc_outside::NoMemory;
use wfc_overlap::{PinMark, support_lists};
use wfc_pattern::Patterns;
use wfc_search::Outcome;

/// Where growing ended.
#[derive(Clone, Copy)]
pub(crate) enum Halt {
    /// Each block is set.
    Full,
    /// No map fills this block.
    At(Block),
    /// The budget of a block was spent.
    Spent,
}

/// Sets a block to the picture that its run ended in, if it ended in one.
fn set_block(canvas: &mut Canvas, block: Block, end: BlockEnd) -> Outcome
    requires width_limit { canvas.old.width ≤ MAX_OUTPUT_SIDE }
    requires height_limit { canvas.old.height ≤ MAX_OUTPUT_SIDE }
    requires within { LiesWithin canvas.old.width canvas.old.height block }
    requires fits { FitsBlock block end }
    ensures set { IsSetBy (canvas_of canvas.old) block end result (canvas_of canvas.new) }
    ensures alike { HaveSameSides canvas.old canvas.new }
{
    match end {
        BlockEnd::Map(picture) => {
            canvas.paint(block, &picture);
            Outcome::Map
        }
        BlockEnd::NoMap => Outcome::NoMap,
        BlockEnd::Spent => Outcome::Spent,
    }
}

/// Fills a block by the run of its own problem, with the words of its own seed.
fn fill_block<L: Ledger>(
    alloc: Global,
    patterns: &Patterns,
    supports: &mut Vec<Vec<u16>>,
    marks: &[PinMark],
    block: Block,
    canvas: &mut Canvas,
    chooser: Box<dyn Chooser>,
    budget: u32,
    seed: u64,
    steps: &mut Steps<L>,
) -> Result<Outcome, NoMemory>
    requires taught { IsPatterns patterns.now }
    requires small { AreNumbersBelow UNSET patterns.now }
    requires supports { AreSupportsOf patterns.now (map (λ list. list.items) supports.old.items) }
    requires room { IsRoom patterns.now (output_of_block block) }
    requires width_limit { canvas.old.width ≤ MAX_OUTPUT_SIDE }
    requires height_limit { canvas.old.height ≤ MAX_OUTPUT_SIDE }
    requires within { LiesWithin canvas.old.width canvas.old.height block }
    ensures step { IfOk result (λ o. IsBlockStep (terms_with patterns.now (told chooser).rule budget
        seed marks.now) (canvas_of canvas.old) block o (canvas_of canvas.new)) }
    ensures supports { OnOk result
        (AreSupportsOf patterns.now (map (λ list. list.items) supports.new.items)) }
    ensures alike { HaveSameSides canvas.old canvas.new }
{
    let pins = block_marks(alloc, canvas, block, marks)?;
    let seed = seed.wrapping_add(u64::from(block.number));
    let end = run_block(
        alloc, patterns, supports, &pins, block, chooser, budget, seed, steps,
    )?;
    Ok(set_block(canvas, block, end))
}

/// The next chooser, which is the last.
fn next(choosers: &mut Vec<Box<dyn Chooser>>) -> Box<dyn Chooser>
    requires some { 0 < length choosers.old.items }
    ensures rules { map (λ chooser. (told chooser).rule) choosers.old.items
        ≡ map (λ chooser. (told chooser).rule) choosers.new.items ++ (told result).rule ∷ [] }
    ensures fewer { length choosers.old.items ≡ length choosers.new.items + 1 }
{
    let Some(chooser) = choosers.pop() else {
        unreachable!();
    };
    chooser
}

/// Fills the blocks of an area in their order, up to one that no map fills or whose budget is
/// spent.
pub(crate) fn fill_blocks<L: Ledger>(
    alloc: Global,
    patterns: &Patterns,
    marks: &[PinMark],
    cover: Cover,
    canvas: &mut Canvas,
    choosers: &mut Vec<Box<dyn Chooser>>,
    budget: u32,
    seed: u64,
    steps: &mut Steps<L>,
) -> Result<Halt, NoMemory>
    requires taught { IsPatterns patterns.now }
    requires small { AreNumbersBelow UNSET patterns.now }
    requires n { cover.n ≡ patterns.now.n }
    requires growable { IsGrowable patterns.now (area_of cover) }
    requires width { canvas.old.width ≡ cover.width }
    requires height { canvas.old.height ≡ cover.height }
    requires enough { block_count cover.n (area_of cover) ≤ length choosers.old.items }
    ensures growth { (rule : Rule) → HaveRule (map (λ c. (told c).rule) choosers.old.items) rule →
        IfOk result (GrowsAs patterns.now rule budget seed marks.now cover canvas.old canvas.new) }
    ensures within { IfOk result (HaltsWithin cover.width cover.height) }
    ensures alike { HaveSameSides canvas.old canvas.new }
{
    let mut supports = support_lists(alloc, patterns)?;
    for number in 0..cover.count() {
        let block = cover.block(number);
        let chooser = next(choosers);
        let outcome = fill_block(
            alloc,
            patterns,
            &mut supports,
            marks,
            block,
            canvas,
            chooser,
            budget,
            seed,
            steps,
        )?;
        match outcome {
            Outcome::Map => {}
            Outcome::NoMap => return Ok(Halt::At(block)),
            Outcome::Spent => return Ok(Halt::Spent),
        }
    }
    Ok(Halt::Full)
}
