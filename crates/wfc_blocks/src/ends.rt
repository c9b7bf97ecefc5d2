//! The run of a block.

ghost use Rattle.std.specs.Prelude.{◌≡◌, ◌≤◌, map, IfOk, OnOk};
ghost use Rattle.wfc_overlap.specs.Bridge.{AreInside, IsRoom};
ghost use Rattle.wfc_pattern.specs.Patterns.{IsPatterns};
ghost use Rattle.wfc_blocks.specs.BlockEnds.{AreSupportsOf, FitsBlock, IsBlockEnd, IsLegalFor, IsShownAs};
ghost use Rattle.wfc_blocks.specs.Blocks.{output_of_block};
ghost use Rattle.wfc_blocks.specs.Growth.{AreNumbersBelow};
ghost use Rattle.wfc_blocks.specs.declared.TheConstants.{UNSET};

use crate::block::Block;
use std::alloc::Global;
use std::mem::replace;
use std::sync::ledger::Ledger;
use wfc_choose::Chooser;
use wfc_domains::Steps;
use wfc_model::MAX_OUTPUT_SIDE;
use wfc_outside::NoMemory;
use wfc_overlap::{PinMark, picture_of, problem_of_marks};
use wfc_pattern::Patterns;
use wfc_picture::Picture;
use wfc_runs::{RunEnd, run_counted};

/// How the run of a block ended.
#[derive(Drop)]
pub(crate) enum BlockEnd {
    /// With this picture of the block.
    Map(Picture),
    /// The pins of the block admit none.
    NoMap,
    /// The budget was spent.
    Spent,
}

/// Makes the run of a block with these pins and bans, with the words of a seed. Its problem takes
/// the lists of supports of the patterns, and they are given back.
pub(crate) fn run_block<L: Ledger>(
    alloc: Global,
    patterns: &Patterns,
    supports: &mut Vec<Vec<u16>>,
    marks: &[PinMark],
    block: Block,
    chooser: Box<dyn Chooser>,
    budget: u32,
    seed: u64,
    steps: &mut Steps<L>,
) -> Result<BlockEnd, NoMemory>
    requires taught { IsPatterns patterns.now }
    requires small { AreNumbersBelow UNSET patterns.now }
    requires supports { AreSupportsOf patterns.now (map (λ list. list.items) supports.old.items) }
    requires room { IsRoom patterns.now (output_of_block block) }
    requires width_limit { block.width ≤ MAX_OUTPUT_SIDE }
    requires height_limit { block.height ≤ MAX_OUTPUT_SIDE }
    requires inside { AreInside (output_of_block block) marks.now }
    ensures ends { IfOk result
        (IsBlockEnd patterns.now marks.now block (told chooser).rule budget seed) }
    ensures fits { IfOk result (FitsBlock block) }
    ensures supports { OnOk result
        (AreSupportsOf patterns.now (map (λ list. list.items) supports.new.items)) }
{
    let lists = replace(supports, Vec::new(alloc));
    let problem = problem_of_marks(
        alloc,
        patterns,
        lists,
        block.width,
        block.height,
        false,
        marks,
    )?;
    let ran = run_counted(alloc, &problem, chooser, budget, seed, steps)?;
    *supports = problem.into_supports();
    shown_end(alloc, patterns, block, ran.end)
}

/// The end of a run as the end of a block, with the picture that its assignment paints.
fn shown_end(
    alloc: Global,
    patterns: &Patterns,
    block: Block,
    end: RunEnd,
) -> Result<BlockEnd, NoMemory>
    requires taught { IsPatterns patterns.now }
    requires small { AreNumbersBelow UNSET patterns.now }
    requires room { IsRoom patterns.now (output_of_block block) }
    requires width_limit { block.width ≤ MAX_OUTPUT_SIDE }
    requires height_limit { block.height ≤ MAX_OUTPUT_SIDE }
    requires legal { IsLegalFor patterns.now block end }
    ensures shown { IfOk result (IsShownAs patterns.now block end) }
    ensures fits { IfOk result (FitsBlock block) }
{
    match end {
        RunEnd::Map { assignment } => {
            let picture = picture_of(
                alloc,
                patterns,
                block.width,
                block.height,
                false,
                &assignment,
            )?;
            Ok(BlockEnd::Map(picture))
        }
        RunEnd::NoMap => Ok(BlockEnd::NoMap),
        RunEnd::Spent => Ok(BlockEnd::Spent),
    }
}
