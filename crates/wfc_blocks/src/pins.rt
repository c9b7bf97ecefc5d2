//! The pins of a block.

ghost use Rattle.std.specs.Prelude.{◌≡◌, ◌<◌, ◌≤◌, ◌++◌, IfOk, OnOk};
ghost use Rattle.wfc_model.specs.Legal.{kept_pin};
ghost use Rattle.wfc_blocks.specs.Canvas.{made_if_set, made_in_block, made_in_row, pin_in_block, pins_of_block, pins_within};
ghost use Rattle.wfc_blocks.specs.CanvasView.{LiesWithin, canvas_of};

use crate::block::Block;
use crate::canvas::Canvas;
use std::alloc::Global;
use wfc_model::MAX_OUTPUT_SIDE;
use wfc_outside::NoMemory;
use wfc_overlap::PinMark;

/// The pins and bans of a block: what is set in it, row by row, and then those of the area that lie
/// in it, seen from its first pixel.
pub(crate) fn block_marks(
    alloc: Global,
    canvas: &Canvas,
    block: Block,
    marks: &[PinMark],
) -> Result<Vec<PinMark>, NoMemory>
    requires width_limit { canvas.now.width ≤ MAX_OUTPUT_SIDE }
    requires height_limit { canvas.now.height ≤ MAX_OUTPUT_SIDE }
    requires within { LiesWithin canvas.now.width canvas.now.height block }
    ensures value { IfOk result (λ found. found.items
        ≡ pins_of_block marks.now (canvas_of canvas.now) block) }
{
    let mut found = set_marks(alloc, canvas, block)?;
    push_within(&mut found, block, marks)?;
    Ok(found)
}

/// The pins of what is set in a block, row by row.
pub(crate) fn set_marks(
    alloc: Global,
    canvas: &Canvas,
    block: Block,
) -> Result<Vec<PinMark>, NoMemory>
    requires width_limit { canvas.now.width ≤ MAX_OUTPUT_SIDE }
    requires height_limit { canvas.now.height ≤ MAX_OUTPUT_SIDE }
    requires within { LiesWithin canvas.now.width canvas.now.height block }
    ensures value { IfOk result (λ found. found.items
        ≡ made_in_block kept_pin (canvas_of canvas.now) block) }
{
    let mut found = Vec::new(alloc);
    for row in 0..block.height {
        push_row(&mut found, canvas, block, row)?;
    }
    Ok(found)
}

/// Writes the pins of what is set in a row of a block behind the others.
fn push_row(
    found: &mut Vec<PinMark>,
    canvas: &Canvas,
    block: Block,
    row: u32,
) -> Result<(), NoMemory>
    requires width_limit { canvas.now.width ≤ MAX_OUTPUT_SIDE }
    requires height_limit { canvas.now.height ≤ MAX_OUTPUT_SIDE }
    requires within { LiesWithin canvas.now.width canvas.now.height block }
    requires row_in { row < block.height }
    ensures row { OnOk result (found.new.items
        ≡ found.old.items ++ made_in_row kept_pin (canvas_of canvas.now) block row) }
{
    for column in 0..block.width {
        let number = canvas.get(block.x + column, block.y + row);
        push_if_set(found, column, row, number)?;
    }
    Ok(())
}

/// Writes the pin of a number, if it is set, behind the others.
fn push_if_set(
    found: &mut Vec<PinMark>,
    column: u32,
    row: u32,
    number: Option<u32>,
) -> Result<(), NoMemory>
    ensures pushed { OnOk result (found.new.items
        ≡ found.old.items ++ made_if_set kept_pin column row number) }
{
    if let Some(number) = number {
        found.push(PinMark {
            keep: true,
            column,
            row,
            number,
        })?;
    }
    Ok(())
}

/// Writes the pins and bans of the area that lie in a block behind the others.
fn push_within(found: &mut Vec<PinMark>, block: Block, marks: &[PinMark]) -> Result<(), NoMemory>
    ensures within { OnOk result (found.new.items
        ≡ found.old.items ++ pins_within block marks.now) }
{
    for mark in marks {
        if block.has(mark.column, mark.row) {
            found.push(mark_in_block(block, mark))?;
        }
    }
    Ok(())
}

/// A pin of the area as it is seen from the first pixel of a block that it lies in.
fn mark_in_block(block: Block, mark: &PinMark) -> PinMark
    requires left { block.x ≤ mark.now.column }
    requires top { block.y ≤ mark.now.row }
    ensures value { result ≡ pin_in_block block mark.now }
{
    PinMark {
        keep: mark.keep,
        column: mark.column - block.x,
        row: mark.row - block.y,
        number: mark.number,
    }
}
