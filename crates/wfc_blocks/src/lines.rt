//! The lines of a block's pins.

ghost use Rattle.std.specs.Prelude.{◌≡◌, ◌≤◌, ◌++◌, [], map, slice_index_or, IfOk, OnOk};
ghost use Rattle.wfc_blocks.specs.Canvas.{line_in_block, lines_of_block, lines_within, set_line};
ghost use Rattle.wfc_blocks.specs.CanvasView.{LiesWithin, canvas_of};

use crate::block::Block;
use crate::canvas::Canvas;
use crate::pins::set_marks;
use std::alloc::Global;
use wfc_model::MAX_OUTPUT_SIDE;
use wfc_outside::NoMemory;
use wfc_overlap::PinMark;
use wfc_pins::PinLine;

/// The lines of a block's pins: those of what is set in it, by the texts of the symbols, and then
/// those of the file that lie in it, seen from its first pixel.
pub(crate) fn block_lines(
    alloc: Global,
    texts: &[Vec<u8>],
    canvas: &Canvas,
    block: Block,
    pins: &[PinLine],
) -> Result<Vec<PinLine>, NoMemory>
    requires width_limit { canvas.now.width ≤ MAX_OUTPUT_SIDE }
    requires height_limit { canvas.now.height ≤ MAX_OUTPUT_SIDE }
    requires within { LiesWithin canvas.now.width canvas.now.height block }
    ensures value { IfOk result (λ lines. lines.items ≡ lines_of_block
        (map (λ text. text.items) texts.now) pins.now (canvas_of canvas.now) block) }
{
    let marks = set_marks(alloc, canvas, block)?;
    let mut lines = set_lines(alloc, texts, &marks)?;
    push_within(alloc, &mut lines, block, pins)?;
    Ok(lines)
}

/// The lines that keep these pins.
fn set_lines(alloc: Global, texts: &[Vec<u8>], marks: &[PinMark]) -> Result<Vec<PinLine>, NoMemory>
    ensures value { IfOk result (λ lines. lines.items ≡ map (λ pin.
        set_line (map (λ text. text.items) texts.now) pin.column pin.row pin.number) marks.now) }
{
    let mut lines = Vec::with_capacity(alloc, marks.len())?;
    for mark in marks {
        lines.push(set_line(alloc, texts, mark)?)?;
    }
    Ok(lines)
}

/// The line that keeps a pin. Its number without a text has an empty one.
fn set_line(alloc: Global, texts: &[Vec<u8>], mark: &PinMark) -> Result<PinLine, NoMemory>
    ensures value { IfOk result (λ line. line ≡ set_line (map (λ text. text.items) texts.now)
        mark.now.column mark.now.row mark.now.number) }
{
    Ok(PinLine {
        line: 0,
        keep: true,
        x: mark.column,
        y: mark.row,
        symbol: text_at(alloc, texts, mark.number)?,
    })
}

/// The text of a number.
fn text_at(alloc: Global, texts: &[Vec<u8>], number: u32) -> Result<Vec<u8>, NoMemory>
    ensures value { IfOk result (λ text. text.items
        ≡ slice_index_or (map (λ text. text.items) texts.now) number []) }
{
    match texts.get(number as usize) {
        Some(text) => Ok(Vec::from_slice(alloc, text)?),
        None => Ok(Vec::new(alloc)),
    }
}

/// Writes the lines of the file that lie in a block behind the others.
fn push_within(
    alloc: Global,
    lines: &mut Vec<PinLine>,
    block: Block,
    pins: &[PinLine],
) -> Result<(), NoMemory>
    ensures within { OnOk result (lines.new.items
        ≡ lines.old.items ++ lines_within block pins.now) }
{
    for line in pins {
        if block.has(line.x, line.y) {
            lines.push(line_in_block(alloc, block, line)?)?;
        }
    }
    Ok(())
}

/// A line as it is seen from the first pixel of a block in which it lies.
fn line_in_block(alloc: Global, block: Block, line: &PinLine) -> Result<PinLine, NoMemory>
    requires left { block.x ≤ line.now.x }
    requires top { block.y ≤ line.now.y }
    ensures value { IfOk result (λ found. found ≡ line_in_block block line.now) }
{
    Ok(PinLine {
        line: line.line,
        keep: line.keep,
        x: line.x - block.x,
        y: line.y - block.y,
        symbol: Vec::from_slice(alloc, &line.symbol)?,
    })
}
