//! The task of `explain`: its lines, and the problem whose lines can be left out.

ghost use Rattle.std.specs.Prelude.{IfOk, OnOk, length, ◌≡◌, ◌≤◌};
ghost use Rattle.wfc_explain.specs.Problems.{tiles_pins};
ghost use Rattle.wfc_outside.specs.Gives.{Gives, result_map};
ghost use Rattle.wfc_plan.specs.Plan.{Goes};
ghost use Rattle.wfc_run_commands.specs.ExplainTask.{few_lines, lines_plan, pins_of_sample, pins_of_tiles};
ghost use Rattle.wfc_task.specs.Asked.{IsOutputAsked};
ghost use Rattle.wfc_task.specs.Tiling.{HasSides, mask_or_whole};

use std::alloc::Global;
use wfc_explain::{OverlapPins, TilePins};
use wfc_outside::Folder;
use wfc_pins::{BuildFault, PinLine};
use wfc_plan::{Fault, Refusal};
use wfc_task::{Taught, pins};
use wfc_tiled::Mask;
use wfc_tileset::TileSet;
use wfc_words::Request;

/// The most lines of pins and bans that `explain` takes.
pub const MAX_LINES: u64 = 64;

/// How many choosers it needs: one more.
pub const EXPLAIN_CHOOSERS: u32 = 65;

/// The lines of the pins file, which aren't too many.
pub(crate) fn lines<F: Folder>(
    alloc: Global,
    request: &Request,
    folder: &mut F,
) -> Result<Vec<PinLine>, Fault>
    ensures goes { Goes (lines_plan request.now)
        (F.seen folder.old) (F.seen folder.new) (result_map (λ lines. lines.items) result) }
    ensures few { IfOk result (λ lines. length lines.items ≤ MAX_LINES) }
{
    let lines = pins(alloc, folder, request.pins())?;
    few_lines(&lines)?;
    Ok(lines)
}

/// Whether the lines aren't too many.
fn few_lines(lines: &[PinLine]) -> Result<(), Refusal>
    ensures exact { result ≡ few_lines lines.now }
    ensures few { OnOk result (length lines.now ≤ MAX_LINES) }
{
    let count = lines.len() as u64;
    if count <= MAX_LINES {
        Ok(())
    } else {
        Err(Refusal::TooManyPins { count })
    }
}

/// What a sample teaches with the pins of these lines.
pub(crate) fn sample_pins<'a>(
    alloc: Global,
    request: &Request,
    taught: &'a Taught,
    lines: &[PinLine],
) -> Result<OverlapPins<'a>, Refusal>
    requires output { IsOutputAsked request.now }
    requires few { length lines.now ≤ MAX_LINES }
    ensures exact { Gives Refusal.NoMemory (λ made. made) result
        (pins_of_sample request.now taught.now lines.now) }
    ensures each_line { IfOk result (λ pins. length pins.pins ≡ length lines.now) }
{
    let (width, height, wrap) = (request.width, request.height, request.wrap_out);
    Ok(OverlapPins::new(
        alloc,
        &taught.patterns,
        &taught.palette,
        width,
        height,
        wrap,
        lines,
    )?)
}

/// A tile set with the pins of these lines, on a mask, if there is one.
pub(crate) fn tile_pins<'a>(
    alloc: Global,
    request: &Request,
    tiles: &'a TileSet,
    mask: &'a Option<Mask>,
    lines: &[PinLine],
) -> Result<TilePins<'a>, Refusal>
    requires output { IsOutputAsked request.now }
    requires sides { HasSides request.now (mask_or_whole request.now mask.now) }
    requires few { length lines.now ≤ MAX_LINES }
    ensures exact { Gives Refusal.NoMemory (λ made. made) result
        (pins_of_tiles request.now tiles.now (mask_or_whole request.now mask.now) lines.now) }
    ensures each_line { IfOk result (λ pins. length pins.pins ≡ length lines.now) }
{
    Ok(masked_pins(alloc, request, tiles, mask, lines)?)
}

/// The same, or the fault of the problem of all lines.
fn masked_pins<'a>(
    alloc: Global,
    request: &Request,
    tiles: &'a TileSet,
    mask: &'a Option<Mask>,
    lines: &[PinLine],
) -> Result<TilePins<'a>, BuildFault>
    requires output { IsOutputAsked request.now }
    requires sides { HasSides request.now (mask_or_whole request.now mask.now) }
    requires few { length lines.now ≤ MAX_LINES }
    ensures exact { Gives BuildFault.NoMemory (λ pins. pins) result
        (tiles_pins tiles.now (mask_or_whole request.now mask.now) request.now.wrap_out lines.now) }
{
    let (width, height, wrap) = (request.width, request.height, request.wrap_out);
    match mask {
        Some(mask) => TilePins::new(alloc, tiles, width, height, wrap, Some(mask), lines),
        None => TilePins::new(alloc, tiles, width, height, wrap, None, lines),
    }
}
