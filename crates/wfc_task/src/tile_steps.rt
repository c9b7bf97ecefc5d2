//! The steps of tasks on tile sets that read no file.

ghost use Rattle.std.specs.Prelude.{IfOk, IsSome, length, ◌≡◌, ◌≤◌};
ghost use Rattle.wfc_outside.specs.Gives.{Gives};
ghost use Rattle.wfc_task.specs.Asked.{IsOutputAsked};
ghost use Rattle.wfc_task.specs.TileSteps.{document_in, tile_layout, mask_in, with_next_picture, posed_tiles};
ghost use Rattle.wfc_task.specs.Tiling.{HasSides, IsTilingTask, mask_or_whole};
ghost use Rattle.wfc_tiled.specs.Built.{tile_map_problem};
ghost use Rattle.wfc_tileset.specs.Pictures.{picture_name};

use std::alloc::Global;
use wfc_grid::{Grid, MAX_GRID_BYTES};
use wfc_outside::MAX_FILE_BYTES;
use wfc_pins::{BuildFault, PinLine};
use wfc_plan::Refusal;
use wfc_problem::Problem;
use wfc_render::{Layout, layout};
use wfc_tiled::{Mask, build, build_masked, mask};
use wfc_tileset::{TileSet, read};
use wfc_words::Request;

/// The tile set that a document spells, whose pictures are named and not read.
pub fn tile_document(alloc: Global, bytes: &[u8]) -> Result<TileSet, Refusal>
    requires short { length bytes.now ≤ MAX_FILE_BYTES }
    ensures exact { Gives Refusal.NoMemory (λ made. made) result (document_in bytes.now) }
{
    Ok(read(alloc, bytes)?)
}

/// Takes the picture of the next tile.
pub(crate) fn take_picture(alloc: Global, tiles: &mut TileSet, bytes: &[u8]) -> Result<(), Refusal>
    requires named { IsSome (picture_name tiles.old (length tiles.old.pictures)) }
    ensures exact { Gives Refusal.NoMemory (λ _. tiles.new) result
        (with_next_picture tiles.old bytes.now) }
{
    Ok(tiles.take_picture(alloc, bytes)?)
}

/// How the map of a tile set is written.
pub fn tile_layout(tiles: &TileSet, request: &Request) -> Result<Layout, Refusal>
    requires output { IsOutputAsked request.now }
    ensures exact { result ≡ tile_layout tiles.now request.now }
{
    let kind = tiles.kind();
    let side = tiles.side();
    Ok(layout(kind, request.form, request.width, request.height, side)?)
}

/// The mask that a grid spells for the map asked for.
pub(crate) fn mask_in(alloc: Global, request: &Request, grid: &Grid) -> Result<Mask, Refusal>
    requires output { IsOutputAsked request.now }
    requires few { length grid.now.bytes ≤ MAX_GRID_BYTES }
    ensures exact { Gives Refusal.NoMemory (λ made. made) result (mask_in request.now grid.now) }
    ensures sides { IfOk result (HasSides request.now) }
{
    Ok(mask(alloc, grid, request.width, request.height)?)
}

/// The problem of a tile set, a mask, if there is one, and the lines of a pins file.
pub(crate) fn posed_tiles(
    alloc: Global,
    request: &Request,
    tiles: &TileSet,
    mask: &Option<Mask>,
    lines: &[PinLine],
) -> Result<Problem, Refusal>
    requires output { IsOutputAsked request.now }
    requires sides { HasSides request.now (mask_or_whole request.now mask.now) }
    ensures exact { Gives Refusal.NoMemory (λ made. made) result
        (posed_tiles request.now tiles.now (mask_or_whole request.now mask.now) lines.now) }
    ensures tiled { IfOk result (IsTilingTask request.now tiles.now (mask_or_whole request.now
        mask.now)) }
{
    Ok(masked_problem(alloc, request, tiles, mask, lines)?)
}

/// The same, with the faults as they are.
fn masked_problem(
    alloc: Global,
    request: &Request,
    tiles: &TileSet,
    mask: &Option<Mask>,
    lines: &[PinLine],
) -> Result<Problem, BuildFault>
    requires output { IsOutputAsked request.now }
    ensures exact { Gives BuildFault.NoMemory (λ problem. problem) result (tile_map_problem
        tiles.now (mask_or_whole request.now mask.now) request.now.wrap_out lines.now) }
{
    match mask {
        Some(mask) => build_masked(alloc, tiles, mask, request.wrap_out, lines),
        None => build(
            alloc,
            tiles,
            request.width,
            request.height,
            request.wrap_out,
            lines,
        ),
    }
}
