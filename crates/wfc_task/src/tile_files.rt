//! The files of a tile set and of a mask, and what they hold.

ghost use Rattle.std.specs.Prelude.{IfOk, length};
ghost use Rattle.wfc_outside.specs.Gives.{result_map};
ghost use Rattle.wfc_plan.specs.Plan.{Goes};
ghost use Rattle.wfc_task.specs.Asked.{IsOutputAsked};
ghost use Rattle.wfc_task.specs.TilePlans.{document_plan, mask_file_plan, mask_plan, next_plan, pictures_plan, tiled_plan, tiles_plan};
ghost use Rattle.wfc_task.specs.Tiling.{HasSides, IsTilingTask, mask_or_whole};

use crate::files::pins;
use crate::steps::grid;
use crate::tile_steps::{mask_in, posed_tiles, take_picture, tile_document};
use std::alloc::Global;
use wfc_outside::Folder;
use wfc_plan::{Fault, Source, whole_file};
use wfc_problem::Problem;
use wfc_tiled::Mask;
use wfc_tileset::TileSet;
use wfc_words::Request;

/// The tile set of the document, whose pictures are not read yet.
fn document_file<F: Folder>(
    alloc: Global,
    request: &Request,
    folder: &mut F,
) -> Result<TileSet, Fault>
    ensures goes { Goes (document_plan request.now)
        (F.seen folder.old) (F.seen folder.new) result }
{
    let bytes = whole_file(alloc, folder, Source::Sample, request.file())?;
    let tiles = tile_document(alloc, &bytes)?;
    Ok(tiles)
}

/// Reads the picture of the next tile, if it has one.
fn next_picture<F: Folder>(alloc: Global, folder: &mut F, tiles: &mut TileSet) -> Result<(), Fault>
    ensures goes { Goes (next_plan tiles.old)
        (F.seen folder.old) (F.seen folder.new) (result_map (λ _. tiles.new) result) }
{
    let tile = tiles.pictures();
    let Some(name) = tiles.picture_name(tile) else {
        return Ok(());
    };
    let bytes = whole_file(alloc, folder, Source::Picture { tile }, name)?;
    take_picture(alloc, tiles, &bytes)?;
    Ok(())
}

/// Reads the pictures of all tiles, one by one.
pub fn pictures<F: Folder>(alloc: Global, folder: &mut F, tiles: &mut TileSet) -> Result<(), Fault>
    ensures goes { Goes (pictures_plan (length tiles.old.tiles) tiles.old)
        (F.seen folder.old) (F.seen folder.new) (result_map (λ _. tiles.new) result) }
{
    for _ in 0..tiles.tiles() {
        next_picture(alloc, folder, tiles)?;
    }
    Ok(())
}

/// The tile set that is asked for, with its pictures.
pub fn tile_set<F: Folder>(
    alloc: Global,
    request: &Request,
    folder: &mut F,
) -> Result<TileSet, Fault>
    ensures goes { Goes (tiles_plan request.now) (F.seen folder.old) (F.seen folder.new) result }
{
    let mut tiles = document_file(alloc, request, folder)?;
    pictures(alloc, folder, &mut tiles)?;
    Ok(tiles)
}

/// The mask of a file.
fn mask_file<F: Folder>(
    alloc: Global,
    request: &Request,
    folder: &mut F,
    name: &str,
) -> Result<Mask, Fault>
    requires output { IsOutputAsked request.now }
    ensures goes { Goes (mask_file_plan request.now name.now)
        (F.seen folder.old) (F.seen folder.new) result }
    ensures sides { IfOk result (HasSides request.now) }
{
    let bytes = whole_file(alloc, folder, Source::Mask, name)?;
    let grid = grid(alloc, Source::Mask, &bytes)?;
    let mask = mask_in(alloc, request, &grid)?;
    Ok(mask)
}

/// The mask of the file that is named, if one is.
pub fn mask<F: Folder>(
    alloc: Global,
    request: &Request,
    folder: &mut F,
) -> Result<Option<Mask>, Fault>
    requires output { IsOutputAsked request.now }
    ensures goes { Goes (mask_plan request.now)
        (F.seen folder.old) (F.seen folder.new) (result_map (mask_or_whole request.now) result) }
    ensures sides { IfOk result (λ mask. HasSides request.now (mask_or_whole request.now mask)) }
{
    match request.mask() {
        Some(name) => Ok(Some(mask_file(alloc, request, folder, name)?)),
        None => Ok(None),
    }
}

/// The mask that is asked for, if one is, and the problem of the tile set on it, by the pins file.
pub fn tiled_problem<F: Folder>(
    alloc: Global,
    request: &Request,
    tiles: &TileSet,
    folder: &mut F,
) -> Result<(Option<Mask>, Problem), Fault>
    requires output { IsOutputAsked request.now }
    ensures goes { Goes (tiled_plan request.now tiles.now) (F.seen folder.old) (F.seen folder.new)
        (result_map (λ made. (mask_or_whole request.now made.0, made.1)) result) }
    ensures tiled { IfOk result (λ made.
        IsTilingTask request.now tiles.now (mask_or_whole request.now made.0) made.1) }
{
    let lines = pins(alloc, folder, request.pins())?;
    let mask = mask(alloc, request, folder)?;
    let problem = posed_tiles(alloc, request, tiles, &mask, &lines)?;
    Ok((mask, problem))
}
