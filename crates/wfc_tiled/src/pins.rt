//! The pins and bans of a pins file, by the numbers of their variants.

ghost use Rattle.std.specs.Prelude.{◌≡◌, ◌<◌, IfOk};
ghost use Rattle.wfc_outside.specs.Gives.{Gives};
ghost use Rattle.wfc_tiled.specs.Built.{tile_map_pin, tile_map_pins};
ghost use Rattle.wfc_tiled.specs.Maps.{ArePlaced, IsPlaced};

use crate::holes::Mask;
use std::alloc::Global;
use wfc_pins::{BuildFault, PinLine};
use wfc_places::PinMark;
use wfc_tileset::TileSet;

/// What the lines of a pins file mean, or the first line at fault.
pub(crate) fn marks(
    alloc: Global,
    tiles: &TileSet,
    mask: &Mask,
    pins: &[PinLine],
) -> Result<Vec<PinMark>, BuildFault>
    ensures exact { Gives BuildFault.NoMemory (λ marks. marks.items) result
        (tile_map_pins tiles.now.tiles mask.now pins.now) }
    ensures placed { IfOk result (λ marks. ArePlaced mask.now marks.items) }
{
    let mut marks = Vec::with_capacity(alloc, pins.len())?;
    for line in pins {
        marks.push(mark(tiles, mask, line)?)?;
    }
    Ok(marks)
}

/// What one line means.
fn mark(tiles: &TileSet, mask: &Mask, line: &PinLine) -> Result<PinMark, BuildFault>
    ensures exact { result ≡ tile_map_pin tiles.now.tiles mask.now line.now }
    ensures placed { IfOk result (IsPlaced mask.now) }
{
    if line.x >= mask.width() || line.y >= mask.height() {
        return Err(BuildFault::PinOutside { line: line.line });
    }
    let Some(_) = mask.cell(line.x, line.y) else {
        return Err(BuildFault::PinInHole { line: line.line });
    };
    match tiles.find(&line.symbol) {
        Some(variant) => Ok(PinMark {
            keep: line.keep,
            column: line.x,
            row: line.y,
            number: u32::from(variant),
        }),
        None => Err(BuildFault::UnknownSymbol { line: line.line }),
    }
}
