//! The pins and bans of a box's pins file, by the numbers of their variants.

ghost use Rattle.std.specs.Prelude.{◌≡◌, IfOk};
ghost use Rattle.wfc_outside.specs.Gives.{Gives};
ghost use Rattle.wfc_box.specs.Boxes.{AreInBox, IsInBox};
ghost use Rattle.wfc_box.specs.Built.{box_pin_in, box_pins_in};

use crate::frame::Frame;
use crate::mark::BoxMark;
use crate::pins::BoxPin;
use std::alloc::Global;
use wfc_pins::BuildFault;
use wfc_places::PinMark;
use wfc_tileset::TileSet;

/// What the lines of a box's pins file mean, or the first line at fault.
pub(crate) fn marks(
    alloc: Global,
    tiles: &TileSet,
    frame: Frame,
    pins: &[BoxPin],
) -> Result<Vec<BoxMark>, BuildFault>
    ensures exact { Gives BuildFault.NoMemory (λ marks. marks.items) result
        (box_pins_in tiles.now.tiles frame pins.now) }
    ensures inside { IfOk result (λ marks. AreInBox frame marks.items) }
{
    let mut marks = Vec::with_capacity(alloc, pins.len())?;
    for line in pins {
        marks.push(mark(tiles, frame, line)?)?;
    }
    Ok(marks)
}

/// What one line means.
fn mark(tiles: &TileSet, frame: Frame, line: &BoxPin) -> Result<BoxMark, BuildFault>
    ensures exact { result ≡ box_pin_in tiles.now.tiles frame line.now }
    ensures inside { IfOk result (IsInBox frame) }
{
    if line.x >= frame.width || line.y >= frame.height || line.z >= frame.depth {
        return Err(BuildFault::PinOutside { line: line.line });
    }
    match tiles.find(&line.symbol) {
        Some(variant) => Ok(BoxMark {
            layer: line.z,
            mark: PinMark {
                keep: line.keep,
                column: line.x,
                row: line.y,
                number: u32::from(variant),
            },
        }),
        None => Err(BuildFault::UnknownSymbol { line: line.line }),
    }
}
