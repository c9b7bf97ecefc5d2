//! The lines of a file that is no mask.

ghost use Rattle.std.specs.Prelude.{◌≡◌};
ghost use Rattle.wfc_lines.specs.Line.{IsSaid};
ghost use Rattle.wfc_lines.specs.Mask.{text_of_mask, text_of_mask_grid};

use crate::line::{put_named, put_numbered, twice_numbered};
use crate::outcome::no_memory;
use wfc_grid::GridFault;
use wfc_outside::{Sink, SinkFault};
use wfc_tiled::MaskFault;

/// Puts why the text of a mask is no grid.
pub fn mask_grid<E: Sink>(err: &mut E, fault: GridFault, file: &str) -> Result<(), SinkFault>
    ensures told { IsSaid (E.seen err.old) (E.seen err.new)
        (text_of_mask_grid fault file.now) result }
{
    match fault {
        GridFault::Empty => put_named(err, "mask Empty", file),
        GridFault::Ragged { line } => put_numbered(err, "mask Ragged line=", line, file),
        GridFault::BadByte { line, column } => twice_numbered(
            err,
            "mask BadByte line=",
            line,
            " column=",
            column,
            file,
        ),
        GridFault::TooLarge => put_named(err, "mask TooLarge", file),
        GridFault::NoMemory => no_memory(err),
    }
}

/// Puts why a grid is no mask.
pub fn mask<E: Sink>(err: &mut E, fault: MaskFault, file: &str) -> Result<(), SinkFault>
    ensures told { IsSaid (E.seen err.old) (E.seen err.new) (text_of_mask fault file.now) result }
{
    match fault {
        MaskFault::SizeDiffers { width, height } => twice_numbered(
            err,
            "mask SizeDiffers width=",
            width,
            " height=",
            height,
            file,
        ),
        MaskFault::BadSymbol { line, column } => twice_numbered(
            err,
            "mask BadSymbol line=",
            line,
            " column=",
            column,
            file,
        ),
        MaskFault::AllHoles => put_named(err, "mask AllHoles", file),
        MaskFault::NoMemory => no_memory(err),
    }
}
