//! The lines of a sample with too many symbols.

ghost use Rattle.std.specs.Prelude.{◌≡◌};
ghost use Rattle.wfc_lines.specs.Line.{IsSaid};
ghost use Rattle.wfc_lines.specs.Palette.{text_of_palette};

use crate::line::put_numbered;
use crate::outcome::no_memory;
use wfc_outside::{Sink, SinkFault};
use wfc_picture::PaletteFault;

/// Puts why the symbols of a sample have no palette.
pub fn palette<E: Sink>(err: &mut E, fault: PaletteFault, file: &str) -> Result<(), SinkFault>
    ensures told { IsSaid (E.seen err.old) (E.seen err.new)
        (text_of_palette fault file.now) result }
{
    match fault {
        PaletteFault::TooManyColours { at } => put_numbered(
            err,
            "palette TooManyColours at=",
            at,
            file,
        ),
        PaletteFault::NoMemory => no_memory(err),
    }
}
