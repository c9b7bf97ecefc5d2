//! The lines of a pins file.

ghost use Rattle.std.specs.Prelude.{◌≡◌};
ghost use Rattle.wfc_lines.specs.Line.{IsSaid};
ghost use Rattle.wfc_lines.specs.Pins.{text_of_pins};

use crate::line::put_numbered;
use crate::outcome::no_memory;
use wfc_outside::{Sink, SinkFault};
use wfc_pins::PinFault;

/// Puts why a text is no pins file.
pub fn pins<E: Sink>(err: &mut E, fault: PinFault, file: &str) -> Result<(), SinkFault>
    ensures told { IsSaid (E.seen err.old) (E.seen err.new) (text_of_pins fault file.now) result }
{
    match fault {
        PinFault::BadLine { line } => put_numbered(err, "pins BadLine line=", line, file),
        PinFault::NoMemory => no_memory(err),
    }
}
