//! The lines of a file that was not read.

ghost use Rattle.std.specs.Prelude.{◌≡◌};
ghost use Rattle.wfc_lines.specs.Line.{IsSaid};
ghost use Rattle.wfc_lines.specs.Reading.{text_of_reading};

use crate::line::put_named;
use crate::outcome::no_memory;
use wfc_outside::{ReadFault, Sink, SinkFault};

/// Puts why a file was not read.
pub fn unread_file<E: Sink>(err: &mut E, fault: ReadFault, file: &str) -> Result<(), SinkFault>
    ensures told { IsSaid (E.seen err.old) (E.seen err.new)
        (text_of_reading fault file.now) result }
{
    match fault {
        ReadFault::Missing => put_named(err, "device Missing", file),
        ReadFault::Failed => put_named(err, "device Failed", file),
        ReadFault::TooLong => put_named(err, "file TooLong", file),
        ReadFault::NoMemory => no_memory(err),
    }
}
