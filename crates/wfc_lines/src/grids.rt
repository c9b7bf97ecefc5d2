//! The lines of a text that is no grid.

ghost use Rattle.std.specs.Prelude.{◌≡◌};
ghost use Rattle.wfc_lines.specs.Line.{IsSaid};
ghost use Rattle.wfc_lines.specs.Grid.{text_of_grid};

use crate::line::{put_named, put_numbered, twice_numbered};
use crate::outcome::no_memory;
use wfc_grid::GridFault;
use wfc_outside::{Sink, SinkFault};

/// Puts why a text is no grid.
pub fn grid<E: Sink>(err: &mut E, fault: GridFault, file: &str) -> Result<(), SinkFault>
    ensures told { IsSaid (E.seen err.old) (E.seen err.new) (text_of_grid fault file.now) result }
{
    match fault {
        GridFault::Empty => put_named(err, "grid Empty", file),
        GridFault::Ragged { line } => put_numbered(err, "grid Ragged line=", line, file),
        GridFault::BadByte { line, column } => twice_numbered(
            err,
            "grid BadByte line=",
            line,
            " column=",
            column,
            file,
        ),
        GridFault::TooLarge => put_named(err, "grid TooLarge", file),
        GridFault::NoMemory => no_memory(err),
    }
}
