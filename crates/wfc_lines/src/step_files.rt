//! The lines of a steps file.

ghost use Rattle.std.specs.Prelude.{◌≡◌};
ghost use Rattle.wfc_lines.specs.Line.{IsSaid};
ghost use Rattle.wfc_lines.specs.Steps.{text_of_range, text_of_steps};

use crate::line::put_numbered;
use crate::outcome::no_memory;
use wfc_outside::{Sink, SinkFault};
use wfc_pins::{RangeFault, StepFault};

/// Puts why a text is no steps file.
pub fn steps<E: Sink>(err: &mut E, fault: StepFault, file: &str) -> Result<(), SinkFault>
    ensures told { IsSaid (E.seen err.old) (E.seen err.new) (text_of_steps fault file.now) result }
{
    match fault {
        StepFault::BadLine { line } => put_numbered(err, "steps BadLine line=", line, file),
        StepFault::NothingToUndo { line } => put_numbered(
            err,
            "steps NothingToUndo line=",
            line,
            file,
        ),
        StepFault::NoMemory => no_memory(err),
    }
}

/// Puts which step isn't in the problem.
pub fn range<E: Sink>(err: &mut E, fault: RangeFault, file: &str) -> Result<(), SinkFault>
    ensures told { IsSaid (E.seen err.old) (E.seen err.new) (text_of_range fault file.now) result }
{
    match fault {
        RangeFault::OutOfRange { line } => put_numbered(err, "steps OutOfRange line=", line, file),
    }
}
