//! The lines of a request without a problem.

ghost use Rattle.std.specs.Prelude.{◌≡◌};
ghost use Rattle.wfc_lines.specs.Line.{IsSaid};
ghost use Rattle.wfc_lines.specs.Build.{text_of_build};

use crate::line::{count, plain, put_numbered};
use crate::outcome::no_memory;
use wfc_outside::{Sink, SinkFault};
use wfc_pins::BuildFault;

/// Puts why a request has no problem; the file is that of the pins.
pub fn build<E: Sink>(err: &mut E, fault: BuildFault, file: &str) -> Result<(), SinkFault>
    ensures told { IsSaid (E.seen err.old) (E.seen err.new) (text_of_build fault file.now) result }
{
    match fault {
        BuildFault::SizeBelowN => plain(err, "build SizeBelowN"),
        BuildFault::PinOutside { line } => put_numbered(err, "build PinOutside line=", line, file),
        BuildFault::UnknownSymbol { line } => put_numbered(
            err,
            "build UnknownSymbol line=",
            line,
            file,
        ),
        BuildFault::TooLarge { product } => count(err, "build TooLarge product=", product),
        BuildFault::NoMemory => no_memory(err),
        BuildFault::PinInHole { line } => put_numbered(err, "build PinInHole line=", line, file),
    }
}
