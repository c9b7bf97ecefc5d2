//! The lines of a text that is no picture of colours.

ghost use Rattle.std.specs.Prelude.{◌≡◌};
ghost use Rattle.wfc_lines.specs.Line.{IsSaid};
ghost use Rattle.wfc_lines.specs.Ppm.{text_of_ppm};

use crate::line::{put_named, put_numbered, twice_numbered};
use crate::outcome::no_memory;
use wfc_outside::{Sink, SinkFault};
use wfc_ppm::PpmFault;

/// Puts why a text is no picture of colours.
pub fn ppm<E: Sink>(err: &mut E, fault: PpmFault, file: &str) -> Result<(), SinkFault>
    ensures told { IsSaid (E.seen err.old) (E.seen err.new) (text_of_ppm fault file.now) result }
{
    match fault {
        PpmFault::Magic => put_named(err, "ppm Magic", file),
        PpmFault::Header { at } => put_numbered(err, "ppm Header at=", at, file),
        PpmFault::Maxval { value } => put_numbered(err, "ppm Maxval value=", value, file),
        PpmFault::TooLarge => put_named(err, "ppm TooLarge", file),
        PpmFault::Truncated { wanted, found } => twice_numbered(
            err,
            "ppm Truncated wanted=",
            wanted,
            " found=",
            found,
            file,
        ),
        PpmFault::SampleAboveMaxval { at } => put_numbered(
            err,
            "ppm SampleAboveMaxval at=",
            at,
            file,
        ),
        PpmFault::BadSample { at } => put_numbered(err, "ppm BadSample at=", at, file),
        PpmFault::Trailing { at } => put_numbered(err, "ppm Trailing at=", at, file),
        PpmFault::NoMemory => no_memory(err),
    }
}
