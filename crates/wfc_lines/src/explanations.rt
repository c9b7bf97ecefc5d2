//! The line of a pins file with too many lines to explain.

ghost use Rattle.std.specs.Prelude.{◌≡◌};
ghost use Rattle.wfc_lines.specs.Explain.{text_of_many_pins};
ghost use Rattle.wfc_lines.specs.Line.{IsSaid};

use crate::line::count_line;
use wfc_outside::{Sink, SinkFault};

/// Puts that a pins file has too many lines of pins and bans to explain, and how many.
pub fn many_pins<E: Sink>(err: &mut E, count: u64, file: &str) -> Result<(), SinkFault>
    ensures told { IsSaid (E.seen err.old) (E.seen err.new)
        (text_of_many_pins count file.now) result }
{
    count_line(err, "explain TooManyPins count=", count, file)
}
