//! The line of a race that is too large.

ghost use Rattle.std.specs.Prelude.{◌≡◌};
ghost use Rattle.wfc_lines.specs.Line.{IsSaid};
ghost use Rattle.wfc_lines.specs.Race.{text_of_race};

use crate::line::count;
use wfc_outside::{Sink, SinkFault};

/// Puts that a race is too large: the product of its cells, values and seeds is above the limit.
pub fn race<E: Sink>(err: &mut E, product: u64) -> Result<(), SinkFault>
    ensures told { IsSaid (E.seen err.old) (E.seen err.new) (text_of_race product) result }
{
    count(err, "race TooLarge product=", product)
}
