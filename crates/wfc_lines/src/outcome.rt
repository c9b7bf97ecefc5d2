//! The lines of a command that ends without a fault of its input.

ghost use Rattle.std.specs.Prelude.{◌≡◌};
ghost use Rattle.wfc_lines.specs.Line.{IsSaid};
ghost use Rattle.wfc_lines.specs.Outcome.{map_exists_text, no_domains_text, no_map_text, no_memory_text, out_failed_text, text_of_budget};

use crate::line::{count, plain};
use wfc_outside::{Sink, SinkFault};

/// Puts that there is no map.
pub fn no_map<E: Sink>(err: &mut E) -> Result<(), SinkFault>
    ensures told { IsSaid (E.seen err.old) (E.seen err.new) no_map_text result }
{
    plain(err, "no map")
}

/// Puts that there is a map.
pub fn map_exists<E: Sink>(err: &mut E) -> Result<(), SinkFault>
    ensures told { IsSaid (E.seen err.old) (E.seen err.new) map_exists_text result }
{
    plain(err, "map exists")
}

/// Puts that no domains are consistent.
pub fn no_domains<E: Sink>(err: &mut E) -> Result<(), SinkFault>
    ensures told { IsSaid (E.seen err.old) (E.seen err.new) no_domains_text result }
{
    plain(err, "no consistent domains")
}

/// Puts that this budget is spent.
pub fn budget_spent<E: Sink>(err: &mut E, budget: u32) -> Result<(), SinkFault>
    ensures told { IsSaid (E.seen err.old) (E.seen err.new) (text_of_budget budget) result }
{
    count(err, "budget spent budget=", u64::from(budget))
}

/// Puts that the answer could not be written.
pub fn out_failed<E: Sink>(err: &mut E) -> Result<(), SinkFault>
    ensures told { IsSaid (E.seen err.old) (E.seen err.new) out_failed_text result }
{
    plain(err, "device Failed out")
}

/// Puts that memory ran out.
pub fn no_memory<E: Sink>(err: &mut E) -> Result<(), SinkFault>
    ensures told { IsSaid (E.seen err.old) (E.seen err.new) no_memory_text result }
{
    plain(err, "out of memory")
}
