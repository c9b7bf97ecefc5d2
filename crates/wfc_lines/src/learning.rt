//! The lines of a sample of which nothing is learned.

ghost use Rattle.std.specs.Prelude.{◌≡◌};
ghost use Rattle.wfc_lines.specs.Line.{IsSaid};
ghost use Rattle.wfc_lines.specs.Learn.{text_of_learn};

use crate::line::{put_named, put_numbered};
use crate::outcome::no_memory;
use wfc_outside::{Sink, SinkFault};
use wfc_pattern::LearnFault;

/// Puts why nothing is learned of a sample.
pub fn learn<E: Sink>(err: &mut E, fault: LearnFault, file: &str) -> Result<(), SinkFault>
    ensures told { IsSaid (E.seen err.old) (E.seen err.new) (text_of_learn fault file.now) result }
{
    match fault {
        LearnFault::SampleBelowN => put_named(err, "learn SampleBelowN", file),
        LearnFault::TooManyPatterns { count } => put_numbered(
            err,
            "learn TooManyPatterns count=",
            count,
            file,
        ),
        LearnFault::NoMemory => no_memory(err),
    }
}
