//! The lines of a map that is grown block by block.

ghost use Rattle.std.specs.Prelude.{◌≡◌};
ghost use Rattle.wfc_lines.specs.Grow.{text_of_many_blocks, text_of_stuck};
ghost use Rattle.wfc_lines.specs.Line.{IsSaid};

use crate::line::{count, put};
use itoa::Buffer;
use wfc_outside::{Sink, SinkFault};

/// Puts that a map has too many blocks, and how many.
pub fn many_blocks<E: Sink>(err: &mut E, blocks: u64) -> Result<(), SinkFault>
    ensures told { IsSaid (E.seen err.old) (E.seen err.new) (text_of_many_blocks blocks) result }
{
    count(err, "grow TooManyBlocks count=", blocks)
}

/// Puts that no map fills the block that begins in this column and row, in pixels.
pub fn stuck<E: Sink>(err: &mut E, x: u32, y: u32) -> Result<(), SinkFault>
    ensures told { IsSaid (E.seen err.old) (E.seen err.new) (text_of_stuck x y) result }
{
    let mut first_buffer = Buffer::new();
    let mut second_buffer = Buffer::new();
    let column = first_buffer.format(x).as_bytes();
    let row = second_buffer.format(y).as_bytes();
    put(
        err,
        &[b"wfc: ", b"grow stuck x=", column, b" y=", row, b"\n"],
    )
}
