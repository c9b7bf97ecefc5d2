//! The lines of a document whose stacks are at fault.

ghost use Rattle.std.specs.Prelude.{◌≡◌};
ghost use Rattle.wfc_lines.specs.Line.{IsSaid};
ghost use Rattle.wfc_lines.specs.Stacks.{end_text, name_of_end, text_of_stacks};

use crate::line::{put_named, put_numbered};
use crate::outcome::no_memory;
use crate::tile_sets::keyed_at;
use wfc_box::{StackFault, StackKey};
use wfc_outside::{Sink, SinkFault};

/// Puts what is wrong with the stacks of a tile set's document.
pub fn stack<E: Sink>(err: &mut E, fault: StackFault, file: &str) -> Result<(), SinkFault>
    ensures told { IsSaid (E.seen err.old) (E.seen err.new) (text_of_stacks fault file.now) result }
{
    match fault {
        StackFault::NotArray => put_named(err, "stack NotArray", file),
        StackFault::NotTable { stack } => put_numbered(err, "stack NotTable stack=", stack, file),
        StackFault::MissingKey { stack, key } => end(err, "stack MissingKey", stack, key, file),
        StackFault::NotText { stack, key } => end(err, "stack NotText", stack, key, file),
        StackFault::UnknownTile { stack } => put_numbered(
            err,
            "stack UnknownTile stack=",
            stack,
            file,
        ),
        StackFault::BadTurn { stack } => put_numbered(err, "stack BadTurn stack=", stack, file),
        StackFault::NoMemory => no_memory(err),
    }
}

/// Puts the line of a text that speaks of an end of a stack.
fn end<E: Sink>(
    err: &mut E,
    text: &str,
    stack: u32,
    key: StackKey,
    file: &str,
) -> Result<(), SinkFault>
    ensures told { IsSaid (E.seen err.old) (E.seen err.new)
        (end_text text.now stack key file.now) result }
{
    keyed_at(err, text, " stack=", stack, end_name(key), file)
}

/// The name of an end in a document.
fn end_name(key: StackKey) -> &'static str
    ensures value { result.now ≡ name_of_end key }
{
    match key {
        StackKey::Lower => "lower",
        StackKey::Upper => "upper",
    }
}
