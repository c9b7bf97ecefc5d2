//! Lines, written.

ghost use Rattle.std.specs.Prelude.{◌≡◌, ◌≤◌, ◌+◌, ◌∷◌, ◌++◌, [], length};
ghost use Rattle.wfc_proof.specs.Journal.{IsWhole, counted_as};
ghost use Rattle.wfc_proof.specs.ProofText.{AreOfFormat};
ghost use Rattle.wfc_proof.specs.Text.{line_text};
ghost use Rattle.wfc_proof.specs.Heads.{with_line_end};
ghost use Rattle.wfc_proof.specs.Telling.{PutsOrCuts, PutsCounted};
ghost use Rattle.wfc_proof.specs.declared.Line.TheVariants.{Span};
ghost use Rattle.wfc_proof.specs.declared.heads.Format.TheVariants.{One};

use crate::Line;
use crate::gathered::Gathered;
use wfc_outside::{Sink, SinkFault};

/// Puts a line with its end: a `Remove` as format 1 spells it, and a `Span` as format 2 does. After `Failed` the sink has
/// taken a front of it that isn't the whole. It takes no memory.
pub fn write_line<S: Sink>(sink: &mut S, line: Line) -> Result<(), SinkFault>
    requires whole { IsWhole line }
    ensures put { PutsOrCuts (S.seen sink.old) (S.seen sink.new) (with_line_end (line_text line))
        result }
{
    let mut text = Gathered::new();
    gather_line(&mut text, line);
    text.push(b"\n");
    put_bytes(sink, text.as_slice())
}

/// Puts all the bytes into the sink, one piece after another.
fn put_bytes<S: Sink>(sink: &mut S, bytes: &[u8]) -> Result<(), SinkFault>
    ensures put { PutsOrCuts (S.seen sink.old) (S.seen sink.new) bytes.now result }
{
    let mut done = 0;
    while done < bytes.len() {
        done += sink.write(&bytes[done..])?;
    }
    Ok(())
}

/// Gathers the text of a line.
fn gather_line(text: &mut Gathered, line: Line)
    requires none { text.old ≡ [] }
    ensures text { text.new ≡ line_text line }
    ensures short { length text.new ≤ 64 }
{
    match line {
        Line::Remove { cell, value, dir } => {
            text.push(b"r");
            text.push_number(cell);
            text.push_number(u32::from(value));
            text.push_number(u32::from(dir));
        }
        Line::Span {
            cell,
            first,
            last,
            dir,
        } => {
            text.push(b"r");
            text.push_number(cell);
            text.push_number(u32::from(first));
            text.push_number(u32::from(last));
            text.push_number(u32::from(dir));
        }
        Line::Try { cell, value } => {
            text.push(b"t");
            text.push_number(cell);
            text.push_number(u32::from(value));
        }
        Line::Empty { cell } => {
            text.push(b"x");
            text.push_number(cell);
        }
        Line::End => text.push(b"q"),
        Line::Found => text.push(b"s"),
        Line::Out => text.push(b"o"),
    }
}

/// Puts the lines of format 1 that a line counts as. Where one isn't wholly put, the answer is the line that counts as it
/// and those behind it.
pub(crate) fn put_counted<S: Sink>(sink: &mut S, line: Line) -> Result<(), Line>
    requires whole { IsWhole line }
    ensures put { PutsCounted (S.seen sink.old) (S.seen sink.new) line result }
    ensures format { AreOfFormat One (counted_as line) }
{
    match line {
        Line::Remove { cell, value, dir } => put_alone(sink, Line::Remove { cell, value, dir }),
        Line::Span {
            cell,
            first,
            last,
            dir,
        } => put_span(sink, cell, first, last, dir),
        Line::Try { cell, value } => put_alone(sink, Line::Try { cell, value }),
        Line::Empty { cell } => put_alone(sink, Line::Empty { cell }),
        Line::End => put_alone(sink, Line::End),
        Line::Found => put_alone(sink, Line::Found),
        Line::Out => put_alone(sink, Line::Out),
    }
}

/// Puts a line that counts as itself.
fn put_alone<S: Sink>(sink: &mut S, line: Line) -> Result<(), Line>
    requires whole { IsWhole line }
    requires alone { counted_as line ≡ line ∷ [] }
    ensures put { PutsCounted (S.seen sink.old) (S.seen sink.new) line result }
{
    match write_line(sink, line) {
        Ok(()) => Ok(()),
        Err(_) => Err(line),
    }
}

/// Puts the removals of a span.
fn put_span<S: Sink>(sink: &mut S, cell: u32, first: u16, last: u16, dir: u8) -> Result<(), Line>
    requires whole { first ≤ last }
    ensures put { PutsCounted (S.seen sink.old) (S.seen sink.new)
        (Span cell first last dir) result }
    ensures format { AreOfFormat One (counted_as (Span cell first last dir)) }
{
    let mut next = u32::from(first);
    while next <= u32::from(last) {
        let value = next as u16;
        match write_line(sink, Line::Remove { cell, value, dir }) {
            Ok(()) => next += 1,
            Err(_) => {
                return Err(Line::Span {
                    cell,
                    first: value,
                    last,
                    dir,
                });
            }
        }
    }
    Ok(())
}
