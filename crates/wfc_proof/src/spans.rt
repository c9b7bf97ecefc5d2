//! Removals joined into spans, and what is put of them.

ghost use Rattle.std.specs.Prelude.{◌≡◌, ◌++◌, ◌∷◌, [], IfOk, IfErr, None, Some, true};
ghost use Rattle.wfc_proof.specs.Heads.{with_line_end};
ghost use Rattle.wfc_proof.specs.Journal.{IsWhole, counted_as};
ghost use Rattle.wfc_proof.specs.ProofText.{IsOfFormat};
ghost use Rattle.wfc_proof.specs.Spans.{as_span, join_with, is_kept, is_span, IsCutApart, PutsApart};
ghost use Rattle.wfc_proof.specs.Telling.{PutsOrCuts};
ghost use Rattle.wfc_proof.specs.Text.{line_text};
ghost use Rattle.wfc_proof.specs.declared.heads.Format.TheVariants.{Two};

use crate::Line;
use crate::writing::write_line;
use wfc_outside::{Sink, SinkFault};

/// A removal as a span of one value, and any other line as itself.
pub(crate) fn as_span(line: Line) -> Line
    ensures value { result ≡ as_span line }
    ensures span { as_span result ≡ result }
    ensures whole { IsWhole line → IsWhole result }
    ensures counts { counted_as result ≡ counted_as line }
{
    match line {
        Line::Remove { cell, value, dir } => Line::Span {
            cell,
            first: value,
            last: value,
            dir,
        },
        _ => line,
    }
}

/// A kept span and the line behind it as one span, if they are of one cell and direction and the values of the second
/// follow.
pub(crate) fn join_with(kept: Option<Line>, line: Line) -> Option<Line>
    ensures value { result ≡ join_with kept line }
{
    let Some(
        Line::Span {
            cell,
            first,
            last,
            dir,
        },
    ) = kept
    else {
        return None;
    };
    let Line::Span {
        cell: next_cell,
        first: next_first,
        last: next_last,
        dir: next_dir,
    } = line
    else {
        return None;
    };
    if next_cell == cell && next_dir == dir && u32::from(next_first) == u32::from(last) + 1 {
        Some(Line::Span {
            cell,
            first,
            last: next_last,
            dir,
        })
    } else {
        None
    }
}

/// What is left where a kept span and a line behind it are not both put: the span, where it is the one that was cut off,
/// and no span, where the line was.
#[derive(Clone, Copy, Debug)]
pub(crate) struct CutOff {
    pub(crate) kept: Option<Line>,
}

/// Puts a line of format 2.
fn put_line<S: Sink>(sink: &mut S, line: Line) -> Result<(), SinkFault>
    requires whole { IsWhole line }
    requires spelled { as_span line ≡ line }
    ensures put { PutsOrCuts (S.seen sink.old) (S.seen sink.new) (with_line_end (line_text line))
        result }
    ensures format { IsOfFormat Two line }
{
    match line {
        Line::Remove { cell, value, dir } => write_line(sink, Line::Remove { cell, value, dir }),
        Line::Span {
            cell,
            first,
            last,
            dir,
        } => write_line(
            sink,
            Line::Span {
                cell,
                first,
                last,
                dir,
            },
        ),
        Line::Try { cell, value } => write_line(sink, Line::Try { cell, value }),
        Line::Empty { cell } => write_line(sink, Line::Empty { cell }),
        Line::End => write_line(sink, Line::End),
        Line::Found => write_line(sink, Line::Found),
        Line::Out => write_line(sink, Line::Out),
    }
}

/// Puts a line that no span is kept before, if it can't grow, and answers it if it can.
fn put_settled_part<S: Sink>(sink: &mut S, line: Line) -> Result<Option<Line>, CutOff>
    requires whole { IsWhole line }
    requires spelled { as_span line ≡ line }
    ensures ok { IfOk result (PutsApart (S.seen sink.old) (S.seen sink.new) None line) }
    ensures failed { IfErr result
        (λ cut. IsCutApart (S.seen sink.old) (S.seen sink.new) None line cut.kept) }
{
    if let Line::Span { .. } = line {
        return Ok(Some(line));
    }
    match put_line(sink, line) {
        Ok(()) => Ok(None),
        Err(_) => Err(CutOff { kept: None }),
    }
}

/// Puts a kept span, and a line behind it that is no part of it.
fn put_behind<S: Sink>(sink: &mut S, kept: Line, line: Line) -> Result<Option<Line>, CutOff>
    requires whole { IsWhole line }
    requires spelled { as_span line ≡ line }
    requires kept { is_span kept ≡ true }
    ensures ok { IfOk result (PutsApart (S.seen sink.old) (S.seen sink.new) (Some kept) line) }
    ensures failed { IfErr result
        (λ cut. IsCutApart (S.seen sink.old) (S.seen sink.new) (Some kept) line cut.kept) }
{
    match put_line(sink, kept) {
        Ok(()) => put_settled_part(sink, line),
        Err(_) => Err(CutOff { kept: Some(kept) }),
    }
}

/// Puts the span that is kept, if there is one, and a line behind it that is no part of it; a line that can still grow is
/// answered in place of being put.
pub(crate) fn put_apart<S: Sink>(
    sink: &mut S,
    kept: Option<Line>,
    line: Line,
) -> Result<Option<Line>, CutOff>
    requires whole { IsWhole line }
    requires spelled { as_span line ≡ line }
    requires kept { is_kept kept ≡ true }
    ensures ok { IfOk result (PutsApart (S.seen sink.old) (S.seen sink.new) kept line) }
    ensures failed { IfErr result
        (λ cut. IsCutApart (S.seen sink.old) (S.seen sink.new) kept line cut.kept) }
{
    match kept {
        None => put_settled_part(sink, line),
        Some(span) => put_behind(sink, span, line),
    }
}
