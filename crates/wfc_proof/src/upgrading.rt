//! Refutations of either format, written in format 2.

ghost use Rattle.std.specs.Prelude.{◌≡◌, ◌≤◌, ◌<◌, ℕ, List, length, IfOk, OnErr, true};
ghost use Rattle.wfc_outside.specs.Sink.{Puts};
ghost use Rattle.wfc_proof.specs.Journal.{IsWhole};
ghost use Rattle.wfc_proof.specs.ProofText.{IsProofText};
ghost use Rattle.wfc_proof.specs.Spans.{counted_lines, in_spans, is_kept, line_if_any};
ghost use Rattle.wfc_proof.specs.Telling.{PutsOrCuts, line_in, text_of};
ghost use Rattle.wfc_proof.specs.Upgrade.{HasUpgradedProofs, TakesFront, TakesLine, behind_head, behind_line, format_at, line_at};
ghost use Rattle.wfc_proof.specs.Upgrade.{lines_in, lines_behind_head, text_behind_head, upgraded_text};

use crate::heads::{read_format, write_header_2};
use crate::spans::{as_span, join_with, put_apart};
use crate::text::{read_line, read_line_2};
use crate::writing::write_line;
use crate::{Format, Line, LineFault, Shape};
use memchr::memchr;
use wfc_outside::{Sink, SinkFault};
use wfc_problem::Problem;

/// Puts the proof of a text in format 2, its removals joined into spans; the spans of a text in format 2 are joined again.
/// After `Failed` the sink has taken a front of it. It takes no memory.
pub fn upgrade<S: Sink>(
    bytes: &[u8],
    problem: &Problem,
    shape: &Shape,
    sink: &mut S,
) -> Result<(), SinkFault>
    requires proof { IsProofText problem.now shape.now bytes.now }
    requires limit { shape.now.n ≤ 6 }
    ensures put { Puts (S.seen sink.old) (S.seen sink.new)
        (upgraded_text problem.now shape.now bytes.now) result }
    ensures same_proof { HasUpgradedProofs problem.now shape.now bytes.now }
{
    upgrade_to(bytes, problem, *shape, sink)
}

/// Puts the proof of a text in format 2, with this shape in its head.
fn upgrade_to<S: Sink>(
    bytes: &[u8],
    problem: &Problem,
    shape: Shape,
    sink: &mut S,
) -> Result<(), SinkFault>
    requires proof { IsProofText problem.now shape bytes.now }
    requires limit { shape.n ≤ 6 }
    ensures put { Puts (S.seen sink.old) (S.seen sink.new)
        (upgraded_text problem.now shape bytes.now) result }
    ensures same_proof { HasUpgradedProofs problem.now shape bytes.now }
{
    // The proof knows how large the fields are where they are read.
    let _limits = (shape.width, shape.height, shape.depth, shape.symmetry);
    match write_header_2(sink, &shape, problem.cells(), problem.values()) {
        Ok(()) => upgrade_proof(bytes, sink),
        Err(fault) => Err(fault),
    }
}

/// Puts the lines of a text behind its head.
fn upgrade_proof<S: Sink>(bytes: &[u8], sink: &mut S) -> Result<(), SinkFault>
    requires lines { text_of (lines_behind_head bytes.now) ≡ text_behind_head bytes.now }
    ensures put { Puts (S.seen sink.old) (S.seen sink.new)
        (text_of (in_spans (counted_lines (lines_behind_head bytes.now)))) result }
{
    let format = format_at(bytes);
    upgrade_lines(behind_head(format, bytes), format, sink)
}

/// The format that the first line of a text names.
fn format_at(bytes: &[u8]) -> Format
    ensures value { result ≡ format_at bytes.now }
{
    let (line, _) = first_line(bytes);
    match read_format(line) {
        Ok(format) => format,
        Err(_) => Format::One,
    }
}

/// What stands behind the head of a text.
fn behind_head(format: Format, bytes: &[u8]) -> &[u8]
    ensures value { result.now ≡ behind_head format bytes.now }
{
    let (_, numbers) = first_line(bytes);
    let (_, behind) = first_line(numbers);
    match format {
        Format::One => behind,
        Format::Two => {
            let (_, lines) = first_line(behind);
            lines
        }
    }
}

/// Puts lines, their removals joined into spans.
fn upgrade_lines<S: Sink>(bytes: &[u8], format: Format, sink: &mut S) -> Result<(), SinkFault>
    requires lines { text_of (lines_in format bytes.now) ≡ bytes.now }
    ensures put { Puts (S.seen sink.old) (S.seen sink.new)
        (text_of (in_spans (counted_lines (lines_in format bytes.now)))) result }
{
    let mut rest = bytes;
    let mut kept = None;
    'lines: while !rest.is_empty() {
        let (text, behind) = first_line(rest);
        let Ok(line) = line_in(format, text) else {
            unreachable!()
        };
        match take_line(sink, kept, line) {
            Ok(after) => kept = after,
            Err(fault) => return Err(fault),
        }
        rest = behind;
    }
    put_kept(sink, kept)
}

/// The first line of a text, without its end, and what stands behind it.
fn first_line(text: &[u8]) -> (&[u8], &[u8])
    ensures line { result.0.now ≡ line_at text.now }
    ensures behind { result.1.now ≡ behind_line text.now }
{
    match memchr(b'\n', text) {
        Some(at) => (&text[..at], &text[at + 1..]),
        None => (text, &[]),
    }
}

/// The line of the format that bytes spell.
fn line_in(format: Format, bytes: &[u8]) -> Result<Line, LineFault>
    ensures exact { result ≡ line_in format bytes.now }
{
    match format {
        Format::One => read_line(bytes),
        Format::Two => read_line_2(bytes),
    }
}

/// Takes a line: puts what can't grow of it and the kept span, and answers what may.
fn take_line<S: Sink>(
    sink: &mut S,
    kept: Option<Line>,
    line: Line,
) -> Result<Option<Line>, SinkFault>
    requires whole { IsWhole line }
    requires kept { is_kept kept ≡ true }
    ensures ok { IfOk result (TakesLine (S.seen sink.old) (S.seen sink.new) kept line) }
    ensures failed { OnErr result (TakesFront (S.seen sink.old) (S.seen sink.new) kept line) }
{
    let told = as_span(line);
    if let Some(span) = join_with(kept, told) {
        return Ok(Some(span));
    }
    match put_apart(sink, kept, told) {
        Ok(after) => Ok(after),
        Err(_) => Err(SinkFault::Failed),
    }
}

/// Puts the kept span, if there is one.
fn put_kept<S: Sink>(sink: &mut S, kept: Option<Line>) -> Result<(), SinkFault>
    requires kept { is_kept kept ≡ true }
    ensures put { PutsOrCuts (S.seen sink.old) (S.seen sink.new)
        (text_of (line_if_any kept)) result }
{
    match kept {
        Some(span) => write_line(sink, span),
        None => Ok(()),
    }
}
