//! Journals that write the lines they are told into a sink.

ghost use Rattle.std.specs.Prelude.{◌≡◌, ◌≤◌, None, true, false, IfOk, OnOk, OnErr};
ghost use Rattle.wfc_proof.specs.ProofText.{head_1_for, head_2_for};
ghost use Rattle.wfc_proof.specs.Journal.{IsWhole, counted_as, after_line, IsRefused};
ghost use Rattle.wfc_proof.specs.Spans.{AreJoined, as_span, ending, is_kept, join_with, waiting_lines};
ghost use Rattle.wfc_proof.specs.Telling.{IsAt, IsBare, begun_journal, new_journal, refused_lines};
ghost use Rattle.wfc_proof.specs.declared.heads.Format.TheVariants.{One, Two};

use crate::heads::{write_header, write_header_2};
use crate::spans::{as_span, join_with, put_apart};
use crate::writing::put_counted;
use crate::{Journal, JournalFault, Line, Shape};
use wfc_outside::{Sink, SinkFault};
use wfc_problem::Problem;

/// A journal that writes a refutation of format 1 into a sink. It keeps the line that was refused and no other, and takes
/// no memory.
#[derive(Drop)]
pub struct ProofJournal<'s, S: Sink> {
    sink: &'s mut S,
    refused: Option<Line>,
    ghost at: { IsAt One (S.seen sink.now).told (refused_lines refused) },
}

impl<'s, S: Sink> ProofJournal<'s, S> {
    ghost use Rattle.wfc_proof.specs.Over.{told_by};

    /// Writes the head, and tells no line yet. After `Failed` the sink has taken a front of the head, and has counted a
    /// fault: no clause can say it, since the sink is lent to what is answered. `write_header` and `behind_head` say all.
    pub fn begin(sink: &'s mut S, problem: &Problem) -> Result<ProofJournal<'s, S>, JournalFault>
        ensures begun { IfOk result (λ journal. told_by S.Sink journal ≡ begun_journal
            sink.entry.ghost_name (S.seen sink.old) (head_1_for problem.now)) }
    {
        match write_header(sink, problem.cells(), problem.values()) {
            Ok(()) => Ok(ProofJournal::behind_head(sink)),
            Err(SinkFault::Failed) => Err(JournalFault::Failed),
        }
    }

    /// A journal over a sink that has taken a head. It writes nothing yet.
    pub fn behind_head(sink: &'s mut S) -> ProofJournal<'s, S>
        requires bare { IsBare One (S.seen sink.old).told }
        ensures begun { told_by S.Sink result
            ≡ new_journal sink.entry.ghost_name (S.seen sink.old) }
    {
        ProofJournal {
            sink,
            refused: None,
        }
    }
}

impl<'s, S: Sink> Journal for ProofJournal<'s, S> {
    ghost use Rattle.wfc_proof.specs.Telling.{journal_of};

    ghost seen = { λ j. journal_of j.sink.ghost_name (S.seen j.sink.now) j.refused };

    fn line(&mut self, line: Line) -> Result<(), JournalFault> {
        match put_counted(self.sink, line) {
            Ok(()) => Ok(()),
            Err(left) => {
                self.refused = Some(left);
                Err(JournalFault::Failed)
            }
        }
    }
}

/// A journal that writes a refutation of format 2 into a sink. Removals of one cell and direction whose values follow one
/// another are joined into a span as they are told. It keeps the span that may still grow and the line that was refused,
/// and takes no memory. Behind a line that is no removal, nothing is kept back.
#[derive(Drop)]
pub struct SpanJournal<'s, S: Sink> {
    sink: &'s mut S,
    kept: Option<Line>,
    refused: Option<Line>,
    ghost at: { IsAt Two (S.seen sink.now).told (waiting_lines kept refused) },
    ghost joined: { AreJoined (ending (S.seen sink.now).told) kept refused },
    ghost spans: { is_kept kept ≡ true },
}

impl<'s, S: Sink> SpanJournal<'s, S> {
    ghost use Rattle.wfc_proof.specs.Over.{spans_told_by};

    /// Writes the head, and tells no line yet. After `Failed` the sink has taken a front of the head, and has counted a
    /// fault: no clause can say it, since the sink is lent to what is answered. `write_header_2` and `behind_head` say all.
    pub fn begin(
        sink: &'s mut S,
        problem: &Problem,
        shape: &Shape,
    ) -> Result<SpanJournal<'s, S>, JournalFault>
        requires limit { shape.now.n ≤ 6 }
        ensures begun { IfOk result (λ journal. spans_told_by S.Sink journal ≡ begun_journal
            sink.entry.ghost_name (S.seen sink.old) (head_2_for problem.now shape.now)) }
    {
        match write_header_2(sink, shape, problem.cells(), problem.values()) {
            Ok(()) => Ok(SpanJournal::behind_head(sink)),
            Err(SinkFault::Failed) => Err(JournalFault::Failed),
        }
    }

    /// A journal over a sink that has taken a head. It writes nothing yet.
    pub fn behind_head(sink: &'s mut S) -> SpanJournal<'s, S>
        requires bare { IsBare Two (S.seen sink.old).told }
        ensures begun { spans_told_by S.Sink result
            ≡ new_journal sink.entry.ghost_name (S.seen sink.old) }
    {
        SpanJournal {
            sink,
            kept: None,
            refused: None,
        }
    }
}

impl<'s, S: Sink> Journal for SpanJournal<'s, S> {
    ghost use Rattle.wfc_proof.specs.Spans.{spans_of};

    ghost seen = { λ j. spans_of j.sink.ghost_name (S.seen j.sink.now) j.kept j.refused };

    fn line(&mut self, line: Line) -> Result<(), JournalFault> {
        let told = as_span(line);
        if let Some(span) = join_with(self.kept, told) {
            self.kept = Some(span);
            return Ok(());
        }
        match put_apart(self.sink, self.kept, told) {
            Ok(kept) => {
                self.kept = kept;
                Ok(())
            }
            Err(cut) => {
                self.kept = cut.kept;
                self.refused = Some(told);
                Err(JournalFault::Failed)
            }
        }
    }
}
