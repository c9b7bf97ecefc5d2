//! The lines that a search tells its journal.

ghost use Rattle.std.specs.Prelude.{◌≡◌, ◌≤◌, false, OnOk, OnErr};
ghost use Rattle.wfc_domains.specs.Store.{StoreView, added_of};
ghost use Rattle.wfc_proof.specs.Journal.{after_lines, IsCutOff};
ghost use Rattle.wfc_search.specs.Telling.{lines_by, removal_lines, level_lines, opening_lines, turn_lines, end_line};

use crate::{Outcome, Turn};
use wfc_domains::{Cause, Loss, Removal, Store, Verdict};
use wfc_proof::{Journal, JournalFault, Line};

/// Tells what a removal took away, if it was for want of support.
fn tell_loss<J: Journal>(loss: Loss, journal: &mut J) -> Result<(), JournalFault>
    requires going { (J.seen journal.old).failed ≡ false }
    ensures ok { OnOk result (J.seen journal.new ≡ after_lines (J.seen journal.old)
        (lines_by loss.cell loss.value loss.cause)) }
    ensures failed { OnErr result (IsCutOff (J.seen journal.old) (J.seen journal.new)
        (lines_by loss.cell loss.value loss.cause)) }
{
    match loss.cause {
        Cause::Assumed => Ok(()),
        Cause::Arc(dir) => journal.line(Line::Remove {
            cell: loss.cell,
            value: loss.value,
            dir,
        }),
    }
}

/// Tells the removals for want of support, in their order.
fn tell_removals<J: Journal>(removals: &[Removal], journal: &mut J) -> Result<(), JournalFault>
    requires going { (J.seen journal.old).failed ≡ false }
    ensures ok { OnOk result (J.seen journal.new ≡ after_lines (J.seen journal.old)
        (removal_lines removals.now)) }
    ensures failed { OnErr result (IsCutOff (J.seen journal.old) (J.seen journal.new)
        (removal_lines removals.now)) }
{
    for removal in removals {
        tell_loss(removal.loss(), journal)?;
    }
    Ok(())
}

/// The same of a store's last level, where its removals are not in a list.
fn tell_added<S: Store, J: Journal>(store: &S, journal: &mut J) -> Result<(), JournalFault>
    requires going { (J.seen journal.old).failed ≡ false }
    ensures ok { OnOk result (J.seen journal.new ≡ after_lines (J.seen journal.old)
        (removal_lines (added_of (S.view store.now)))) }
    ensures failed { OnErr result (IsCutOff (J.seen journal.old) (J.seen journal.new)
        (removal_lines (added_of (S.view store.now)))) }
{
    for index in 0..store.added_len() {
        tell_loss(store.added_at(index), journal)?;
    }
    Ok(())
}

/// Tells the last level of a store: its removals, and the cell that is empty, if there is one.
fn tell_level<S: Store, J: Journal>(store: &S, journal: &mut J) -> Result<(), JournalFault>
    requires going { (J.seen journal.old).failed ≡ false }
    ensures ok { OnOk result (J.seen journal.new ≡ after_lines (J.seen journal.old)
        (level_lines (S.view store.now))) }
    ensures failed { OnErr result (IsCutOff (J.seen journal.old) (J.seen journal.new)
        (level_lines (S.view store.now))) }
{
    match store.added() {
        Some(added) => tell_removals(added, journal)?,
        None => tell_added(store, journal)?,
    }
    match store.verdict() {
        Verdict::Alive => Ok(()),
        Verdict::Dead { cell } => journal.line(Line::Empty { cell }),
    }
}

/// Before the first turn, tells the opening of a store.
pub fn tell_opening<S: Store, J: Journal>(store: &S, journal: &mut J) -> Result<(), JournalFault>
    requires going { (J.seen journal.old).failed ≡ false }
    ensures ok { OnOk result (J.seen journal.new ≡ after_lines (J.seen journal.old)
        (opening_lines (S.view store.now))) }
    ensures failed { OnErr result (IsCutOff (J.seen journal.old) (J.seen journal.new)
        (opening_lines (S.view store.now))) }
{
    if store.standing().is_empty() {
        tell_level(store, journal)
    } else {
        Ok(())
    }
}

/// The line of an end.
fn end_line(outcome: Outcome) -> Line
    ensures value { result ≡ end_line outcome }
{
    match outcome {
        Outcome::Map => Line::Found,
        Outcome::NoMap => Line::End,
        Outcome::Spent => Line::Out,
    }
}

/// Tells a turn that left a store.
pub fn tell_turn<S: Store, J: Journal>(
    turn: Turn,
    store: &S,
    journal: &mut J,
) -> Result<(), JournalFault>
    requires going { (J.seen journal.old).failed ≡ false }
    ensures ok { OnOk result (J.seen journal.new ≡ after_lines (J.seen journal.old)
        (turn_lines turn (S.view store.now))) }
    ensures failed { OnErr result (IsCutOff (J.seen journal.old) (J.seen journal.new)
        (turn_lines turn (S.view store.now))) }
{
    match turn {
        Turn::Chose { cell, value } => {
            journal.line(Line::Try { cell, value })?;
            tell_level(store, journal)
        }
        Turn::Retracted { .. } => tell_level(store, journal),
        Turn::Ended(outcome) => journal.line(end_line(outcome)),
    }
}
