//! The turns of a search, which tell nobody.

ghost use Rattle.std.specs.Prelude.{◌≡◌, ◌≢◌, ◌<◌, ◌+◌, ◌^◌, length, true, None, Some, slice_get};
ghost use Rattle.wfc_choose.specs.Pick.{picked_cell};
ghost use Rattle.wfc_log.specs.declared.Verdict.TheVariants.{Alive};
ghost use Rattle.wfc_problem.specs.Rounds.{greatest};
ghost use Rattle.wfc_problem.specs.Sizes.{is_dead};
ghost use Rattle.wfc_search.specs.Last.{choice_in};
ghost use Rattle.wfc_search.specs.Run.{last_choice};
ghost use Rattle.wfc_search.specs.Search.{IsWordless, IsReady, IsOnward};
ghost use Rattle.wfc_search.specs.Shown.{IsTurnBetween};

use crate::last::{LastChoice, last_choice_of};
use crate::{Outcome, Search, Turn, follow};
use rand_core::Rng;
use std::sync::ledger::Ledger;
use wfc_choose::draw;
use wfc_domains::{Steps, Store, Verdict};
use wfc_problem::Literal;

impl<'p, S: Store> Search<'p, S> {
    ghost use Rattle.wfc_search.specs.Shown.{view_of_search};

    /// Takes the last choice back, and rules its value out instead.
    fn retract<L: Ledger>(&mut self, last: LastChoice, steps: &mut Steps<L>) -> Turn
        requires ready { IsReady (view_of_search S.view self.old (told self.old.chooser)) }
        requires dead { is_dead self.old.problem.now
            (greatest self.old.problem.now (S.view self.old.store).standing) ≡ true }
        requires last { choice_in (S.view self.old.store).standing (Some last) ≡ last_choice
            (S.view self.old.store).standing }
        requires within { last.at < length (S.view self.old.store).standing }
        requires stands { slice_get (S.view self.old.store).standing last.at ≡ Some
            (Literal.Is last.value last.cell) }
        requires left { self.old.course.retractions ≢ self.old.course.budget }
        requires few { self.old.course.budget < 2 ^ 32 }
        requires going { self.old.course.outcome ≡ None }
        ensures turn { IsWordless (view_of_search S.view self.old (told self.old.chooser)) result
            (view_of_search S.view self.new (told self.new.chooser)) }
        ensures ready { IsReady (view_of_search S.view self.new (told self.new.chooser)) }
        ensures kept { IsOnward (view_of_search S.view self.old (told self.old.chooser))
            (view_of_search S.view self.new (told self.new.chooser)) }
    {
        follow::cut_back(&mut self.store, &mut self.chooser, last.at, steps);
        let ruled_out = Literal::Not {
            cell: last.cell,
            value: last.value,
        };
        follow::put_on(&mut self.store, &mut self.chooser, ruled_out, steps);
        self.course.retractions += 1;
        Turn::Retracted {
            cell: last.cell,
            value: last.value,
        }
    }

    /// A turn where some cell is empty.
    fn dead_turn<L: Ledger>(&mut self, steps: &mut Steps<L>) -> Turn
        requires ready { IsReady (view_of_search S.view self.old (told self.old.chooser)) }
        requires dead { is_dead self.old.problem.now
            (greatest self.old.problem.now (S.view self.old.store).standing) ≡ true }
        requires going { self.old.course.outcome ≡ None }
        ensures turn { IsWordless (view_of_search S.view self.old (told self.old.chooser)) result
            (view_of_search S.view self.new (told self.new.chooser)) }
        ensures ready { IsReady (view_of_search S.view self.new (told self.new.chooser)) }
        ensures kept { IsOnward (view_of_search S.view self.old (told self.old.chooser))
            (view_of_search S.view self.new (told self.new.chooser)) }
    {
        match last_choice_of(self.store.standing()) {
            None => Turn::Ended(Outcome::NoMap),
            Some(last) => {
                if self.course.retractions == self.course.budget {
                    Turn::Ended(Outcome::Spent)
                } else {
                    self.retract(last, steps)
                }
            }
        }
    }

    /// Gives a cell the value that the next word draws.
    fn choose<R: Rng, L: Ledger>(&mut self, cell: u32, words: &mut R, steps: &mut Steps<L>) -> Turn
        requires ready { IsReady (view_of_search S.view self.old (told self.old.chooser)) }
        requires alive { (S.view self.old.store).verdict ≡ Alive }
        requires picked { Some cell ≡ picked_cell (told self.old.chooser).rule
            (told self.old.chooser).sizes }
        requires going { self.old.course.outcome ≡ None }
        ensures turn { IsTurnBetween S.view self.old (told self.old.chooser) (R.stream words.old)
            result self.new (told self.new.chooser) (R.stream words.new) }
        ensures ready { IsReady (view_of_search S.view self.new (told self.new.chooser)) }
        ensures kept { IsOnward (view_of_search S.view self.old (told self.old.chooser))
            (view_of_search S.view self.new (told self.new.chooser)) }
    {
        let word = words.next_u64();
        let value = draw(self.problem, self.store.domains(), cell, word);
        let literal = Literal::Is { cell, value };
        follow::put_on(&mut self.store, &mut self.chooser, literal, steps);
        Turn::Chose { cell, value }
    }

    /// A turn where no cell is empty.
    fn alive_turn<R: Rng, L: Ledger>(&mut self, words: &mut R, steps: &mut Steps<L>) -> Turn
        requires ready { IsReady (view_of_search S.view self.old (told self.old.chooser)) }
        requires alive { (S.view self.old.store).verdict ≡ Alive }
        requires going { self.old.course.outcome ≡ None }
        ensures turn { IsTurnBetween S.view self.old (told self.old.chooser) (R.stream words.old)
            result self.new (told self.new.chooser) (R.stream words.new) }
        ensures ready { IsReady (view_of_search S.view self.new (told self.new.chooser)) }
        ensures kept { IsOnward (view_of_search S.view self.old (told self.old.chooser))
            (view_of_search S.view self.new (told self.new.chooser)) }
    {
        match follow::pick(&self.chooser) {
            None => Turn::Ended(Outcome::Map),
            Some(cell) => self.choose(cell, words, steps),
        }
    }

    /// Makes a turn, and tells nobody.
    pub(crate) fn turn<R: Rng, L: Ledger>(&mut self, words: &mut R, steps: &mut Steps<L>) -> Turn
        requires ready { IsReady (view_of_search S.view self.old (told self.old.chooser)) }
        requires going { self.old.course.outcome ≡ None }
        ensures turn { IsTurnBetween S.view self.old (told self.old.chooser) (R.stream words.old)
            result self.new (told self.new.chooser) (R.stream words.new) }
        ensures ready { IsReady (view_of_search S.view self.new (told self.new.chooser)) }
        ensures kept { IsOnward (view_of_search S.view self.old (told self.old.chooser))
            (view_of_search S.view self.new (told self.new.chooser)) }
    {
        match self.store.verdict() {
            Verdict::Dead { .. } => self.dead_turn(steps),
            Verdict::Alive => self.alive_turn(words, steps),
        }
    }
}
