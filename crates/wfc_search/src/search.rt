//! A search over a store, with a chooser that is handed in.

ghost use Rattle.std.specs.Prelude.{◌≡◌, ◌≢◌, ◌≤◌, ◌<◌, ◌↔◌, [], false, true, None, Some, slice_index, IfOk, OnOk};
ghost use Rattle.std.specs.Prelude.{IsErr, IsTrue, Ok, OnErr};
ghost use Rattle.std.specs.Option.{ForSome};
ghost use Rattle.wfc_log.specs.Domains.{has, flags_of};
ghost use Rattle.wfc_domains.specs.Store.{IsSound, left_of};
ghost use Rattle.wfc_log.specs.declared.Verdict.TheVariants.{Alive};
ghost use Rattle.wfc_problem.specs.Assignment.{IsLegalAssignment};
ghost use Rattle.wfc_problem.specs.Rounds.{greatest, depth_of};
ghost use Rattle.wfc_problem.specs.Sizes.{sizes_of};
ghost use Rattle.wfc_search.specs.Search.{outcome_after, SaysTrue, IsReady, IsGoing, assignment_of};
ghost use Rattle.wfc_search.specs.Telling.{IsStepTold, StepFails, IsRunTold, RunFails};
ghost use Rattle.wfc_search.specs.Volume.{volume_of};
ghost use Rattle.wfc_search.specs.Shown.{TurnsBetween, EndsBetween};

use crate::course::Course;
use crate::telling::{tell_opening, tell_turn};
use crate::{Outcome, Turn, follow};
use rand_core::Rng;
use std::alloc::{AllocError, Global};
use std::sync::ledger::Ledger;
use wfc_choose::Chooser;
use wfc_domains::{Domains, OpenFault, Steps, Store};
use wfc_problem::{Literal, Problem};
use wfc_proof::{Journal, JournalFault};

/// A bounded search for a legal assignment of a problem.
#[derive(Drop)]
pub struct Search<'p, S: Store> {
    pub(crate) problem: &'p Problem,
    pub(crate) store: S,
    pub(crate) chooser: Box<dyn Chooser>,
    pub(crate) course: Course,
}

/// How many values stand at each cell of a store.
fn sizes_in<S: Store>(alloc: Global, store: &S, cells: u32) -> Result<Vec<u32>, AllocError>
    requires cells { (S.view store.now).problem.cells ≡ cells }
    ensures ok { IfOk result (λ sizes. sizes.items ≡ sizes_of (S.view store.now).problem
        (left_of (S.view store.now))) }
    ensures sound { OnOk result (IsSound (S.view store.now)) }
{
    let domains = store.domains();
    let mut sizes = Vec::with_capacity(alloc, cells as usize)?;
    for cell in 0..cells {
        sizes.push_reserved(domains.size(cell));
    }
    Ok(sizes)
}

impl<'p, S: Store> Search<'p, S> {
    ghost use Rattle.wfc_search.specs.Shown.{view_of_search};

    /// A search that has made no turn. It takes all its memory here; the store and the chooser are dropped where there
    /// isn't enough. The chooser is told the sizes of all cells, which it is told only here.
    pub fn open(
        alloc: Global,
        problem: &'p Problem,
        store: S,
        mut chooser: Box<dyn Chooser>,
        budget: u32,
    ) -> Result<Search<'p, S>, OpenFault>
        requires same_problem { (S.view store).problem ≡ problem.now }
        requires empty { (S.view store).standing ≡ [] }
        requires spare { depth_of problem.now ≤ (S.view store).spare }
        ensures ready { IfOk result (λ made. IsReady (view_of_search S.view made (told
            made.chooser))) }
        ensures going { IfOk result (λ made. IsGoing made.course) }
        ensures problem { IfOk result (λ made. made.problem.now ≡ problem.now) }
        ensures store { IfOk result (λ made. S.view made.store ≡ S.view store) }
        ensures rule { IfOk result (λ made. (told made.chooser).rule ≡ (told chooser).rule) }
        ensures budget { IfOk result (λ made. made.course.budget ≡ budget) }
        ensures retractions { IfOk result (λ made. made.course.retractions ≡ 0) }
    {
        let Ok(sizes) = sizes_in(alloc, &store, problem.cells()) else {
            return Err(OpenFault::NoMemory);
        };
        let Ok(()) = follow::load(&mut chooser, &sizes) else {
            return Err(OpenFault::NoMemory);
        };
        Ok(Search {
            problem,
            store,
            chooser,
            course: Course {
                budget,
                retractions: 0,
                outcome: None,
                broken: false,
            },
        })
    }

    /// Makes one turn of the run, and tells its lines. The first call, which is the one at which no literal stands, tells
    /// the lines of the opening before them. It takes no memory, and it looks at no cell that the turn doesn't change, unless the
    /// turn removes so much that no list is kept of it.
    pub fn step<R: Rng, J: Journal, L: Ledger>(
        &mut self,
        words: &mut R,
        journal: &mut J,
        steps: &mut Steps<L>,
    ) -> Result<Turn, JournalFault>
        requires ready { IsReady (view_of_search S.view self.old (told self.old.chooser)) }
        requires going { IsGoing self.old.course }
        requires journal { (J.seen journal.old).failed ≡ false }

        // It is the turn of the run from the standing literals and the retractions, with the next word where one is drawn.
        ensures turn { TurnsBetween S.view self.old (told self.old.chooser) (R.stream words.old)
            result self.new (told self.new.chooser) (R.stream words.new) }
        ensures outcome { IfOk result (λ turn. self.new.course.outcome ≡ outcome_after turn) }
        ensures undecided { OnErr result (self.new.course.outcome ≡ None) }
        ensures ready { OnOk result (IsReady (view_of_search S.view self.new (told
            self.new.chooser))) }

        ensures told { IfOk result (λ turn. IsStepTold (S.view self.old.store) turn
            (S.view self.new.store) (J.seen journal.old) (J.seen journal.new)) }
        ensures failed { StepFails result (view_of_search S.view self.old (told self.old.chooser))
            (R.stream words.old) (S.view self.new.store) (J.seen journal.old) (J.seen journal.new) }
        ensures broken { IsTrue self.new.course.broken ↔ IsErr result }

        ensures problem { self.new.problem.now ≡ self.old.problem.now }
        ensures rule { (told self.new.chooser).rule ≡ (told self.old.chooser).rule }
        ensures budget { self.new.course.budget ≡ self.old.course.budget }
    {
        if let Err(fault) = tell_opening(&self.store, journal) {
            self.course.broken = true;
            return Err(fault);
        }
        let turn = self.turn(words, steps);
        if let Err(fault) = tell_turn(turn, &self.store, journal) {
            self.course.broken = true;
            return Err(fault);
        }
        self.course.outcome = turn.outcome();
        Ok(turn)
    }

    /// Makes turns up to the end of the run. It takes no memory.
    pub fn run<R: Rng, J: Journal, L: Ledger>(
        &mut self,
        words: &mut R,
        journal: &mut J,
        steps: &mut Steps<L>,
    ) -> Result<Outcome, JournalFault>
        requires ready { IsReady (view_of_search S.view self.old (told self.old.chooser)) }
        requires going { IsGoing self.old.course }
        requires journal { (J.seen journal.old).failed ≡ false }

        // It is the end of the run from the standing literals and the retractions, with the words that the source gives.
        ensures end { EndsBetween S.view self.old (told self.old.chooser) (R.stream words.old)
            result self.new (told self.new.chooser) (R.stream words.new) }
        ensures outcome { IfOk result (λ outcome. self.new.course.outcome ≡ Some outcome) }
        ensures undecided { OnErr result (self.new.course.outcome ≡ None) }
        ensures enough { volume_of self.old.problem.now ≤ self.old.course.budget → result ≢ Ok
            Outcome.Spent }
        ensures ready { OnOk result (IsReady (view_of_search S.view self.new (told
            self.new.chooser))) }

        ensures told { IfOk result (λ end. IsRunTold (view_of_search S.view self.old (told
            self.old.chooser)) (R.stream words.old) end (J.seen journal.old) (J.seen journal.new)) }
        ensures failed { RunFails result (view_of_search S.view self.old (told self.old.chooser))
            (R.stream words.old) (J.seen journal.old) (J.seen journal.new) }
        ensures broken { IsTrue self.new.course.broken ↔ IsErr result }

        ensures problem { self.new.problem.now ≡ self.old.problem.now }
        ensures rule { (told self.new.chooser).rule ≡ (told self.old.chooser).rule }
        ensures budget { self.new.course.budget ≡ self.old.course.budget }
    {
        loop {
            let turn = self.step(words, journal, steps)?;
            if let Turn::Ended(outcome) = turn {
                return Ok(outcome);
            }
        }
    }

    /// Whether a journal failed in a call of `step` or `run`. The search makes no turn then.
    #[inline]
    pub fn broken(&self) -> bool
        ensures value { result ≡ self.now.course.broken }
    {
        self.course.broken
    }

    /// The outcome, once the run is at its end.
    #[inline]
    pub fn outcome(&self) -> Option<Outcome>
        ensures value { result ≡ self.now.course.outcome }
        ensures true_end { IsReady (view_of_search S.view self.now (told self.now.chooser)) →
            ForSome result (SaysTrue (view_of_search S.view self.now (told self.now.chooser))) }
    {
        self.course.outcome
    }

    /// How many retractions were made.
    #[inline]
    pub fn retractions(&self) -> u32
        ensures value { result ≡ self.now.course.retractions }
    {
        self.course.retractions
    }

    /// The literals that stand, in the order in which they were put on.
    #[inline]
    pub fn standing(&self) -> &[Literal]
        ensures value { result.now ≡ (S.view self.now.store).standing }
    {
        self.store.standing()
    }

    /// The domains under the literals that stand. Where no cell is empty they are the greatest.
    #[inline]
    pub fn domains(&self) -> &Domains
        ensures value { result.now ≡ flags_of (S.view self.now.store).problem
            (left_of (S.view self.now.store)) }
        ensures greatest { (S.view self.now.store).verdict ≡ Alive → has result.now ≡ greatest
            (S.view self.now.store).problem (S.view self.now.store).standing }
    {
        self.store.domains()
    }

    /// The value of a cell in the map that was found: the first that stands.
    pub fn value_at(&self, cell: u32) -> u16
        requires ready { IsReady (view_of_search S.view self.now (told self.now.chooser)) }
        requires map { self.now.course.outcome ≡ Some Outcome.Map }
        requires cell_in { cell < self.now.problem.now.cells }
        ensures value { result ≡ slice_index
            (assignment_of self.now.problem.now (S.view self.now.store).standing) cell }
        ensures legal { IsLegalAssignment self.now.problem.now
            (assignment_of self.now.problem.now (S.view self.now.store).standing) }
    {
        self.store.domains().next(cell, 0)
    }
}
