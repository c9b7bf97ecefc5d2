//! AC-4, after Mohr and Henderson, "Arc and path consistency revisited" (1986): a counter for each cell, value and
//! direction of how many supports are left, and a queue of removals that are still to be told to their neighbours.
//!
//! The queue is the log of removals, with one head: what stands before it was worked off. So an undo walks the log
//! back, and raises counters for those removals alone that had lowered them.
#![tactic(auto)]

ghost use Rattle.std.specs.Prelude.{◌≡◌, ◌+◌, ◌<◌, ◌≤◌, length, IfOk};
ghost use Rattle.wfc_problem.specs.Domains.{IsLiteralIn};
ghost use Rattle.wfc_log.specs.declared.Verdict.TheVariants.{Alive};
ghost use Rattle.wfc_domains.specs.Counters.{FitsTable, HasCounts, cost_of};
ghost use Rattle.wfc_domains.specs.Store.{IsSound, IsAssumed, IsOpened, left_of, added_of, without_last};

mod flight;
mod links;
mod raising;
mod working;

use flight::Flight;
use links::Links;
use std::alloc::Global;
use std::marker::{Brand, Model};
use std::sync::ledger::{Blank, Ledger};
use wfc_domains::{
    Board, Counters, Domains, Loss, OpenFault, Removal, Steps, Store, Verdict, is_alive,
};
use wfc_outside::NoMemory;
use wfc_problem::{Literal, Problem};

/// The greatest arc-consistent domains under the literals that stand, with exact support counters.
#[derive(Drop)]
pub struct Ac4<'p> {
    flight: Flight<'p>,
    links: Links<'p>,
}

impl<'p> Model for Ac4<'p> {
    ghost use Rattle.wfc_domains.specs.Store.{StoreView};

    ghost Value = { StoreView };

    ghost use Rattle.wfc_ac4.specs.Engine.{engine_view, HoldsTogether};

    ghost view = { engine_view };

    ghost invariant = { HoldsTogether };
}

impl<'p> Ac4<'p> {
    /// Closes the base domains, with room for so many literals. The counters are loaded once; then the cells are
    /// looked at in rising order, in each the values, and for each value the directions.
    pub fn open(alloc: Global, problem: &'p Problem, levels: u32) -> Result<Ac4<'p>, OpenFault>
        ensures opened { IfOk result (λ engine. IsOpened engine problem.now levels) }
    {
        open_counted::<Brand>(alloc, problem, levels, Blank::new(1)).map_err(
            |_| OpenFault::NoMemory,
        )
    }

    /// How many supports each value has left beside each cell: for every cell, every value, also a removed one, and
    /// every direction, 0 where there is no neighbour. It holds while the verdict is alive.
    #[inline]
    pub fn counters(&self) -> &Counters
        ensures value { self.now.verdict ≡ Alive → HasCounts self.now.problem (left_of self.now)
            result.now }
        ensures fits { FitsTable self.now.problem result.now }
    {
        &self.flight.counters
    }

    /// Puts a literal on, and closes the domains under it. It takes at most as many steps as the removed values have
    /// supports at their neighbours, and no memory.
    pub fn assume<L: Ledger>(&mut self, literal: Literal, steps: &mut Steps<L>) -> Verdict
        requires alive { self.old.verdict ≡ Alive }
        requires literal_in { IsLiteralIn self.old.problem literal }
        requires spare { 0 < self.old.spare }
        ensures assumed { IsAssumed self.old self.new literal }
        ensures last { without_last self.new ≡ self.old }
        ensures sound { IsSound self.new }
        ensures verdict { result ≡ self.new.verdict }
        ensures cost { steps.new ≤ steps.old + cost_of self.old.problem (added_of self.new) }
    {
        self.flight.board.put(literal);
        self.flight.close(&self.links, steps);
        self.flight.board.verdict
    }

    /// Takes the last literal away, and all that followed from it: domains, counters, log, levels and verdict are
    /// those before it was put on. It takes at most as many steps as the values that come back have supports at their
    /// neighbours, and no memory.
    pub fn undo<L: Ledger>(&mut self, steps: &mut Steps<L>)
        requires some { 0 < length self.old.standing }
        ensures last { self.new ≡ without_last self.old }
        ensures sound { IsSound self.new }
        ensures cost { steps.new ≤ steps.old + cost_of self.old.problem (added_of self.old) }
    {
        let mark = self.flight.board.levels.mark() as usize;
        self.flight.roll_back(mark, steps);
        self.flight.board.levels.pop();
        self.flight.board.verdict = Verdict::Alive;
        self.flight.board.relist();
    }
}

/// An opening whose steps are counted in a ledger of its own.
fn open_counted<'p, L: Ledger>(
    alloc: Global,
    problem: &'p Problem,
    levels: u32,
    blank: Blank,
) -> Result<Ac4<'p>, NoMemory>
    requires name { blank.name ≡ L.name }
    requires parts { blank.parts ≡ L.parts }
    requires some { 0 < blank.parts }
    ensures opened { IfOk result (λ engine. IsOpened engine problem.now levels) }
{
    let mut steps = Steps::<L>::new(blank);
    let board = Board::new(alloc, problem, levels)?;
    let links = Links::new(alloc, problem)?;
    let mut counters = Counters::new(alloc, problem)?;
    counters.load(problem, &board.domains, &mut steps);
    let mut flight = Flight {
        board,
        counters,
        head: 0,
    };
    flight.settle(&links, &mut steps);
    Ok(Ac4 { flight, links })
}

impl<'p> Store for Ac4<'p> {
    ghost view = { λ engine. engine };

    fn assume<L: Ledger>(&mut self, literal: Literal, steps: &mut Steps<L>) -> Verdict {
        self.assume(literal, steps)
    }

    fn undo<L: Ledger>(&mut self, steps: &mut Steps<L>) {
        self.undo(steps);
    }

    #[inline]
    fn verdict(&self) -> Verdict {
        self.flight.board.verdict
    }

    #[inline]
    fn domains(&self) -> &Domains {
        &self.flight.board.domains
    }

    #[inline]
    fn added(&self) -> Option<&[Removal]> {
        self.flight.board.added()
    }

    #[inline]
    fn added_len(&self) -> usize {
        self.flight.board.added_len()
    }

    fn added_at(&self, index: usize) -> Loss {
        self.flight.board.added_at(index)
    }

    #[inline]
    fn standing(&self) -> &[Literal] {
        self.flight.board.levels.standing()
    }

    #[inline]
    fn spare(&self) -> u32 {
        self.flight.board.levels.spare()
    }
}
