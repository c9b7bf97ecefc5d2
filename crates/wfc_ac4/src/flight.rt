//! A board with its counters, and its opening.

ghost use Rattle.std.specs.Prelude.{◌≡◌, ℕ, ◌+◌, ◌*◌, ◌<◌, length, IfSome, IfNone, Some};
ghost use Rattle.wfc_problem.specs.Network.{values, neighbour};
ghost use Rattle.wfc_log.specs.declared.Verdict.TheVariants.{Alive};
ghost use Rattle.wfc_log.specs.Domains.{has};
ghost use Rattle.wfc_domains.specs.Counters.{FitsTable, count_of, counts_of};
ghost use Rattle.wfc_domains.specs.Store.{IsOpening};
ghost use Rattle.wfc_domains.specs.Board.{IsFresh, IsListed};
ghost use Rattle.wfc_ac4.specs.Links.{AreLinks};
ghost use Rattle.wfc_ac4.specs.State.{IsBetweenRemovals, IsScanned};
ghost use Rattle.wfc_ac4.specs.Flight.{GoesOn, IsFirstBare};

use crate::links::Links;
use std::sync::ledger::Ledger;
use wfc_domains::{Board, Cause, Counters, Steps, is_alive};

/// A board with its counters, and how many removals of its log are worked off.
#[derive(Drop)]
pub struct Flight<'p> {
    pub board: Board<'p>,
    pub counters: Counters,
    pub head: usize,
}

impl<'p> Flight<'p> {
    /// The first direction in which the cell has a neighbour and the value no support.
    fn bare_side(&self, cell: u32, value: u16) -> Option<u8>
        requires cell_in { cell < self.now.board.problem.now.cells }
        requires value_in { value < values self.now.board.problem.now }
        requires fits { FitsTable self.now.board.problem.now self.now.counters }
        ensures some { IfSome result (λ d. IsFirstBare self.now cell value d) }
        ensures none { IfNone result ((d n : ℕ) → neighbour self.now.board.problem.now cell d
            ≡ Some n → 0 < count_of self.now.counters cell value d) }
    {
        for dir in 0..self.board.problem.dirs() {
            if self.counters.get(cell, value, dir) == 0 {
                if let Some(_) = self.board.problem.neighbour(cell, dir) {
                    return Some(dir);
                }
            }
        }
        None
    }

    /// Removes a value that stands without support.
    #[inline]
    fn look_at(&mut self, cell: u32, value: u16)
        requires cell_in { cell < self.old.board.problem.now.cells }
        requires value_in { value < values self.old.board.problem.now }
        requires scanned { IsScanned self.old.board self.old.counters
            (cell * values self.old.board.problem.now + value) }
        ensures scanned { IsScanned self.new.board self.new.counters
            (cell * values self.new.board.problem.now + value + 1) }
        ensures goes_on { GoesOn self.old self.new }
    {
        if is_alive(self.board.verdict) && self.board.domains.has(cell, value) {
            if let Some(dir) = self.bare_side(cell, value) {
                self.board.remove(cell, value, Cause::Arc(dir));
            }
        }
    }

    /// Closes the base domains, with the counters loaded.
    pub fn settle<L: Ledger>(&mut self, links: &Links<'_>, steps: &mut Steps<L>)
        requires fresh { IsFresh self.old.board self.old.board.levels.spare }
        requires linked { AreLinks self.old.board.problem.now links.now }
        requires loaded { self.old.counters ≡ counts_of self.old.board.problem.now
            (has self.old.board.domains) self.old.counters.limit }
        requires fits { FitsTable self.old.board.problem.now self.old.counters }
        requires head { self.old.head ≡ 0 }
        requires begun { self.old.board.trail.start ≡ 0 }
        ensures between { IsBetweenRemovals self.new.board self.new.counters self.new.head }
        ensures closed { self.new.board.verdict ≡ Alive → self.new.head
            ≡ length self.new.board.trail.removals }
        ensures opening { IsOpening self.new.board.problem.now self.new.board.trail.removals
            self.new.board.verdict }
        ensures problem { self.new.board.problem ≡ self.old.board.problem }
        ensures levels { self.new.board.levels ≡ self.old.board.levels }
        ensures listed { IsListed self.new.board }
    {
        if is_alive(self.board.verdict) {
            self.scan();
            self.close(links, steps);
        }
    }

    /// Looks at each value of each cell once, with the counters of the base domains.
    fn scan(&mut self)
        requires scanned { IsScanned self.old.board self.old.counters 0 }
        ensures scanned { IsScanned self.new.board self.new.counters
            (self.new.board.problem.now.cells * values self.new.board.problem.now) }
        ensures goes_on { GoesOn self.old self.new }
    {
        for cell in 0..self.board.problem.cells() {
            self.scan_cell(cell);
        }
    }

    /// Looks at each value of a cell, unless each has support in all directions.
    fn scan_cell(&mut self, cell: u32)
        requires cell_in { cell < self.old.board.problem.now.cells }
        requires scanned { IsScanned self.old.board self.old.counters (cell * values
            self.old.board.problem.now) }
        ensures scanned { IsScanned self.new.board self.new.counters
            ((cell + 1) * values self.new.board.problem.now) }
        ensures goes_on { GoesOn self.old self.new }
    {
        if !self.counters.has_none(cell) {
            return;
        }
        for value in 0..self.board.problem.values() {
            self.look_at(cell, value);
        }
    }
}
