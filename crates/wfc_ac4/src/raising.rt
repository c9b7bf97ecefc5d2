//! Removals taken back, and their counters raised again.

ghost use Rattle.std.specs.Prelude.{◌≡◌, ◌+◌, ◌<◌, ◌≤◌, [], length, Some};
ghost use Rattle.wfc_problem.specs.Network.{values, neighbour, supports_of, in_base};
ghost use Rattle.wfc_domains.specs.Counters.{cost_at, cost_of};
ghost use Rattle.wfc_domains.specs.Removals.{without};
ghost use Rattle.wfc_ac4.specs.Places.{places_upto, places_through};
ghost use Rattle.wfc_ac4.specs.State.{IsRolled, IsRaisingOn, AreLowered};
ghost use Rattle.wfc_ac4.specs.Flight.{front_cost, Recounts, HasNoMore, IsShorter, IsRolledTo};

use crate::flight::Flight;
use std::sync::ledger::Ledger;
use wfc_domains::Steps;
use wfc_problem::opposite;

impl<'p> Flight<'p> {
    /// Raises the counters at one neighbour that count a value again.
    fn raise_side<L: Ledger>(
        &mut self,
        cell: u32,
        value: u16,
        dir: u8,
        next: u32,
        steps: &mut Steps<L>,
    )
        requires value_in { value < values self.old.board.problem.now }
        requires dir_in { dir < self.old.board.problem.now.dirs }
        requires beside { neighbour self.old.board.problem.now cell dir ≡ Some next }
        requires raising { IsRaisingOn self.old.board cell value
            (places_upto self.old.board.problem.now cell value dir) self.old.counters }
        ensures raising { IsRaisingOn self.old.board cell value
            (places_through self.old.board.problem.now cell value dir next) self.new.counters }
        ensures same { Recounts self.old self.new }
        ensures marks { HasNoMore self.old.counters self.new.counters }
        ensures steps { steps.new
            ≡ steps.old + length (supports_of self.old.board.problem.now value dir) }
    {
        let back = opposite(dir);
        let problem = self.board.problem;
        for w in problem.supports(value, dir) {
            self.counters.up(next, *w, back, steps);
        }
    }

    /// Raises all counters that count a value again.
    fn raise<L: Ledger>(&mut self, cell: u32, value: u16, steps: &mut Steps<L>)
        requires cell_in { cell < self.old.board.problem.now.cells }
        requires value_in { value < values self.old.board.problem.now }
        requires raising { IsRaisingOn self.old.board cell value [] self.old.counters }
        ensures counters { AreLowered self.old.board.problem.now (without (in_base
            self.old.board.problem.now) self.old.board.trail.removals) [] self.new.counters }
        ensures same { Recounts self.old self.new }
        ensures marks { HasNoMore self.old.counters self.new.counters }
        ensures steps { steps.new ≡ steps.old + cost_at self.old.board.problem.now cell value }
    {
        let problem = self.board.problem;
        for dir in 0..problem.dirs() {
            if let Some(next) = problem.neighbour(cell, dir) {
                self.raise_side(cell, value, dir, next, steps);
            }
        }
    }

    /// Takes the last removal back. If it was worked off, the counters that count it are raised.
    fn take_back<L: Ledger>(&mut self, steps: &mut Steps<L>)
        requires rolled { IsRolled self.old.board self.old.counters self.old.head }
        requires some { 0 < length self.old.board.trail.removals }
        ensures rolled { IsRolled self.new.board self.new.counters self.new.head }
        ensures shorter { IsShorter self.old self.new }
        ensures steps { steps.new + cost_of self.old.board.problem.now self.new.board.trail.removals
            ≤ steps.old + cost_of self.old.board.problem.now self.old.board.trail.removals }
    {
        let removal = self.board.take_back();
        self.counters.unmark(removal.cell, removal.value);
        if self.head > self.board.trail.len() {
            self.raise(removal.cell, removal.value, steps);
            self.head -= 1;
        }
    }

    /// Takes removals back, until as many as `mark` are left.
    pub fn roll_back<L: Ledger>(&mut self, mark: usize, steps: &mut Steps<L>)
        requires rolled { IsRolled self.old.board self.old.counters self.old.head }
        requires within { mark ≤ length self.old.board.trail.removals }
        ensures rolled { IsRolled self.new.board self.new.counters self.new.head }
        ensures back { IsRolledTo self.old self.new mark }
        ensures steps { steps.new + front_cost self.old self.old mark
            ≤ steps.old + cost_of self.old.board.problem.now self.old.board.trail.removals }
    {
        while self.board.trail.len() > mark {
            self.take_back(steps);
        }
    }
}
