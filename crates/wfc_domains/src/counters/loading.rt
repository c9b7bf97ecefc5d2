//! Counters loaded with the supports that stand.

ghost use Rattle.std.specs.Prelude.{◌≡◌, ◌+◌, ◌*◌, ◌<◌, ◌≤◌, IfSome};
ghost use Rattle.wfc_problem.specs.Network.{values};
ghost use Rattle.wfc_domains.specs.Counters.{FitsTable, with_count, counters_of, counts_of, counter_place};
ghost use Rattle.wfc_log.specs.Domains.{Fits, has};
ghost use Rattle.wfc_domains.specs.Loaded.{AreLoaded, IsLike, IsCopied};

use super::Counters;
use crate::beside::{alike_before, count_beside, is_surrounded};
use crate::steps::Steps;
use std::sync::ledger::Ledger;
use wfc_log::Domains;
use wfc_problem::Problem;

impl Counters {
    /// Sets each entry to the number of supports that stand, 0 where there is no neighbour. Each entry is one step.
    pub fn load<L: Ledger>(&mut self, problem: &Problem, domains: &Domains, steps: &mut Steps<L>)
        requires domains { Fits problem.now domains.now }
        requires table { FitsTable problem.now self.old }
        ensures loaded { self.new ≡ counts_of problem.now (has domains.now) self.new.limit }
        ensures fits { FitsTable problem.now self.new }
        ensures steps { steps.new ≡ steps.old + counters_of problem.now }
    {
        let mut like = None;
        for cell in 0..problem.cells() {
            like = self.load_like(problem, domains, cell, like, steps);
        }
    }

    /// Sets the entries of one cell: where all values stand on all sides of it, those of the last such cell, and else
    /// those of a neighbour beside which the same supports stand, if one was before it.
    fn load_like<L: Ledger>(
        &mut self,
        problem: &Problem,
        domains: &Domains,
        cell: u32,
        like: Option<u32>,
        steps: &mut Steps<L>,
    ) -> Option<u32>
        requires domains { Fits problem.now domains.now }
        requires cell_in { cell < problem.now.cells }
        requires like { IfSome like (IsLike problem.now (has domains.now) cell) }
        requires before { AreLoaded problem.now (has domains.now) self.old (counter_place
            problem.now cell 0 0) }
        ensures like { IfSome result (IsLike problem.now (has domains.now) (cell + 1)) }
        ensures after { AreLoaded problem.now (has domains.now) self.new (counter_place problem.now
            (cell + 1) 0 0) }
        ensures steps { steps.new ≡ steps.old + values problem.now * problem.now.dirs }
    {
        if !is_surrounded(problem, domains, cell) {
            match alike_before(problem, domains, cell) {
                Some(next) => self.copy_cell(next, cell, steps),
                None => self.load_cell(problem, domains, cell, steps),
            }
            return like;
        }
        match like {
            Some(earlier) => self.copy_cell(earlier, cell, steps),
            None => self.load_cell(problem, domains, cell, steps),
        }
        Some(cell)
    }

    /// Sets the entries of one cell to those of an earlier one. Each entry is one step.
    fn copy_cell<L: Ledger>(&mut self, from: u32, to: u32, steps: &mut Steps<L>)
        requires earlier { from < to }
        requires to_in { to < self.old.cells }
        ensures copied { IsCopied self.old self.new from to }
        ensures steps { steps.new ≡ steps.old + self.old.values * self.old.dirs }
    {
        let row = self.values * self.dirs;
        let start = from as usize * row;
        let dest = to as usize * row;
        steps.add(row as u64);
        if self.is_paired {
            self.pairs.copy(start, row, dest);
        } else {
            self.singles.copy(start, row, dest);
        }
    }

    /// Sets the entries of one cell.
    fn load_cell<L: Ledger>(
        &mut self,
        problem: &Problem,
        domains: &Domains,
        cell: u32,
        steps: &mut Steps<L>,
    )
        requires domains { Fits problem.now domains.now }
        requires cell_in { cell < problem.now.cells }
        requires before { AreLoaded problem.now (has domains.now) self.old (counter_place
            problem.now cell 0 0) }
        ensures after { AreLoaded problem.now (has domains.now) self.new (counter_place problem.now
            (cell + 1) 0 0) }
        ensures steps { steps.new ≡ steps.old + values problem.now * problem.now.dirs }
    {
        for value in 0..problem.values() {
            self.load_value(problem, domains, cell, value, steps);
        }
    }

    /// Sets the entries of one value of one cell.
    #[inline]
    fn load_value<L: Ledger>(
        &mut self,
        problem: &Problem,
        domains: &Domains,
        cell: u32,
        value: u16,
        steps: &mut Steps<L>,
    )
        requires domains { Fits problem.now domains.now }
        requires cell_in { cell < problem.now.cells }
        requires value_in { value < values problem.now }
        requires before { AreLoaded problem.now (has domains.now) self.old (counter_place
            problem.now cell value 0) }
        ensures after { AreLoaded problem.now (has domains.now) self.new (counter_place problem.now
            cell value problem.now.dirs) }
        ensures steps { steps.new ≡ steps.old + problem.now.dirs }
    {
        for dir in 0..problem.dirs() {
            let count = count_beside(problem, domains, cell, value, dir);
            self.set(cell, value, dir, count);
            steps.tick();
        }
    }

    #[inline]
    fn set(&mut self, cell: u32, value: u16, dir: u8, count: u16)
        requires cell_in { cell < self.old.cells }
        requires value_in { value < self.old.values }
        requires dir_in { dir < self.old.dirs }
        requires limit { count ≤ self.old.limit }
        ensures changed { self.new ≡ with_count self.old cell value dir count }
    {
        let place = self.place(cell, value, dir as usize);
        if self.is_paired {
            self.pairs.set(place, count as u8);
        } else {
            self.singles.set(place, count);
        }
    }
}
