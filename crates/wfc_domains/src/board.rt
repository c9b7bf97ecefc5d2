//! What every engine keeps: the domains with the log of removals, the levels of literals, and the verdict.

ghost use Rattle.std.specs.Prelude.{◌≡◌, ◌≢◌, ℕ, ◌+◌, ◌<◌, ◌↔◌, ◌++◌, ◌∷◌, [], length, false, slice_get, IsTrue, IsFalse, IfOk, IfSome, IfNone, Some};
ghost use Rattle.wfc_problem.specs.Domains.{IsLiteralIn, leaves_all};
ghost use Rattle.wfc_problem.specs.Network.{values};
ghost use Rattle.wfc_log.specs.declared.Verdict.TheVariants.{Alive};
ghost use Rattle.wfc_log.specs.Domains.{has};
ghost use Rattle.wfc_domains.specs.Store.{IsSound, IsLongLevel, added_of, list_limit};
ghost use Rattle.wfc_domains.specs.Board.{view_of, IsBoard, IsTraced, IsCut, IsListed, IsPut, Loses, HasLevels, HasValues, Grows, Regains, IsFresh};
ghost use Rattle.wfc_log.specs.Log.{IsCauseBelow, loss_of};
ghost use Rattle.wfc_log.specs.declared.Removal.{Removal};

use crate::levels::Levels;
use crate::{Cause, Loss, Removal, Verdict};
use std::alloc::Global;
use wfc_log::{Domains, Trail};
use wfc_outside::NoMemory;
use wfc_problem::{Literal, Problem};

/// How many removals of a level stay in a list, where there are fewer cells.
const LISTED: usize = 4_096;

/// The domains with the log of removals that led to them, the levels of literals, and whether a cell is empty.
#[derive(Drop)]
pub struct Board<'p> {
    pub problem: &'p Problem,
    pub domains: Domains,
    pub trail: Trail,
    pub levels: Levels,
    pub verdict: Verdict,
}

/// Whether the verdict is alive.
#[inline]
pub fn is_alive(verdict: Verdict) -> bool
    ensures value { IsTrue result ↔ (verdict ≡ Alive) }
{
    match verdict {
        Verdict::Alive => true,
        Verdict::Dead { cell: _ } => false,
    }
}

impl<'p> Board<'p> {
    /// The base domains, with room for so many literals. Where a cell's base is empty, the least such cell is named.
    pub fn new(alloc: Global, problem: &'p Problem, levels: u32) -> Result<Board<'p>, NoMemory>
        ensures problem { IfOk result (λ board. board.problem.now ≡ problem.now) }
        ensures fresh { IfOk result (λ board. IsFresh board levels) }
        ensures begun { IfOk result (λ board. board.trail.start ≡ 0) }
    {
        let domains = Domains::new(alloc, problem)?;
        let removals = (problem.depth() + 1).saturating_sub(problem.cells());
        let trail = Trail::new(alloc, problem, &domains, removals as usize)?;
        let levels = Levels::new(alloc, levels)?;
        let verdict = domains.verdict();
        Ok(Board {
            problem,
            domains,
            trail,
            levels,
            verdict,
        })
    }

    /// The removals of the last level in their order, where all of them are in the list of the log.
    #[inline]
    pub fn added(&self) -> Option<&[Removal]>
        requires listed { IsListed self.now }
        ensures some { IfSome result (λ added. added.now ≡ added_of (view_of self.now)) }
        ensures none { IfNone result (IsLongLevel (view_of self.now)) }
    {
        if self.trail.start() == self.levels.mark() as usize {
            Some(self.trail.last())
        } else {
            None
        }
    }

    /// How many removals of a level stay in the list of the log: two for each cell, and not fewer than 4,096. Where a level
    /// has more, to look at each cell takes no longer than to look at each removal.
    #[inline]
    pub fn most_listed(&self) -> usize
        ensures exact { result ≡ list_limit self.now.problem.now }
        ensures some { 0 < result }
    {
        (2 * self.problem.cells() as usize).max(LISTED)
    }

    /// Brings the removals of the last level back into the list of the log, unless they are many.
    pub fn relist(&mut self)
        requires levels { HasLevels (view_of self.old) }
        ensures same { self.new ≡ record self.old {
          trail = record self.old.trail { start = self.new.trail.start };
        } }
        ensures listed { IsListed self.new }
    {
        let mark = self.levels.mark() as usize;
        let len = self.trail.len();
        let is_long = len - mark > self.most_listed();
        self.trail.reopen(if is_long { len } else { mark });
    }

    /// How many removals the last level has.
    #[inline]
    pub fn added_len(&self) -> usize
        requires levels { HasLevels (view_of self.now) }
        ensures value { result ≡ length (added_of (view_of self.now)) }
    {
        self.trail.len() - self.levels.mark() as usize
    }

    /// What the removal at an index of the last level took away.
    pub fn added_at(&self, index: usize) -> Loss
        requires traced { IsTraced self.now }
        requires levels { HasLevels (view_of self.now) }
        requires index_in { index < length (added_of (view_of self.now)) }
        ensures value { (r : Removal) → slice_get (added_of (view_of self.now)) index ≡ Some r
            → result ≡ loss_of r }
    {
        self.trail.loss(self.levels.mark() as usize + index)
    }

    /// Removes a value that stands, and sees whether its cell is empty then.
    #[inline]
    pub fn remove(&mut self, cell: u32, value: u16, cause: Cause)
        requires traced { IsTraced self.old }
        requires stands { IsTrue (has self.old.domains cell value) }
        requires cause_in { IsCauseBelow self.old.problem.now.dirs cause }
        requires alive { self.old.verdict ≡ Alive }
        requires filled { HasValues self.old }
        ensures removed { Loses self.old self.new cell value cause }
    {
        let before = self.domains.size(cell);
        self.domains.remove(cell, value);
        self.trail.push(Removal {
            cell,
            value,
            before: before as u16,
            cause,
        });
        if before == 1 {
            self.verdict = Verdict::Dead { cell };
        }
    }

    /// Takes the last removal back.
    #[inline]
    pub fn take_back(&mut self) -> Removal
        requires traced { IsTraced self.old }
        requires some { 0 < length self.old.trail.removals }
        ensures traced { IsTraced self.new }
        ensures back { Regains self.old self.new result }
    {
        let removal = self.trail.pop();
        self.domains.restore(removal.cell, removal.value);
        removal
    }

    /// Puts a literal on, and removes what it cuts, until a cell is empty.
    pub fn put(&mut self, literal: Literal)
        requires board { IsBoard self.old }
        requires sound { IsSound (view_of self.old) }
        requires alive { self.old.verdict ≡ Alive }
        requires literal_in { IsLiteralIn self.old.problem.now literal }
        requires spare { 0 < self.old.levels.spare }
        ensures board { IsBoard self.new }
        ensures cut { IsCut self.new }
        ensures put { IsPut self.old self.new literal }
        ensures begun { self.new.trail.start ≡ length self.old.trail.removals }
        ensures listed { IsListed self.new }
    {
        let mark = self.trail.len() as u32;
        self.trail.begin();
        self.levels.push(literal, mark);
        match literal {
            Literal::Is { cell, value } => self.cut_to(cell, value),
            Literal::Not { cell, value } => self.cut_from(cell, value),
        }
    }

    /// Removes each other value of a cell, until the cell is empty.
    fn cut_to(&mut self, cell: u32, value: u16)
        requires board { IsBoard self.old }
        requires cell_in { cell < self.old.problem.now.cells }
        requires cut { (other : ℕ) → other ≢ value → leaves_all self.old.levels.standing cell other
            ≡ false }
        ensures board { IsBoard self.new }
        ensures alone { self.new.verdict ≡ Alive → (other : ℕ)
            → IsTrue (has self.new.domains cell other) → other ≡ value }
        ensures grows { Grows self.old self.new }
        ensures start { self.new.trail.start ≡ self.old.trail.start }
    {
        let values = self.problem.values();
        let mut other = self.domains.next(cell, 0);
        while other < values && is_alive(self.verdict) {
            self.cut_other(cell, other, value);
            other = self.domains.next(cell, other + 1);
        }
    }

    /// Removes a value that stands, unless it is the one that is kept.
    #[inline]
    fn cut_other(&mut self, cell: u32, other: u16, value: u16)
        requires board { IsBoard self.old }
        requires alive { self.old.verdict ≡ Alive }
        requires stands { IsTrue (has self.old.domains cell other) }
        requires cut { other ≢ value → leaves_all self.old.levels.standing cell other ≡ false }
        ensures board { IsBoard self.new }
        ensures gone { other ≢ value → has self.new.domains cell other ≡ false }
        ensures stays { (k : ℕ) → has self.old.domains cell k ≡ false
            → has self.new.domains cell k ≡ false }
        ensures grows { Grows self.old self.new }
        ensures start { self.new.trail.start ≡ self.old.trail.start }
    {
        if other != value {
            self.remove(cell, other, Cause::Assumed);
        }
    }

    /// Removes one value, if it stands.
    fn cut_from(&mut self, cell: u32, value: u16)
        requires board { IsBoard self.old }
        requires alive { self.old.verdict ≡ Alive }
        requires cell_in { cell < self.old.problem.now.cells }
        requires value_in { value < values self.old.problem.now }
        requires cut { leaves_all self.old.levels.standing cell value ≡ false }
        ensures board { IsBoard self.new }
        ensures gone { has self.new.domains cell value ≡ false }
        ensures grows { Grows self.old self.new }
        ensures start { self.new.trail.start ≡ self.old.trail.start }
    {
        if self.domains.has(cell, value) {
            self.remove(cell, value, Cause::Assumed);
        }
    }
}
