//! The plain engine: it sweeps until a sweep removes nothing. It is slow, and there to test faster ones against.

ghost use Rattle.std.specs.Prelude.{◌≡◌, ℕ, ◌+◌, ◌*◌, ◌-◌, ◌<◌, ◌≤◌, length, take, IsTrue, IsFalse, IfOk, IfSome, IfNone, Some, All};
ghost use Rattle.wfc_problem.specs.Network.{values, neighbour};
ghost use Rattle.wfc_problem.specs.Domains.{IsArcConsistent, IsLiteralIn, support_count};
ghost use Rattle.wfc_problem.specs.Rounds.{greatest};
ghost use Rattle.wfc_problem.specs.Sizes.{is_dead};
ghost use Rattle.wfc_log.specs.declared.Verdict.TheVariants.{Alive};
ghost use Rattle.wfc_log.specs.Domains.{has};
ghost use Rattle.wfc_domains.specs.Store.{IsSound, IsOpened, IsAssumed, IsUndone, left_of};
ghost use Rattle.wfc_domains.specs.Board.{view_of, IsTraced, IsBoard, IsCut, IsFresh, HasLevels, Grows};
ghost use Rattle.wfc_domains.specs.Swept.{IsFirstUnsupported, IsSwept, FirstIsLeast, IsClosed};

use crate::beside::count_beside;
use crate::board::{Board, is_alive};
use crate::levels::Levels;
use crate::steps::Steps;
use crate::store::Store;
use crate::{Cause, Loss, OpenFault, Removal, Verdict};
use std::alloc::Global;
use std::marker::Model;
use std::sync::ledger::Ledger;
use wfc_log::Domains;
use wfc_problem::{Literal, Problem};

/// The greatest arc-consistent domains by repeated sweeps. Its undo begins anew with the base domains.
#[derive(Drop)]
pub struct PlainStore<'p> {
    board: Board<'p>,
    literals: Levels,
}

impl<'p> Model for PlainStore<'p> {
    ghost use Rattle.wfc_domains.specs.Store.{StoreView};

    ghost Value = { StoreView };

    ghost use Rattle.wfc_domains.specs.Plain.{plain_view, HoldsPlain};

    ghost view = { plain_view };

    ghost invariant = { HoldsPlain };
}

impl<'p> PlainStore<'p> {
    /// Closes the base domains, with room for so many literals.
    pub fn open(
        alloc: Global,
        problem: &'p Problem,
        levels: u32,
    ) -> Result<PlainStore<'p>, OpenFault>
        ensures opened { IfOk result (λ store. IsOpened store problem.now levels) }
    {
        let mut board = match Board::new(alloc, problem, levels) {
            Ok(board) => board,
            Err(_) => return Err(OpenFault::NoMemory),
        };
        let literals = match Levels::new(alloc, levels) {
            Ok(literals) => literals,
            Err(_) => return Err(OpenFault::NoMemory),
        };
        close(&mut board);
        Ok(PlainStore { board, literals })
    }

    /// Puts a literal on, and closes the domains under it.
    fn put(&mut self, literal: Literal)
        requires alive { self.old.verdict ≡ Alive }
        requires literal_in { IsLiteralIn self.old.problem literal }
        requires spare { 0 < self.old.spare }
        ensures assumed { IsAssumed self.old self.new literal }
        ensures sound { IsSound self.new }
    {
        self.literals.push(literal, 0);
        self.board.put(literal);
        close(&mut self.board);
    }

    /// Takes the last literal away, and closes the others anew from the base domains.
    fn take(&mut self)
        requires some { 0 < length self.old.standing }
        ensures undone { IsUndone self.old self.new }
        ensures sound { IsSound self.new }
    {
        self.literals.pop();
        reset(&mut self.board);
        put_all(&mut self.board, self.literals.standing());
    }
}

/// Takes all removals back and all literals away.
fn reset(board: &mut Board)
    requires traced { IsTraced board.old }
    ensures fresh { IsFresh board.new (board.old.levels.spare + length board.old.levels.standing) }
    ensures problem { board.new.problem ≡ board.old.problem }
{
    while board.trail.len() > 0 {
        board.take_back();
    }
    board.levels.clear();
    board.verdict = board.domains.verdict();
}

/// Puts literals on, one after another, each closed before the next.
fn put_all(board: &mut Board, literals: &[Literal])
    requires fresh { IsFresh board.old board.old.levels.spare }
    requires room { length literals.now ≤ board.old.levels.spare }
    requires literals_in { All (IsLiteralIn board.old.problem.now) literals.now }
    requires alive { (k : ℕ) → k ≤ length literals.now → IsFalse (is_dead board.old.problem.now
        (greatest board.old.problem.now (take k literals.now))) }
    ensures closed { IsClosed board.new }
    ensures alive { board.new.verdict ≡ Alive }
    ensures problem { board.new.problem ≡ board.old.problem }
    ensures standing { board.new.levels.standing ≡ literals.now }
    ensures spare { board.new.levels.spare + length literals.now ≡ board.old.levels.spare }
{
    close(board);
    for literal in literals {
        board.put(*literal);
        close(board);
    }
}

/// Sweeps over the board until a sweep removes nothing or a cell is empty.
fn close(board: &mut Board)
    requires board { IsBoard board.old }
    requires cut { IsCut board.old }
    ensures board { IsBoard board.new }
    ensures cut { IsCut board.new }
    ensures first { FirstIsLeast board.old → FirstIsLeast board.new }
    ensures consistent { board.new.verdict ≡ Alive
        → IsArcConsistent board.new.problem.now (left_of (view_of board.new)) }
    ensures grows { Grows board.old board.new }
    ensures start { board.new.trail.start ≡ board.old.trail.start }
    ensures dead { (board.old.verdict ≡ Alive → ⊥) → board.new ≡ board.old }
{
    while is_alive(board.verdict) {
        if sweep(board) {
            return;
        }
    }
}

/// Looks at each value of each cell once, and answers whether nothing was removed.
fn sweep(board: &mut Board) -> bool
    requires board { IsBoard board.old }
    requires cut { IsCut board.old }
    ensures board { IsBoard board.new }
    ensures cut { IsCut board.new }
    ensures first { FirstIsLeast board.old → FirstIsLeast board.new }
    ensures grows { Grows board.old board.new }
    ensures start { board.new.trail.start ≡ board.old.trail.start }
    ensures done { IsTrue result → board.new.verdict ≡ Alive
        → IsArcConsistent board.new.problem.now (left_of (view_of board.new)) }
    ensures more { IsFalse result
        → length board.old.trail.removals < length board.new.trail.removals }
{
    let before = board.trail.len();
    let problem = board.problem;
    for cell in 0..problem.cells() {
        for value in 0..problem.values() {
            look_at(board, cell, value);
        }
    }
    board.trail.len() == before
}

/// Removes a value that stands without support.
fn look_at(board: &mut Board, cell: u32, value: u16)
    requires cell_in { cell < board.old.problem.now.cells }
    requires value_in { value < values board.old.problem.now }
    requires board { IsBoard board.old }
    requires cut { IsCut board.old }
    ensures board { IsBoard board.new }
    ensures cut { IsCut board.new }
    ensures grows { Grows board.old board.new }
    ensures start { board.new.trail.start ≡ board.old.trail.start }
    ensures swept { (start : ℕ) → IsSwept board.old start (cell * values board.old.problem.now +
        value) → IsSwept board.new start (cell * values board.new.problem.now + value + 1) }
    ensures first { (start : ℕ) → IsSwept board.old start (cell * values board.old.problem.now +
        value) → FirstIsLeast board.old → FirstIsLeast board.new }
{
    if is_alive(board.verdict) && board.domains.has(cell, value) {
        if let Some(dir) = bare_side(board, cell, value) {
            board.remove(cell, value, Cause::Arc(dir));
        }
    }
}

/// The first direction in which the cell has a neighbour and the value no support.
fn bare_side(board: &Board, cell: u32, value: u16) -> Option<u8>
    requires cell_in { cell < board.now.problem.now.cells }
    requires value_in { value < values board.now.problem.now }
    requires traced { IsTraced board.now }
    ensures some { IfSome result (λ d. IsFirstUnsupported board.now.problem.now (has
        board.now.domains) cell value d) }
    ensures none { IfNone result ((d n : ℕ) → neighbour board.now.problem.now cell d ≡ Some n
        → 0 < support_count board.now.problem.now (has board.now.domains) cell value d) }
{
    let problem = board.problem;
    for dir in 0..problem.dirs() {
        if count_beside(problem, &board.domains, cell, value, dir) == 0 {
            if let Some(_) = problem.neighbour(cell, dir) {
                return Some(dir);
            }
        }
    }
    None
}

impl<'p> Store for PlainStore<'p> {
    ghost view = { λ store. store };

    fn assume<L: Ledger>(&mut self, literal: Literal, _steps: &mut Steps<L>) -> Verdict {
        self.put(literal);
        self.board.verdict
    }

    fn undo<L: Ledger>(&mut self, _steps: &mut Steps<L>) {
        self.take();
    }

    fn verdict(&self) -> Verdict {
        self.board.verdict
    }

    fn domains(&self) -> &Domains {
        &self.board.domains
    }

    fn added(&self) -> Option<&[Removal]> {
        self.board.added()
    }

    fn added_len(&self) -> usize {
        self.board.added_len()
    }

    fn added_at(&self, index: usize) -> Loss {
        self.board.added_at(index)
    }

    fn standing(&self) -> &[Literal] {
        self.board.levels.standing()
    }

    fn spare(&self) -> u32 {
        self.board.levels.spare()
    }
}
