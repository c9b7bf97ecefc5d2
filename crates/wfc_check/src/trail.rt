//! The values that stand, with what was taken away and which branches wait.

ghost use Rattle.std.specs.Prelude.{◌≡◌, ℕ, ◌*◌, ◌<◌, ◌≤◌, [], ◌∷◌, ◌++◌, true, false, length, take, IsTrue, IfOk, None, MatchOption, ⊤};
ghost use Rattle.wfc_problem.specs.Network.{values, IsProblem};
ghost use Rattle.wfc_problem.specs.Rounds.{depth_of};
ghost use Rattle.wfc_check.specs.Entries.{standing, waits_of, with_more, Resumes};

use std::alloc::{AllocError, Global};
use std::marker::Model;
use wfc_outside::NoMemory;
use wfc_problem::Problem;

/// A value that was taken away from its cell, or a branch that waits, in which the cell hasn't the value.
#[derive(Clone, Copy, Debug)]
pub struct Entry {
    pub cell: u32,
    pub value: u16,
    pub waits: bool,
}

/// A flag for each value of each cell, and what was taken away from the base, in order. It takes its memory where it
/// is made.
#[derive(Drop)]
pub struct BranchTrail<'p> {
    problem: &'p Problem,
    flags: Vec<bool>,
    entries: Vec<Entry>,
}

impl<'p> Model for BranchTrail<'p> {
    ghost use Rattle.wfc_check.specs.Entries.{TrailView};
    ghost use Rattle.wfc_check.specs.Flags.{AreKept};
    ghost use Rattle.std.specs.Prelude.{vec_capacity};

    ghost Value = { TrailView };

    ghost view = { λ a. record { problem = a.problem.now; entries = a.entries.items } };

    ghost invariant = { λ a. AreKept a.problem.now a.flags.items a.entries.items (vec_capacity a.entries) };
}

impl<'p> BranchTrail<'p> {
    /// The base domains, with room for as many values and branches as there are pairs.
    pub fn new(alloc: Global, problem: &'p Problem) -> Result<BranchTrail<'p>, NoMemory>
        ensures ok { IfOk result (λ trail. trail ≡ record { problem = problem.now; entries = [] }) }
        ensures problem { IsProblem problem.now }
    {
        let flags = base_flags(alloc, problem)?;
        let entries = Vec::with_capacity(alloc, 2 * problem.depth() as usize)?;
        Ok(BranchTrail {
            problem,
            flags,
            entries,
        })
    }

    /// The problem.
    #[inline]
    pub fn problem(&self) -> &'p Problem
        ensures value { result.now ≡ self.now.problem }
        ensures problem { IsProblem self.now.problem }
    {
        self.problem
    }

    /// Whether `value` stands at `cell`.
    #[inline]
    pub fn has(&self, cell: u32, value: u16) -> bool
        requires cell_in { cell < self.now.problem.cells }
        requires value_in { value < values self.now.problem }
        ensures value { result ≡ standing self.now cell value }
    {
        self.flags[cell as usize * self.problem.values() as usize + value as usize]
    }

    /// How many entries there are.
    #[inline]
    pub fn len(&self) -> usize
        ensures value { result ≡ length self.now.entries }
    {
        self.entries.len()
    }

    /// Takes away a value that stands.
    #[inline]
    pub fn remove(&mut self, cell: u32, value: u16)
        requires stands { IsTrue (standing self.old cell value) }
        ensures more { self.new
            ≡ with_more self.old (record { cell = cell; value = value; waits = false }) }
    {
        self.flags[cell as usize * self.problem.values() as usize + value as usize] = false;
        self.entries.push_reserved(Entry {
            cell,
            value,
            waits: false,
        });
    }

    /// Puts off the branch without a value that stands.
    #[inline]
    pub fn put_off(&mut self, cell: u32, value: u16)
        requires stands { IsTrue (standing self.old cell value) }
        requires few { length (waits_of self.old) < depth_of self.old.problem }
        ensures more { self.new
            ≡ with_more self.old (record { cell = cell; value = value; waits = true }) }
    {
        self.entries.push_reserved(Entry {
            cell,
            value,
            waits: true,
        });
    }

    /// Takes the last entry back.
    #[inline]
    pub fn back(&mut self) -> Option<Entry>
        ensures none { result ≡ None → self.old.entries ≡ [] }
        ensures last { MatchOption result (self.new ≡ self.old)
            (λ entry. self.old ≡ with_more self.new entry) }
        ensures stood { MatchOption result (self.new ≡ self.old)
            (λ entry. IsTrue (standing self.new entry.cell entry.value)) }
    {
        let entry = self.entries.pop()?;
        if !entry.waits {
            self.flags[entry.cell as usize * self.problem.values() as usize
                + entry.value as usize] = true;
        }
        Some(entry)
    }

    /// Takes back all entries but the first ones, so many of them.
    pub fn back_to(&mut self, mark: usize)
        requires mark_in { mark ≤ length self.old.entries }
        ensures front { self.new ≡ record self.old { entries = take mark self.old.entries } }
    {
        while self.len() > mark {
            let _ = self.back();
        }
    }

    /// Takes back the innermost branch that waits, and all entries behind it.
    pub fn close(&mut self) -> Option<Entry>
        ensures none { result ≡ None → waits_of self.old ≡ [] }
        ensures some { MatchOption result ⊤ (λ entry. Resumes self.old self.new entry) }
        ensures same { self.new.problem ≡ self.old.problem }
    {
        while let Some(entry) = self.back() {
            if entry.waits {
                return Some(entry);
            }
        }
        None
    }
}

/// A flag for each pair of a cell and a value, set where it is in the base.
fn base_flags(alloc: Global, problem: &Problem) -> Result<Vec<bool>, AllocError>
    ensures base { IfOk result (λ flags. flags.items ≡ problem.now.base) }
    ensures problem { IsProblem problem.now }
{
    let pairs = problem.cells() as usize * problem.values() as usize;
    if problem.is_whole() {
        return Ok(vec![in alloc; true; pairs]?);
    }
    let mut flags = Vec::with_capacity(alloc, pairs)?;
    for place in 0..pairs {
        flags.push(problem.in_base_at(place))?;
    }
    Ok(flags)
}
