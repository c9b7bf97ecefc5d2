//! The log of removals, with room for a fixed number of them.

ghost use Rattle.std.specs.Prelude.{◌≡◌, ◌+◌, ◌<◌, ◌≤◌, ◌++◌, ◌∷◌, [], length, drop, slice_get, Some, IfOk};
ghost use Rattle.wfc_log.specs.Domains.{base_of};
ghost use Rattle.wfc_log.specs.Log.{Log, cells_of, extent_of, loss_of, sizes_after, IsLogged};
ghost use Rattle.wfc_log.specs.declared.Removal.{Removal};

use crate::domains::Domains;
use crate::older::{Older, move_first, move_from, move_to};
use crate::{Loss, Removal};
use std::alloc::Global;
use std::marker::Model;
use wfc_outside::NoMemory;
use wfc_problem::Problem;

/// What was removed, in order. The removals of the last level can be read as a list. Those of earlier levels are kept as
/// numbers, so that less of the memory is ever written. It takes its memory where it is made.
#[derive(Drop)]
pub struct Trail {
    room: usize,
    older: Older,
    list: Vec<Removal>,
}

impl Model for Trail {
    ghost use Rattle.std.specs.Prelude.{◌++◌, length};
    ghost use Rattle.wfc_log.specs.Log.{Log};
    ghost use Rattle.wfc_log.specs.Recent.{HasRoomForAll};

    ghost Value = { Log };

    ghost view = { λ a. record {
      room = a.room;
      extent = a.older.extent;
      start = length a.older.removals;
      removals = a.older.removals ++ a.list.items;
    } };

    ghost invariant = { HasRoomForAll };
}

impl Trail {
    /// An empty log with room for so many removals from the base domains of a problem.
    pub fn new(
        alloc: Global,
        problem: &Problem,
        domains: &Domains,
        room: usize,
    ) -> Result<Trail, NoMemory>
        requires base { domains.now ≡ base_of problem.now }
        ensures ok { IfOk result (λ trail. trail
            ≡ record { room = room; extent = extent_of problem.now; start = 0; removals = [] }) }
    {
        Ok(Trail {
            room,
            older: Older::new(alloc, problem, domains, room)?,
            list: Vec::with_capacity(alloc, room)?,
        })
    }

    /// How many removals there are.
    #[inline]
    pub fn len(&self) -> usize
        ensures value { result ≡ length self.now.removals }
        ensures start { self.now.start ≤ result }
    {
        self.older.len() + self.list.len()
    }

    /// How many removals there are of earlier levels.
    #[inline]
    pub fn start(&self) -> usize
        ensures value { result ≡ self.now.start }
    {
        self.older.len()
    }

    /// The removal of the last level at an index of the whole log.
    #[inline]
    pub fn at(&self, index: usize) -> Removal
        requires recent { self.now.start ≤ index }
        requires index_in { index < length self.now.removals }
        ensures value { slice_get self.now.removals index ≡ Some result }
    {
        self.list[index - self.older.len()]
    }

    /// What the removal at an index took away, of whichever level it is.
    pub fn loss(&self, index: usize) -> Loss
        requires index_in { index < length self.now.removals }
        ensures value { (r : Removal) → slice_get self.now.removals index ≡ Some r → result
            ≡ loss_of r }
    {
        if index < self.older.len() {
            self.older.loss(index)
        } else {
            self.list[index - self.older.len()].loss()
        }
    }

    /// The removals of the last level.
    #[inline]
    pub fn last(&self) -> &[Removal]
        ensures value { result.now ≡ drop self.now.start self.now.removals }
    {
        &self.list
    }

    /// One more, of the last level.
    #[inline]
    pub fn push(&mut self, removal: Removal)
        requires room { length self.old.removals < self.old.room }
        requires logged { IsLogged self.old.extent (sizes_after self.old.extent.sizes (cells_of
            self.old.removals)) removal }
        ensures more { self.new ≡ record self.old { removals = self.old.removals ++ removal ∷ [] } }
    {
        self.list.push_reserved(removal);
    }

    /// Takes the last removal away.
    #[inline]
    pub fn pop(&mut self) -> Removal
        requires some { 0 < length self.old.removals }
        ensures last { self.old.removals ≡ self.new.removals ++ result ∷ [] }
        ensures same { self.new
            ≡ record self.old { start = self.new.start; removals = self.new.removals } }
    {
        match self.list.pop() {
            Some(removal) => removal,
            None => self.older.pop(),
        }
    }

    /// Begins a level: all removals are of earlier levels.
    pub fn begin(&mut self)
        ensures begun { self.new ≡ record self.old { start = length self.old.removals } }
    {
        move_to(&mut self.older, &mut self.list);
    }

    /// The first removals of the last level, so many, are of earlier ones from now on.
    pub fn settle(&mut self, count: usize)
        requires within { self.old.start + count ≤ length self.old.removals }
        ensures settled { self.new ≡ record self.old { start = self.old.start + count } }
    {
        move_first(&mut self.older, &mut self.list, count);
    }

    /// Goes back to a level that began with so many removals.
    pub fn reopen(&mut self, start: usize)
        requires within { start ≤ length self.old.removals }
        ensures reopened { self.new ≡ record self.old { start = start } }
    {
        move_to(&mut self.older, &mut self.list);
        move_from(&mut self.older, start, &mut self.list);
        self.list.reverse();
    }
}
