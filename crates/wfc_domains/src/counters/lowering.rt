//! Counters lowered and raised by one.

ghost use Rattle.std.specs.Prelude.{◌≡◌, ◌≢◌, ◌+◌, ◌-◌, ◌%◌, ◌<◌, ◌↔◌, IsTrue, length, slice_index};
ghost use Rattle.wfc_domains.specs.Counters.{count_of, entry_of, with_count, with_entry};
ghost use Rattle.wfc_domains.specs.Pairs.{unit_at, mask_at};

use super::Counters;
use crate::steps::Steps;
use std::sync::ledger::Ledger;

impl Counters {
    /// One less, and whether none is left and it isn't marked. It is one step.
    #[inline]
    pub fn down<L: Ledger>(&mut self, cell: u32, value: u16, dir: u8, steps: &mut Steps<L>) -> bool
        requires cell_in { cell < self.old.cells }
        requires value_in { value < self.old.values }
        requires dir_in { dir < self.old.dirs }
        requires some { 0 < count_of self.old cell value dir }
        ensures bare { IsTrue result ↔ (entry_of self.old cell value dir ≡ 1) }
        ensures changed { self.new
            ≡ with_count self.old cell value dir (entry_of self.old cell value dir - 1) }
        ensures steps { steps.new ≡ steps.old + 1 }
    {
        let place = self.place(cell, value, dir as usize);
        self.down_at(place, steps)
    }

    /// One less at a place of the table, and whether none is left there and it isn't marked. It is one step.
    #[inline]
    pub fn down_at<L: Ledger>(&mut self, place: usize, steps: &mut Steps<L>) -> bool
        requires place_in { place < length self.old.counts }
        requires some { 0 < slice_index self.old.counts place % 32768 }
        ensures bare { IsTrue result ↔ (slice_index self.old.counts place ≡ 1) }
        ensures changed { self.new
            ≡ with_entry self.old place (slice_index self.old.counts place - 1) }
        ensures steps { steps.new ≡ steps.old + 1 }
    {
        if self.is_paired {
            self.down_pair(place, unit_at(place), mask_at(place), steps)
        } else {
            self.down_alone(place, steps)
        }
    }

    /// What `down_at` does where each count has a byte of its own.
    #[inline(always)]
    pub fn down_alone<L: Ledger>(&mut self, place: usize, steps: &mut Steps<L>) -> bool
        requires alone { self.old.limit ≢ 7 }
        requires place_in { place < length self.old.counts }
        requires some { 0 < slice_index self.old.counts place % 32768 }
        ensures bare { IsTrue result ↔ (slice_index self.old.counts place ≡ 1) }
        ensures changed { self.new
            ≡ with_entry self.old place (slice_index self.old.counts place - 1) }
        ensures steps { steps.new ≡ steps.old + 1 }
    {
        steps.tick();
        self.singles.down(place)
    }

    /// What `down_at` does where two counts share a byte: what one more at the place is in its byte, and which bits of it the
    /// place has, are told.
    #[inline(always)]
    pub fn down_pair<L: Ledger>(
        &mut self,
        place: usize,
        unit: u8,
        mask: u8,
        steps: &mut Steps<L>,
    ) -> bool
        requires paired { self.old.limit ≡ 7 }
        requires unit { unit ≡ unit_at place }
        requires mask { mask ≡ mask_at place }
        requires place_in { place < length self.old.counts }
        requires some { 0 < slice_index self.old.counts place % 32768 }
        ensures bare { IsTrue result ↔ (slice_index self.old.counts place ≡ 1) }
        ensures changed { self.new
            ≡ with_entry self.old place (slice_index self.old.counts place - 1) }
        ensures steps { steps.new ≡ steps.old + 1 }
    {
        steps.tick();
        self.pairs.down(place, unit, mask)
    }

    /// One more. It is one step.
    #[inline]
    pub fn up<L: Ledger>(&mut self, cell: u32, value: u16, dir: u8, steps: &mut Steps<L>)
        requires cell_in { cell < self.old.cells }
        requires value_in { value < self.old.values }
        requires dir_in { dir < self.old.dirs }
        requires limit { count_of self.old cell value dir < self.old.limit }
        ensures changed { self.new
            ≡ with_count self.old cell value dir (entry_of self.old cell value dir + 1) }
        ensures steps { steps.new ≡ steps.old + 1 }
    {
        let place = self.place(cell, value, dir as usize);
        steps.tick();
        if self.is_paired {
            self.pairs.up(place);
        } else {
            self.singles.up(place);
        }
    }
}

/// What one more at a place is in a byte that two counts share.
#[inline]
pub fn unit_at(place: usize) -> u8
    ensures value { result ≡ unit_at place }
{
    if place % 2 == 0 { 1 } else { 16 }
}

/// Which bits a place has of a byte that two counts share.
#[inline]
pub fn mask_at(place: usize) -> u8
    ensures value { result ≡ mask_at place }
{
    if place % 2 == 0 { 15 } else { 240 }
}
