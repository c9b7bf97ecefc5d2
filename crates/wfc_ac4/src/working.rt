//! Removals worked off.

ghost use Rattle.std.specs.Prelude.{◌≡◌, ℕ, ◌+◌, ◌-◌, ◌/◌, ◌%◌, ◌<◌, ◌≤◌, ◌^◌, ◌↔◌, [], length, slice_get, slice_index, IfSome, IsTrue, Some};
ghost use Rattle.wfc_problem.specs.Hops.{hop_end};
ghost use Rattle.wfc_problem.specs.Network.{values};
ghost use Rattle.wfc_log.specs.declared.Verdict.TheVariants.{Alive};
ghost use Rattle.wfc_domains.specs.Counters.{FitsTable, cost_at, counter_place, with_entry};
ghost use Rattle.wfc_domains.specs.Pairs.{unit_at, mask_at};
ghost use Rattle.wfc_domains.specs.Board.{Grows, HasValues, IsListed, IsTraced};
ghost use Rattle.wfc_ac4.specs.Places.{counter_places};
ghost use Rattle.wfc_ac4.specs.Links.{AreLinks, links_of};
ghost use Rattle.wfc_ac4.specs.State.{IsWorking, IsBetweenRemovals};
ghost use Rattle.wfc_ac4.specs.Flight.{front_cost, GoesOn, HasFourSides, IsStruck};

use crate::flight::Flight;
use crate::links::{Links, SupportLink};
use std::sync::ledger::Ledger;
use wfc_domains::{Cause, Counters, Removal, Steps, is_alive};
use wfc_problem::{FourSides, hop_cell, hop_end};

/// The value whose entry stands at an offset within its cell. Division by 4 alone is a shift.
#[inline]
fn value_at(offset: u32, dirs: u8) -> u16
    requires some { 0 < dirs }
    requires few { offset / dirs < 2 ^ 16 }
    ensures value { result ≡ offset / dirs }
{
    if dirs == 4 {
        (offset / 4) as u16
    } else {
        (offset / u32::from(dirs)) as u16
    }
}

/// Where the counters of four neighbours begin: a stride each from where those of the cell do. They are found once for a
/// removal.
#[inline]
fn starts_of(base: u32, strides: &[u32; 4]) -> [u32; 4]
    ensures begins { (d : ℕ) → d < 4 → slice_index result d
        ≡ hop_end base (slice_index strides.now d) }
{
    [
        hop_end(base, strides[0]),
        hop_end(base, strides[1]),
        hop_end(base, strides[2]),
        hop_end(base, strides[3]),
    ]
}

/// One less of the counter that a link lowers, which stands at a place of the table, and whether it came to 0 and isn't marked.
#[inline(always)]
fn lower<L: Ledger>(
    counters: &mut Counters,
    paired: bool,
    link: &SupportLink,
    place: usize,
    steps: &mut Steps<L>,
) -> bool
    requires paired { IsTrue paired ↔ (counters.old.limit ≡ 7) }
    requires unit { link.now.unit ≡ unit_at place }
    requires mask { link.now.mask ≡ mask_at place }
    requires place_in { place < length counters.old.counts }
    requires some { 0 < slice_index counters.old.counts place % 32768 }
    ensures bare { IsTrue result ↔ (slice_index counters.old.counts place ≡ 1) }
    ensures changed { counters.new
        ≡ with_entry counters.old place (slice_index counters.old.counts place - 1) }
    ensures steps { steps.new ≡ steps.old + 1 }
{
    if paired {
        counters.down_pair(place, link.unit, link.mask, steps)
    } else {
        counters.down_alone(place, steps)
    }
}

impl<'p> Flight<'p> {
    /// Removes a value at a cell, if it stands there and no cell is empty: its counter for the way back, which stands at
    /// `at`, came to 0.
    #[inline(always)]
    fn strike(&mut self, counters: &mut Counters, cell: u32, value: u16, back: u8, at: usize)
        requires traced { IsTraced self.old.board }
        requires filled { self.old.board.verdict ≡ Alive → HasValues self.old.board }
        requires fits { FitsTable self.old.board.problem.now counters.old }
        requires cell_in { cell < self.old.board.problem.now.cells }
        requires value_in { value < values self.old.board.problem.now }
        requires back_in { back < self.old.board.problem.now.dirs }
        requires at { at ≡ counter_place self.old.board.problem.now cell value back }
        ensures struck { IsStruck self.old self.new counters.old counters.new cell value back }
    {
        if self.board.domains.has(cell, value) && is_alive(self.board.verdict) {
            self.board.remove(cell, value, Cause::Arc(back));
            counters.mark_at(at - back as usize, cell, value);
        }
    }

    /// Lowers the counters that count a removal, and removes what has no support left.
    #[inline(always)]
    fn work_links<L: Ledger>(
        &mut self,
        counters: &mut Counters,
        paired: bool,
        index: usize,
        cell: u32,
        value: u16,
        sides: Option<&FourSides>,
        links: &[SupportLink],
        steps: &mut Steps<L>,
    )
        requires paired { IsTrue paired ↔ (counters.old.limit ≡ 7) }
        requires sides { IfSome sides (λ s. HasFourSides self.old cell s.now) }
        requires links { links.now ≡ links_of self.old.board.problem.now value }
        requires working { IsWorking self.old.board counters.old index cell value [] }
        ensures working { IsWorking self.new.board counters.new index cell value
            (counter_places self.new.board.problem.now cell value) }
        ensures limit { counters.new.limit ≡ counters.old.limit }
        ensures goes_on { GoesOn self.old self.new }
        ensures steps { steps.new ≡ steps.old + cost_at self.old.board.problem.now cell value }
    {
        match sides {
            Some(sides) => {
                self.work_four(counters, paired, index, cell, value, sides, links, steps)
            }
            None => self.work_sides(counters, index, cell, value, links, steps),
        }
    }

    /// The same for a cell with four neighbours, which has these sides.
    #[inline(always)]
    fn work_four<L: Ledger>(
        &mut self,
        counters: &mut Counters,
        paired: bool,
        index: usize,
        cell: u32,
        value: u16,
        sides: &FourSides,
        links: &[SupportLink],
        steps: &mut Steps<L>,
    )
        requires paired { IsTrue paired ↔ (counters.old.limit ≡ 7) }
        requires sides { HasFourSides self.old cell sides.now }
        requires links { links.now ≡ links_of self.old.board.problem.now value }
        requires working { IsWorking self.old.board counters.old index cell value [] }
        ensures working { IsWorking self.new.board counters.new index cell value
            (counter_places self.new.board.problem.now cell value) }
        ensures limit { counters.new.limit ≡ counters.old.limit }
        ensures goes_on { GoesOn self.old self.new }
        ensures steps { steps.new ≡ steps.old + cost_at self.old.board.problem.now cell value }
    {
        let base = (cell as usize * counters.row_len()) as u32;
        let starts = starts_of(base, &sides.strides);
        for link in links {
            let place = (starts[link.dir as usize] + link.offset) as usize;
            if lower(counters, paired, link, place, steps) {
                let next = hop_end(cell, sides.hops[link.dir as usize]);
                self.strike(counters, next, (link.offset / 4) as u16, link.back, place);
            }
        }
    }

    /// The same for any cell.
    #[cold]
    #[inline(never)]
    fn work_sides<L: Ledger>(
        &mut self,
        counters: &mut Counters,
        index: usize,
        cell: u32,
        value: u16,
        links: &[SupportLink],
        steps: &mut Steps<L>,
    )
        requires links { links.now ≡ links_of self.old.board.problem.now value }
        requires working { IsWorking self.old.board counters.old index cell value [] }
        ensures working { IsWorking self.new.board counters.new index cell value
            (counter_places self.new.board.problem.now cell value) }
        ensures limit { counters.new.limit ≡ counters.old.limit }
        ensures goes_on { GoesOn self.old self.new }
        ensures steps { steps.new ≡ steps.old + cost_at self.old.board.problem.now cell value }
    {
        let problem = self.board.problem;
        let hops = problem.hops(cell);
        let row_len = counters.row_len();
        for link in links {
            if let Some(next) = hop_cell(cell, hops[link.dir as usize]) {
                let place = next as usize * row_len + link.offset as usize;
                if counters.down_at(place, steps) {
                    let other = value_at(link.offset, problem.dirs());
                    self.strike(counters, next, other, link.back, place);
                }
            }
        }
    }

    /// Works off the removal at an index of the log.
    #[inline(always)]
    fn work_off<L: Ledger>(
        &mut self,
        counters: &mut Counters,
        paired: bool,
        index: usize,
        removal: Removal,
        links: &Links<'_>,
        steps: &mut Steps<L>,
    )
        requires paired { IsTrue paired ↔ (counters.old.limit ≡ 7) }
        requires between { IsBetweenRemovals self.old.board counters.old index }
        requires linked { AreLinks self.old.board.problem.now links.now }
        requires there { slice_get self.old.board.trail.removals index ≡ Some removal }
        ensures between { IsBetweenRemovals self.new.board counters.new (index + 1) }
        ensures limit { counters.new.limit ≡ counters.old.limit }
        ensures grows { Grows self.old.board self.new.board }
        ensures start { self.new.board.trail.start ≡ self.old.board.trail.start }
        ensures steps { steps.new + front_cost self.old self.old index
            ≡ steps.old + front_cost self.old self.old (index + 1) }
    {
        let list = links.of(self.board.problem, removal.value);
        let sides = links.sides(self.board.problem, removal.cell);
        self.work_links(
            counters,
            paired,
            index,
            removal.cell,
            removal.value,
            sides,
            list,
            steps,
        );
    }

    /// Works off what is pending, until nothing is or a cell is empty, with the counters at hand. Whether two counts share
    /// a byte is asked once. Where a level gets long, what was worked off leaves the list of the log.
    #[inline(always)]
    fn close_with<L: Ledger>(
        &mut self,
        counters: &mut Counters,
        paired: bool,
        links: &Links<'_>,
        steps: &mut Steps<L>,
    )
        requires paired { IsTrue paired ↔ (counters.old.limit ≡ 7) }
        requires between { IsBetweenRemovals self.old.board counters.old self.old.head }
        requires linked { AreLinks self.old.board.problem.now links.now }
        requires recent { self.old.board.trail.start ≤ self.old.head }
        requires listed { IsListed self.old.board }
        ensures between { IsBetweenRemovals self.new.board counters.new self.new.head }
        ensures closed { self.new.board.verdict ≡ Alive → self.new.head
            ≡ length self.new.board.trail.removals }
        ensures forward { self.old.head ≤ self.new.head }
        ensures listed { IsListed self.new.board }
        ensures idle { self.old.board.trail.removals ≡ [] → self.new.board.trail.removals ≡ [] }
        ensures grows { Grows self.old.board self.new.board }
        ensures steps { steps.new + front_cost self.old self.new self.old.head
            ≡ steps.old + front_cost self.old self.new self.new.head }
    {
        let most_listed = self.board.most_listed();
        let mut start = self.board.trail.start();
        let mut at = self.head - start;
        while is_alive(self.board.verdict) && at < self.board.trail.last().len() {
            let removal = self.board.trail.last()[at];
            self.work_off(counters, paired, start + at, removal, links, steps);
            at += 1;
            if at == most_listed {
                self.board.trail.settle(at);
                start += at;
                at = 0;
            }
        }
        self.head = start + at;
    }

    /// Works off what is pending, until nothing is or a cell is empty. The counters are held by this call alone, so that
    /// where they lie is read once and not for each link.
    pub fn close<L: Ledger>(&mut self, links: &Links<'_>, steps: &mut Steps<L>)
        requires between { IsBetweenRemovals self.old.board self.old.counters self.old.head }
        requires linked { AreLinks self.old.board.problem.now links.now }
        requires recent { self.old.board.trail.start ≤ self.old.head }
        requires listed { IsListed self.old.board }
        ensures between { IsBetweenRemovals self.new.board self.new.counters self.new.head }
        ensures closed { self.new.board.verdict ≡ Alive → self.new.head
            ≡ length self.new.board.trail.removals }
        ensures forward { self.old.head ≤ self.new.head }
        ensures listed { IsListed self.new.board }
        ensures idle { self.old.board.trail.removals ≡ [] → self.new.board.trail.removals ≡ [] }
        ensures grows { Grows self.old.board self.new.board }
        ensures steps { steps.new + front_cost self.old self.new self.old.head
            ≡ steps.old + front_cost self.old self.new self.new.head }
    {
        let mut counters = self.counters.take();
        if counters.is_paired() {
            self.close_with(&mut counters, true, links, steps);
        } else {
            self.close_with(&mut counters, false, links, steps);
        }
        self.counters = counters;
    }
}
