//! Support counters: how many supports each value has left beside each cell.

ghost use Rattle.std.specs.Prelude.{◌≡◌, ℕ, ◌+◌, ◌*◌, ◌%◌, ◌<◌, ◌≤◌, ◌^◌, ◌⊎◌, ◌↔◌, IfOk, IsFalse, IsTrue, length};
ghost use Rattle.wfc_problem.specs.Network.{values, supports_of};
ghost use Rattle.wfc_domains.specs.Counters.{FitsTable, count_of, count_place, no_counts};

mod loading;
pub mod lowering;
mod marking;

use crate::pairs::Pairs;
use crate::singles::Singles;
use std::alloc::Global;
use std::marker::Model;
use std::mem::replace;
use wfc_outside::NoMemory;
use wfc_problem::Problem;

/// The largest count for which a byte has room beside its mark.
const SMALL: usize = 127;

/// The largest count of which two share a byte, each beside its mark.
const SMALLEST: usize = 7;

/// How many entries a cell must have, for two to share a byte: with fewer, those of a cell lie in one line of a
/// processor's cache as they are.
const LONG_ROW: usize = 64;

/// How many entries there must be, for two to share a byte: with fewer they take little memory as they are, and one
/// alone is lowered faster.
const MANY: usize = 1_000_000;

/// How many supports a value has in the mean, in all directions together, where there are few of them. A removal lowers as
/// many counts.
const FEW: usize = 12;

/// How many entries there must be, for two to share a byte, where values have more supports than a few.
const MANY_LOWERED: usize = 4_194_304;

/// One count for each cell, value and direction. Each can be marked beside, where no value has more than 127 supports
/// in a direction: a count and its mark take one byte then, and else a count takes two. Where no value has more than 7,
/// and there are many counts, two of them share a byte, each with its mark. A mark leaves the count as it is.
#[derive(Drop)]
pub struct Counters {
    cells: u32,
    values: usize,
    dirs: usize,
    is_paired: bool,
    pairs: Pairs,
    singles: Singles,
}

impl Model for Counters {
    ghost use Rattle.wfc_domains.specs.Counters.{Table};
    ghost use Rattle.wfc_domains.specs.Forms.{table_of, AreCounters};

    ghost Value = { Table };

    ghost view = { table_of };

    ghost invariant = { AreCounters };
}

impl Counters {
    /// A table of the problem's size, in which each count is 0.
    pub fn new(alloc: Global, problem: &Problem) -> Result<Counters, NoMemory>
        ensures ok { IfOk result (λ counters. counters ≡ no_counts problem.now counters.limit) }
        ensures fits { IfOk result (FitsTable problem.now) }
    {
        let cells = problem.cells();
        let values = problem.values() as usize;
        let dirs = problem.dirs() as usize;
        let places = cells as usize * values * dirs;
        let longest = longest_list(problem);
        let is_paired = are_paired(longest, values * dirs, places, many_places(problem));
        let paired = if is_paired { places } else { 0 };
        let alone = places - paired;
        Ok(Counters {
            cells,
            values,
            dirs,
            is_paired,
            pairs: Pairs::zeros(alloc, paired / 2)?,
            singles: Singles::zeros(alloc, alone, large_places(longest, alone))?,
        })
    }

    /// Where the counts of a value at a cell begin.
    #[inline]
    fn first_place(&self, cell: u32, value: u16) -> usize
        requires cell_in { cell < self.now.cells }
        requires value_in { value < self.now.values }
        ensures value { result ≡ count_place self.now.values self.now.dirs cell value 0 }
        ensures inside { result + self.now.dirs ≤ length self.now.counts }
        ensures few { length self.now.counts < 2 ^ 63 }
    {
        (cell as usize * self.values + value as usize) * self.dirs
    }

    /// Where the count of a value at a cell in a direction stands.
    #[inline]
    fn place(&self, cell: u32, value: u16, dir: usize) -> usize
        requires cell_in { cell < self.now.cells }
        requires value_in { value < self.now.values }
        requires dir_in { dir < self.now.dirs }
        ensures value { result ≡ count_place self.now.values self.now.dirs cell value dir }
        ensures inside { result < length self.now.counts }
    {
        self.first_place(cell, value) + dir
    }

    /// How many entries a cell has.
    #[inline]
    pub fn row_len(&self) -> usize
        requires some_cell { 0 < self.now.cells }
        ensures value { result ≡ self.now.values * self.now.dirs }
    {
        self.values * self.dirs
    }

    /// Whether two counts share a byte: none can be above 7 then, and else more can.
    #[inline]
    pub fn is_paired(&self) -> bool
        ensures paired { IsTrue result ↔ (self.now.limit ≡ 7) }
    {
        self.is_paired
    }

    /// Hands the table over, and leaves one without cells. It takes no memory.
    #[inline]
    pub fn take(&mut self) -> Counters
        ensures taken { result ≡ self.old }
    {
        let alloc = self.singles.allocator();
        let none = Counters {
            cells: 0,
            values: 0,
            dirs: 0,
            is_paired: false,
            pairs: Pairs::none(alloc),
            singles: Singles::none(alloc),
        };
        replace(self, none)
    }

    /// How many supports of `value` are counted beside `cell` in direction `dir`.
    #[inline]
    pub fn get(&self, cell: u32, value: u16, dir: u8) -> u32
        requires cell_in { cell < self.now.cells }
        requires value_in { value < self.now.values }
        requires dir_in { dir < self.now.dirs }
        ensures value { result ≡ count_of self.now cell value dir }
    {
        let place = self.place(cell, value, dir as usize);
        if self.is_paired {
            u32::from(self.pairs.count(place))
        } else {
            self.singles.count(place)
        }
    }

    /// Whether an entry of the cell may be 0: none is where this answers no.
    pub fn has_none(&self, cell: u32) -> bool
        requires cell_in { cell < self.now.cells }
        ensures some { IsFalse result → (v d : ℕ) → v < self.now.values → d < self.now.dirs
            → 0 < count_of self.now cell v d }
    {
        let row = self.values * self.dirs;
        let start = cell as usize * row;
        if self.is_paired {
            self.pairs.has_none(start, row)
        } else {
            self.singles.has_none(start, row)
        }
    }
}

/// Whether two counts share a byte where no list is longer than this, a cell has so many entries and all cells this many,
/// and so many are not yet enough.
fn are_paired(longest: usize, row: usize, places: usize, many: usize) -> bool
    ensures few { IsTrue result → longest ≤ 7 }
    ensures even { IsTrue result → row % 2 ≡ 0 }
{
    longest <= SMALLEST && row % 2 == 0 && row >= LONG_ROW && places > many
}

/// How many entries are not yet enough, for two to share a byte.
fn many_places(problem: &Problem) -> usize {
    let mut all: usize = 0;
    for value in 0..problem.values() {
        all = all.saturating_add(support_len(problem, value));
    }
    if all > FEW * problem.values() as usize {
        MANY_LOWERED
    } else {
        MANY
    }
}

/// How many supports a value has, in all directions together.
fn support_len(problem: &Problem, value: u16) -> usize
    requires value_in { value < values problem.now }
{
    let mut all: usize = 0;
    for dir in 0..problem.dirs() {
        all = all.saturating_add(problem.supports(value, dir).len());
    }
    all
}

/// How many large parts there are beside so many small ones, where no list is longer than this: as many, or none where
/// no count needs one.
fn large_places(longest: usize, places: usize) -> usize
    ensures both { (result ≡ 0) ⊎ (result ≡ places) }
    ensures few { 0 < places → result ≡ 0 → longest ≤ 127 }
{
    if longest > SMALL { places } else { 0 }
}

/// The length of the longest list of supports.
fn longest_list(problem: &Problem) -> usize
    ensures longest { (v d : ℕ) → length (supports_of problem.now v d) ≤ result }
{
    let mut longest = 0;
    for value in 0..problem.values() {
        longest = longest_side(problem, value).max(longest);
    }
    longest
}

/// The length of the longest list of supports of a value.
fn longest_side(problem: &Problem, value: u16) -> usize
    requires value_in { value < values problem.now }
    ensures longest { (d : ℕ) → length (supports_of problem.now value d) ≤ result }
{
    let mut longest = 0;
    for dir in 0..problem.dirs() {
        longest = problem.supports(value, dir).len().max(longest);
    }
    longest
}
