//! What a problem says of its cells and values.

ghost use Rattle.std.specs.Prelude.{◌≡◌, ◌*◌, ◌^◌, ◌<◌, IfOk, false, length, map, slice_index_or};
ghost use Rattle.wfc_problem.specs.Network.{values, value_weight, neighbour, entry_cell, beside, supports_of, ok, in_base, IsProblem};
ghost use Rattle.wfc_problem.specs.Hops.{hop_cell};
ghost use Rattle.wfc_problem.specs.Rounds.{depth_of};
ghost use Rattle.wfc_problem.specs.Whole.{is_whole};
ghost use Rattle.wfc_problem.specs.Strides.{AreStrides};

use crate::{Problem, Strides, hop_cell};
use std::alloc::Global;
use wfc_outside::NoMemory;

impl Problem {
    /// How many cells there are.
    #[inline]
    pub fn cells(&self) -> u32
        ensures value { result ≡ self.now.cells }
        ensures problem { IsProblem self.now }
    {
        self.parts.cells
    }

    /// How many values there are.
    #[inline]
    pub fn values(&self) -> u16
        ensures value { result ≡ values self.now }
        ensures problem { IsProblem self.now }
    {
        self.parts.weights.len() as u16
    }

    /// How many directions there are, 4 or 6.
    #[inline]
    pub fn dirs(&self) -> u8
        ensures value { result ≡ self.now.dirs }
        ensures problem { IsProblem self.now }
    {
        self.parts.dirs
    }

    /// The cell beside `cell` in direction `dir`, if there is one.
    #[inline]
    pub fn neighbour(&self, cell: u32, dir: u8) -> Option<u32>
        requires cell_in { cell < self.now.cells }
        requires dir_in { dir < self.now.dirs }
        ensures value { result ≡ neighbour self.now cell dir }
        ensures problem { IsProblem self.now }
    {
        hop_cell(cell, self.hops(cell)[dir as usize])
    }

    /// What is added to the number of `cell` to come to the cell beside it, for each direction, or `NO_HOP`.
    #[inline]
    pub fn hops(&self, cell: u32) -> &[u32]
        requires cell_in { cell < self.now.cells }
        ensures value { map (hop_cell cell) result.now ≡ map entry_cell (beside self.now cell) }
        ensures problem { IsProblem self.now }
    {
        self.hops.row(cell)
    }

    /// The hops from cells with four neighbours, and what they are in a table that has a row of so many entries for each
    /// cell. Its time is linear in the number of kinds of cells.
    pub fn strides(&self, alloc: Global, row_len: u32) -> Result<Strides<'_>, NoMemory>
        requires small { self.now.cells * row_len < 2 ^ 32 }
        ensures sides { IfOk result (AreStrides self.now row_len) }
        ensures problem { IsProblem self.now }
    {
        self.hops.strides(alloc, row_len)
    }

    /// The values that may stand beside `value` in direction `dir`, strictly rising.
    #[inline]
    pub fn supports(&self, value: u16, dir: u8) -> &[u16]
        requires value_in { value < values self.now }
        requires dir_in { dir < self.now.dirs }
        ensures value { result.now ≡ supports_of self.now value dir }
        ensures problem { IsProblem self.now }
    {
        self.parts.supports(value, dir)
    }

    /// Whether `w` may stand beside `v` in direction `dir`: a search in a sorted list.
    #[inline]
    pub fn ok(&self, dir: u8, v: u16, w: u16) -> bool
        requires dir_in { dir < self.now.dirs }
        requires v_in { v < values self.now }
        requires w_in { w < values self.now }
        ensures value { result ≡ ok self.now dir v w }
        ensures problem { IsProblem self.now }
    {
        self.parts.ok(dir, v, w)
    }

    /// Whether `cell` may have `value` at all.
    #[inline]
    pub fn in_base(&self, cell: u32, value: u16) -> bool
        requires cell_in { cell < self.now.cells }
        requires value_in { value < values self.now }
        ensures value { result ≡ in_base self.now cell value }
        ensures problem { IsProblem self.now }
    {
        self.in_base_at(cell as usize * self.parts.weights.len() + value as usize)
    }

    /// Whether the pair at `place` is in the base. That of `value` at `cell` stands at `cell` times
    /// the number of values, plus `value`.
    #[inline]
    pub fn in_base_at(&self, place: usize) -> bool
        requires place_in { place < length self.now.base }
        ensures value { result ≡ slice_index_or self.now.base place false }
        ensures problem { IsProblem self.now }
    {
        self.whole || self.parts.base[place]
    }

    /// Whether each cell may have each value.
    #[inline]
    pub fn is_whole(&self) -> bool
        ensures value { result ≡ is_whole self.now }
        ensures problem { IsProblem self.now }
    {
        self.whole
    }

    /// How much `value` weighs in a draw, 1 to `MAX_WEIGHT`.
    #[inline]
    pub fn weight(&self, value: u16) -> u32
        requires value_in { value < values self.now }
        ensures value { result ≡ value_weight self.now value }
        ensures problem { IsProblem self.now }
    {
        self.parts.weights[value as usize]
    }

    /// How many pairs of a cell and a value of its base there are. It counts them anew where not
    /// each cell may have each value.
    pub fn depth(&self) -> u32
        ensures value { result ≡ depth_of self.now }
        ensures problem { IsProblem self.now }
    {
        if self.whole {
            self.parts.pairs() as u32
        } else {
            self.parts.depth() as u32
        }
    }
}
