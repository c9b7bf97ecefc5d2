//! What the tables of a problem's parts say.

ghost use Rattle.std.specs.Prelude.{◌≡◌, ◌*◌, ◌<◌, ◌≤◌, [], count_by, length};
ghost use Rattle.std.specs.List.Sorted.{IsStrictlyIncreasing};
ghost use Rattle.wfc_problem.specs.Network.{values, neighbour, supports_of, ok};
ghost use Rattle.wfc_problem.specs.Whole.{is_whole};

use crate::{MAX_PAIRS, NO_CELL, Parts};

impl Parts {
    /// The cell beside `cell` in direction `dir`.
    #[inline]
    pub(crate) fn neighbour(&self, cell: u32, dir: u8) -> Option<u32>
        requires cell_in { cell < self.now.cells }
        requires dir_in { dir < self.now.dirs }
        requires table { length self.now.neighbours ≡ self.now.cells * self.now.dirs }
        ensures value { result ≡ neighbour self.now cell dir }
    {
        let entry = self.neighbours[cell as usize * self.dirs as usize + dir as usize];
        if entry == NO_CELL { None } else { Some(entry) }
    }

    /// The values that may stand beside `value` in direction `dir`.
    #[inline]
    pub(crate) fn supports(&self, value: u16, dir: u8) -> &[u16]
        requires value_in { value < values self.now }
        requires dir_in { dir < self.now.dirs }
        requires table { length self.now.supports ≡ values self.now * self.now.dirs }
        ensures value { result.now ≡ supports_of self.now value dir }
    {
        &self.supports[value as usize * self.dirs as usize + dir as usize]
    }

    /// Whether `w` may stand beside `v` in direction `dir`: a search in a sorted list.
    #[inline]
    pub(crate) fn ok(&self, dir: u8, v: u16, w: u16) -> bool
        requires value_in { v < values self.now }
        requires dir_in { dir < self.now.dirs }
        requires table { length self.now.supports ≡ values self.now * self.now.dirs }
        requires rising { IsStrictlyIncreasing (supports_of self.now v dir) }
        ensures value { result ≡ ok self.now dir v w }
    {
        self.supports(v, dir).binary_search(&w).is_ok()
    }

    /// How many flags of the base are set.
    pub(crate) fn depth(&self) -> usize
        ensures count { result ≡ count_by (λ flag. flag) self.now.base }
        ensures few { result ≤ length self.now.base }
    {
        self.base.iter().filter(|&&flag| flag).count()
    }

    /// How many pairs of a cell and a value there are.
    pub(crate) fn pairs(&self) -> usize
        requires limit { self.now.cells * values self.now ≤ MAX_PAIRS }
        ensures value { result ≡ self.now.cells * values self.now }
    {
        self.cells as usize * self.weights.len()
    }

    /// Whether each flag of the base is set.
    pub(crate) fn is_whole(&self) -> bool
        ensures value { result ≡ is_whole self.now }
    {
        let mut whole = true;
        for flag in &self.base {
            whole &= *flag;
        }
        whole
    }

    /// Gives back the memory of the base.
    pub(crate) fn forget_base(&mut self)
        ensures rest { self.new ≡ record self.old { base = [] } }
    {
        self.base.clear();
        self.base.shrink_to_fit();
    }
}
