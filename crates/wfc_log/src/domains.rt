//! Domains: which values stand at each cell.

ghost use Rattle.std.specs.Prelude.{◌≡◌, ℕ, ◌+◌, ◌*◌, ◌<◌, ◌≤◌, ◌^◌, true, false, All, IsTrue, IsFalse, IfOk};
ghost use Rattle.std.specs.Prelude.{count_by, length, map, slice_index, slice_index_or, vec_len};
ghost use Rattle.std.specs.List.{range_with_len};
ghost use Rattle.wfc_problem.specs.Network.{row_of, values};
ghost use Rattle.wfc_problem.specs.declared.TheConstants.{MAX_VALUES};
ghost use Rattle.wfc_log.specs.declared.Verdict.TheVariants.{Alive, Dead};
ghost use Rattle.wfc_log.specs.Domains.{has, size_of, IsLess, IsFirstEmpty, base_of};

use crate::Verdict;
use crate::bits::Bits;
use std::alloc::{AllocError, Global};
use std::marker::Model;
use wfc_outside::NoMemory;
use wfc_problem::Problem;

/// The values that stand at each cell, one bit for each pair, and how many they are.
#[derive(Drop)]
pub struct Domains {
    values: u16,
    flags: Bits,
    sizes: Vec<u16>,
}

impl Model for Domains {
    ghost use Rattle.std.specs.Prelude.{length};
    ghost use Rattle.wfc_log.specs.Domains.{Flags};
    ghost use Rattle.wfc_log.specs.Sized.{AreSizes};

    ghost Value = { Flags };

    ghost view = { λ a. record { cells = length a.sizes.items; values = a.values; flags = a.flags } };

    ghost invariant = { λ a. AreSizes a.values a.flags a.sizes.items };
}

impl Domains {
    /// The base domains.
    pub fn new(alloc: Global, problem: &Problem) -> Result<Domains, NoMemory>
        ensures ok { IfOk result (λ domains. domains ≡ base_of problem.now) }
    {
        let flags = base_flags(alloc, problem)?;
        let sizes = base_sizes(alloc, problem)?;
        Ok(Domains {
            values: problem.values(),
            flags,
            sizes,
        })
    }

    /// Where the flag of a value at a cell stands.
    #[inline]
    fn place(&self, cell: u32, value: u16) -> usize
        requires cell_in { cell < self.now.cells }
        requires value_in { value < self.now.values }
        ensures value { result ≡ cell * self.now.values + value }
        ensures inside { result < length self.now.flags }
    {
        cell as usize * self.values as usize + value as usize
    }

    /// Whether `value` stands at `cell`.
    #[inline]
    pub fn has(&self, cell: u32, value: u16) -> bool
        requires cell_in { cell < self.now.cells }
        requires value_in { value < self.now.values }
        ensures value { result ≡ has self.now cell value }
    {
        self.flags.get(self.place(cell, value))
    }

    /// The first value from `from` on that stands at `cell`, or the number of values where none does.
    #[inline]
    pub fn next(&self, cell: u32, from: u16) -> u16
        requires cell_in { cell < self.now.cells }
        requires from_in { from ≤ self.now.values }
        ensures from { from ≤ result }
        ensures within { result ≤ self.now.values }
        ensures gone { (v : ℕ) → from ≤ v → v < result → has self.now cell v ≡ false }
        ensures stands { result < self.now.values → IsTrue (has self.now cell result) }
    {
        let start = cell as usize * self.values as usize;
        let end = start + self.values as usize;
        (self.flags.next(start + from as usize, end) - start) as u16
    }

    /// How many values stand at `cell`.
    #[inline]
    pub fn size(&self, cell: u32) -> u32
        requires cell_in { cell < self.now.cells }
        ensures value { result ≡ size_of self.now cell }
        ensures few { result ≤ MAX_VALUES }
    {
        u32::from(self.sizes[cell as usize])
    }

    /// How many values stand at each cell.
    #[inline]
    pub(crate) fn sizes(&self) -> &[u16]
        ensures value { result.now ≡ map (size_of self.now) (range_with_len 0 self.now.cells) }
    {
        &self.sizes
    }

    /// How many of these values stand at `cell`.
    pub fn count_among(&self, cell: u32, among: &[u16]) -> u16
        requires cell_in { cell < self.now.cells }
        requires values_in { All (λ value. value < self.now.values) among.now }
        requires few { length among.now < 2 ^ 16 }
        ensures value { result ≡ count_by (has self.now cell) among.now }
    {
        let mut count = 0;
        for value in among {
            if self.has(cell, *value) {
                count += 1;
            }
        }
        count
    }

    /// Alive where each cell has a value, else dead with the least cell that has none.
    pub fn verdict(&self) -> Verdict
        ensures alive { result ≡ Alive → (c : ℕ) → c < self.now.cells → 0 < size_of self.now c }
        ensures dead { (cell : ℕ) → result ≡ Dead cell → IsFirstEmpty self.now cell }
    {
        for cell in 0..self.cells() {
            if self.size(cell) == 0 {
                return Verdict::Dead { cell };
            }
        }
        Verdict::Alive
    }

    /// How many cells there are.
    #[inline]
    pub fn cells(&self) -> u32
        ensures value { result ≡ self.now.cells }
    {
        self.sizes.len() as u32
    }

    /// Takes away a value that stands.
    #[inline]
    pub fn remove(&mut self, cell: u32, value: u16)
        requires cell_in { cell < self.old.cells }
        requires value_in { value < self.old.values }
        requires stands { IsTrue (has self.old cell value) }
        ensures less { IsLess self.old self.new cell value }
    {
        let place = self.place(cell, value);
        self.flags.clear(place);
        self.sizes[cell as usize] -= 1;
    }

    /// Brings back a value that doesn't stand.
    #[inline]
    pub fn restore(&mut self, cell: u32, value: u16)
        requires cell_in { cell < self.old.cells }
        requires value_in { value < self.old.values }
        requires gone { IsFalse (has self.old cell value) }
        ensures less { IsLess self.new self.old cell value }
    {
        let place = self.place(cell, value);
        self.flags.set(place);
        self.sizes[cell as usize] += 1;
    }
}

/// A flag for each pair of a cell and a value, set where it is in the base.
fn base_flags(alloc: Global, problem: &Problem) -> Result<Bits, AllocError>
    ensures ok { IfOk result (λ flags. flags ≡ problem.now.base) }
{
    let flags = Bits::all(alloc, problem.cells() as usize * problem.values() as usize)?;
    if problem.is_whole() {
        return Ok(flags);
    }
    Ok(cut_to_base(problem, flags))
}

/// The flags, all of which are set, without those of pairs that are not in the base.
fn cut_to_base(problem: &Problem, mut flags: Bits) -> Bits
    requires long { length flags ≡ problem.now.cells * values problem.now }
    requires set { (k : ℕ) → k < length flags → slice_index_or flags k false ≡ true }
    ensures base { result ≡ problem.now.base }
{
    for place in 0..problem.cells() as usize * problem.values() as usize {
        if !problem.in_base_at(place) {
            flags.clear(place);
        }
    }
    flags
}

/// How many base values each cell has.
fn base_sizes(alloc: Global, problem: &Problem) -> Result<Vec<u16>, AllocError>
    ensures rows { IfOk result (λ sizes. vec_len sizes ≡ problem.now.cells) }
    ensures each { IfOk result (λ sizes. (c : ℕ) → c < problem.now.cells → slice_index sizes.items c
        ≡ count_by (λ flag. flag) (row_of (values problem.now) problem.now.base c)) }
{
    if problem.is_whole() {
        return Ok(vec![in alloc; problem.values(); problem.cells() as usize]?);
    }
    let mut sizes = Vec::with_capacity(alloc, problem.cells() as usize)?;
    for cell in 0..problem.cells() {
        sizes.push(base_size(problem, cell))?;
    }
    Ok(sizes)
}

/// How many base values the cell has.
fn base_size(problem: &Problem, cell: u32) -> u16
    requires cell_in { cell < problem.now.cells }
    ensures value { result
        ≡ count_by (λ flag. flag) (row_of (values problem.now) problem.now.base cell) }
{
    let mut count = 0;
    for value in 0..problem.values() {
        if problem.in_base(cell, value) {
            count += 1;
        }
    }
    count
}
