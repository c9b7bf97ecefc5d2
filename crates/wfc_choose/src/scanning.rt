//! A chooser that looks through all sizes.

ghost use Rattle.std.specs.Prelude.{◌≡◌, ℕ, ◌+◌, ◌<◌, ◌≤◌, List, [], length, slice_index};
ghost use Rattle.wfc_choose.specs.Pick.{picked_cell, urge, IsBestBelow};
ghost use Rattle.wfc_choose.specs.declared.RuleKind.TheVariants.{Scanline, Fewest, Ranked};
ghost use Rattle.wfc_problem.specs.declared.TheConstants.{MAX_PAIRS};

use crate::sizes::narrow_sizes;
use crate::{Chooser, NO_RANK, RuleKind};
use std::alloc::Global;
use std::marker::Model;
use wfc_outside::NoMemory;

/// A chooser of any kind that looks through all sizes at each pick.
#[derive(Drop)]
pub struct Scanning {
    alloc: Global,
    kind: RuleKind,
    ranks: Vec<u32>,
    sizes: Vec<u16>,
}

impl Model for Scanning {
    ghost use Rattle.std.specs.Prelude.{◌≤◌, length};
    ghost use Rattle.wfc_choose.specs.Told.{Told};
    ghost use Rattle.wfc_problem.specs.declared.TheConstants.{MAX_PAIRS};

    ghost Value = { Told };

    ghost view = { λ it. record { rule = record { kind = it.kind; ranks = it.ranks.items }; sizes = it.sizes.items } };

    ghost invariant = { λ it. length it.sizes.items ≤ MAX_PAIRS };
}

impl Scanning {
    /// The least cell first.
    pub fn scanline(alloc: Global) -> Scanning
        ensures begins { result
            ≡ record { rule = record { kind = Scanline; ranks = [] }; sizes = [] } }
    {
        Scanning {
            alloc,
            kind: RuleKind::Scanline,
            ranks: Vec::new(alloc),
            sizes: Vec::new(alloc),
        }
    }

    /// The cell with the fewest values first.
    pub fn fewest(alloc: Global) -> Scanning
        ensures begins { result
            ≡ record { rule = record { kind = Fewest; ranks = [] }; sizes = [] } }
    {
        Scanning {
            alloc,
            kind: RuleKind::Fewest,
            ranks: Vec::new(alloc),
            sizes: Vec::new(alloc),
        }
    }

    /// The cell of the least rank first. The ranks are those of the first cells; the others have `NO_RANK`.
    pub fn least_rank(alloc: Global, ranks: Vec<u32>) -> Scanning
        ensures begins { result
            ≡ record { rule = record { kind = Ranked; ranks = ranks.items }; sizes = [] } }
    {
        Scanning {
            alloc,
            kind: RuleKind::Ranked,
            ranks,
            sizes: Vec::new(alloc),
        }
    }
}

/// What a kind of rule goes by at a cell.
fn urge(kind: RuleKind, ranks: &[u32], sizes: &[u16], cell: u32) -> u32
    requires cell_in { cell < length sizes.now }
    ensures value { result ≡ urge (record { kind = kind; ranks = ranks.now }) sizes.now cell }
{
    match kind {
        RuleKind::Scanline => 0,
        RuleKind::Fewest => u32::from(sizes[cell as usize]),
        RuleKind::Ranked => ranks.get(cell as usize).copied().unwrap_or(NO_RANK),
    }
}

/// The better of one more cell and of the best before it.
fn better(kind: RuleKind, ranks: &[u32], sizes: &[u16], best: Option<u32>, cell: u32) -> Option<u32>
    requires cell_in { cell < length sizes.now }
    requires limit { length sizes.now ≤ MAX_PAIRS }
    requires before { IsBestBelow (record { kind = kind; ranks = ranks.now }) sizes.now cell best }
    ensures best { IsBestBelow (record { kind = kind; ranks = ranks.now })
        sizes.now (cell + 1) result }
{
    if sizes[cell as usize] < 2 {
        return best;
    }
    match best {
        None => Some(cell),
        Some(other) => {
            if urge(kind, ranks, sizes, cell) < urge(kind, ranks, sizes, other) {
                Some(cell)
            } else {
                best
            }
        }
    }
}

/// The best of all cells.
fn best_of(kind: RuleKind, ranks: &[u32], sizes: &[u16]) -> Option<u32>
    requires limit { length sizes.now ≤ MAX_PAIRS }
    ensures exact { result ≡ picked_cell (record { kind = kind; ranks = ranks.now }) sizes.now }
{
    let mut best = None;
    for cell in 0..sizes.len() as u32 {
        best = better(kind, ranks, sizes, best, cell);
    }
    best
}

/// The first cell with two values or more.
fn first_open(sizes: &[u16]) -> Option<u32>
    requires limit { length sizes.now ≤ MAX_PAIRS }
    ensures exact { (ranks : List ℕ) →
        result ≡ picked_cell (record { kind = Scanline; ranks = ranks }) sizes.now }
{
    for cell in 0..sizes.len() as u32 {
        if sizes[cell as usize] >= 2 {
            return Some(cell);
        }
    }
    None
}

impl Chooser for Scanning {
    ghost told = { λ it. it };

    fn kind(&self) -> RuleKind {
        self.kind
    }

    fn load(&mut self, sizes: &[u32]) -> Result<(), NoMemory> {
        self.sizes = narrow_sizes(self.alloc, sizes)?;
        Ok(())
    }

    fn resized(&mut self, cell: u32, size: u32) {
        self.sizes[cell as usize] = size as u16;
    }

    fn pick(&self) -> Option<u32> {
        match self.kind {
            RuleKind::Scanline => first_open(&self.sizes),
            _ => best_of(self.kind, &self.ranks, &self.sizes),
        }
    }
}
