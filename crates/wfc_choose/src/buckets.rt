//! A chooser of the fewest values with an index of sizes.

ghost use Rattle.std.specs.Prelude.{◌≡◌, []};
ghost use Rattle.wfc_choose.specs.declared.RuleKind.TheVariants.{Fewest};

use crate::index::{FAN, first_open, mend_above, summary_of, time_of};
use crate::sizes::narrow_sizes;
use crate::{Chooser, RuleKind};
use std::alloc::Global;
use std::marker::Model;
use wfc_outside::NoMemory;

/// A chooser of the cell with the fewest values that keeps the cells by their size. It takes no memory but in `load`.
#[derive(Drop)]
pub struct Buckets {
    alloc: Global,
    /// The size of each cell.
    sizes: Vec<u16>,
    /// Of each 32 cells the size that comes first.
    blocks: Vec<u16>,
    /// Of each 32 blocks the size that comes first.
    areas: Vec<u16>,
    /// Of each 32 areas the size that comes first.
    regions: Vec<u16>,
}

impl Model for Buckets {
    ghost use Rattle.std.specs.Prelude.{[]};
    ghost use Rattle.wfc_choose.specs.Index.{IsIndex};
    ghost use Rattle.wfc_choose.specs.Told.{Told};
    ghost use Rattle.wfc_choose.specs.declared.RuleKind.TheVariants.{Fewest};

    ghost Value = { Told };

    ghost view = { λ it. record { rule = record { kind = Fewest; ranks = [] }; sizes = it.sizes.items } };

    ghost invariant = { λ it. IsIndex it.sizes.items it.blocks.items it.areas.items it.regions.items };
}

impl Buckets {
    /// Without any cells.
    pub fn new(alloc: Global) -> Buckets
        ensures begins { result
            ≡ record { rule = record { kind = Fewest; ranks = [] }; sizes = [] } }
    {
        Buckets {
            alloc,
            sizes: Vec::new(alloc),
            blocks: Vec::new(alloc),
            areas: Vec::new(alloc),
            regions: Vec::new(alloc),
        }
    }
}

impl Chooser for Buckets {
    ghost told = { λ it. it };

    fn kind(&self) -> RuleKind {
        let _ = &self.sizes;
        RuleKind::Fewest
    }

    fn load(&mut self, sizes: &[u32]) -> Result<(), NoMemory> {
        let sizes = narrow_sizes(self.alloc, sizes)?;
        let blocks = summary_of(self.alloc, &sizes)?;
        let areas = summary_of(self.alloc, &blocks)?;
        let regions = summary_of(self.alloc, &areas)?;
        self.sizes = sizes;
        self.blocks = blocks;
        self.areas = areas;
        self.regions = regions;
        Ok(())
    }

    fn resized(&mut self, cell: u32, size: u32) {
        let cell = cell as usize;
        let size = size as u16;
        let was = self.sizes[cell];
        self.sizes[cell] = size;
        let least = time_of(self.blocks[cell / FAN]);
        if least <= time_of(size) && least < time_of(was) {
            return;
        }
        mend_above(
            &self.sizes,
            &mut self.blocks,
            &mut self.areas,
            &mut self.regions,
            cell,
            was,
        );
    }

    fn pick(&self) -> Option<u32> {
        first_open(&self.sizes, &self.blocks, &self.areas, &self.regions)
    }
}
