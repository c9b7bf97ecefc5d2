//! The hops from cells with four neighbours, and how far these hops lead in a table that has a row for each cell: a reader
//! of such a table needs no product for each neighbour.

ghost use Rattle.std.specs.Prelude.{◌≡◌, ◌<◌, IfNone, IfOk, IfSome, None, Some};
ghost use Rattle.wfc_problem.specs.Strides.{AreSidesByKind, AreSidesOf, sides_at};

use crate::NO_HOP;
use std::alloc::Global;
use std::marker::Model;
use wfc_outside::NoMemory;

/// The hop from a cell to each of its four neighbours, and that hop times the length of a row, cut to 32 bits.
#[derive(Clone, Copy, Debug)]
pub struct FourSides {
    pub hops: [u32; 4],
    pub strides: [u32; 4],
}

/// The sides of cells with four neighbours, kept once for all cells that have the same hops.
#[derive(Drop)]
pub struct Strides<'p> {
    /// For each cell which sides are its own; empty where none are kept.
    kinds: &'p [u8],
    sides: Vec<Option<FourSides>>,
}

impl<'p> Model for Strides<'p> {
    ghost use Rattle.std.specs.Prelude.{List, Option};
    ghost use Rattle.wfc_problem.specs.Strides.{sides_by_kind};
    ghost use Rattle.wfc_problem.specs.declared.strides.FourSides.{FourSides};

    ghost Value = { List (Option FourSides) };

    ghost view = { λ a. sides_by_kind a.kinds.now a.sides.items };
}

impl FourSides {
    /// The sides of a cell with these hops, if each of four leads to a cell.
    fn of(hops: &[u32], row_len: u32) -> Option<FourSides>
        ensures some { IfSome result (AreSidesOf row_len hops.now) }
    {
        if hops.len() != 4 {
            return None;
        }
        if hops[0] == NO_HOP || hops[1] == NO_HOP || hops[2] == NO_HOP || hops[3] == NO_HOP {
            return None;
        }
        Some(FourSides {
            hops: [hops[0], hops[1], hops[2], hops[3]],
            strides: [
                hops[0].wrapping_mul(row_len),
                hops[1].wrapping_mul(row_len),
                hops[2].wrapping_mul(row_len),
                hops[3].wrapping_mul(row_len),
            ],
        })
    }
}

impl<'p> Strides<'p> {
    /// The sides of cells of these kinds, each of which has a row of so many hops. None are kept where there are no kinds.
    pub(crate) fn new(
        alloc: Global,
        kinds: &'p [u8],
        rows: &[u32],
        dirs: u8,
        row_len: u32,
    ) -> Result<Strides<'p>, NoMemory>
        requires some_dir { 0 < dirs }
        ensures sides { IfOk result (AreSidesByKind dirs kinds.now rows.now row_len) }
    {
        let dirs = dirs as usize;
        let so_many = if kinds.is_empty() {
            0
        } else {
            rows.len() / dirs
        };
        let mut sides = Vec::with_capacity(alloc, so_many)?;
        for kind in 0..so_many {
            let start = kind * dirs;
            sides.push(FourSides::of(&rows[start..start + dirs], row_len))?;
        }
        Ok(Strides { kinds, sides })
    }

    /// The sides of a cell, if it has four neighbours and its sides are kept.
    #[inline]
    pub fn of(&self, cell: u32) -> Option<&FourSides>
        ensures some { IfSome result (λ sides. sides_at self.now cell ≡ Some sides.now) }
        ensures none { IfNone result (sides_at self.now cell ≡ None) }
    {
        let kind = self.kinds.get(cell as usize)?;
        self.sides.get(*kind as usize)?.as_ref()
    }
}
