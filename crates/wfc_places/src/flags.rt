//! Tables of flags, a row for each cell and a flag for each value.

ghost use Rattle.std.specs.Prelude.{◌≡◌, ◌+◌, ◌*◌, ◌≤◌, length, replicate, true, IfOk};
ghost use Rattle.wfc_places.specs.Flags.{IsRowCut};
ghost use Rattle.wfc_places.specs.Marks.{suits};

use crate::mark::PinMark;
use std::alloc::Global;
use wfc_outside::NoMemory;

/// So many flags, all set.
pub fn all_set(alloc: Global, count: usize) -> Result<Vec<bool>, NoMemory>
    ensures value { IfOk result (λ flags. flags.items ≡ replicate count true) }
{
    Ok(vec![in alloc; true; count]?)
}

/// Takes away in the row of a cell, of `count` flags, the numbers that don't suit a pin or a ban.
pub fn cut_row(flags: &mut [bool], count: u16, mark: &PinMark, cell: usize)
    requires row { cell * count + count ≤ length flags.old }
    ensures cut { IsRowCut count flags.old flags.new cell (suits mark.now) }
{
    let first = cell * count as usize;
    for v in 0..count {
        let at = first + v as usize;
        flags[at] = mark.leaves(flags[at], u32::from(v));
    }
}
