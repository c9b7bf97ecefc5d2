//! What is kept of the pins and bans, and parts that share all but their base.

ghost use Rattle.std.specs.Prelude.{◌≡◌, ◌++◌, ◌∷◌, [], length, map, IfOk, OnOk};
ghost use Rattle.wfc_explain.specs.KeptLines.{kept_of};

use std::alloc::Global;
use wfc_outside::NoMemory;
use wfc_overlap::PinMark;
use wfc_problem::Parts;

/// Copies of the pins and bans that are kept, in their order.
pub(crate) fn kept_marks(
    alloc: Global,
    marks: &[PinMark],
    keep: &[bool],
) -> Result<Vec<PinMark>, NoMemory>
    requires each_line { length keep.now ≡ length marks.now }
    ensures value { IfOk result (λ kept. kept.items ≡ kept_of keep.now marks.now) }
{
    let mut kept = Vec::new(alloc);
    for at in 0..marks.len() {
        push_kept(&mut kept, &marks[at], keep[at])?;
    }
    Ok(kept)
}

/// Adds a copy of a pin or ban, where it is kept.
fn push_kept(kept: &mut Vec<PinMark>, mark: &PinMark, keep: bool) -> Result<(), NoMemory>
    ensures pushed { OnOk result (kept.new.items
        ≡ kept.old.items ++ kept_of (keep ∷ []) (mark.now ∷ [])) }
{
    if keep {
        kept.push(copy_of(mark))?;
    }
    Ok(())
}

/// A copy of a pin or ban.
fn copy_of(mark: &PinMark) -> PinMark
    ensures value { result ≡ mark.now }
{
    PinMark {
        keep: mark.keep,
        column: mark.column,
        row: mark.row,
        number: mark.number,
    }
}

/// Parts without their base.
pub(crate) fn without_base(alloc: Global, parts: Parts) -> Parts
    ensures value { result ≡ record parts { base = [] } }
{
    Parts {
        cells: parts.cells,
        dirs: parts.dirs,
        neighbours: parts.neighbours,
        weights: parts.weights,
        supports: parts.supports,
        base: Vec::new(alloc),
    }
}

/// A copy of parts, with another base.
pub(crate) fn with_base(alloc: Global, parts: &Parts, base: Vec<bool>) -> Result<Parts, NoMemory>
    ensures value { IfOk result (λ copy. copy ≡ record parts.now { base = base.items }) }
{
    Ok(Parts {
        cells: parts.cells,
        dirs: parts.dirs,
        neighbours: Vec::from_slice(alloc, &parts.neighbours)?,
        weights: Vec::from_slice(alloc, &parts.weights)?,
        supports: copy_of_lists(alloc, &parts.supports)?,
        base,
    })
}

/// A copy of lists of values.
fn copy_of_lists(alloc: Global, lists: &[Vec<u16>]) -> Result<Vec<Vec<u16>>, NoMemory>
    ensures value { IfOk result (λ copy.
        map (λ list. list.items) copy.items ≡ map (λ list. list.items) lists.now) }
{
    let mut copy = Vec::with_capacity(alloc, lists.len())?;
    for list in lists {
        copy.push(Vec::from_slice(alloc, list)?)?;
    }
    Ok(copy)
}
