//! Which variants each cell may have: those that meet the pins and bans of its place.

ghost use Rattle.std.specs.Prelude.{◌≡◌, ◌*◌, ◌≤◌, length, [], IfOk};
ghost use Rattle.wfc_problem.specs.declared.TheConstants.{MAX_PAIRS};
ghost use Rattle.wfc_places.specs.Flags.{HasFlags, IsRowCut};
ghost use Rattle.wfc_places.specs.Marks.{suits};
ghost use Rattle.wfc_tileset.specs.Tiles.{variant_total};
ghost use Rattle.wfc_box.specs.BoxProblem.{box_base_table, meets_in_box, pin_cell};
ghost use Rattle.wfc_box.specs.Boxes.{AreInBox, IsFrame, IsInBox, places_in};
ghost use Rattle.wfc_box.specs.Built.{box_pairs};

use crate::frame::{Frame, places};
use crate::mark::{BoxMark, mark_cell};
use std::alloc::Global;
use wfc_outside::NoMemory;
use wfc_places::{all_set, cut_row};
use wfc_tileset::TileSet;

/// For each cell and variant whether the variant meets all pins and bans of the cell's place.
pub(crate) fn base(
    alloc: Global,
    tiles: &TileSet,
    frame: Frame,
    marks: &[BoxMark],
) -> Result<Vec<bool>, NoMemory>
    requires frame { IsFrame frame }
    requires few { box_pairs tiles.now frame ≤ MAX_PAIRS }
    requires few_cells { places_in frame ≤ MAX_PAIRS }
    requires inside { AreInBox frame marks.now }
    ensures value { IfOk result (λ flags. flags.items ≡ box_base_table tiles.now frame marks.now) }
{
    let count = tiles.variants();
    let mut flags = all_set(alloc, places(frame) as usize * count as usize)?;
    cut_all(&mut flags, count, frame, marks);
    Ok(flags)
}

/// Takes away what doesn't meet the pins and bans.
fn cut_all(flags: &mut [bool], count: u16, frame: Frame, marks: &[BoxMark])
    requires frame { IsFrame frame }
    requires few_cells { places_in frame ≤ MAX_PAIRS }
    requires inside { AreInBox frame marks.now }
    requires all { HasFlags count (places_in frame) flags.old (meets_in_box frame []) }
    ensures met { HasFlags count (places_in frame) flags.new (meets_in_box frame marks.now) }
{
    for mark in marks {
        cut_by_mark(flags, count, frame, mark);
    }
}

/// Takes away what doesn't meet a pin or a ban, at the cell of its place.
fn cut_by_mark(flags: &mut [bool], count: u16, frame: Frame, mark: &BoxMark)
    requires frame { IsFrame frame }
    requires few_cells { places_in frame ≤ MAX_PAIRS }
    requires inside { IsInBox frame mark.now }
    requires table { length flags.old ≡ places_in frame * count }
    ensures cut { IsRowCut count flags.old flags.new (pin_cell frame mark.now)
        (suits mark.now.pin) }
{
    let cell = mark_cell(frame, mark);
    cut_row(flags, count, &mark.mark, cell as usize);
}
