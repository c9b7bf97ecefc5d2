//! Which patterns each place may have: those that meet every pin and ban.

ghost use Rattle.std.specs.Prelude.{◌≡◌, ℕ, ◌+◌, ◌*◌, ◌%◌, ◌<◌, ◌≤◌, length, slice_index, Some, IfOk, IfSome};
ghost use Rattle.wfc_model.specs.Window.{starts};
ghost use Rattle.wfc_overlap.specs.Bridge.{AreInside};
ghost use Rattle.wfc_overlap.specs.Flags.{AreCut, IsTable};
ghost use Rattle.wfc_overlap.specs.Layout.{output_of};
ghost use Rattle.wfc_overlap.specs.Sample.{window_base_table, is_met, window_suits_at, suits_in_column};
ghost use Rattle.wfc_pattern.specs.Patterns.{window_at};
ghost use Rattle.wfc_places.specs.Flags.{IsRowCut};
ghost use Rattle.wfc_places.specs.Marks.{suits};

use crate::layout::Layout;
use std::alloc::Global;
use wfc_model::MAX_OUTPUT_SIDE;
use wfc_outside::NoMemory;
use wfc_pattern::Patterns;
use wfc_places::{PinMark, all_set};

/// For each place and pattern whether the pattern meets all pins and bans there.
pub(crate) fn base(
    alloc: Global,
    patterns: &Patterns,
    layout: Layout,
    marks: &[PinMark],
) -> Result<Vec<bool>, NoMemory>
    requires n { layout.n ≡ patterns.now.n }
    requires inside { AreInside (output_of layout) marks.now }
    ensures value { IfOk result (λ flags. flags.items
        ≡ window_base_table layout.n (output_of layout) patterns.now.windows marks.now) }
{
    let count = patterns.count() as usize;
    let mut flags = all_set(alloc, layout.cells() as usize * count)?;
    for mark in marks {
        cut_by_mark(&mut flags, patterns, layout, mark);
    }
    Ok(flags)
}

/// Takes away what doesn't meet a pin or a ban, at each place whose window has its pixel.
fn cut_by_mark(flags: &mut [bool], patterns: &Patterns, layout: Layout, mark: &PinMark)
    requires n { layout.n ≡ patterns.now.n }
    requires table { IsTable patterns.now (output_of layout) flags.old }
    requires column_in { mark.now.column < layout.width }
    requires row_in { mark.now.row < layout.height }
    ensures cut { AreCut patterns.now (output_of layout) flags.old flags.new
        (λ place w. is_met layout.n (output_of layout) place w mark.now) }
{
    for i in 0..layout.n {
        cut_column(flags, patterns, layout, mark, i);
    }
}

/// The same where column `i` of a window has the pixel.
fn cut_column(flags: &mut [bool], patterns: &Patterns, layout: Layout, mark: &PinMark, i: u32)
    requires n { layout.n ≡ patterns.now.n }
    requires table { IsTable patterns.now (output_of layout) flags.old }
    requires column_in { mark.now.column < layout.width }
    requires row_in { mark.now.row < layout.height }
    requires i_in { i < layout.n }
    ensures cut { AreCut patterns.now (output_of layout) flags.old flags.new
        (λ place w. suits_in_column layout.n (output_of layout) place w mark.now i) }
{
    for j in 0..layout.n {
        cut_entry(flags, patterns, layout, mark, i, j);
    }
}

/// The same where column `i` of row `j` of a window has the pixel, at the one place where it has,
/// if there is one.
fn cut_entry(
    flags: &mut [bool],
    patterns: &Patterns,
    layout: Layout,
    mark: &PinMark,
    i: u32,
    j: u32,
)
    requires n { layout.n ≡ patterns.now.n }
    requires table { IsTable patterns.now (output_of layout) flags.old }
    requires column_in { mark.now.column < layout.width }
    requires row_in { mark.now.row < layout.height }
    requires i_in { i < layout.n }
    requires j_in { j < layout.n }
    ensures cut { AreCut patterns.now (output_of layout) flags.old flags.new
        (λ place w. window_suits_at layout.n (output_of layout) place w mark.now i j) }
{
    let Some(x) = start_of(mark.column, i, layout.n, layout.width, layout.wrap) else {
        return;
    };
    let Some(y) = start_of(mark.row, j, layout.n, layout.height, layout.wrap) else {
        return;
    };
    let cell = y as usize * layout.columns as usize + x as usize;
    let entry = j as usize * layout.n as usize + i as usize;
    cut_place(flags, patterns, mark, cell, entry);
}

/// Takes away at a place the patterns whose number at an entry doesn't suit the pin or ban.
fn cut_place(flags: &mut [bool], patterns: &Patterns, mark: &PinMark, cell: usize, entry: usize)
    requires row { cell * length patterns.now.windows + length patterns.now.windows
        ≤ length flags.old }
    requires entry { entry < patterns.now.n * patterns.now.n }
    ensures cut { IsRowCut (length patterns.now.windows) flags.old flags.new cell
        (λ v. suits mark.now (slice_index (window_at patterns.now v) entry)) }
{
    let first = cell * patterns.count() as usize;
    for v in 0..patterns.count() {
        let at = first + v as usize;
        flags[at] = mark.leaves(flags[at], patterns.window(v)[entry]);
    }
}

/// Where along a side a window starts that has the pixel `at` as its number `i`, if one does.
fn start_of(at: u32, i: u32, n: u32, side: u32, wrap: bool) -> Option<u32>
    requires at_in { at < side }
    requires i_in { i < n }
    requires n_in { n ≤ side }
    requires limit { side ≤ MAX_OUTPUT_SIDE }
    ensures found { IfSome result (λ u. (u < starts side n wrap) × ((u + i) % side ≡ at)) }
    ensures only { (u : ℕ) → u < starts side n wrap → (u + i) % side ≡ at → result ≡ Some u }
{
    if i <= at {
        let start = at - i;
        if wrap || start + n <= side {
            Some(start)
        } else {
            None
        }
    } else if wrap {
        Some(at + side - i)
    } else {
        None
    }
}
