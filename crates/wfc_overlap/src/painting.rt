//! The picture that an assignment of patterns to places paints.

ghost use Rattle.std.specs.Prelude.{◌≡◌, ◌<◌, ◌≤◌, ◌-◌, ◌++◌, length, min, All, IfOk, OnOk};
ghost use Rattle.wfc_model.specs.Raster.{IsFilled, raster_of};
ghost use Rattle.wfc_model.specs.Window.{places};
ghost use Rattle.wfc_overlap.specs.Bridge.{IsLegalPictureWith, ShowsAssigned, picture_of, pixel_of, picture_row};
ghost use Rattle.wfc_overlap.specs.Layout.{output_of};
ghost use Rattle.wfc_overlap.specs.Sample.{output_with};

use crate::layout::Layout;
use std::alloc::Global;
use wfc_model::MAX_OUTPUT_SIDE;
use wfc_outside::NoMemory;
use wfc_pattern::Patterns;
use wfc_picture::Picture;

/// The picture of `width` by `height` colour numbers that an assignment paints: one pattern for
/// each place at which a window begins, row by row.
pub fn picture_of(
    alloc: Global,
    patterns: &Patterns,
    width: u32,
    height: u32,
    wrap: bool,
    assignment: &[u16],
) -> Result<Picture, NoMemory>
    requires wide { patterns.now.n ≤ width }
    requires high { patterns.now.n ≤ height }
    requires width_limit { width ≤ MAX_OUTPUT_SIDE }
    requires height_limit { height ≤ MAX_OUTPUT_SIDE }
    requires each_place { length assignment.now ≡ length (places width height patterns.now.n wrap) }
    requires values { All (λ v. v < length patterns.now.windows) assignment.now }
    ensures exact { IfOk result (λ picture. picture
        ≡ picture_of patterns.now (output_with width height wrap) assignment.now) }

    // Of an assignment that is legal for a sample's problem, the picture is legal, with the
    // assigned windows.
    ensures legal { IfOk result
        (IsLegalPictureWith patterns.now (output_with width height wrap) assignment.now) }
    ensures windows { IfOk result
        (ShowsAssigned patterns.now (output_with width height wrap) assignment.now) }
{
    let layout = Layout::new(patterns.n(), width, height, wrap);
    let mut numbers = Vec::with_capacity(alloc, width as usize * height as usize)?;
    for y in 0..height {
        push_row(&mut numbers, patterns, layout, assignment, y)?;
    }
    Ok(picture_from(width, height, numbers))
}

/// The picture with these numbers, of which there are as many as pixels.
fn picture_from(width: u32, height: u32, numbers: Vec<u32>) -> Picture
    requires filled { IsFilled width height numbers.items }
    ensures value { result ≡ raster_of width height numbers.items }
{
    Picture::new(width, height, numbers).unwrap()
}

/// Writes the numbers of row `y` behind the numbers.
fn push_row(
    numbers: &mut Vec<u32>,
    patterns: &Patterns,
    layout: Layout,
    assignment: &[u16],
    y: u32,
) -> Result<(), NoMemory>
    requires n { layout.n ≡ patterns.now.n }
    requires each_place { length assignment.now
        ≡ length (places layout.width layout.height layout.n layout.wrap) }
    requires values { All (λ v. v < length patterns.now.windows) assignment.now }
    requires y_in { y < layout.height }
    ensures row { OnOk result (numbers.new.items
        ≡ numbers.old.items ++ picture_row patterns.now (output_of layout) assignment.now y) }
{
    for x in 0..layout.width {
        numbers.push(number_at(patterns, layout, assignment, x, y))?;
    }
    Ok(())
}

/// The number of a pixel: what the pattern of the nearest place has there.
fn number_at(patterns: &Patterns, layout: Layout, assignment: &[u16], x: u32, y: u32) -> u32
    requires n { layout.n ≡ patterns.now.n }
    requires each_place { length assignment.now
        ≡ length (places layout.width layout.height layout.n layout.wrap) }
    requires values { All (λ v. v < length patterns.now.windows) assignment.now }
    requires x_in { x < layout.width }
    requires y_in { y < layout.height }
    ensures value { result ≡ pixel_of patterns.now (output_of layout) assignment.now x y }
{
    let u = nearest(x, layout.columns);
    let v = nearest(y, layout.rows);
    let pattern = assignment[v as usize * layout.columns as usize + u as usize];
    let entry = (y - v) as usize * layout.n as usize + (x - u) as usize;
    patterns.window(pattern)[entry]
}

/// The last column or row at which a window begins that reaches one of the pixels.
#[inline]
fn nearest(at: u32, starts: u32) -> u32
    requires some { 0 < starts }
    ensures value { result ≡ min at (starts - 1) }
{
    if at < starts { at } else { starts - 1 }
}
