//! Pictures of assignments, worked out by hand, and a large one.

ghost use Rattle.std.specs.Prelude.{◌≡◌, ◌<◌, ◌≤◌, length, All, IsTrue};
ghost use Rattle.wfc_model.specs.Window.{places, starts};

use super::asking::Sides;
use super::samples::{checkerboard, in_a_row, single};
use std::alloc::{AllocError, Global};
use std::process::Abort;
use std::test::Fail;
use wfc_overlap::picture_of;
use wfc_pattern::Patterns;
use wfc_picture::Picture;

/// How many windows start along a side.
fn count_starts(n: u32, side: u32, wrap: bool) -> u32
    requires some_side { 0 < n }
    requires room { n ≤ side }
    requires limit { side ≤ 4096 }
    ensures value { result ≡ starts side n wrap }
    ensures limit { result ≤ 4096 }
{
    if wrap { side } else { side - n + 1 }
}

/// How many places there are.
fn count_places(n: u32, width: u32, height: u32, wrap: bool) -> u32
    requires some_side { 0 < n }
    requires wide { n ≤ width }
    requires high { n ≤ height }
    requires width_limit { width ≤ 4096 }
    requires height_limit { height ≤ 4096 }
    ensures value { result ≡ length (places width height n wrap) }
{
    count_starts(n, height, wrap) * count_starts(n, width, wrap)
}

/// Whether all values are below a limit.
fn all_below(values: &[u16], limit: u16) -> bool
    ensures value { IsTrue result → All (λ v. v < limit) values.now }
{
    values.iter().all(|value| *value < limit)
}

/// The picture of an assignment that has a pattern for each place.
fn painted(
    rt: &impl Abort,
    alloc: Global,
    patterns: &Patterns,
    sides: Sides,
    assignment: &[u16],
) -> Result<Picture, Fail> {
    let (width, height, wrap) = sides;
    let n = patterns.n();
    assert!(rt; n <= width && n <= height && width <= 4096 && height <= 4096);
    let cells = count_places(n, width, height, wrap);
    assert!(rt; assignment.len() == cells as usize);
    assert!(rt; all_below(assignment, patterns.count()));
    Ok(picture_of(alloc, patterns, width, height, wrap, assignment)?)
}

/// The numbers of a picture, row by row.
fn numbers_of(alloc: Global, picture: &Picture) -> Result<Vec<u32>, AllocError> {
    let mut numbers = Vec::new(alloc);
    for y in 0..picture.height() {
        for x in 0..picture.width() {
            numbers.push(picture.at(x, y))?;
        }
    }
    Ok(numbers)
}

/// Paints an assignment, and compares the numbers of the picture.
fn paints(
    rt: &impl Abort,
    alloc: Global,
    patterns: &Patterns,
    sides: Sides,
    assignment: &[u16],
    wanted: &[u32],
) -> Result<(), Fail> {
    let picture = painted(rt, alloc, patterns, sides, assignment)?;
    let numbers = numbers_of(alloc, &picture)?;
    assert!(rt; numbers.as_slice() == wanted);
    Ok(())
}

/// Paints an assignment of the checkerboard's patterns.
fn paints_letters(
    rt: &impl Abort,
    alloc: Global,
    sides: Sides,
    assignment: &[u16],
    wanted: &[u32],
) -> Result<(), Fail> {
    let patterns = checkerboard(rt, alloc)?;
    paints(rt, alloc, &patterns, sides, assignment, wanted)
}

#[test]
fn checkerboards(rt: HostRuntime) -> Result<(), Fail> {
    let alloc = rt.alloc();
    let square = [0, 1, 1, 0];
    paints_letters(&rt, alloc, (2, 2, false), &[0], &square)?;
    paints_letters(&rt, alloc, (2, 2, true), &[0, 1, 1, 0], &square)?;
    let row = [1, 0, 1, 0, 1, 0];
    paints_letters(&rt, alloc, (3, 2, false), &[1, 0], &row)?;
    let long = [0, 1, 0, 1, 1, 0, 1, 0];
    paints_letters(&rt, alloc, (4, 2, false), &[0, 1, 0], &long)?;
    let odd = [0, 1, 0, 1, 0, 1, 0, 1, 0];
    paints_letters(&rt, alloc, (3, 3, false), &[0, 1, 1, 0], &odd)
}

#[test]
fn single_pixels(rt: HostRuntime) -> Result<(), Fail> {
    let patterns = in_a_row(&rt, rt.alloc())?;
    for wrap in [false, true] {
        let sides = (3, 2, wrap);
        let numbers = [0, 1, 2, 2, 0, 0];
        paints(
            &rt,
            rt.alloc(),
            &patterns,
            sides,
            &[0, 1, 2, 2, 0, 0],
            &numbers,
        )?;
    }
    Ok(())
}

#[test]
fn as_large_as_a_window(rt: HostRuntime) -> Result<(), Fail> {
    let patterns = single(&rt, rt.alloc())?;
    paints(&rt, rt.alloc(), &patterns, (3, 3, false), &[0], &[0; 9])?;
    paints(&rt, rt.alloc(), &patterns, (3, 3, true), &[0; 9], &[0; 9])
}

#[test]
fn a_large_picture(rt: HostRuntime) -> Result<(), Fail> {
    let patterns = single(&rt, rt.alloc())?;
    let assignment = vec![in rt.alloc(); 0; 524_288]?;
    let picture = painted(&rt, rt.alloc(), &patterns, (1024, 512, true), &assignment)?;
    assert!(rt; picture.width() == 1024 && picture.height() == 512);
    Ok(())
}
