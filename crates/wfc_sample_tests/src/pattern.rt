//! Small samples, and some with too many patterns.
ghost use Rattle.std.specs.Prelude.{◌<◌, ◌≤◌};

use std::alloc::{AllocError, Global};
use std::process::Abort;
use std::test::Fail;
use wfc_pattern::{LearnFault, Patterns, learn};
use wfc_picture::Picture;

/// Learns from the picture with these numbers, row by row.
fn taught(
    rt: &impl Abort,
    cells: Vec<u32>,
    width: u32,
    n: u32,
    symmetry: u8,
    wrap: bool,
) -> Result<Patterns, LearnFault>
    requires some_side { 0 < n }
    requires small_side { n ≤ 6 }
    requires some_image { 0 < symmetry }
    requires eight_images { symmetry ≤ 8 }
{
    let alloc = *cells.allocator();
    assert!(rt; 0 < width && cells.len() <= 1_048_576);
    let height = cells.len() as u32 / width;
    let picture = Picture::new(width, height, cells)
        .ok()
        .expect(rt, "a picture");
    assert!(rt; picture.width() as u64 * picture.height() as u64 <= 1_048_576);
    learn(alloc, &picture, n, symmetry, wrap)
}

/// A street map of 16 by 16, with a street in every fourth column and row.
fn town(alloc: Global) -> Result<Vec<u32>, AllocError> {
    let street = b"################";
    let houses = b"#...#...#...#...";
    let mut cells = Vec::new(alloc);
    for y in 0..16 {
        let line = if y % 4 == 0 { street } else { houses };
        for byte in line {
            cells.push(u32::from(*byte))?;
        }
    }
    Ok(cells)
}

/// The weights of all patterns.
fn weights_of(alloc: Global, patterns: &Patterns) -> Result<Vec<u32>, AllocError> {
    let mut weights = Vec::new(alloc);
    for p in 0..patterns.count() {
        weights.push(patterns.weight(p))?;
    }
    Ok(weights)
}

/// Whether the patterns of a picture have these weights.
fn weigh(
    rt: &impl Abort,
    cells: Vec<u32>,
    width: u32,
    symmetry: u8,
    wrap: bool,
    wanted: &[u32],
) -> Result<(), Fail>
    requires some_image { 0 < symmetry }
    requires eight_images { symmetry ≤ 8 }
{
    let alloc = *cells.allocator();
    let patterns = taught(rt, cells, width, 2, symmetry, wrap)?;
    let weights = weights_of(alloc, &patterns)?;
    assert_eq!(rt; weights.as_slice(), wanted);
    Ok(())
}

/// A picture of two by two in two colours.
fn checkerboard(alloc: Global) -> Result<Vec<u32>, AllocError> {
    Vec::from_slice(alloc, &[97, 98, 98, 97])
}

/// A picture of one pixel.
fn pixel(alloc: Global) -> Result<Vec<u32>, AllocError> {
    Vec::from_slice(alloc, &[97])
}

#[test]
fn weights(rt: HostRuntime) -> Result<(), Fail> {
    let alloc = rt.alloc();
    weigh(&rt, checkerboard(alloc)?, 2, 1, false, &[1])?;
    weigh(&rt, checkerboard(alloc)?, 2, 1, true, &[2, 2])?;
    weigh(&rt, checkerboard(alloc)?, 2, 8, false, &[4, 4])?;
    weigh(&rt, pixel(alloc)?, 1, 1, true, &[1])?;
    weigh(&rt, pixel(alloc)?, 1, 8, true, &[8])
}

#[test]
fn weights_of_a_town(rt: HostRuntime) -> Result<(), Fail> {
    let patterns = taught(&rt, town(rt.alloc())?, 16, 3, 8, true)?;
    assert_eq!(rt; (patterns.n(), patterns.count()), (3, 16));
    let weights = weights_of(rt.alloc(), &patterns)?;
    assert_eq!(rt; weights.as_slice(), [128; 16].as_slice());
    Ok(())
}

/// Learns from a picture, and checks that its patterns together arise at so many places, each in all its images, and that
/// each is found under its own number.
fn check_taught(
    rt: &impl Abort,
    cells: Vec<u32>,
    width: u32,
    n: u32,
    symmetry: u8,
    wrap: bool,
    places: u64,
)
    requires some_side { 0 < n }
    requires small_side { n ≤ 6 }
    requires some_image { 0 < symmetry }
    requires eight_images { symmetry ≤ 8 }
{
    let patterns = taught(rt, cells, width, n, symmetry, wrap)
        .ok()
        .expect(rt, "patterns");
    let mut total = 0u64;
    for p in 0..patterns.count() {
        total = total.wrapping_add(u64::from(patterns.weight(p)));
        assert_eq!(rt; patterns.find(patterns.window(p)), Some(p));
    }
    assert_eq!(rt;
        total,
        places.wrapping_mul(u64::from(symmetry)),
        "{n} {symmetry} {wrap}"
    );
}

/// A picture of so many columns and rows in which five numbers come round.
fn rounds(alloc: Global, width: u32, height: u32) -> Result<Vec<u32>, AllocError> {
    let mut cells = Vec::new(alloc);
    for y in 0..height {
        for x in 0..width {
            cells.push(x.wrapping_add(y.wrapping_mul(y)) % 5)?;
        }
    }
    Ok(cells)
}

/// Checks a picture of nine by six, wrapped, and flat with so many places, in all symmetries.
fn check_symmetries(rt: &impl Abort, alloc: Global, n: u32, flat: u64) -> Result<(), Fail>
    requires some_side { 0 < n }
    requires small_side { n ≤ 6 }
{
    for symmetry in 1..9 {
        check_taught(rt, rounds(alloc, 9, 6)?, 9, n, symmetry, true, 54);
        check_taught(rt, rounds(alloc, 9, 6)?, 9, n, symmetry, false, flat);
    }
    Ok(())
}

#[test]
fn every_side_and_symmetry(rt: HostRuntime) -> Result<(), Fail> {
    check_symmetries(&rt, rt.alloc(), 1, 54)?;
    check_symmetries(&rt, rt.alloc(), 2, 40)?;
    check_symmetries(&rt, rt.alloc(), 3, 28)?;
    check_symmetries(&rt, rt.alloc(), 4, 18)?;
    check_symmetries(&rt, rt.alloc(), 5, 10)?;
    check_symmetries(&rt, rt.alloc(), 6, 4)
}

#[test]
fn long_and_high_pictures(rt: HostRuntime) -> Result<(), Fail> {
    check_taught(&rt, rounds(rt.alloc(), 700, 3)?, 700, 3, 8, true, 2100);
    check_taught(&rt, rounds(rt.alloc(), 700, 6)?, 700, 6, 8, false, 695);
    check_taught(&rt, rounds(rt.alloc(), 2, 600)?, 2, 2, 5, false, 599);
    Ok(())
}

/// Two windows of two by two, side by side.
fn two_windows(rt: &impl Abort, alloc: Global) -> Result<Patterns, Fail> {
    let cells = Vec::from_slice(alloc, &[1, 2, 3, 1, 2, 3])?;
    let patterns = taught(rt, cells, 3, 2, 1, false)?;
    assert!(rt; patterns.count() == 2);
    Ok(patterns)
}

/// Whether a pattern has these numbers.
fn is_window(rt: &impl Abort, patterns: &Patterns, p: u16, wanted: &[u32]) {
    assert!(rt; p < patterns.count());
    assert_eq!(rt; patterns.window(p), wanted);
}

/// Whether these numbers are those of a pattern, or of none.
fn finds(rt: &impl Abort, patterns: &Patterns, window: &[u32], wanted: Option<u16>) {
    assert_eq!(rt; patterns.find(window), wanted);
}

#[test]
fn windows_of_patterns(rt: HostRuntime) -> Result<(), Fail> {
    let patterns = two_windows(&rt, rt.alloc())?;
    is_window(&rt, &patterns, 0, &[1, 2, 1, 2]);
    is_window(&rt, &patterns, 1, &[2, 3, 2, 3]);
    finds(&rt, &patterns, &[2, 3, 2, 3], Some(1));
    finds(&rt, &patterns, &[3, 2, 3, 2], None);
    Ok(())
}

/// Whether a pattern may stand beside another in each direction.
fn agree_as(rt: &impl Abort, patterns: &Patterns, p: u16, q: u16, wanted: [bool; 4]) {
    assert!(rt; p < patterns.count() && q < patterns.count());
    for dir in 0..4 {
        assert_eq!(rt;
            patterns.agrees(p, q, dir),
            wanted[dir as usize],
            "{p} {q} {dir}"
        );
    }
}

#[test]
fn windows_that_agree(rt: HostRuntime) -> Result<(), Fail> {
    let patterns = two_windows(&rt, rt.alloc())?;
    agree_as(&rt, &patterns, 0, 1, [false, false, true, false]);
    agree_as(&rt, &patterns, 1, 0, [true, false, false, false]);
    agree_as(&rt, &patterns, 1, 1, [false, true, false, true]);
    Ok(())
}

/// A square picture of numbers that all differ.
fn square(alloc: Global, side: u32) -> Result<Vec<u32>, AllocError>
    requires small { side ≤ 300 }
{
    let mut cells = Vec::new(alloc);
    for number in 0..side * side {
        cells.push(number)?;
    }
    Ok(cells)
}

/// Whether a square picture of numbers that all differ teaches nothing for this reason, or something.
fn is_refused(
    rt: &impl Abort,
    alloc: Global,
    side: u32,
    n: u32,
    symmetry: u8,
    wanted: Option<LearnFault>,
) -> Result<(), Fail>
    requires small { side ≤ 300 }
    requires some_side { 0 < n }
    requires small_side { n ≤ 6 }
    requires some_image { 0 < symmetry }
    requires eight_images { symmetry ≤ 8 }
{
    let cells = square(alloc, side)?;
    assert_eq!(rt; taught(rt, cells, side, n, symmetry, false).err(), wanted);
    Ok(())
}

#[test]
fn faults(rt: HostRuntime) -> Result<(), Fail> {
    is_refused(&rt, rt.alloc(), 1, 2, 8, Some(LearnFault::SampleBelowN))?;
    is_refused(&rt, rt.alloc(), 64, 1, 1, None)?;
    is_refused(
        &rt,
        rt.alloc(),
        65,
        1,
        1,
        Some(LearnFault::TooManyPatterns { count: 4225 }),
    )?;
    is_refused(
        &rt,
        rt.alloc(),
        300,
        2,
        8,
        Some(LearnFault::TooManyPatterns { count: 715_208 }),
    )
}
