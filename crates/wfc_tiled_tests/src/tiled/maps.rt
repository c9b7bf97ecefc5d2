//! Maps of assignments.

use super::asking::{mask_of, strips};
use std::alloc::{AllocError, Global};
use std::process::Abort;
use std::test::Fail;
use wfc_picture::Picture;
use wfc_tiled::{Mask, tiles_of, tiles_of_masked};
use wfc_tileset::HOLE;

/// The map without holes of an assignment that has a variant for each place.
fn painted(
    rt: &impl Abort,
    alloc: Global,
    width: u32,
    height: u32,
    assignment: &[u16],
) -> Result<Picture, Fail> {
    assert!(rt; 0 < width && width <= 4096 && 0 < height && height <= 4096);
    assert!(rt; assignment.len() == width as usize * height as usize);
    Ok(tiles_of(alloc, width, height, assignment)?)
}

/// The map with holes of an assignment that has a variant for each other place.
fn painted_masked(
    rt: &impl Abort,
    alloc: Global,
    mask: &Mask,
    assignment: &[u16],
) -> Result<Picture, Fail> {
    assert!(rt; assignment.len() == mask.cells() as usize);
    Ok(tiles_of_masked(alloc, mask, assignment)?)
}

/// Whether this stands at a place of a map.
fn shows_at(rt: &impl Abort, picture: &Picture, x: u32, y: u32, wanted: u32) {
    assert!(rt; x < picture.width() && y < picture.height());
    assert_eq!(rt; picture.at(x, y), wanted, "at {x}, {y}");
}

/// Whether a map has these sides, and shows this at these places.
fn shows(rt: &impl Abort, picture: &Picture, sides: (u32, u32), wanted: &[(u32, u32, u32)]) {
    assert_eq!(rt; (picture.width(), picture.height()), sides);
    for (x, y, number) in wanted {
        shows_at(rt, picture, *x, *y, *number);
    }
}

/// The map of three by two with a variant of its own at each place.
const PLAIN: [(u32, u32, u32); 6] = [
    (0, 0, 5),
    (1, 0, 0),
    (2, 0, 4095),
    (0, 1, 1),
    (1, 1, 7),
    (2, 1, 2),
];

#[test]
fn a_map_without_holes(rt: HostRuntime) -> Result<(), Fail> {
    let picture = painted(&rt, rt.alloc(), 3, 2, &[5, 0, 4095, 1, 7, 2])?;
    shows(&rt, &picture, (3, 2), &PLAIN);
    Ok(())
}

/// The same with holes at (1, 0) and (0, 1).
const AROUND_HOLES: [(u32, u32, u32); 6] = [
    (0, 0, 5),
    (1, 0, HOLE),
    (2, 0, 0),
    (0, 1, HOLE),
    (1, 1, 4095),
    (2, 1, 1),
];

#[test]
fn a_map_with_holes(rt: HostRuntime) -> Result<(), Fail> {
    let mask = mask_of(&rt, rt.alloc(), b".#.\n#..\n", 3, 2)?;
    let picture = painted_masked(&rt, rt.alloc(), &mask, &[5, 0, 4095, 1])?;
    shows(&rt, &picture, (3, 2), &AROUND_HOLES);
    Ok(())
}

/// The numbers from 0 to 4,095 over and over, so many in all.
fn rising(alloc: Global, count: u32) -> Result<Vec<u16>, AllocError> {
    let mut numbers = Vec::new(alloc);
    for number in 0..count {
        numbers.push((number % 4096) as u16)?;
    }
    Ok(numbers)
}

/// Places of a map of 4,096 by 256 whose columns are numbered.
const FAR: [(u32, u32, u32); 4] = [(0, 0, 0), (4095, 0, 4095), (17, 100, 17), (4095, 255, 4095)];

#[test]
fn a_large_map(rt: HostRuntime) -> Result<(), Fail> {
    let assignment = rising(rt.alloc(), 1_048_576)?;
    let picture = painted(&rt, rt.alloc(), 4096, 256, &assignment)?;
    shows(&rt, &picture, (4096, 256), &FAR);
    Ok(())
}

/// Places of the map of strips. A row has 1,024 places that are no holes.
const FAR_AROUND_HOLES: [(u32, u32, u32); 6] = [
    (3, 0, 3),
    (4, 0, HOLE),
    (16, 0, 4),
    (0, 3, 3072),
    (0, 4, 0),
    (4083, 255, 4095),
];

#[test]
fn a_large_map_with_holes(rt: HostRuntime) -> Result<(), Fail> {
    let text = strips(rt.alloc())?;
    let mask = mask_of(&rt, rt.alloc(), &text, 4096, 256)?;
    let assignment = rising(rt.alloc(), 262_144)?;
    let picture = painted_masked(&rt, rt.alloc(), &mask, &assignment)?;
    shows(&rt, &picture, (4096, 256), &FAR_AROUND_HOLES);
    Ok(())
}
