//! Problems, table by table.

use super::asking::{NONE, Sides, lines, many, mask_of, masked_problem_of, problem_of, strips};
use std::alloc::{AllocError, Global};
use std::process::Abort;
use std::test::Fail;
use wfc_problem::Problem;
use wfc_tileset::TileSet;

/// Writes what lies to the left of a cell, below, to the right and above, or `NONE`.
fn push_beside(
    rt: &impl Abort,
    found: &mut Vec<u32>,
    problem: &Problem,
    cell: u32,
) -> Result<(), AllocError> {
    assert!(rt; cell < problem.cells());
    for dir in 0..problem.dirs() {
        found.push(problem.neighbour(cell, dir).unwrap_or(NONE))?;
    }
    Ok(())
}

/// Whether these lie beside the cells of a problem.
fn lie_beside(
    rt: &impl Abort,
    alloc: Global,
    problem: &Problem,
    wanted: &[u32],
) -> Result<(), AllocError> {
    let mut found = Vec::new(alloc);
    for cell in 0..problem.cells() {
        push_beside(rt, &mut found, problem, cell)?;
    }
    assert!(rt; found.as_slice() == wanted);
    Ok(())
}

/// Whether these lie beside the places of a map without holes.
fn lie_in(
    rt: &impl Abort,
    alloc: Global,
    tiles: &TileSet,
    sides: Sides,
    wanted: &[u32],
) -> Result<(), Fail> {
    let problem = problem_of(rt, alloc, tiles, sides, b"")?;
    lie_beside(rt, alloc, &problem, wanted)?;
    Ok(())
}

#[test]
fn places_side_by_side(rt: HostRuntime) -> Result<(), Fail> {
    let alloc = rt.alloc();
    let tiles = lines(&rt, alloc)?;
    lie_in(&rt, alloc, &tiles, (1, 2, true), &[0, 1, 0, 1, 1, 0, 1, 0])?;
    lie_in(
        &rt,
        alloc,
        &tiles,
        (1, 2, false),
        &[NONE, 1, NONE, NONE, NONE, NONE, NONE, 0],
    )?;
    lie_in(&rt, alloc, &tiles, (1, 1, true), &[0, 0, 0, 0])?;
    lie_in(
        &rt,
        alloc,
        &tiles,
        (2, 1, false),
        &[NONE, NONE, 1, NONE, 0, NONE, NONE, NONE],
    )
}

/// Whether these lie beside the places of a map of three by two with holes at (1, 0) and (0, 1).
fn lie_around_holes(
    rt: &impl Abort,
    alloc: Global,
    tiles: &TileSet,
    wrap: bool,
    wanted: &[u32],
) -> Result<(), Fail> {
    let mask = mask_of(rt, alloc, b".#.\n#..\n", 3, 2)?;
    let problem = masked_problem_of(rt, alloc, tiles, &mask, wrap, b"")?;
    lie_beside(rt, alloc, &problem, wanted)?;
    Ok(())
}

#[test]
fn holes_are_no_neighbours(rt: HostRuntime) -> Result<(), Fail> {
    let tiles = lines(&rt, rt.alloc())?;
    let flat = [
        NONE, NONE, NONE, NONE, NONE, 3, NONE, NONE, NONE, NONE, 3, NONE, 2, NONE, NONE, 1,
    ];
    lie_around_holes(&rt, rt.alloc(), &tiles, false, &flat)?;
    let wrapped = [
        1, NONE, NONE, NONE, NONE, 3, 0, 3, NONE, NONE, 3, NONE, 2, 1, NONE, 1,
    ];
    lie_around_holes(&rt, rt.alloc(), &tiles, true, &wrapped)
}

/// Whether the base of a problem is this one.
fn has_base(rt: &impl Abort, problem: &Problem, wanted: &[bool]) {
    let mut wanted = wanted.iter();
    for cell in 0..problem.cells() {
        for value in 0..problem.values() {
            let flag = problem.in_base(cell, value);
            assert!(rt; wanted.next() == Some(&flag));
        }
    }
    assert!(rt; wanted.next() == None);
}

/// Whether lines of pins, for three by two with holes at (1, 0) and (0, 1), leave this base: for each
/// of the four cells whether the line may lie there and whether it may stand.
fn leave(
    rt: &impl Abort,
    alloc: Global,
    tiles: &TileSet,
    text: &[u8],
    wanted: &[bool],
) -> Result<(), Fail> {
    let mask = mask_of(rt, alloc, b".#.\n#..\n", 3, 2)?;
    let problem = masked_problem_of(rt, alloc, tiles, &mask, true, text)?;
    has_base(rt, &problem, wanted);
    Ok(())
}

#[test]
fn pins_and_bans(rt: HostRuntime) -> Result<(), Fail> {
    let alloc = rt.alloc();
    let tiles = lines(&rt, alloc)?;
    leave(&rt, alloc, &tiles, b"", &[true; 8])?;
    let left = [true, false, true, true, true, true, false, true];
    leave(
        &rt,
        alloc,
        &tiles,
        b"pin 0 0 line/0\nban 2 1 line/0\n",
        &left,
    )?;
    let left = [true, true, false, false, true, true, true, true];
    leave(
        &rt,
        alloc,
        &tiles,
        b"ban 2 0 line/0\nban 2 0 line/1\n",
        &left,
    )?;
    let left = [true, true, true, true, false, true, true, true];
    leave(
        &rt,
        alloc,
        &tiles,
        b"pin 1 1 line/1\nban 1 1 line/0\n",
        &left,
    )
}

/// Whether these may stand beside a variant in a direction.
fn fit(rt: &impl Abort, problem: &Problem, value: u16, dir: u8, wanted: &[u16]) {
    assert!(rt; value < problem.values() && dir < problem.dirs());
    assert!(rt;
        problem.supports(value, dir) == wanted,
        "beside {value} in {dir}"
    );
}

#[test]
fn variants_that_fit(rt: HostRuntime) -> Result<(), Fail> {
    let tiles = many(&rt, rt.alloc())?;
    let problem = problem_of(&rt, rt.alloc(), &tiles, (2, 1, false), b"")?;
    assert_eq!(rt; problem.values(), 30);
    fit(&rt, &problem, 0, 0, &[0, 28]);
    fit(&rt, &problem, 0, 1, &[14]);
    fit(&rt, &problem, 9, 3, &[17]);
    fit(&rt, &problem, 24, 1, &[19, 26, 29]);
    fit(&rt, &problem, 24, 2, &[]);
    fit(&rt, &problem, 28, 0, &[2, 4, 25, 26]);
    fit(&rt, &problem, 28, 1, &[16, 20]);
    fit(&rt, &problem, 28, 2, &[0, 6, 24, 27]);
    fit(&rt, &problem, 28, 3, &[18, 22]);
    Ok(())
}

/// Whether a variant has this weight.
fn weighs(rt: &impl Abort, problem: &Problem, value: u16, wanted: u32) {
    assert!(rt; value < problem.values());
    assert!(rt; problem.weight(value) == wanted, "of {value}");
}

#[test]
fn weights_of_tiles(rt: HostRuntime) -> Result<(), Fail> {
    let tiles = many(&rt, rt.alloc())?;
    let problem = problem_of(&rt, rt.alloc(), &tiles, (1, 1, false), b"")?;
    weighs(&rt, &problem, 0, 3);
    weighs(&rt, &problem, 7, 3);
    weighs(&rt, &problem, 8, 1);
    weighs(&rt, &problem, 27, 2);
    weighs(&rt, &problem, 29, 1_000_000);
    Ok(())
}

/// How many directions of a cell lead to another.
fn ways_from(rt: &impl Abort, problem: &Problem, cell: u32) -> u32 {
    assert!(rt; cell < problem.cells());
    let mut ways = 0_u32;
    for dir in 0..problem.dirs() {
        ways = ways.saturating_add(u32::from(problem.neighbour(cell, dir).is_some()));
    }
    ways
}

/// How many there are of all cells.
fn all_ways(rt: &impl Abort, problem: &Problem) -> u32 {
    let mut ways = 0_u32;
    for cell in 0..problem.cells() {
        ways = ways.saturating_add(ways_from(rt, problem, cell));
    }
    ways
}

/// Whether a problem has so many cells, ways from cell to cell, and pairs of a cell and a value of
/// its base.
fn is_as_large(rt: &impl Abort, problem: &Problem, cells: u32, ways: u32, pairs: u32) {
    assert_eq!(rt; problem.cells(), cells);
    assert_eq!(rt; all_ways(rt, problem), ways);
    assert_eq!(rt; problem.depth(), pairs);
}

#[test]
fn a_large_map(rt: HostRuntime) -> Result<(), Fail> {
    let tiles = many(&rt, rt.alloc())?;
    let problem = problem_of(&rt, rt.alloc(), &tiles, (4096, 68, true), b"")?;
    is_as_large(&rt, &problem, 278_528, 1_114_112, 8_355_840);
    Ok(())
}

/// The problem of the mask of strips, with a pin at its last place and a ban at its first.
fn striped(rt: &impl Abort, alloc: Global, tiles: &TileSet, wrap: bool) -> Result<Problem, Fail> {
    let text = strips(alloc)?;
    let mask = mask_of(rt, alloc, &text, 4096, 256)?;
    masked_problem_of(
        rt,
        alloc,
        tiles,
        &mask,
        wrap,
        b"pin 4083 255 i/1\nban 0 0 f/0\n",
    )
}

/// Whether the problem of the mask of strips has so many ways from cell to cell.
fn is_striped(
    rt: &impl Abort,
    alloc: Global,
    tiles: &TileSet,
    wrap: bool,
    ways: u32,
) -> Result<(), Fail> {
    let problem = striped(rt, alloc, tiles, wrap)?;
    is_as_large(rt, &problem, 262_144, ways, 7_864_290);
    Ok(())
}

#[test]
fn a_large_map_with_holes(rt: HostRuntime) -> Result<(), Fail> {
    let tiles = many(&rt, rt.alloc())?;
    is_striped(&rt, rt.alloc(), &tiles, true, 917_504)?;
    is_striped(&rt, rt.alloc(), &tiles, false, 915_456)
}
