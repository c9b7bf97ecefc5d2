//! How far it is from the row of a cell in a table to those of its neighbours, and which cells have such strides.

use crate::problem::striped;
use std::alloc::{AllocError, Global};
use std::process::Abort;
use std::test::Fail;
use wfc_problem::{FourSides, NO_CELL, Problem, Strides, hop_end};

/// How many entries a row has.
const ROW: u32 = 12;

/// The neighbours of the cells of a map that wraps, three wide and two high.
const WRAPPED: [u32; 24] = [
    2, 3, 1, 3, 0, 4, 2, 4, 1, 5, 0, 5, 5, 0, 4, 0, 3, 1, 5, 1, 4, 2, 3, 2,
];

/// Those of a map with edges, three wide and three high.
const EDGED: [u32; 36] = [
    NO_CELL, 3, 1, NO_CELL, 0, 4, 2, NO_CELL, 1, 5, NO_CELL, NO_CELL, NO_CELL, 6, 4, 0, 3, 7, 5, 1,
    4, 8, NO_CELL, 2, NO_CELL, NO_CELL, 7, 3, 6, NO_CELL, 8, 4, 7, NO_CELL, NO_CELL, 5,
];

/// The table of cells of which the first has the last on each side, the second the last but one, and so on: each is of a
/// kind of its own.
fn mirrored(alloc: Global, cells: u16) -> Result<Vec<u32>, AllocError> {
    let mut table = Vec::new(alloc);
    for cell in 0..cells {
        let other = u32::from(cells - 1 - cell);
        table.extend_from_slice(&[other; 4])?;
    }
    Ok(table)
}

/// These sides of a cell lead to its neighbours, and to the rows of these.
fn lead_on(rt: &impl Abort, problem: &Problem, cell: u32, sides: &FourSides) {
    assert!(rt; cell < problem.cells());
    assert!(rt; problem.dirs() == 4);
    for dir in 0..4 {
        let next = hop_end(cell, sides.hops[dir as usize]);
        let row = hop_end(cell.wrapping_mul(ROW), sides.strides[dir as usize]);
        assert_eq!(rt;
            problem.neighbour(cell, dir),
            Some(next),
            "cell {cell}, direction {dir}"
        );
        assert_eq!(rt; row, next.wrapping_mul(ROW), "cell {cell}, direction {dir}");
    }
}

/// Of how many cells sides are kept, each of which lead to its neighbours.
fn kept(rt: &impl Abort, problem: &Problem, strides: &Strides<'_>) -> u32 {
    let mut found: u32 = 0;
    for cell in 0..problem.cells() {
        if let Some(sides) = strides.of(cell) {
            lead_on(rt, problem, cell, sides);
            found = found.wrapping_add(1);
        }
    }
    found
}

/// Of a problem of so many cells with this table, sides of so many are kept.
fn has_sides(
    rt: &impl Abort,
    alloc: Global,
    cells: u16,
    dirs: u8,
    table: &[u32],
    wanted: u32,
) -> Result<(), Fail> {
    let problem = Problem::new(striped(alloc, cells, dirs, table)?)?;
    assert!(rt; problem.cells() < 1000);
    let strides = problem.strides(alloc, ROW)?;
    assert_eq!(rt; kept(rt, &problem, &strides), wanted, "{cells} cells");
    Ok(())
}

#[test]
fn cells_with_sides(rt: HostRuntime) -> Result<(), Fail> {
    let alloc = rt.alloc();
    has_sides(&rt, alloc, 6, 4, &WRAPPED, 6)?;
    has_sides(&rt, alloc, 9, 4, &EDGED, 1)?;
    has_sides(&rt, alloc, 1, 4, &[0; 4], 1)?;
    has_sides(&rt, alloc, 1, 6, &[0; 6], 0)
}

/// Of 255 kinds sides are kept, and of more none are.
#[test]
fn many_kinds(rt: HostRuntime) -> Result<(), Fail> {
    let alloc = rt.alloc();
    for (cells, wanted) in [(2, 2), (7, 7), (255, 255), (256, 0), (600, 0)] {
        has_sides(&rt, alloc, cells, 4, &mirrored(alloc, cells)?, wanted)?;
    }
    Ok(())
}

#[test]
fn sides_of_a_cell(rt: HostRuntime) -> Result<(), Fail> {
    let alloc = rt.alloc();
    let problem = Problem::new(striped(alloc, 9, 4, &EDGED)?)?;
    assert!(rt; problem.cells() < 1000);
    let strides = problem.strides(alloc, ROW)?;
    let sides = strides
        .of(4)
        .expect(&rt, "the cell in the middle has four neighbours");
    assert_eq!(rt;
        sides.hops.as_slice(),
        [u32::MAX, 3, 1, u32::MAX - 2].as_slice()
    );
    assert_eq!(rt;
        sides.strides.as_slice(),
        [u32::MAX - 11, 36, 12, u32::MAX - 35].as_slice()
    );
    assert!(rt; strides.of(1).is_none());
    assert!(rt; strides.of(9).is_none());
    Ok(())
}
