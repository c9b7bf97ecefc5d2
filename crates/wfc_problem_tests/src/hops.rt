//! What lies beside the cells, read back of problems whose cells have few kinds, and many.

use crate::problem::striped;
use std::alloc::{AllocError, Global};
use std::process::Abort;
use std::test::Fail;
use wfc_problem::{NO_CELL, NO_HOP, Problem, hop_cell, hop_end};

/// The table of a map whose cells lie row by row, as wide and high.
fn map(alloc: Global, width: u8, height: u8) -> Result<Vec<u32>, AllocError> {
    let mut table = Vec::new(alloc);
    for y in 0..height {
        for x in 0..width {
            push_sides(&mut table, x, y, width, height)?;
        }
    }
    Ok(table)
}

/// The entry of a side on which there is this cell, or none.
fn side(is_there: bool, cell: u32) -> u32 {
    if is_there { cell } else { NO_CELL }
}

/// The entries of the cell at a place of such a map.
fn push_sides(table: &mut Vec<u32>, x: u8, y: u8, width: u8, height: u8) -> Result<(), AllocError> {
    let (x, y) = (u32::from(x), u32::from(y));
    let (width, height) = (u32::from(width), u32::from(height));
    let cell = y * width + x;
    table.push(side(x > 0, cell.wrapping_sub(1)))?;
    table.push(side(y + 1 < height, cell + width))?;
    table.push(side(x + 1 < width, cell + 1))?;
    table.push(side(y > 0, cell.wrapping_sub(width)))?;
    Ok(())
}

/// The table of cells of which the first lies left of the last, the second left of the last but one, and so on: each is of
/// a kind of its own.
fn nested(alloc: Global, cells: u16) -> Result<Vec<u32>, AllocError> {
    let mut table = Vec::new(alloc);
    for cell in 0..cells {
        let other = cells - 1 - cell;
        table.push(if other < cell {
            u32::from(other)
        } else {
            NO_CELL
        })?;
        table.push(NO_CELL)?;
        table.push(if cell < other {
            u32::from(other)
        } else {
            NO_CELL
        })?;
        table.push(NO_CELL)?;
    }
    Ok(table)
}

/// The cell that a table names at a place, if any.
fn named(table: &[u32], at: usize) -> Option<u32> {
    match table.get(at) {
        Some(entry) if *entry != NO_CELL => Some(*entry),
        _ => None,
    }
}

/// Each neighbour of a problem of so many cells with this table is the one that the table names.
fn reads_back(rt: &impl Abort, alloc: Global, cells: u16, table: &[u32]) -> Result<(), Fail> {
    let problem = Problem::new(striped(alloc, cells, 4, table)?)?;
    let dirs = problem.dirs();
    for cell in 0..problem.cells() {
        for dir in 0..dirs {
            let at = cell as usize * dirs as usize + dir as usize;
            let found = problem.neighbour(cell, dir);
            assert_eq!(rt;
                found,
                named(table, at),
                "cell {cell} of {cells}, direction {dir}"
            );
        }
    }
    Ok(())
}

#[test]
fn few_kinds(rt: HostRuntime) -> Result<(), Fail> {
    let alloc = rt.alloc();
    for (width, height) in [(1, 1), (5, 1), (1, 4), (2, 2), (3, 2), (7, 5)] {
        let table = map(alloc, width, height)?;
        reads_back(&rt, alloc, u16::from(width) * u16::from(height), &table)?;
    }
    // A cell that is its own neighbour all round, and two that are beside each other on both sides.
    reads_back(&rt, alloc, 1, &[0; 4])?;
    reads_back(&rt, alloc, 2, &[1, 0, 1, 0, 0, 1, 0, 1])
}

/// 255 kinds have a byte each, and with one more each cell keeps a row of its own.
#[test]
fn many_kinds(rt: HostRuntime) -> Result<(), Fail> {
    let alloc = rt.alloc();
    for cells in [2, 7, 254, 255, 256, 257, 600] {
        reads_back(&rt, alloc, cells, &nested(alloc, cells)?)?;
    }
    Ok(())
}

#[test]
fn hops_of_a_cell(rt: HostRuntime) -> Result<(), Fail> {
    let alloc = rt.alloc();
    let problem = Problem::new(striped(alloc, 6, 4, &map(alloc, 3, 2)?)?)?;
    assert!(rt; problem.cells() == 6);
    assert_eq!(rt; problem.hops(1), [u32::MAX, 3, 1, NO_HOP].as_slice());
    assert_eq!(rt;
        problem.hops(5),
        [u32::MAX, NO_HOP, NO_HOP, u32::MAX - 2].as_slice()
    );
    assert_eq!(rt;
        (hop_cell(5, u32::MAX - 2), hop_cell(5, NO_HOP)),
        (Some(2), None)
    );
    assert_eq!(rt; hop_end(1, 3), 4);
    Ok(())
}
