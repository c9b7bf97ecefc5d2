//! The checker on two small problems without a map.
//!
//! Two cells side by side have one value, which doesn't stand beside itself; three cells in a ring have two values, of which
//! neighbours must differ.

mod files;
mod lines;
mod texts;

use std::alloc::{AllocError, Global};
use std::test::Fail;
use wfc_problem::{NO_CELL, Parts, Problem};
use wfc_proof::Shape;

/// Cells whose values have at most one support to the left and right, and none above and below.
fn parts(
    alloc: Global,
    cells: u32,
    neighbours: Vec<u32>,
    others: &[Option<u16>],
) -> Result<Parts, AllocError> {
    let mut supports = Vec::new(alloc);
    for other in others {
        for along in [true, false, true, false] {
            let mut list = Vec::new(alloc);
            if let Some(value) = *other
                && along
            {
                list.push(value)?;
            }
            supports.push(list)?;
        }
    }
    let mut base = Vec::new(alloc);
    for _ in 0..cells {
        for _ in others {
            base.push(true)?;
        }
    }
    Ok(Parts {
        cells,
        dirs: 4,
        neighbours,
        weights: others.iter().map(|_| 1).collect(alloc)?,
        supports,
        base,
    })
}

/// Two cells side by side with one value.
fn side_by_side(alloc: Global) -> Result<Problem, Fail> {
    let neighbours = [NO_CELL, NO_CELL, 1, NO_CELL, 0, NO_CELL, NO_CELL, NO_CELL];
    let parts = parts(alloc, 2, neighbours.to_vec(alloc)?, &[None])?;
    Ok(Problem::new(parts)?)
}

/// Three cells in a ring with two values.
fn ring(alloc: Global) -> Result<Problem, Fail> {
    let neighbours = [
        2, NO_CELL, 1, NO_CELL, 0, NO_CELL, 2, NO_CELL, 1, NO_CELL, 0, NO_CELL,
    ];
    let parts = parts(alloc, 3, neighbours.to_vec(alloc)?, &[Some(1), Some(0)])?;
    Ok(Problem::new(parts)?)
}

/// Windows of side 2 in a map of 3 by 2.
fn shape() -> Shape {
    Shape {
        n: 2,
        width: 3,
        height: 2,
        depth: 1,
        symmetry: 1,
        wrap_in: false,
        wrap_out: false,
    }
}

/// A text whose lines are ended by strokes.
fn text(alloc: Global, strokes: &str) -> Result<Vec<u8>, AllocError> {
    let mut bytes = Vec::new(alloc);
    for byte in strokes.as_bytes() {
        bytes.push(if *byte == b'/' { b'\n' } else { *byte })?;
    }
    Ok(bytes)
}
