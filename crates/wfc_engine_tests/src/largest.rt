//! The largest problem: removals whose numbers do not fit three bytes are read back as they were.

ghost use Rattle.std.specs.Prelude.{◌≡◌, ◌<◌};

use std::alloc::{AllocError, Global};
use std::marker::Brand;
use std::process::Abort;
use std::sync::ledger::{Blank, Ledger};
use std::test::Fail;
use wfc_ac4::Ac4;
use wfc_domains::{Cause, Removal, Steps, Store, Verdict};
use wfc_problem::{Literal, NO_CELL, Parts, Problem};

/// How many cells there are.
const CELLS: u32 = 65_536;

/// How many values each has. There are as many pairs as a problem may have.
const VALUES: u16 = 128;

/// The value that is given.
const KEPT: u16 = 77;

/// Cells, each the first of two. Their first removals have the numbers 896 times the cell: below 2 ^ 24, and from one, two
/// and three times 2 ^ 24 on; those of the last but one begin below 2 ^ 24 and end above.
const PLACES: [u32; 6] = [0, 20_000, 40_000, 65_534, 18_724, 58_000];

/// The same in another order.
const OTHERS: [u32; 6] = [65_534, 58_000, 0, 18_724, 40_000, 20_000];

/// The cells stand two by two, side by side.
fn neighbours(alloc: Global) -> Result<Vec<u32>, AllocError> {
    let mut out = Vec::new(alloc);
    for cell in 0..CELLS {
        let (left, right) = if cell % 2 == 0 {
            (NO_CELL, cell + 1)
        } else {
            (cell - 1, NO_CELL)
        };
        for other in [left, NO_CELL, right, NO_CELL, NO_CELL, NO_CELL] {
            out.push(other)?;
        }
    }
    Ok(out)
}

/// Each of so many values supports itself alone, in each of so many directions.
pub fn itself(alloc: Global, values: u16, dirs: u8) -> Result<Vec<Vec<u16>>, AllocError> {
    let mut supports = Vec::new(alloc);
    for value in 0..values {
        for _dir in 0..dirs {
            supports.push(Vec::from_slice(alloc, &[value])?)?;
        }
    }
    Ok(supports)
}

/// As many pairs as there may be, all of them in the base.
fn largest(alloc: Global) -> Result<Parts, AllocError> {
    Ok(Parts {
        cells: CELLS,
        dirs: 6,
        neighbours: neighbours(alloc)?,
        weights: vec![in alloc; 1; 128]?,
        supports: itself(alloc, VALUES, 6)?,
        base: vec![in alloc; true; 8_388_608]?,
    })
}

/// The other values of a cell, each as it is removed.
fn others(list: &mut Vec<Removal>, cell: u32, cause: Cause) -> Result<(), AllocError> {
    for value in 0..VALUES {
        if value != KEPT {
            let before = VALUES + u16::from(value > KEPT) - value;
            list.push(Removal {
                cell,
                value,
                before,
                cause,
            })?;
        }
    }
    Ok(())
}

/// What a level removes that gives a value to the first of two cells: its other values, and then those of the second.
fn level(alloc: Global, cell: u32) -> Result<Vec<Removal>, AllocError> {
    let mut list = Vec::new(alloc);
    others(&mut list, cell, Cause::Assumed)?;
    others(&mut list, cell.wrapping_add(1), Cause::Arc(0))?;
    Ok(list)
}

/// Gives the value to a cell.
fn give<L: Ledger>(
    rt: &impl Abort,
    problem: &Problem,
    engine: &mut Ac4,
    cell: u32,
    steps: &mut Steps<L>,
)
    requires problem { engine.old.problem ≡ problem.now }
    ensures problem { engine.new.problem ≡ problem.now }
{
    assert!(rt; cell < problem.cells() && KEPT < problem.values());
    assert_eq!(rt; engine.verdict(), Verdict::Alive);
    assert!(rt; engine.spare() > 0);
    engine.assume(Literal::Is { cell, value: KEPT }, steps);
}

/// Takes the last level away, which is the one of a cell.
fn take_back<L: Ledger>(
    rt: &impl Abort,
    alloc: Global,
    engine: &mut Ac4,
    cell: u32,
    steps: &mut Steps<L>,
) -> Result<(), Fail>
    ensures problem { engine.new.problem ≡ engine.old.problem }
{
    assert_eq!(rt; engine.added(), Some(level(alloc, cell)?.as_slice()));
    assert!(rt; !engine.standing().is_empty());
    engine.undo(steps);
    Ok(())
}

/// Gives the value to each of these cells, in a level each.
fn go<L: Ledger>(
    rt: &impl Abort,
    problem: &Problem,
    engine: &mut Ac4,
    cells: &[u32],
    steps: &mut Steps<L>,
)
    requires problem { engine.old.problem ≡ problem.now }
    ensures problem { engine.new.problem ≡ problem.now }
{
    for cell in cells {
        give(rt, problem, engine, *cell, steps);
    }
}

/// Takes their levels away, the last first.
fn come_back<L: Ledger>(
    rt: &impl Abort,
    alloc: Global,
    engine: &mut Ac4,
    cells: &[u32],
    steps: &mut Steps<L>,
) -> Result<(), Fail>
    ensures problem { engine.new.problem ≡ engine.old.problem }
{
    for cell in cells.iter().rev() {
        take_back(rt, alloc, engine, *cell, steps)?;
    }
    assert_eq!(rt; engine.added_len(), 0);
    Ok(())
}

/// The levels of two lists of cells, one list after the other, so that the second writes over what the first has left.
fn both_lists<L: Ledger>(
    rt: &impl Abort,
    alloc: Global,
    problem: &Problem,
    blank: Blank,
) -> Result<(), Fail>
    requires name { blank.name ≡ L.name }
    requires parts { blank.parts ≡ L.parts }
    requires some { 0 < blank.parts }
{
    let mut steps = Steps::<L>::new(blank);
    let mut engine = Ac4::open(alloc, problem, 6)?;
    go(rt, problem, &mut engine, &PLACES, &mut steps);
    come_back(rt, alloc, &mut engine, &PLACES, &mut steps)?;
    go(rt, problem, &mut engine, &OTHERS, &mut steps);
    come_back(rt, alloc, &mut engine, &OTHERS, &mut steps)
}

#[test]
fn numbers_beyond_three_bytes_are_read_back(rt: HostRuntime) -> Result<(), Fail> {
    let problem = Problem::new(largest(rt.alloc())?)?;
    both_lists::<Brand>(&rt, rt.alloc(), &problem, Blank::new(1))
}
