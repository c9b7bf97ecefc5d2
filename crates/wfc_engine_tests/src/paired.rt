//! Large problems of short lists: two counts share a byte in one of few supports, and none do in one of many.

ghost use Rattle.std.specs.Prelude.{◌≡◌, ◌<◌};

use super::ac4::{counts_afresh, go_back};
use std::alloc::{AllocError, Global};
use std::marker::Brand;
use std::process::Abort;
use std::sync::ledger::{Blank, Ledger};
use std::test::Fail;
use wfc_ac4::Ac4;
use wfc_domains::{Steps, Store, Verdict};
use wfc_problem::{Literal, Parts, Problem};

/// How many cells a row has, and how many rows there are.
const SIDE: u32 = 128;

/// How many cells there are: with so many there are more than a million counts.
const CELLS: u32 = 16_384;

/// How many values each has.
const VALUES: u16 = 16;

/// The neighbours of each cell, where each row and each column is a ring.
pub fn around(alloc: Global) -> Result<Vec<u32>, AllocError> {
    let mut out = Vec::new(alloc);
    for cell in 0..CELLS {
        let (column, row) = (cell % SIDE, cell / SIDE);
        let left = row * SIDE + (column + SIDE - 1) % SIDE;
        let down = (cell + SIDE) % CELLS;
        let right = row * SIDE + (column + 1) % SIDE;
        let up = (cell + CELLS - SIDE) % CELLS;
        for other in [left, down, right, up] {
            out.push(other)?;
        }
    }
    Ok(out)
}

/// A value and the one so far above it; behind the last value comes the first.
fn it_and(alloc: Global, value: u16, above: u16) -> Result<Vec<u16>, AllocError>
    requires value_in { value < 16 }
    requires above_in { above < 16 }
{
    let other = (value + above) % VALUES;
    Vec::from_slice(alloc, &[value.min(other), value.max(other)])
}

/// Each value may stand beside itself and one other, in each direction another.
fn itself_and_one(alloc: Global) -> Result<Vec<Vec<u16>>, AllocError> {
    let mut supports = Vec::new(alloc);
    for value in 0..VALUES {
        for above in [15, 2, 1, 14] {
            supports.push(it_and(alloc, value, above)?)?;
        }
    }
    Ok(supports)
}

/// The value so far above it and the three behind that one, in rising order; behind the last value comes the first.
fn four_from(alloc: Global, value: u16, above: u16) -> Result<Vec<u16>, AllocError>
    requires value_in { value < 16 }
    requires above_in { above < 16 }
{
    let first = (value + above) % VALUES;
    let mut four = Vec::new(alloc);
    for other in 0..VALUES {
        if (other + VALUES - first) % VALUES < 4 {
            four.push(other)?;
        }
    }
    Ok(four)
}

/// Each value may stand beside itself and three others.
fn itself_and_three(alloc: Global) -> Result<Vec<Vec<u16>>, AllocError> {
    let mut supports = Vec::new(alloc);
    for value in 0..VALUES {
        for above in [13, 0, 0, 13] {
            supports.push(four_from(alloc, value, above)?)?;
        }
    }
    Ok(supports)
}

/// A square of cells with these supports, in which each value may stand everywhere.
fn square(alloc: Global, supports: Vec<Vec<u16>>) -> Result<Parts, AllocError> {
    Ok(Parts {
        cells: CELLS,
        dirs: 4,
        neighbours: around(alloc)?,
        weights: vec![in alloc; 1; 16]?,
        supports,
        base: vec![in alloc; true; 262_144]?,
    })
}

/// Each counter is as a fresh loading counts it.
fn is_counted<L: Ledger>(
    rt: &impl Abort,
    alloc: Global,
    problem: &Problem,
    engine: &Ac4,
    steps: &mut Steps<L>,
)
    requires problem { engine.now.problem ≡ problem.now }
{
    assert_eq!(rt; engine.verdict(), Verdict::Alive);
    let counted = counts_afresh(alloc, problem, engine, steps);
    assert!(rt; counted.expect(rt, "memory for other counters"));
}

/// Gives a value to a cell.
fn give<L: Ledger>(
    rt: &impl Abort,
    alloc: Global,
    problem: &Problem,
    engine: &mut Ac4,
    cell: u32,
    value: u16,
    steps: &mut Steps<L>,
)
    requires problem { engine.old.problem ≡ problem.now }
    ensures problem { engine.new.problem ≡ problem.now }
{
    assert!(rt; cell < problem.cells() && value < problem.values());
    assert!(rt; engine.spare() > 0);
    assert_eq!(rt; engine.verdict(), Verdict::Alive);
    engine.assume(Literal::Is { cell, value }, steps);
    assert!(rt; engine.added_len() > 200);
    is_counted(rt, alloc, problem, engine, steps);
}

/// Takes the last value back.
fn take_back<L: Ledger>(
    rt: &impl Abort,
    alloc: Global,
    problem: &Problem,
    engine: &mut Ac4,
    steps: &mut Steps<L>,
)
    requires problem { engine.old.problem ≡ problem.now }
    ensures problem { engine.new.problem ≡ problem.now }
{
    go_back(problem, engine, steps);
    is_counted(rt, alloc, problem, engine, steps);
}

/// Two values are given and taken back.
fn there_and_back<L: Ledger>(
    rt: &impl Abort,
    alloc: Global,
    problem: &Problem,
    engine: &mut Ac4,
    steps: &mut Steps<L>,
)
    requires problem { engine.old.problem ≡ problem.now }
{
    is_counted(rt, alloc, problem, engine, steps);
    give(rt, alloc, problem, engine, 0, 5, steps);
    give(rt, alloc, problem, engine, 8_256, 11, steps);
    take_back(rt, alloc, problem, engine, steps);
    take_back(rt, alloc, problem, engine, steps);
}

/// The same of an engine that is opened for it, in which two counts share a byte or none do.
fn gives_and_takes<L: Ledger>(
    rt: &impl Abort,
    alloc: Global,
    problem: &Problem,
    is_paired: bool,
    blank: Blank,
) -> Result<(), Fail>
    requires name { blank.name ≡ L.name }
    requires parts { blank.parts ≡ L.parts }
    requires some { 0 < blank.parts }
{
    let mut steps = Steps::<L>::new(blank);
    let mut engine = Ac4::open(alloc, problem, 2)?;
    assert_eq!(rt; engine.counters().is_paired(), is_paired);
    there_and_back(rt, alloc, problem, &mut engine, &mut steps);
    Ok(())
}

#[test]
fn counts_that_share_a_byte_are_undone(rt: HostRuntime) -> Result<(), Fail> {
    let supports = itself_and_one(rt.alloc())?;
    let problem = Problem::new(square(rt.alloc(), supports)?)?;
    gives_and_takes::<Brand>(&rt, rt.alloc(), &problem, true, Blank::new(1))
}

#[test]
fn counts_of_many_supports_share_no_byte(rt: HostRuntime) -> Result<(), Fail> {
    let supports = itself_and_three(rt.alloc())?;
    let problem = Problem::new(square(rt.alloc(), supports)?)?;
    gives_and_takes::<Brand>(&rt, rt.alloc(), &problem, false, Blank::new(1))
}
