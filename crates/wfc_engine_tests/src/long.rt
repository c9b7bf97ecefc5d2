//! Levels of more removals than stay in a list.

ghost use Rattle.std.specs.Prelude.{◌≡◌, ◌<◌, ◌≤◌, length};

use super::ac4::{counts_afresh, go_back};
use super::largest::itself;
use super::paired::around;
use std::alloc::{AllocError, Global};
use std::marker::Brand;
use std::process::Abort;
use std::sync::ledger::{Blank, Ledger};
use std::test::Fail;
use wfc_ac4::Ac4;
use wfc_domains::{Loss, Steps, Store, Verdict};
use wfc_problem::{Literal, Parts, Problem};

/// How many cells there are: of a level some 32,768 removals stay in a list.
const CELLS: u32 = 16_384;

/// How many values each has.
const VALUES: u16 = 4;

/// How many values go where each cell keeps one.
const GONE: usize = 49_152;

/// A square of cells that all have one value: each stands beside itself alone.
fn square(alloc: Global) -> Result<Parts, AllocError> {
    Ok(Parts {
        cells: CELLS,
        dirs: 4,
        neighbours: around(alloc)?,
        weights: vec![in alloc; 1; 4]?,
        supports: itself(alloc, VALUES, 4)?,
        base: vec![in alloc; true; 65_536]?,
    })
}

/// A flag for each value of each cell, none of them set.
fn no_flags(alloc: Global) -> Result<Vec<bool>, AllocError> {
    vec![in alloc; false; 65_536]
}

/// Sets the flag of what a removal took away, which was not set before and is not of the value that is kept.
fn set_flag(rt: &impl Abort, went: &mut Vec<bool>, loss: Loss, kept: u16) {
    assert!(rt; loss.cell < CELLS && loss.value < VALUES);
    assert!(rt; loss.value != kept);
    let place = loss.cell as usize * 4 + loss.value as usize;
    assert!(rt; place < went.len());
    assert!(rt; !went[place]);
    went[place] = true;
}

/// Each value but one went from each cell, each once.
fn each_went_once(rt: &impl Abort, alloc: Global, engine: &Ac4, kept: u16) {
    let mut went = no_flags(alloc).expect(rt, "memory for the flags");
    for index in 0..engine.added_len() {
        set_flag(rt, &mut went, engine.added_at(index), kept);
    }
}

/// The level that gave the value to the first cell is long: no list has its removals, and each of them can be read.
fn is_long(rt: &impl Abort, alloc: Global, engine: &Ac4, kept: u16) {
    assert!(rt; engine.added().is_none());
    assert_eq!(rt; engine.added_len(), GONE);
    each_went_once(rt, alloc, engine, kept);
}

/// The last level removed nothing.
fn is_empty(rt: &impl Abort, engine: &Ac4) {
    assert_eq!(rt; engine.verdict(), Verdict::Alive);
    assert_eq!(rt; engine.added_len(), 0);
    assert!(rt; engine.added().is_some());
}

/// Gives a value to a cell.
fn give<L: Ledger>(
    rt: &impl Abort,
    problem: &Problem,
    engine: &mut Ac4,
    cell: u32,
    value: u16,
    steps: &mut Steps<L>,
)
    requires problem { engine.old.problem ≡ problem.now }
    ensures problem { engine.new.problem ≡ problem.now }
{
    assert!(rt; cell < problem.cells() && value < problem.values());
    assert!(rt; engine.spare() > 0);
    assert_eq!(rt; engine.verdict(), Verdict::Alive);
    engine.assume(Literal::Is { cell, value }, steps);
}

/// A long level, and one behind it that removes nothing.
fn go<L: Ledger>(
    rt: &impl Abort,
    alloc: Global,
    problem: &Problem,
    engine: &mut Ac4,
    value: u16,
    steps: &mut Steps<L>,
)
    requires problem { engine.old.problem ≡ problem.now }
    ensures problem { engine.new.problem ≡ problem.now }
{
    give(rt, problem, engine, 0, value, steps);
    is_long(rt, alloc, engine, value);
    give(rt, problem, engine, 77, value, steps);
    is_empty(rt, engine);
}

/// Both taken back.
fn come_back<L: Ledger>(
    rt: &impl Abort,
    alloc: Global,
    problem: &Problem,
    engine: &mut Ac4,
    value: u16,
    steps: &mut Steps<L>,
)
    requires problem { engine.old.problem ≡ problem.now }
    ensures problem { engine.new.problem ≡ problem.now }
{
    go_back(problem, engine, steps);
    is_long(rt, alloc, engine, value);
    go_back(problem, engine, steps);
    is_empty(rt, engine);
}

/// Long levels of two values, one after the other is taken back.
fn there_and_back<L: Ledger>(
    rt: &impl Abort,
    alloc: Global,
    problem: &Problem,
    engine: &mut Ac4,
    steps: &mut Steps<L>,
)
    requires problem { engine.old.problem ≡ problem.now }
    ensures problem { engine.new.problem ≡ problem.now }
{
    go(rt, alloc, problem, engine, 2, steps);
    come_back(rt, alloc, problem, engine, 2, steps);
    go(rt, alloc, problem, engine, 3, steps);
}

/// The same of an engine that is opened for it, whose counters are exact behind it.
fn long_and_short<L: Ledger>(
    rt: &impl Abort,
    alloc: Global,
    problem: &Problem,
    blank: Blank,
) -> Result<(), Fail>
    requires name { blank.name ≡ L.name }
    requires parts { blank.parts ≡ L.parts }
    requires some { 0 < blank.parts }
{
    let mut steps = Steps::<L>::new(blank);
    let mut engine = Ac4::open(alloc, problem, 2)?;
    there_and_back(rt, alloc, problem, &mut engine, &mut steps);
    assert!(rt; counts_afresh(alloc, problem, &engine, &mut steps)?);
    Ok(())
}

#[test]
fn long_levels_are_undone(rt: HostRuntime) -> Result<(), Fail> {
    let problem = Problem::new(square(rt.alloc())?)?;
    long_and_short::<Brand>(&rt, rt.alloc(), &problem, Blank::new(1))
}
