//! Runs with the words of a seed.

ghost use Rattle.std.specs.Prelude.{◌≡◌, ◌<◌};

use crate::problems::{grid, ring};
use rand_core::Rng;
use std::alloc::Global;
use std::marker::Brand;
use std::process::Abort;
use std::sync::ledger::{Blank, Ledger};
use std::test::Fail;
use wfc_choose::{Buckets, Scanning};
use wfc_domains::Steps;
use wfc_problem::Problem;
use wfc_runs::{Ran, RunEnd, outcome_counted, run, run_counted, words_of_seed};
use wfc_search::Outcome;

/// How a run ended, without its assignment.
fn outcome_of(ran: &Ran) -> Outcome {
    match &ran.end {
        RunEnd::Map { .. } => Outcome::Map,
        RunEnd::NoMap => Outcome::NoMap,
        RunEnd::Spent => Outcome::Spent,
    }
}

/// Runs a problem counted, both ways, and compares with this outcome and these retractions.
fn ends_so<L: Ledger>(
    rt: &impl Abort,
    alloc: Global,
    problem: &Problem,
    budget: u32,
    want: (Outcome, u32),
    blank: Blank,
) -> Result<(), Fail>
    requires name { blank.name ≡ L.name }
    requires parts { blank.parts ≡ L.parts }
    requires some { 0 < blank.parts }
{
    let mut steps = Steps::<L>::new(blank);
    let chooser = Box::new(alloc, Buckets::new(alloc))?;
    let ran = run_counted(alloc, problem, chooser, budget, 5, &mut steps)?;
    assert_eq!(rt; (outcome_of(&ran), ran.retractions), want);
    let chooser = Box::new(alloc, Buckets::new(alloc))?;
    let outcome = outcome_counted(alloc, problem, chooser, budget, 5, &mut steps)?;
    assert_eq!(rt; outcome, want.0);
    Ok(())
}

/// A ring of three cells that must differ has no map of two values: the first value that is given
/// is taken back, and without a budget it stays.
#[test]
fn rings_have_no_map(rt: HostRuntime) -> Result<(), Fail> {
    let alloc = rt.alloc();
    let problem = Problem::new(ring(alloc)?)?;
    ends_so::<Brand>(&rt, alloc, &problem, 1, (Outcome::NoMap, 1), Blank::new(1))?;
    ends_so::<Brand>(&rt, alloc, &problem, 0, (Outcome::Spent, 0), Blank::new(1))?;
    let chooser = Box::new(alloc, Scanning::scanline(alloc))?;
    let ran = run(alloc, &problem, chooser, 1, 7)?;
    assert_eq!(rt; (outcome_of(&ran), ran.retractions), (Outcome::NoMap, 1));
    Ok(())
}

/// The assignment of a map.
fn assignment_of(ran: Ran) -> Option<Vec<u16>> {
    match ran.end {
        RunEnd::Map { assignment } => Some(assignment),
        RunEnd::NoMap => None,
        RunEnd::Spent => None,
    }
}

/// Neighbours differ in a map, also in a large one.
#[test]
fn neighbours_differ(rt: HostRuntime) -> Result<(), Fail> {
    let alloc = rt.alloc();
    for (width, height) in [(2, 1), (3, 2), (100, 80)] {
        let problem = Problem::new(grid(alloc, width, height, 4, false)?)?;
        let chooser = Box::new(alloc, Buckets::new(alloc))?;
        let ran = run(alloc, &problem, chooser, 1000, 3)?;
        let values = assignment_of(ran).ok_or("no map")?;
        let row = usize::from(width).max(1);
        assert_eq!(rt; values.len(), row.wrapping_mul(usize::from(height)));
        for cell in 1..values.len() {
            if cell % row != 0 {
                assert_ne!(rt; values[cell - 1], values[cell]);
            }
        }
    }
    Ok(())
}

/// The first words of three seeds, as the published generator gives them.
#[test]
fn seeds_have_their_words(rt: HostRuntime) {
    assert_eq!(rt; words_of_seed(0).next_u64(), 2354861276966075475);
    assert_eq!(rt; words_of_seed(42).next_u64(), 4178418447715145737);
    let mut words = words_of_seed(3);
    assert_eq!(rt; words.next_u64(), 7868494656814235501);
    assert_eq!(rt; words.next_u64(), 4177547917591030546);
}
