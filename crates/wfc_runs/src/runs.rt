//! Making a run.

ghost use Rattle.std.specs.Prelude.{◌≡◌, ◌<◌, [], IfOk, Some};
ghost use Rattle.wfc_search.specs.Ends.{EndsIn};
ghost use Rattle.wfc_search.specs.Search.{IsGoing, IsReady, assignment_of};
ghost use Rattle.wfc_search.specs.Shown.{view_of_search};
ghost use Rattle.wfc_runs.specs.Runs.{HoldsOutcome, IsLegalEnd, IsRan};
ghost use Rattle.wfc_runs.specs.Views.{IsSeededEnd, search_view};
ghost use Rattle.wfc_runs.specs.Words.{generator_words, words_of_seed};

use rand_core::SeedableRng;
use rand_pcg::Pcg64;
use std::alloc::Global;
use std::marker::Brand;
use std::sync::ledger::{Blank, Ledger};
use wfc_ac4::Ac4;
use wfc_choose::Chooser;
use wfc_domains::Steps;
use wfc_outside::NoMemory;
use wfc_problem::Problem;
use wfc_proof::Quiet;
use wfc_search::{Outcome, Search};

/// How a run ended.
#[derive(Debug, Drop)]
pub enum RunEnd {
    /// With one value for each cell.
    Map { assignment: Vec<u16> },
    /// No assignment is legal.
    NoMap,
    /// The budget was spent.
    Spent,
}

/// A run that was made.
#[derive(Debug, Drop)]
pub struct Ran {
    pub end: RunEnd,
    pub retractions: u32,
}

/// The source of the words that a seed gives: the generator Pcg64 that `seed_from_u64` of
/// `rand_core` seeds.
pub fn words_of_seed(seed: u64) -> Pcg64
    ensures value { generator_words result ≡ words_of_seed seed }
{
    Pcg64::seed_from_u64(seed)
}

/// Makes the run of a problem, with the words of a seed. The only fault is want of memory, which is
/// taken before the first turn, but for that of the assignment.
pub fn run(
    alloc: Global,
    problem: &Problem,
    chooser: Box<dyn Chooser>,
    budget: u32,
    seed: u64,
) -> Result<Ran, NoMemory>
    ensures ran { IfOk result (IsRan problem.now (told chooser).rule budget seed) }
    ensures legal { IfOk result (λ ran. IsLegalEnd problem.now ran.end) }
{
    run_with_blank::<Brand>(alloc, problem, chooser, budget, seed, Blank::new(1))
}

/// The same, with its steps counted in a ledger of its own.
fn run_with_blank<L: Ledger>(
    alloc: Global,
    problem: &Problem,
    chooser: Box<dyn Chooser>,
    budget: u32,
    seed: u64,
    blank: Blank,
) -> Result<Ran, NoMemory>
    requires name { blank.name ≡ L.name }
    requires parts { blank.parts ≡ L.parts }
    requires some { 0 < blank.parts }
    ensures ran { IfOk result (IsRan problem.now (told chooser).rule budget seed) }
    ensures legal { IfOk result (λ ran. IsLegalEnd problem.now ran.end) }
{
    let mut steps = Steps::<L>::new(blank);
    run_counted(alloc, problem, chooser, budget, seed, &mut steps)
}

/// The same as `run`, with its steps counted.
pub fn run_counted<L: Ledger>(
    alloc: Global,
    problem: &Problem,
    chooser: Box<dyn Chooser>,
    budget: u32,
    seed: u64,
    steps: &mut Steps<L>,
) -> Result<Ran, NoMemory>
    ensures ran { IfOk result (IsRan problem.now (told chooser).rule budget seed) }
    ensures legal { IfOk result (λ ran. IsLegalEnd problem.now ran.end) }
{
    let mut search = open_search(alloc, problem, chooser, budget)?;
    let outcome = seeded_outcome(&mut search, seed, steps);
    ran_of(alloc, problem, &search, outcome)
}

/// The outcome alone of the run of a problem, with the words of a seed. Its steps are counted, and
/// all memory is taken before the first turn.
pub fn outcome_counted<L: Ledger>(
    alloc: Global,
    problem: &Problem,
    chooser: Box<dyn Chooser>,
    budget: u32,
    seed: u64,
    steps: &mut Steps<L>,
) -> Result<Outcome, NoMemory>
    ensures ends { IfOk result (EndsIn problem.now (told chooser).rule budget (words_of_seed seed)) }
{
    let mut search = open_search(alloc, problem, chooser, budget)?;
    Ok(seeded_outcome(&mut search, seed, steps))
}

/// A search over the engine of counters that has made no turn. It takes all its memory here; the
/// chooser is dropped where there isn't enough.
pub fn open_search<'p>(
    alloc: Global,
    problem: &'p Problem,
    chooser: Box<dyn Chooser>,
    budget: u32,
) -> Result<Search<'p, Ac4<'p>>, NoMemory>
    ensures ready { IfOk result (λ made. IsReady (view_of_search (λ store. store) made (told
        made.chooser))) }
    ensures going { IfOk result (λ made. IsGoing made.course) }
    ensures problem { IfOk result (λ made. made.problem.now ≡ problem.now) }
    ensures standing { IfOk result (λ made. made.store.standing ≡ []) }
    ensures rule { IfOk result (λ made. (told made.chooser).rule ≡ (told chooser).rule) }
    ensures budget { IfOk result (λ made. made.course.budget ≡ budget) }
    ensures retractions { IfOk result (λ made. made.course.retractions ≡ 0) }
{
    let Ok(store) = Ac4::open(alloc, problem, problem.depth()) else {
        return Err(NoMemory);
    };
    let Ok(search) = Search::open(alloc, problem, store, chooser, budget) else {
        return Err(NoMemory);
    };
    Ok(search)
}

/// Makes the turns of a search, with the words of a seed.
fn seeded_outcome<L: Ledger>(
    search: &mut Search<'_, Ac4<'_>>,
    seed: u64,
    steps: &mut Steps<L>,
) -> Outcome
    requires ready { IsReady (search_view told search.old) }
    requires going { IsGoing search.old.course }
    ensures end { IsSeededEnd told search.old seed result search.new }
    ensures outcome { search.new.course.outcome ≡ Some result }
    ensures ready { IsReady (search_view told search.new) }
    ensures problem { search.new.problem.now ≡ search.old.problem.now }
{
    let mut words = words_of_seed(seed);
    let Ok(outcome) = search.run(&mut words, &mut Quiet, steps) else {
        unreachable!();
    };
    outcome
}

/// What a search came to.
fn ran_of(
    alloc: Global,
    problem: &Problem,
    search: &Search<'_, Ac4<'_>>,
    outcome: Outcome,
) -> Result<Ran, NoMemory>
    requires ready { IsReady (search_view told search.now) }
    requires problem { search.now.problem.now ≡ problem.now }
    requires outcome { search.now.course.outcome ≡ Some outcome }
    ensures end { IfOk result
        (λ ran. HoldsOutcome problem.now search.now.store.standing outcome ran.end) }
    ensures retractions { IfOk result
        (λ ran. ran.retractions ≡ search.now.course.retractions) }
{
    let end = end_of(alloc, problem, search, outcome)?;
    Ok(Ran {
        end,
        retractions: search.retractions(),
    })
}

/// The end of a search, with its assignment.
fn end_of(
    alloc: Global,
    problem: &Problem,
    search: &Search<'_, Ac4<'_>>,
    outcome: Outcome,
) -> Result<RunEnd, NoMemory>
    requires ready { IsReady (search_view told search.now) }
    requires problem { search.now.problem.now ≡ problem.now }
    requires outcome { search.now.course.outcome ≡ Some outcome }
    ensures end { IfOk result (HoldsOutcome problem.now search.now.store.standing outcome) }
{
    match outcome {
        Outcome::Map => Ok(RunEnd::Map {
            assignment: assignment(alloc, problem, search)?,
        }),
        Outcome::NoMap => Ok(RunEnd::NoMap),
        Outcome::Spent => Ok(RunEnd::Spent),
    }
}

/// The assignment that a search found.
fn assignment(
    alloc: Global,
    problem: &Problem,
    search: &Search<'_, Ac4<'_>>,
) -> Result<Vec<u16>, NoMemory>
    requires ready { IsReady (search_view told search.now) }
    requires problem { search.now.problem.now ≡ problem.now }
    requires map { search.now.course.outcome ≡ Some Outcome.Map }
    ensures value { IfOk result
        (λ values. values.items ≡ assignment_of problem.now search.now.store.standing) }
{
    let mut values = Vec::with_capacity(alloc, problem.cells() as usize)?;
    for cell in 0..problem.cells() {
        values.push(search.value_at(cell))?;
    }
    Ok(values)
}
