//! Races of two runners over the engine of counters.

ghost use Rattle.std.specs.Prelude.{◌≡◌, ◌≤◌, ◌<◌, IfOk, None, length};
ghost use Rattle.wfc_race.specs.Race.{IsRacing};
ghost use Rattle.wfc_race.specs.Seen.{AreRunners, IsRunner, racers_of, runners_seen, seen, seens};
ghost use Rattle.wfc_runs.specs.Words.{generator_words};

use crate::problems::{grid, ring};
use rand_pcg::Pcg64;
use std::alloc::Global;
use std::marker::Brand;
use std::process::Abort;
use std::sync::ledger::{Blank, Ledger};
use std::test::Fail;
use wfc_ac4::Ac4;
use wfc_choose::{Buckets, Chooser};
use wfc_domains::Steps;
use wfc_outside::NoMemory;
use wfc_problem::Problem;
use wfc_race::{Race, RaceEnd, Runner};
use wfc_runs::words_of_seed;
use wfc_search::Search;

/// A runner that has made no turn, with the words of a seed.
fn runner<'p>(
    alloc: Global,
    problem: &'p Problem,
    chooser: Box<dyn Chooser>,
    budget: u32,
    seed: u64,
) -> Result<Runner<'p, Ac4<'p>, Pcg64>, NoMemory>
    ensures runner { IfOk result (λ made. IsRunner problem.now (seen (λ store. store)
        generator_words (told made.search.chooser) made)) }
    ensures free { IfOk result (λ made. made.search.course.outcome ≡ None) }
{
    let Ok(store) = Ac4::open(alloc, problem, problem.depth()) else {
        return Err(NoMemory);
    };
    let Ok(search) = Search::open(alloc, problem, store, chooser, budget) else {
        return Err(NoMemory);
    };
    let words = words_of_seed(seed);
    Ok(Runner { search, words })
}

/// A race of two runners with these budgets, and the words of the seeds 0 and 1.
fn race_of_two<'p>(
    alloc: Global,
    problem: &'p Problem,
    one: Box<dyn Chooser>,
    other: Box<dyn Chooser>,
    budgets: (u32, u32),
) -> Result<Race<'p, Ac4<'p>, Pcg64>, NoMemory>
    ensures ready { IfOk result (λ race. AreRunners (runners_seen (λ store. store) generator_words
        (λ it. told it.search.chooser) race.runners.items)) }
    ensures racing { IfOk result (λ race. IsRacing (racers_of (runners_seen (λ store. store)
        generator_words (λ it. told it.search.chooser) race.runners.items))) }
    ensures two { IfOk result (λ race. length race.runners.items ≡ 2) }
{
    let first = runner(alloc, problem, one, budgets.0, 0)?;
    let second = runner(alloc, problem, other, budgets.1, 1)?;
    Ok(Race::new(vec![in alloc; first, second]?))
}

/// Makes rounds up to the end, which is this one, and reads how often the runners retracted.
fn ends_so<L: Ledger>(
    rt: &impl Abort,
    race: &mut Race<'_, Ac4<'_>, Pcg64>,
    quantum: u32,
    want: (RaceEnd, u32, u32),
    blank: Blank,
)
    requires ready { AreRunners (seens (λ store. store) generator_words told race.old) }
    requires racing { IsRacing (racers_of (seens (λ store. store) generator_words told race.old)) }
    requires two { length race.old.runners.items ≡ 2 }
    requires quantum { 1 ≤ quantum }
    requires name { blank.name ≡ L.name }
    requires parts { blank.parts ≡ L.parts }
    requires some { 0 < blank.parts }
{
    let end = race.round(quantum, &mut Steps::<L>::new(blank));
    let retractions = (race.search(0).retractions(), race.search(1).retractions());
    assert_eq!(rt; (end, retractions.0, retractions.1), want);
}

/// A race in rounds of two runners with these budgets ends so, and they retracted so often.
fn race_ends<L: Ledger>(
    rt: &impl Abort,
    alloc: Global,
    problem: &Problem,
    budgets: (u32, u32),
    quantum: u32,
    want: (RaceEnd, u32, u32),
    blank: Blank,
) -> Result<(), Fail>
    requires quantum { 1 ≤ quantum }
    requires name { blank.name ≡ L.name }
    requires parts { blank.parts ≡ L.parts }
    requires some { 0 < blank.parts }
{
    let one = Box::new(alloc, Buckets::new(alloc))?;
    let other = Box::new(alloc, Buckets::new(alloc))?;
    let mut race = race_of_two(alloc, problem, one, other, budgets)?;
    ends_so::<L>(rt, &mut race, quantum, want, blank);
    Ok(())
}

/// On a ring of three cells a run with a budget shows in three turns that there is no map, one
/// without is spent in two.
#[test]
fn rings_end(rt: HostRuntime) -> Result<(), Fail> {
    let alloc = rt.alloc();
    let problem = Problem::new(ring(alloc)?)?;
    let none = |runner| RaceEnd::NoMap { runner };
    for (budgets, quantum, want) in [
        ((1, 1), 1, (none(0), 1, 1)),
        ((1, 1), 3, (none(0), 1, 0)),
        ((0, 1), 1, (none(1), 0, 1)),
        ((0, 1), 9, (none(1), 0, 1)),
        ((1, 0), 2, (none(0), 1, 0)),
        ((0, 0), 1, (RaceEnd::AllSpent, 0, 0)),
    ] {
        race_ends::<Brand>(&rt, alloc, &problem, budgets, quantum, want, Blank::new(1))?;
    }
    Ok(())
}

/// Two cells that must differ are done in two turns, and a large map too.
#[test]
fn maps_are_found(rt: HostRuntime) -> Result<(), Fail> {
    let alloc = rt.alloc();
    for (width, height) in [(2, 1), (60, 50)] {
        let problem = Problem::new(grid(alloc, width, height, 4, false)?)?;
        let want = (RaceEnd::Map { runner: 0 }, 0, 0);
        race_ends::<Brand>(&rt, alloc, &problem, (9, 9), 1, want, Blank::new(1))?;
    }
    Ok(())
}

/// Makes one turn of a runner that has no outcome, by which the race ends so or goes on.
fn turns_so<L: Ledger>(
    rt: &impl Abort,
    race: &mut Race<'_, Ac4<'_>, Pcg64>,
    who: u32,
    want: Option<RaceEnd>,
    steps: &mut Steps<L>,
)
    requires ready { AreRunners (seens (λ store. store) generator_words told race.old) }
    requires racing { IsRacing (racers_of (seens (λ store. store) generator_words told race.old)) }
    requires two { length race.old.runners.items ≡ 2 }
    requires who_in { who < 2 }
    ensures ready { AreRunners (seens (λ store. store) generator_words told race.new) }
    ensures racing { want ≡ None → IsRacing (racers_of (seens (λ store. store) generator_words told
        race.new)) }
    ensures two { length race.new.runners.items ≡ 2 }
{
    assert!(rt; race.search(who).outcome().is_none());
    let end = race.turn(who, steps);
    assert!(rt; end == want);
}

/// The turns of two runners, the second ahead at its end.
fn second_is_ahead<L: Ledger>(rt: &impl Abort, alloc: Global, blank: Blank) -> Result<(), Fail>
    requires name { blank.name ≡ L.name }
    requires parts { blank.parts ≡ L.parts }
    requires some { 0 < blank.parts }
{
    let problem = Problem::new(ring(alloc)?)?;
    let one = Box::new(alloc, Buckets::new(alloc))?;
    let other = Box::new(alloc, Buckets::new(alloc))?;
    let mut race = race_of_two(alloc, &problem, one, other, (1, 1))?;
    let mut steps = Steps::<L>::new(blank);
    turns_so(rt, &mut race, 0, None, &mut steps);
    turns_so(rt, &mut race, 1, None, &mut steps);
    turns_so(rt, &mut race, 1, None, &mut steps);
    let end = Some(RaceEnd::NoMap { runner: 1 });
    turns_so(rt, &mut race, 1, end, &mut steps);
    Ok(())
}

/// A schedule is any list of runners: the one that is given its three turns first ends the race.
#[test]
fn turns_are_taken(rt: HostRuntime) -> Result<(), Fail> {
    second_is_ahead::<Brand>(&rt, rt.alloc(), Blank::new(1))
}
