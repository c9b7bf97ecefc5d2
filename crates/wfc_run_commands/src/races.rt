//! A race of seeds over a problem.

ghost use Rattle.std.specs.Prelude.{All, IfOk, length, map, ◌+◌, ◌-◌, ◌<◌, ◌^◌, ◌≡◌, ◌≤◌};
ghost use Rattle.wfc_race.specs.Racers.{new_racer};
ghost use Rattle.wfc_race.specs.Seen.{IsRunner, racers_of, runners_seen, seen, seens};
ghost use Rattle.wfc_race.specs.Standing.{EndsTruly};
ghost use Rattle.wfc_race.specs.declared.TheConstants.{MAX_RUNNERS};
ghost use Rattle.wfc_run_commands.specs.Races.{AnswersTo, IsRaced, entrants, racer_seen, racers_seen};
ghost use Rattle.wfc_runs.specs.Words.{generator_words, words_of_seed};

use rand_pcg::Pcg64;
use std::alloc::Global;
use std::sync::ledger::Ledger;
use wfc_ac4::Ac4;
use wfc_choose::Chooser;
use wfc_domains::Steps;
use wfc_outside::NoMemory;
use wfc_problem::Problem;
use wfc_race::{Race, RaceEnd, Runner};
use wfc_runs::words_of_seed;
use wfc_search::Search;

/// What a race came to.
#[derive(Clone, Copy, Debug)]
pub enum Raced {
    /// This runner found a map, after so many retractions.
    Map { runner: u32, retractions: u32 },
    /// This runner found that there is none, after so many retractions.
    NoMap { runner: u32, retractions: u32 },
    /// The budget of each is spent.
    AllSpent,
}

/// A runner that has made no turn, with the words that a seed gives.
fn runner<'p>(
    alloc: Global,
    problem: &'p Problem,
    chooser: Box<dyn Chooser>,
    budget: u32,
    seed: u64,
) -> Result<Runner<'p, Ac4<'p>, Pcg64>, NoMemory>
    ensures runner { IfOk result (λ made. IsRunner problem.now (seen (λ store. store)
        generator_words (told made.search.chooser) made)) }
    ensures entered { IfOk result (λ made. racer_seen (told made.search.chooser) made ≡ new_racer
        (told chooser).rule budget (words_of_seed seed)) }
{
    let Ok(store) = Ac4::open(alloc, problem, problem.depth()) else {
        return Err(NoMemory);
    };
    let Ok(search) = Search::open(alloc, problem, store, chooser, budget) else {
        return Err(NoMemory);
    };
    let words = words_of_seed(seed);
    Ok(Runner { search, words })
}

/// For each chooser a runner that has made no turn, with the words of this seed, of the next one, and so on.
fn runners<'p>(
    alloc: Global,
    problem: &'p Problem,
    choosers: Vec<Box<dyn Chooser>>,
    budget: u32,
    seed: u64,
) -> Result<Vec<Runner<'p, Ac4<'p>, Pcg64>>, NoMemory>
    requires fits { seed + length choosers.items ≤ 2 ^ 64 }
    ensures runners { IfOk result (λ made. All (IsRunner problem.now) (runners_seen (λ store. store)
        generator_words (λ it. told it.search.chooser) made.items)) }
    ensures entered { IfOk result (λ made. racers_seen (λ it. told it.search.chooser) made.items ≡
        entrants (map (λ c. (told c).rule) choosers.items) budget seed) }
{
    let mut choosers = choosers;
    let count = choosers.len() as u64;
    let mut runners = Vec::with_capacity(alloc, choosers.len())?;
    for made in 0..count {
        let chooser = choosers.remove(0);
        runners.push(runner(alloc, problem, chooser, budget, seed + made)?)?;
    }
    Ok(runners)
}

/// What is told of the end of a race.
fn told_of(race: &Race<'_, Ac4<'_>, Pcg64>, end: RaceEnd) -> Raced
    requires true_end { EndsTruly (λ store. store) generator_words told race.now end }
    ensures answers { AnswersTo end (racers_of (seens (λ store. store) generator_words told
        race.now)) result }
{
    match end {
        RaceEnd::Map { runner } => Raced::Map {
            runner,
            retractions: race.search(runner).retractions(),
        },
        RaceEnd::NoMap { runner } => Raced::NoMap {
            runner,
            retractions: race.search(runner).retractions(),
        },
        RaceEnd::AllSpent => Raced::AllSpent,
    }
}

/// Makes the race in rounds of runners with these choosers, and the words of this seed, of the next one, and so on. Its
/// steps are counted in a ledger.
pub(crate) fn race<L: Ledger>(
    alloc: Global,
    problem: &Problem,
    choosers: Vec<Box<dyn Chooser>>,
    budget: u32,
    seed: u64,
    quantum: u32,
    steps: &mut Steps<L>,
) -> Result<Raced, NoMemory>
    requires some { 1 ≤ length choosers.items }
    requires few { length choosers.items ≤ MAX_RUNNERS }
    requires fits { seed + length choosers.items ≤ 2 ^ 64 }
    requires quantum { 1 ≤ quantum }
    ensures raced { IfOk result (IsRaced problem.now (map (λ chooser. (told chooser).rule)
        choosers.items) budget seed quantum) }
{
    let runners = runners(alloc, problem, choosers, budget, seed)?;
    let mut race = Race::new(runners);
    let end = race.round(quantum, steps);
    Ok(told_of(&race, end))
}
