//! Searches over both engines.

ghost use Rattle.std.specs.Prelude.{◌≡◌, ◌<◌, OnOk, Some, false};
ghost use Rattle.wfc_domains.specs.Store.{IsOpened};
ghost use Rattle.wfc_problem.specs.Rounds.{depth_of};
ghost use Rattle.wfc_search.specs.Search.{IsGoing, IsReady};
ghost use Rattle.wfc_search.specs.Shown.{search_seen};

use super::expecting::Expecting;
use super::words::Words;
use crate::problems::{grid, ring};
use std::alloc::Global;
use std::marker::Brand;
use std::process::Abort;
use std::sync::ledger::{Blank, Ledger};
use std::test::Fail;
use wfc_ac4::Ac4;
use wfc_choose::{Buckets, Chooser, Scanning};
use wfc_domains::{PlainStore, Steps, Store};
use wfc_problem::Problem;
use wfc_proof::{JournalFault, Line, Quiet};
use wfc_search::{Outcome, Search, Turn};

/// What is told of a ring of three cells with a budget of 1: value 0 at cell 0 leaves nothing for the others, and
/// neither does value 1. Without a budget the first five lines are told, and that it is spent.
const NO_MAP: [Line; 10] = [
    Line::Try { cell: 0, value: 0 },
    Line::Remove {
        cell: 1,
        value: 0,
        dir: 0,
    },
    Line::Remove {
        cell: 2,
        value: 0,
        dir: 2,
    },
    Line::Remove {
        cell: 2,
        value: 1,
        dir: 0,
    },
    Line::Empty { cell: 2 },
    Line::Remove {
        cell: 1,
        value: 1,
        dir: 0,
    },
    Line::Remove {
        cell: 2,
        value: 0,
        dir: 0,
    },
    Line::Remove {
        cell: 2,
        value: 1,
        dir: 2,
    },
    Line::Empty { cell: 2 },
    Line::End,
];

/// Runs a search up to this end, or up to the line that the journal refuses.
fn runs_to<S: Store, L: Ledger>(
    rt: &impl Abort,
    search: &mut Search<'_, S>,
    journal: &mut Expecting,
    refusing: usize,
    want: Option<Outcome>,
    blank: Blank,
)
    requires ready { IsReady (search_seen S.view told search.old) }
    requires going { IsGoing search.old.course }
    requires journal { journal.old.failed ≡ false }
    requires name { blank.name ≡ L.name }
    requires parts { blank.parts ≡ L.parts }
    requires some { 0 < blank.parts }
{
    let outcome = search.run(&mut Words(4), journal, &mut Steps::<L>::new(blank));
    assert_eq!(rt; outcome.ok(), want, "refusing line {refusing}");
    assert_eq!(rt; search.broken(), want.is_none());
}

/// So many lines were told, and each was the wanted one.
fn told_up_to(rt: &impl Abort, journal: &Expecting, lines: usize) {
    assert_eq!(rt; journal.told(), Some(lines));
}

/// Searches over this store, and tells these lines up to the one that is refused.
fn search_ends<S: Store, L: Ledger>(
    rt: &impl Abort,
    alloc: Global,
    problem: &Problem,
    store: S,
    budget: u32,
    lines: &[Line],
    refusing: usize,
    want: Option<Outcome>,
    blank: Blank,
) -> Result<(), Fail>
    requires store { IsOpened (S.view store) problem.now (depth_of problem.now) }
    requires name { blank.name ≡ L.name }
    requires parts { blank.parts ≡ L.parts }
    requires some { 0 < blank.parts }
{
    let chooser = Box::new(alloc, Scanning::scanline(alloc))?;
    let mut search = Search::open(alloc, problem, store, chooser, budget)?;
    let mut journal = Expecting::new(lines, refusing);
    runs_to::<_, L>(rt, &mut search, &mut journal, refusing, want, blank);
    let told = lines.len().min(refusing.saturating_add(1));
    told_up_to(rt, &journal, told);
    Ok(())
}

/// Searches a ring of three cells, and tells these lines up to the one that is refused.
fn ring_ends<L: Ledger>(
    rt: &impl Abort,
    alloc: Global,
    budget: u32,
    lines: &[Line],
    refusing: usize,
    want: Option<Outcome>,
    blank: Blank,
) -> Result<(), Fail>
    requires name { blank.name ≡ L.name }
    requires parts { blank.parts ≡ L.parts }
    requires some { 0 < blank.parts }
{
    let problem = Problem::new(ring(alloc)?)?;
    let store = PlainStore::open(alloc, &problem, problem.depth())?;
    search_ends::<_, L>(
        rt, alloc, &problem, store, budget, lines, refusing, want, blank,
    )
}

/// The same, with steps of its own.
fn a_ring_ends(
    rt: &impl Abort,
    alloc: Global,
    budget: u32,
    lines: &[Line],
    refusing: usize,
    want: Option<Outcome>,
) -> Result<(), Fail> {
    ring_ends::<Brand>(rt, alloc, budget, lines, refusing, want, Blank::new(1))
}

/// The same without a budget.
fn a_ring_is_spent(rt: &impl Abort, alloc: Global) -> Result<(), Fail> {
    let spent = [
        NO_MAP[0],
        NO_MAP[1],
        NO_MAP[2],
        NO_MAP[3],
        NO_MAP[4],
        Line::Out,
    ];
    a_ring_ends(rt, alloc, 0, &spent, spent.len(), Some(Outcome::Spent))
}

#[test]
fn rings_of_three(rt: HostRuntime) -> Result<(), Fail> {
    let alloc = rt.alloc();
    a_ring_ends(&rt, alloc, 1, &NO_MAP, NO_MAP.len(), Some(Outcome::NoMap))?;
    a_ring_is_spent(&rt, alloc)?;
    for refusing in 0..NO_MAP.len() {
        a_ring_ends(&rt, alloc, 1, &NO_MAP, refusing, None)?;
    }
    Ok(())
}

/// The next turn of a search, which has no outcome yet.
fn next_turn<S: Store, L: Ledger>(
    search: &mut Search<'_, S>,
    words: &mut Words,
    steps: &mut Steps<L>,
) -> Result<Turn, JournalFault>
    requires ready { IsReady (search_seen S.view told search.old) }
    ensures ready { OnOk result (IsReady (search_seen S.view told search.new)) }
{
    let (None, false) = (search.outcome(), search.broken()) else {
        return Err(JournalFault::Failed);
    };
    search.step(words, &mut Quiet, steps)
}

/// Makes the first two turns of a search.
fn first_turns<S: Store, L: Ledger>(
    search: &mut Search<'_, S>,
    word: u64,
    steps: &mut Steps<L>,
) -> Result<(Turn, Turn), Fail>
    requires ready { IsReady (search_seen S.view told search.old) }
{
    let mut words = Words(word);
    let first = next_turn(search, &mut words, steps)?;
    let second = next_turn(search, &mut words, steps)?;
    Ok((first, second))
}

/// Makes two turns over this store.
fn two_turns_over<S: Store, L: Ledger>(
    alloc: Global,
    problem: &Problem,
    store: S,
    word: u64,
    budget: u32,
    blank: Blank,
) -> Result<(Turn, Turn), Fail>
    requires store { IsOpened (S.view store) problem.now (depth_of problem.now) }
    requires name { blank.name ≡ L.name }
    requires parts { blank.parts ≡ L.parts }
    requires some { 0 < blank.parts }
{
    let chooser = Box::new(alloc, Buckets::new(alloc))?;
    let mut search = Search::open(alloc, problem, store, chooser, budget)?;
    first_turns(&mut search, word, &mut Steps::<L>::new(blank))
}

/// Makes two turns in a ring of three cells.
fn two_turns<L: Ledger>(
    alloc: Global,
    word: u64,
    budget: u32,
    blank: Blank,
) -> Result<(Turn, Turn), Fail>
    requires name { blank.name ≡ L.name }
    requires parts { blank.parts ≡ L.parts }
    requires some { 0 < blank.parts }
{
    let problem = Problem::new(ring(alloc)?)?;
    let store = PlainStore::open(alloc, &problem, problem.depth())?;
    two_turns_over::<_, L>(alloc, &problem, store, word, budget, blank)
}

/// The first turn chooses the value that the word draws, and this is the second.
fn turns_are(
    rt: &impl Abort,
    alloc: Global,
    word: u16,
    budget: u32,
    second: Turn,
) -> Result<(), Fail> {
    let (cell, value) = (0, word % 2);
    let turns = two_turns::<Brand>(alloc, u64::from(word), budget, Blank::new(1))?;
    assert_eq!(rt; turns, (Turn::Chose { cell, value }, second));
    Ok(())
}

#[test]
fn turns_in_a_ring(rt: HostRuntime) -> Result<(), Fail> {
    for word in 0..4u16 {
        let (cell, value) = (0, word % 2);
        turns_are(&rt, rt.alloc(), word, 1, Turn::Retracted { cell, value })?;
        turns_are(&rt, rt.alloc(), word, 0, Turn::Ended(Outcome::Spent))?;
    }
    Ok(())
}

/// Both maps have the same value at a cell.
fn values_agree<S: Store, T: Store>(
    rt: &impl Abort,
    one: &Search<'_, S>,
    other: &Search<'_, T>,
    cell: u32,
)
    requires one { IsReady (search_seen S.view told one.now) }
    requires other { IsReady (search_seen T.view told other.now) }
    requires one_map { one.now.course.outcome ≡ Some Outcome.Map }
    requires other_map { other.now.course.outcome ≡ Some Outcome.Map }
    requires one_has_it { cell < one.now.problem.now.cells }
    requires other_has_it { cell < other.now.problem.now.cells }
{
    assert_eq!(rt; one.value_at(cell), other.value_at(cell), "at cell {cell}");
}

/// Where two searches of a problem found maps, these are equal.
fn maps_agree<S: Store, T: Store>(
    rt: &impl Abort,
    problem: &Problem,
    one: &Search<'_, S>,
    other: &Search<'_, T>,
)
    requires one { IsReady (search_seen S.view told one.now) }
    requires other { IsReady (search_seen T.view told other.now) }
    requires same_problem { one.now.problem.now ≡ problem.now }
    requires problem { other.now.problem.now ≡ problem.now }
{
    if let (Some(Outcome::Map), Some(Outcome::Map)) = (one.outcome(), other.outcome()) {
        for cell in 0..problem.cells() {
            values_agree(rt, one, other, cell);
        }
    }
}

/// Two searches come to the same end with the same words.
fn runs_agree<S: Store, T: Store, L: Ledger>(
    rt: &impl Abort,
    one: &mut Search<'_, S>,
    other: &mut Search<'_, T>,
    seed: u64,
    steps: &mut Steps<L>,
) -> Result<(), Fail>
    requires one { IsReady (search_seen S.view told one.old) }
    requires other { IsReady (search_seen T.view told other.old) }
    requires one_going { IsGoing one.old.course }
    requires other_going { IsGoing other.old.course }
    ensures one { OnOk result (IsReady (search_seen S.view told one.new)) }
    ensures other { OnOk result (IsReady (search_seen T.view told other.new)) }
    ensures one_problem { one.new.problem.now ≡ one.old.problem.now }
    ensures other_problem { other.new.problem.now ≡ other.old.problem.now }
{
    let outcome = one.run(&mut Words(seed), &mut Quiet, steps)?;
    assert_eq!(rt; other.run(&mut Words(seed), &mut Quiet, steps)?, outcome);
    Ok(())
}

/// Two searches made as many retractions, and the same literals stand.
fn literals_agree<S: Store, T: Store>(rt: &impl Abort, one: &Search<'_, S>, other: &Search<'_, T>) {
    assert_eq!(rt; other.retractions(), one.retractions());
    assert_eq!(rt; other.standing(), one.standing());
}

/// A search with the chooser that scans and one with the chooser that has an index come to the same end, over these
/// stores and with the same words.
fn ends_agree<S: Store, T: Store, L: Ledger>(
    rt: &impl Abort,
    alloc: Global,
    problem: &Problem,
    one: S,
    other: T,
    seed: u64,
    blank: Blank,
) -> Result<(), Fail>
    requires one { IsOpened (S.view one) problem.now (depth_of problem.now) }
    requires other { IsOpened (T.view other) problem.now (depth_of problem.now) }
    requires name { blank.name ≡ L.name }
    requires parts { blank.parts ≡ L.parts }
    requires some { 0 < blank.parts }
{
    let mut steps = Steps::<L>::new(blank);
    let chooser = Box::new(alloc, Scanning::fewest(alloc))?;
    let mut scanned = Search::open(alloc, problem, one, chooser, 500)?;
    let chooser = Box::new(alloc, Buckets::new(alloc))?;
    let mut indexed = Search::open(alloc, problem, other, chooser, 500)?;
    runs_agree(rt, &mut scanned, &mut indexed, seed, &mut steps)?;
    literals_agree(rt, &scanned, &indexed);
    maps_agree(rt, problem, &scanned, &indexed);
    Ok(())
}

/// The counting engine beside this store.
fn beside_the_counting<S: Store>(
    rt: &impl Abort,
    alloc: Global,
    problem: &Problem,
    store: S,
    seed: u64,
) -> Result<(), Fail>
    requires store { IsOpened (S.view store) problem.now (depth_of problem.now) }
{
    let counting = Ac4::open(alloc, problem, problem.depth())?;
    ends_agree::<_, _, Brand>(rt, alloc, problem, store, counting, seed, Blank::new(1))
}

/// Both engines and choosers on a square whose sides are joined.
fn on_a_square(
    rt: &impl Abort,
    alloc: Global,
    side: u16,
    values: u16,
    seed: u64,
) -> Result<(), Fail> {
    let problem = Problem::new(grid(alloc, side, side, values, true)?)?;
    let plain = PlainStore::open(alloc, &problem, problem.depth())?;
    beside_the_counting(rt, alloc, &problem, plain, seed)
}

#[test]
fn both_engines_and_choosers(rt: HostRuntime) -> Result<(), Fail> {
    // Grids of three and four values have maps; two values in a ring of odd length have none.
    on_a_square(&rt, rt.alloc(), 8, 3, 1)?;
    on_a_square(&rt, rt.alloc(), 8, 4, 2)?;
    on_a_square(&rt, rt.alloc(), 5, 2, 3)?;
    on_a_square(&rt, rt.alloc(), 7, 3, 4)
}

/// Both choosers over the same engine, on many cells.
fn on_many_cells(rt: &impl Abort, alloc: Global, values: u16, seed: u64) -> Result<(), Fail> {
    let problem = Problem::new(grid(alloc, 40, 30, values, true)?)?;
    let one = Ac4::open(alloc, &problem, problem.depth())?;
    beside_the_counting(rt, alloc, &problem, one, seed)
}

#[test]
fn both_fewest_along_a_search(rt: HostRuntime) -> Result<(), Fail> {
    // Many blocks of the index, and at three values retractions.
    on_many_cells(&rt, rt.alloc(), 5, 1)?;
    on_many_cells(&rt, rt.alloc(), 3, 2)
}

/// A search over this store is not at its end when it is opened.
fn opens<S: Store>(rt: &impl Abort, alloc: Global, problem: &Problem, store: S) -> Result<(), Fail>
    requires store { IsOpened (S.view store) problem.now (depth_of problem.now) }
{
    let chooser = Box::new(alloc, Buckets::new(alloc))?;
    let search = Search::open(alloc, problem, store, chooser, 1)?;
    assert_eq!(rt; search.outcome(), None);
    Ok(())
}

#[test]
fn a_large_search_opens(rt: HostRuntime) -> Result<(), Fail> {
    let problem = Problem::new(grid(rt.alloc(), 120, 100, 2, true)?)?;
    let store = PlainStore::open(rt.alloc(), &problem, problem.depth())?;
    opens(&rt, rt.alloc(), &problem, store)
}
