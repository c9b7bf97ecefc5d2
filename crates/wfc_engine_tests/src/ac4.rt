//! Small problems by hand, the undo of a dead level, and both engines side by side on random problems.

ghost use Rattle.std.specs.Prelude.{◌≡◌, ◌<◌};
ghost use Rattle.wfc_problem.specs.Domains.{IsLiteralIn};
ghost use Rattle.wfc_problem.specs.Network.{values};
ghost use Rattle.wfc_log.specs.Domains.{Fits};

use std::alloc::{AllocError, Global};
use std::marker::Brand;
use std::process::Abort;
use std::sync::ledger::{Blank, Ledger};
use std::test::Fail;
use wfc_ac4::Ac4;
use wfc_domains::{
    Board, Cause, Counters, Domains, OpenFault, PlainStore, Removal, Steps, Store, Verdict,
    is_alive,
};
use wfc_outside::NoMemory;
use wfc_problem::{Literal, NO_CELL, Parts, Problem, greatest_domains};

/// Three cells side by side.
const LINE: [u32; 12] = [
    NO_CELL, NO_CELL, 1, NO_CELL, 0, NO_CELL, 2, NO_CELL, 1, NO_CELL, NO_CELL, NO_CELL,
];

/// Three rows of three cells, each row and each column a ring.
const RINGS: [u32; 36] = [
    2, 3, 1, 6, 0, 4, 2, 7, 1, 5, 0, 8, 5, 6, 4, 0, 3, 7, 5, 1, 4, 8, 3, 2, 8, 0, 7, 3, 6, 1, 8, 4,
    7, 2, 6, 5,
];

/// One cell that is its own neighbour in all directions.
const OWN: [u32; 4] = [0, 0, 0, 0];

/// Two rows of two cells.
const SQUARE: [u32; 16] = [
    NO_CELL, 2, 1, NO_CELL, 0, 3, NO_CELL, NO_CELL, NO_CELL, NO_CELL, 3, 0, 2, NO_CELL, NO_CELL, 1,
];

/// For each of two values the other, in each of four directions.
fn the_other(alloc: Global) -> Result<Vec<Vec<u16>>, AllocError> {
    let mut supports = Vec::new(alloc);
    for other in [1, 0] {
        for _dir in 0..4 {
            supports.push(Vec::from_slice(alloc, &[other])?)?;
        }
    }
    Ok(supports)
}

/// Two values, each of which may stand beside the other alone.
fn alternating(alloc: Global, cells: u16, neighbours: &[u32]) -> Result<Parts, AllocError> {
    Ok(Parts {
        cells: cells as u32,
        dirs: 4,
        neighbours: Vec::from_slice(alloc, neighbours)?,
        weights: Vec::from_slice(alloc, &[1, 1])?,
        supports: the_other(alloc)?,
        base: vec![in alloc; true; cells as usize * 2]?,
    })
}

/// A flag for each value of each cell, as the plain definition gives them.
fn flags(alloc: Global, problem: &Problem, domains: &Domains) -> Result<Vec<bool>, AllocError>
    requires fits { Fits problem.now domains.now }
{
    let mut out = Vec::new(alloc);
    for cell in 0..problem.cells() {
        for value in 0..problem.values() {
            out.push(domains.has(cell, value))?;
        }
    }
    Ok(out)
}

/// Whether each counter is as a fresh loading counts it.
pub fn counts_afresh<L: Ledger>(
    alloc: Global,
    problem: &Problem,
    engine: &Ac4,
    steps: &mut Steps<L>,
) -> Result<bool, NoMemory>
    requires problem { engine.now.problem ≡ problem.now }
{
    let mut fresh = Counters::new(alloc, problem)?;
    fresh.load(problem, engine.domains(), steps);
    let counters = engine.counters();
    for cell in 0..problem.cells() {
        for value in 0..problem.values() {
            for dir in 0..problem.dirs() {
                if counters.get(cell, value, dir) != fresh.get(cell, value, dir) {
                    return Ok(false);
                }
            }
        }
    }
    Ok(true)
}

/// Puts a literal on, where the store takes one.
fn act<S: Store, L: Ledger>(
    problem: &Problem,
    store: &mut S,
    literal: Literal,
    steps: &mut Steps<L>,
)
    requires problem { (S.view store.old).problem ≡ problem.now }
    requires literal_in { IsLiteralIn problem.now literal }
    ensures problem { (S.view store.new).problem ≡ problem.now }
{
    if is_alive(store.verdict()) && store.spare() > 0 {
        store.assume(literal, steps);
    }
}

/// Takes the last literal away, if one stands.
pub fn go_back<S: Store, L: Ledger>(problem: &Problem, store: &mut S, steps: &mut Steps<L>)
    requires problem { (S.view store.old).problem ≡ problem.now }
    ensures problem { (S.view store.new).problem ≡ problem.now }
{
    if !store.standing().is_empty() {
        store.undo(steps);
    }
}

/// One assumption, as a word says.
fn put<S: Store, L: Ledger>(problem: &Problem, store: &mut S, word: u64, steps: &mut Steps<L>)
    requires problem { (S.view store.old).problem ≡ problem.now }
    ensures problem { (S.view store.new).problem ≡ problem.now }
{
    let cell = ((word >> 33) % problem.cells() as u64) as u32;
    let value = ((word >> 50) % problem.values() as u64) as u16;
    if (word >> 21) % 2 == 0 {
        act(problem, store, Literal::Is { cell, value }, steps);
    } else {
        act(problem, store, Literal::Not { cell, value }, steps);
    }
}

/// One assumption or one undo, as a word says.
fn play<S: Store, L: Ledger>(problem: &Problem, store: &mut S, word: u64, steps: &mut Steps<L>)
    requires problem { (S.view store.old).problem ≡ problem.now }
    ensures problem { (S.view store.new).problem ≡ problem.now }
{
    if (word >> 20) % 4 == 0 {
        go_back(problem, store, steps);
    } else {
        put(problem, store, word, steps);
    }
}

/// Whether both engines have the domains that the definition gives, and the counters those of a fresh loading.
fn both_are_closed<L: Ledger>(
    alloc: Global,
    problem: &Problem,
    engine: &Ac4,
    plain: &PlainStore,
    steps: &mut Steps<L>,
) -> Result<bool, Fail>
    requires engine { engine.now.problem ≡ problem.now }
    requires plain { plain.now.problem ≡ problem.now }
{
    let greatest = greatest_domains(alloc, problem, engine.standing())?;
    Ok(
        flags(alloc, problem, engine.domains())?.as_slice() == greatest.as_slice()
            && flags(alloc, problem, plain.domains())?.as_slice() == greatest.as_slice()
            && counts_afresh(alloc, problem, engine, steps)?,
    )
}

/// Whether both engines say the same, and while they are alive what the definition says.
fn agree<L: Ledger>(
    alloc: Global,
    problem: &Problem,
    engine: &Ac4,
    plain: &PlainStore,
    steps: &mut Steps<L>,
) -> Result<bool, Fail>
    requires engine { engine.now.problem ≡ problem.now }
    requires plain { plain.now.problem ≡ problem.now }
{
    let alive = is_alive(engine.verdict());
    if alive != is_alive(plain.verdict()) || engine.standing() != plain.standing() {
        return Ok(false);
    }
    if !alive {
        return Ok(true);
    }
    both_are_closed(alloc, problem, engine, plain, steps)
}

/// Whether `w` may stand beside `v`, drawn from a word so that it holds both ways.
fn may(word: u64, dir: u8, v: u16, w: u16) -> bool
    requires v_in { v < 3 }
    requires w_in { w < 3 }
{
    let (first, second) = if dir >= 2 { (v, w) } else { (w, v) };
    let bit = (dir as u64 % 2) * 9 + first as u64 * 3 + second as u64;
    (word >> bit) % 4 != 0
}

/// Which of three values may stand beside which in four directions, drawn from a word.
fn drawn_supports(alloc: Global, word: u64) -> Result<Vec<Vec<u16>>, AllocError> {
    let mut supports = Vec::new(alloc);
    for v in 0..3u16 {
        for dir in 0..4u8 {
            let mut list = Vec::new(alloc);
            for w in 0..3u16 {
                if may(word, dir, v, w) {
                    list.push(w)?;
                }
            }
            supports.push(list)?;
        }
    }
    Ok(supports)
}

/// A base of three values on so many cells, drawn from a word.
fn drawn_base(alloc: Global, cells: u16, holes: u64) -> Result<Vec<bool>, AllocError> {
    let mut base = Vec::new(alloc);
    for place in 0..cells as u64 * 3 {
        base.push((holes >> (place % 60)) % 8 != 0)?;
    }
    Ok(base)
}

/// Three values on these cells; which may stand beside which, and the base, are drawn from two words.
fn drawn(
    alloc: Global,
    cells: u16,
    neighbours: &[u32],
    word: u64,
    holes: u64,
) -> Result<Parts, AllocError> {
    Ok(Parts {
        cells: cells as u32,
        dirs: 4,
        neighbours: Vec::from_slice(alloc, neighbours)?,
        weights: Vec::from_slice(alloc, &[1, 1, 1])?,
        supports: drawn_supports(alloc, word)?,
        base: drawn_base(alloc, cells, holes)?,
    })
}

/// The next word of a fixed generator.
fn next(word: u64) -> u64 {
    word.wrapping_mul(6364136223846793005)
        .wrapping_add(1442695040888963407)
}

/// The same assumption or undo in both engines.
fn play_both<L: Ledger>(
    problem: &Problem,
    engine: &mut Ac4,
    plain: &mut PlainStore,
    word: u64,
    steps: &mut Steps<L>,
)
    requires engine { engine.old.problem ≡ problem.now }
    requires plain { plain.old.problem ≡ problem.now }
    ensures engine { engine.new.problem ≡ problem.now }
    ensures plain { plain.new.problem ≡ problem.now }
{
    play(problem, engine, word, steps);
    play(problem, plain, word, steps);
}

/// Both engines through the same assumptions and undos.
fn both_play<L: Ledger>(
    rt: &impl Abort,
    alloc: Global,
    problem: &Problem,
    seed: u64,
    engine: &mut Ac4,
    plain: &mut PlainStore,
    steps: &mut Steps<L>,
) -> Result<(), Fail>
    requires engine { engine.old.problem ≡ problem.now }
    requires plain { plain.old.problem ≡ problem.now }
{
    let mut word = next(seed);
    for turn in 0..14u32 {
        assert!(rt;
            agree(alloc, problem, engine, plain, steps)?,
            "at turn {turn} of {seed}"
        );
        word = next(word);
        play_both(problem, engine, plain, word, steps);
    }
    Ok(())
}

/// The plain engine beside one that is open.
fn beside_the_plain<L: Ledger>(
    rt: &impl Abort,
    alloc: Global,
    problem: &Problem,
    seed: u64,
    engine: &mut Ac4,
    steps: &mut Steps<L>,
) -> Result<(), Fail>
    requires engine { engine.old.problem ≡ problem.now }
{
    let mut plain = PlainStore::open(alloc, problem, 4)?;
    both_play(rt, alloc, problem, seed, engine, &mut plain, steps)
}

/// Both engines from the opening on.
fn side_by_side<L: Ledger>(
    rt: &impl Abort,
    alloc: Global,
    problem: &Problem,
    seed: u64,
    blank: Blank,
) -> Result<(), Fail>
    requires name { blank.name ≡ L.name }
    requires parts { blank.parts ≡ L.parts }
    requires some { 0 < blank.parts }
{
    let mut steps = Steps::<L>::new(blank);
    let mut engine = Ac4::open(alloc, problem, 4)?;
    beside_the_plain(rt, alloc, problem, seed, &mut engine, &mut steps)
}

/// Both engines on six random problems over these cells.
fn on_drawn(rt: &impl Abort, alloc: Global, cells: u16, neighbours: &[u32]) -> Result<(), Fail> {
    for seed in 1..7u64 {
        let word = next(seed.wrapping_mul(977));
        let parts = drawn(alloc, cells, neighbours, word >> 20, next(word) >> 3)?;
        let problem = Problem::new(parts)?;
        side_by_side::<Brand>(rt, alloc, &problem, seed, Blank::new(1))?;
    }
    Ok(())
}

#[test]
fn both_engines_say_the_same(rt: HostRuntime) -> Result<(), Fail> {
    on_drawn(&rt, rt.alloc(), 3, &LINE)?;
    on_drawn(&rt, rt.alloc(), 9, &RINGS)?;
    on_drawn(&rt, rt.alloc(), 1, &OWN)?;
    on_drawn(&rt, rt.alloc(), 4, &SQUARE)
}

/// What the last level removed, and that each cell has a value left.
fn removed(rt: &impl Abort, engine: &Ac4, wanted: &[Removal]) {
    assert_eq!(rt; engine.verdict(), Verdict::Alive);
    assert_eq!(rt; engine.added(), Some(wanted));
}

/// Which values stand, and for how many more literals there is room.
fn stands(
    rt: &impl Abort,
    alloc: Global,
    problem: &Problem,
    engine: &Ac4,
    wanted: &[bool],
    spare: u32,
) -> Result<(), Fail>
    requires problem { engine.now.problem ≡ problem.now }
{
    assert_eq!(rt; flags(alloc, problem, engine.domains())?.as_slice(), wanted);
    assert_eq!(rt; engine.spare(), spare);
    Ok(())
}

/// Gives the first cell value 0.
fn begin<L: Ledger>(problem: &Problem, engine: &mut Ac4, steps: &mut Steps<L>)
    requires problem { engine.old.problem ≡ problem.now }
    requires cells { 0 < problem.now.cells }
    requires values { 0 < values problem.now }
    ensures problem { engine.new.problem ≡ problem.now }
{
    act(problem, engine, Literal::Is { cell: 0, value: 0 }, steps);
}

/// The undo of the only literal that stands: nothing was removed before it, and these values stand.
fn undo_all<L: Ledger>(
    rt: &impl Abort,
    alloc: Global,
    problem: &Problem,
    engine: &mut Ac4,
    steps: &mut Steps<L>,
    wanted: &[bool],
    spare: u32,
) -> Result<(), Fail>
    requires problem { engine.old.problem ≡ problem.now }
    ensures problem { engine.new.problem ≡ problem.now }
{
    go_back(problem, engine, steps);
    removed(rt, engine, &[]);
    stands(rt, alloc, problem, engine, wanted, spare)
}

/// What follows from value 0 at the first of three cells in a row.
const CLOSED: [Removal; 3] = [
    Removal {
        cell: 0,
        value: 1,
        before: 2,
        cause: Cause::Assumed,
    },
    Removal {
        cell: 1,
        value: 0,
        before: 2,
        cause: Cause::Arc(0),
    },
    Removal {
        cell: 2,
        value: 1,
        before: 2,
        cause: Cause::Arc(0),
    },
];

/// The worked example: three cells in a row, and the first is given a value.
fn line_is_closed<L: Ledger>(
    rt: &impl Abort,
    alloc: Global,
    problem: &Problem,
    engine: &mut Ac4,
    steps: &mut Steps<L>,
) -> Result<(), Fail>
    requires cells { problem.now.cells ≡ 3 }
    requires values { values problem.now ≡ 2 }
    requires problem { engine.old.problem ≡ problem.now }
{
    removed(rt, engine, &[]);
    begin(problem, engine, steps);
    removed(rt, engine, &CLOSED);
    let closed = [true, false, false, true, true, false];
    stands(rt, alloc, problem, engine, &closed, 5)?;
    undo_all(rt, alloc, problem, engine, steps, &[true; 6], 6)
}

/// The same, from the opening on.
fn closes_the_line<L: Ledger>(
    rt: &impl Abort,
    alloc: Global,
    problem: &Problem,
    blank: Blank,
) -> Result<(), Fail>
    requires cells { problem.now.cells ≡ 3 }
    requires values { values problem.now ≡ 2 }
    requires name { blank.name ≡ L.name }
    requires parts { blank.parts ≡ L.parts }
    requires some { 0 < blank.parts }
{
    let mut steps = Steps::<L>::new(blank);
    let mut engine = Ac4::open(alloc, problem, 6)?;
    line_is_closed(rt, alloc, problem, &mut engine, &mut steps)
}

#[test]
fn a_line_is_closed(rt: HostRuntime) -> Result<(), Fail> {
    let problem = Problem::new(alternating(rt.alloc(), 3, &LINE)?)?;
    assert_eq!(rt; problem.cells(), 3);
    assert_eq!(rt; problem.values(), 2);
    closes_the_line::<Brand>(&rt, rt.alloc(), &problem, Blank::new(1))
}

/// Each counter is 1.
fn counts_one(rt: &impl Abort, problem: &Problem, engine: &Ac4)
    requires cells { problem.now.cells ≡ 9 }
    requires values { values problem.now ≡ 2 }
    requires problem { engine.now.problem ≡ problem.now }
{
    let counters = engine.counters();
    for cell in 0..9u32 {
        for value in 0..2u16 {
            for dir in 0..problem.dirs() {
                assert_eq!(rt; counters.get(cell, value, dir), 1);
            }
        }
    }
}

/// On rings of three no value can stand; after the undo each counter is 1 again.
fn rings_are_undone<L: Ledger>(
    rt: &impl Abort,
    alloc: Global,
    problem: &Problem,
    engine: &mut Ac4,
    steps: &mut Steps<L>,
) -> Result<(), Fail>
    requires cells { problem.now.cells ≡ 9 }
    requires values { values problem.now ≡ 2 }
    requires problem { engine.old.problem ≡ problem.now }
{
    begin(problem, engine, steps);
    assert!(rt; !is_alive(engine.verdict()));
    undo_all(rt, alloc, problem, engine, steps, &[true; 18], 3)?;
    counts_one(rt, problem, engine);
    Ok(())
}

/// The same, from the opening on.
fn undoes_the_rings<L: Ledger>(
    rt: &impl Abort,
    alloc: Global,
    problem: &Problem,
    blank: Blank,
) -> Result<(), Fail>
    requires cells { problem.now.cells ≡ 9 }
    requires values { values problem.now ≡ 2 }
    requires name { blank.name ≡ L.name }
    requires parts { blank.parts ≡ L.parts }
    requires some { 0 < blank.parts }
{
    let mut steps = Steps::<L>::new(blank);
    let mut engine = Ac4::open(alloc, problem, 3)?;
    rings_are_undone(rt, alloc, problem, &mut engine, &mut steps)
}

#[test]
fn a_dead_level_is_undone(rt: HostRuntime) -> Result<(), Fail> {
    let problem = Problem::new(alternating(rt.alloc(), 9, &RINGS)?)?;
    assert_eq!(rt; problem.cells(), 9);
    assert_eq!(rt; problem.values(), 2);
    undoes_the_rings::<Brand>(&rt, rt.alloc(), &problem, Blank::new(1))
}

/// No value supports another in any of six directions.
fn lists(alloc: Global) -> Result<Vec<Vec<u16>>, AllocError> {
    let mut supports = Vec::new(alloc);
    for _list in 0..18 {
        supports.push(Vec::new(alloc))?;
    }
    Ok(supports)
}

/// No cell has a neighbour, and each has all of three values.
fn large(alloc: Global) -> Result<Parts, AllocError> {
    Ok(Parts {
        cells: 60_000,
        dirs: 6,
        neighbours: vec![in alloc; NO_CELL; 360_000]?,
        weights: vec![in alloc; 1; 3]?,
        supports: lists(alloc)?,
        base: vec![in alloc; true; 180_000]?,
    })
}

/// The engine opens with all the levels that there may be.
fn opens_counted(rt: &impl Abort, alloc: Global, problem: &Problem) -> Result<(), Fail> {
    let engine = Ac4::open(alloc, problem, problem.depth())?;
    assert_eq!(rt; engine.verdict(), Verdict::Alive);
    Ok(())
}

/// The plain engine has room for as many.
fn opens_plain(rt: &impl Abort, alloc: Global, problem: &Problem) -> Result<(), Fail> {
    let plain = PlainStore::open(alloc, problem, problem.depth())?;
    assert_eq!(rt; plain.spare(), 180_000);
    Ok(())
}

#[test]
fn a_large_problem_opens(rt: HostRuntime) -> Result<(), Fail> {
    let problem = Problem::new(large(rt.alloc())?)?;
    opens_counted(&rt, rt.alloc(), &problem)?;
    opens_plain(&rt, rt.alloc(), &problem)
}
