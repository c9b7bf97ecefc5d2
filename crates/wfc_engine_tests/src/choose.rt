//! Picks and draws by hand, and both choosers of the fewest values side by side.

ghost use Rattle.std.specs.Prelude.{◌≡◌, ◌<◌, ◌≤◌, length, All, IfOk, OnOk, vec_len};
ghost use Rattle.wfc_problem.specs.declared.TheConstants.{MAX_PAIRS, MAX_VALUES};

use std::alloc::{AllocError, Global};
use std::process::Abort;
use std::test::Fail;
use wfc_choose::{Buckets, Chooser, RuleKind, Scanning, draw};
use wfc_domains::Domains;
use wfc_outside::NoMemory;
use wfc_problem::{MAX_VALUES, NO_CELL, Parts, Problem};

/// Tells a chooser all sizes.
fn load(chooser: &mut Box<dyn Chooser>, sizes: &[u32]) -> Result<(), NoMemory>
    requires limit { length sizes.now ≤ MAX_PAIRS }
    requires small { All (λ size. size ≤ MAX_VALUES) sizes.now }
    ensures long { OnOk result (length (told chooser.new).sizes ≡ length sizes.now) }
{
    chooser.load(sizes)
}

/// Tells a chooser one size.
fn resize(chooser: &mut Box<dyn Chooser>, cell: u32, size: u32)
    requires cell_in { cell < length (told chooser.old).sizes }
    requires small { size ≤ MAX_VALUES }
    ensures long { length (told chooser.new).sizes ≡ length (told chooser.old).sizes }
{
    chooser.resized(cell, size);
}

/// Tells a chooser one size, and asks what it picks then.
fn picks(rt: &impl Abort, chooser: &mut Box<dyn Chooser>, cell: u32, size: u32, picked: Option<u32>)
    requires cell_in { cell < length (told chooser.old).sizes }
    requires small { size ≤ MAX_VALUES }
    ensures long { length (told chooser.new).sizes ≡ length (told chooser.old).sizes }
{
    resize(chooser, cell, size);
    assert_eq!(rt;
        chooser.pick(),
        picked,
        "after cell {cell} has {size} values"
    );
}

#[test]
fn ranks_decide(rt: HostRuntime) -> Result<(), Fail> {
    let alloc = rt.alloc();
    let ranks = vec![in alloc; 5, 3]?;
    let mut ranked: Box<dyn Chooser> = Box::new(alloc, Scanning::least_rank(alloc, ranks))?;
    assert_eq!(rt; ranked.kind(), RuleKind::Ranked);
    load(&mut ranked, &[2, 2, 2])?;
    assert_eq!(rt; ranked.pick(), Some(1));
    picks(&rt, &mut ranked, 1, 1, Some(0));
    picks(&rt, &mut ranked, 0, 1, Some(2));
    picks(&rt, &mut ranked, 2, 1, None);
    Ok(())
}

#[test]
fn sizes_decide(rt: HostRuntime) -> Result<(), Fail> {
    let alloc = rt.alloc();
    let mut buckets: Box<dyn Chooser> = Box::new(alloc, Buckets::new(alloc))?;
    assert_eq!(rt; buckets.kind(), RuleKind::Fewest);
    assert_eq!(rt; buckets.pick(), None, "no cell yet");
    load(&mut buckets, &[4, 2, 2])?;
    assert_eq!(rt; buckets.pick(), Some(1));
    picks(&rt, &mut buckets, 0, 2, Some(0));
    picks(&rt, &mut buckets, 0, 0, Some(1));
    load(&mut buckets, &[])?;
    assert_eq!(rt; buckets.pick(), None, "no cell any more");
    Ok(())
}

#[test]
fn places_decide(rt: HostRuntime) -> Result<(), Fail> {
    let alloc = rt.alloc();
    let mut scanline: Box<dyn Chooser> = Box::new(alloc, Scanning::scanline(alloc))?;
    assert_eq!(rt; scanline.kind(), RuleKind::Scanline);
    load(&mut scanline, &[1, 9, 2])?;
    assert_eq!(rt; scanline.pick(), Some(1));
    picks(&rt, &mut scanline, 1, 1, Some(2));
    Ok(())
}

/// The next number of a fixed sequence.
fn next(state: &mut u64) -> u32 {
    *state = state
        .wrapping_mul(6_364_136_223_846_793_005)
        .wrapping_add(1_442_695_040_888_963_407);
    (*state >> 33) as u32
}

/// Sizes of which many are level, and many 0 or 1.
fn mixed_sizes(alloc: Global, count: u32, state: &mut u64) -> Result<Vec<u32>, AllocError>
    ensures long { IfOk result (λ sizes. vec_len sizes ≡ count) }
    ensures small { IfOk result (λ sizes. All (λ size. size ≤ MAX_VALUES) sizes.items) }
{
    let mut sizes = Vec::new(alloc);
    for _ in 0..count {
        sizes.push(next(state) % 6)?;
    }
    Ok(sizes)
}

/// Two choosers pick alike at each of so many steps from the same sizes.
fn walk(
    rt: &impl Abort,
    mut plain: Box<dyn Chooser>,
    mut indexed: Box<dyn Chooser>,
    sizes: &[u32],
    steps: u32,
) -> Result<(), NoMemory>
    requires some { 0 < length sizes.now }
    requires limit { length sizes.now ≤ MAX_PAIRS }
    requires small { All (λ size. size ≤ MAX_VALUES) sizes.now }
{
    let count = sizes.len() as u32;
    let mut state = u64::from(count);
    load(&mut plain, sizes)?;
    load(&mut indexed, sizes)?;
    for step in 0..steps {
        assert_eq!(rt;
            indexed.pick(),
            plain.pick(),
            "step {step} of {count} cells"
        );
        let cell = next(&mut state) % count;
        let most = if step % 3 == 0 { MAX_VALUES } else { 5 };
        let size = next(&mut state) % (u32::from(most) + 1);
        resize(&mut plain, cell, size);
        resize(&mut indexed, cell, size);
    }
    Ok(())
}

#[test]
fn both_fewest_pick_alike(rt: HostRuntime) -> Result<(), Fail> {
    let alloc = rt.alloc();
    let mut state = 1;
    for (count, steps) in [
        (1, 200),
        (32, 5000),
        (33, 5000),
        (300, 20_000),
        (1030, 20_000),
        (33_000, 5000),
        (270_000, 2000),
    ] {
        let sizes = mixed_sizes(alloc, count, &mut state)?;
        assert!(rt; !sizes.is_empty() && sizes.len() < 1_000_000);
        let plain = Box::new(alloc, Scanning::fewest(alloc))?;
        let indexed = Box::new(alloc, Buckets::new(alloc))?;
        walk(&rt, plain, indexed, &sizes, steps)?;
    }
    Ok(())
}

/// So many cells of one size.
fn level_sizes(alloc: Global, count: usize) -> Result<Vec<u32>, AllocError>
    ensures sizes { IfOk result
        (λ sizes. (vec_len sizes ≡ count) × All (λ size. size ≤ MAX_VALUES) sizes.items) }
{
    vec![in alloc; 4096; count]
}

/// The last cell of the most that a chooser takes is picked once it has two values.
fn last_of_many(
    rt: &impl Abort,
    mut chooser: Box<dyn Chooser>,
    sizes: &[u32],
) -> Result<(), NoMemory>
    requires some { 0 < length sizes.now }
    requires limit { length sizes.now ≤ MAX_PAIRS }
    requires small { All (λ size. size ≤ MAX_VALUES) sizes.now }
{
    load(&mut chooser, sizes)?;
    assert_eq!(rt; chooser.pick(), Some(0));
    let last = sizes.len() as u32 - 1;
    picks(rt, &mut chooser, last, 2, Some(last));
    Ok(())
}

#[test]
fn choosers_take_the_most_cells(rt: HostRuntime) -> Result<(), Fail> {
    let alloc = rt.alloc();
    let sizes = level_sizes(alloc, 8_388_608)?;
    last_of_many(&rt, Box::new(alloc, Scanning::fewest(alloc))?, &sizes)?;
    last_of_many(&rt, Box::new(alloc, Buckets::new(alloc))?, &sizes)?;
    Ok(())
}

/// Two cells without neighbours, of which the first may have the values 0 and 1 of weights 3 and 1, and the second 0
/// and 2 of weights 3 and 5.
fn two_cells(alloc: Global) -> Result<Parts, AllocError> {
    let mut supports = Vec::new(alloc);
    for _ in 0..12 {
        supports.push(Vec::new(alloc))?;
    }
    Ok(Parts {
        cells: 2,
        dirs: 4,
        neighbours: vec![in alloc; NO_CELL; 8]?,
        weights: vec![in alloc; 3, 1, 5]?,
        supports,
        base: vec![in alloc; true, true, false, true, false, true]?,
    })
}

#[test]
fn words_draw_values(rt: HostRuntime) -> Result<(), Fail> {
    let alloc = rt.alloc();
    let problem = Problem::new(two_cells(alloc)?)?;
    let domains = Domains::new(alloc, &problem)?;
    let rows = [
        (0, 2, 0),
        (0, 3, 1),
        (0, 4, 0),
        (0, u64::MAX, 1),
        (1, 2, 0),
        (1, 3, 2),
        (1, 7, 2),
        (1, 8, 0),
    ];
    for (cell, word, value) in rows {
        assert!(rt; cell < problem.cells() && domains.size(cell) > 0);
        assert_eq!(rt;
            draw(&problem, &domains, cell, word),
            value,
            "word {word} at {cell}"
        );
    }
    Ok(())
}
