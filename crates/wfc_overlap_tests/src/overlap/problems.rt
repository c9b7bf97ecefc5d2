//! Problems of small samples, table by table, and large ones.

use super::asking::{
    NONE, Sides, base_with, lines_of, neighbours_of, problem_of, problem_with, supports_of,
    weights_of,
};
use super::samples::{
    blank_and_red, checkerboard, flat_checkerboard, in_a_row, letters, noise, single,
};
use std::alloc::{AllocError, Global};
use std::process::Abort;
use std::test::Fail;
use wfc_pattern::Patterns;
use wfc_picture::Palette;
use wfc_problem::Problem;

/// Whether the base of the checkerboard's problem is this one.
fn has_base(
    rt: &impl Abort,
    alloc: Global,
    palette: &Palette,
    sides: Sides,
    text: &[u8],
    wanted: &[u8],
) -> Result<(), Fail> {
    let patterns = checkerboard(rt, alloc)?;
    let base = base_with(rt, alloc, &patterns, palette, sides, text)?;
    assert!(rt; base.as_slice() == wanted);
    Ok(())
}

/// The same with the letters of the sample.
fn leaves(
    rt: &impl Abort,
    alloc: Global,
    sides: Sides,
    text: &[u8],
    wanted: &[u8],
) -> Result<(), Fail> {
    let palette = letters(alloc)?;
    has_base(rt, alloc, &palette, sides, text, wanted)
}

/// Three by three has four places, and the pixel in the middle is in all four windows, each time
/// at another entry.
#[test]
fn pins_and_bans(rt: HostRuntime) -> Result<(), Fail> {
    let alloc = rt.alloc();
    let sides = (3, 3, false);
    leaves(&rt, alloc, sides, b"pin 0 0 a", b"10111111")?;
    leaves(&rt, alloc, sides, b"pin 0 0 a\npin 0 0 b", b"00111111")?;
    leaves(&rt, alloc, sides, b"pin 2 0 b\nban 0 2 a", b"11101011")?;
    leaves(&rt, alloc, sides, b"pin 1 1 a\n", b"10010110")?;
    leaves(&rt, alloc, sides, b"ban 1 1 a", b"01101001")
}

/// Two by two that wraps has four places as well, and each pixel is in each window.
#[test]
fn pins_of_other_outputs(rt: HostRuntime) -> Result<(), Fail> {
    let alloc = rt.alloc();
    leaves(&rt, alloc, (2, 2, false), b"", b"11")?;
    leaves(&rt, alloc, (2, 2, true), b"pin 0 0 a", b"10010110")?;
    leaves(&rt, alloc, (4, 2, false), b"", b"111111")
}

/// Whether a line on a blank or a colour leaves this base.
fn leaves_of_blank_and_red(
    rt: &impl Abort,
    alloc: Global,
    text: &[u8],
    wanted: &[u8],
) -> Result<(), Fail> {
    let palette = blank_and_red(alloc)?;
    has_base(rt, alloc, &palette, (2, 2, false), text, wanted)
}

/// Lines with a blank and with a colour.
#[test]
fn symbols(rt: HostRuntime) -> Result<(), Fail> {
    let alloc = rt.alloc();
    leaves_of_blank_and_red(&rt, alloc, b"pin 0 0 \\s", b"10")?;
    leaves_of_blank_and_red(&rt, alloc, b"pin 1 0 \\s", b"01")?;
    leaves_of_blank_and_red(&rt, alloc, b"ban 0 0 255,0,7", b"10")
}

/// Whether the cells have these beside them.
fn lie_beside(
    rt: &impl Abort,
    alloc: Global,
    patterns: &Patterns,
    sides: Sides,
    wanted: &[u32],
) -> Result<(), Fail> {
    let problem = problem_of(rt, alloc, patterns, sides)?;
    let found = neighbours_of(alloc, &problem)?;
    assert!(rt; found.as_slice() == wanted);
    Ok(())
}

#[test]
fn cells_side_by_side(rt: HostRuntime) -> Result<(), Fail> {
    let patterns = checkerboard(&rt, rt.alloc())?;
    let row = [NONE, NONE, 1, NONE, 0, NONE, 2, NONE, 1, NONE, NONE, NONE];
    lie_beside(&rt, rt.alloc(), &patterns, (4, 2, false), &row)?;
    let flat = [
        NONE, 2, 1, NONE, 0, 3, NONE, NONE, NONE, NONE, 3, 0, 2, NONE, NONE, 1,
    ];
    lie_beside(&rt, rt.alloc(), &patterns, (3, 3, false), &flat)?;
    // Each cell meets each neighbour twice.
    let wrapped = [1, 2, 1, 2, 0, 3, 0, 3, 3, 0, 3, 0, 2, 1, 2, 1];
    lie_beside(&rt, rt.alloc(), &patterns, (2, 2, true), &wrapped)
}

#[test]
fn cells_of_windows_as_large(rt: HostRuntime) -> Result<(), Fail> {
    let patterns = single(&rt, rt.alloc())?;
    lie_beside(&rt, rt.alloc(), &patterns, (3, 3, false), &[NONE; 4])?;
    // Where it wraps there is a place for each pixel.
    let wrapped = [
        2, 3, 1, 6, 0, 4, 2, 7, 1, 5, 0, 8, 5, 6, 4, 0, 3, 7, 5, 1, 4, 8, 3, 2, 8, 0, 7, 3, 6, 1,
        8, 4, 7, 2, 6, 5,
    ];
    lie_beside(&rt, rt.alloc(), &patterns, (3, 3, true), &wrapped)
}

const EACH_OTHER: [&[u16]; 2] = [&[1], &[0]];

const NOTHING: [&[u16]; 1] = [&[]];

const ITSELF: [&[u16]; 1] = [&[0]];

const EVERYTHING: [&[u16]; 3] = [&[0, 1, 2], &[0, 1, 2], &[0, 1, 2]];

/// For each value four lists, all of which hold what the value's entry of a table has.
fn support_alike(
    rt: &impl Abort,
    alloc: Global,
    patterns: &Patterns,
    wanted: &[&[u16]],
) -> Result<(), Fail> {
    let problem = problem_of(rt, alloc, patterns, (4, 4, false))?;
    let lists = supports_of(alloc, &problem)?;
    assert!(rt; lists.len() == wanted.len() * 4);
    for (at, list) in lists.iter().enumerate() {
        assert!(rt; list.as_slice() == wanted[at / 4]);
    }
    Ok(())
}

#[test]
fn pairs_that_agree(rt: HostRuntime) -> Result<(), Fail> {
    let patterns = checkerboard(&rt, rt.alloc())?;
    support_alike(&rt, rt.alloc(), &patterns, &EACH_OTHER)
}

/// The only pattern disagrees with itself.
#[test]
fn a_pair_that_disagrees(rt: HostRuntime) -> Result<(), Fail> {
    let patterns = flat_checkerboard(&rt, rt.alloc())?;
    support_alike(&rt, rt.alloc(), &patterns, &NOTHING)
}

#[test]
fn pairs_of_the_same(rt: HostRuntime) -> Result<(), Fail> {
    let patterns = single(&rt, rt.alloc())?;
    support_alike(&rt, rt.alloc(), &patterns, &ITSELF)
}

#[test]
fn pairs_that_were_not_seen(rt: HostRuntime) -> Result<(), Fail> {
    // With windows of one pixel each symbol may stand beside each, though in the sample neither `b`
    // nor `c` stands beside itself or the other.
    let patterns = in_a_row(&rt, rt.alloc())?;
    support_alike(&rt, rt.alloc(), &patterns, &EVERYTHING)
}

/// Whether the values have these weights.
fn weigh(rt: &impl Abort, alloc: Global, patterns: &Patterns, wanted: &[u32]) -> Result<(), Fail> {
    let problem = problem_of(rt, alloc, patterns, (2, 2, false))?;
    assert!(rt; weights_of(alloc, &problem)?.as_slice() == wanted);
    Ok(())
}

#[test]
fn weights(rt: HostRuntime) -> Result<(), Fail> {
    let patterns = in_a_row(&rt, rt.alloc())?;
    weigh(&rt, rt.alloc(), &patterns, &[2, 1, 1])
}

/// So many lines that keep the pixel in the corner.
fn many_lines(alloc: Global, count: u32) -> Result<Vec<u8>, AllocError> {
    let mut text = Vec::new(alloc);
    for _ in 0..count {
        text.extend_from_slice(b"pin 0 0 a\nban 511 0 b\n")?;
    }
    Ok(text)
}

/// The problem of a large output with many lines.
fn large_problem(rt: &impl Abort, alloc: Global, patterns: &Patterns) -> Result<Problem, Fail> {
    let palette = letters(alloc)?;
    let text = many_lines(alloc, 20_000)?;
    let lines = lines_of(rt, alloc, &text)?;
    Ok(problem_with(rt, alloc, patterns, &palette, (1024, 512, true), &lines)?)
}

#[test]
fn large_outputs(rt: HostRuntime) -> Result<(), Fail> {
    let patterns = single(&rt, rt.alloc())?;
    let problem = large_problem(&rt, rt.alloc(), &patterns)?;
    assert!(rt; problem.cells() == 524_288);
    assert!(rt; problem.is_whole());
    Ok(())
}

/// Whether some value may stand beside each, in each direction.
fn all_are_supported(rt: &impl Abort, alloc: Global, problem: &Problem) -> Result<(), Fail> {
    let lists = supports_of(alloc, problem)?;
    assert!(rt; lists.iter().all(|list| !list.is_empty()));
    Ok(())
}

/// Whether the problem of these patterns has as many values, and each window was learned beside the next one.
fn has_all_patterns(rt: &impl Abort, alloc: Global, patterns: &Patterns) -> Result<(), Fail> {
    let problem = problem_of(rt, alloc, patterns, (48, 42, true))?;
    assert!(rt; problem.cells() == 2016);
    assert!(rt; problem.values() == patterns.count());
    all_are_supported(rt, alloc, &problem)
}

#[test]
fn many_patterns(rt: HostRuntime) -> Result<(), Fail> {
    let patterns = noise(&rt, rt.alloc())?;
    assert!(rt; patterns.count() > 3500);
    has_all_patterns(&rt, rt.alloc(), &patterns)
}
