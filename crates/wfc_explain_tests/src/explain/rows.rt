//! Which lines are to blame.

use super::asking::{
    Sides, Wanted, checkerboard, explains, letters, lines_of, lines_set, mask_of, sample_pins,
    tile_pins,
};
use std::alloc::{AllocError, Global};
use std::process::Abort;
use std::test::Fail;
use wfc_explain::{Kept, Mark};
use wfc_pins::{BuildFault, PinLine};

/// A line without which there is a map.
const fn needed(index: u32) -> Kept {
    Kept {
        index,
        mark: Mark::Needed,
    }
}

/// Whether the lines of a text are explained so, for the patterns of `ab/ba`.
fn checkerboard_explains(
    rt: &impl Abort,
    alloc: Global,
    wrap_in: bool,
    sides: Sides,
    text: &[u8],
    budget: u32,
    wanted: Wanted<'_>,
) -> Result<(), Fail> {
    let patterns = checkerboard(rt, alloc, wrap_in)?;
    let palette = letters(alloc)?;
    let lines = lines_of(rt, alloc, text)?;
    let pinned = sample_pins(rt, alloc, &patterns, &palette, sides, &lines)?;
    explains(rt, alloc, &pinned, budget, wanted)
}

/// Pins of one checkerboard at 64 places, but for the last, which is of the other.
fn scattered(alloc: Global) -> Result<Vec<PinLine>, AllocError> {
    let mut lines = Vec::new(alloc);
    for at in 0..64 {
        let (x, y) = (at % 8 * 5, at / 8 * 6);
        let first = (x + y) % 2 == 0;
        let symbol: &[u8] = if first == (at < 63) { b"a" } else { b"b" };
        lines.push(PinLine {
            line: at + 1,
            keep: true,
            x,
            y,
            symbol: Vec::from_slice(alloc, symbol)?,
        })?;
    }
    Ok(lines)
}

/// Whether the lines of a text are explained so, for the tile set of a straight line.
fn lines_explain(
    rt: &impl Abort,
    alloc: Global,
    sides: Sides,
    mask: &[u8],
    text: &[u8],
    wanted: Wanted<'_>,
) -> Result<(), Fail> {
    let tiles = lines_set(rt, alloc)?;
    let lines = lines_of(rt, alloc, text)?;
    if mask.is_empty() {
        let pinned = tile_pins(rt, alloc, &tiles, sides, None, &lines)?;
        return explains(rt, alloc, &pinned, 1000, wanted);
    }
    let mask = mask_of(rt, alloc, mask, sides)?;
    let pinned = tile_pins(rt, alloc, &tiles, sides, Some(&mask), &lines)?;
    explains(rt, alloc, &pinned, 1000, wanted)
}

/// Of two pins that contradict each other and one that contradicts the second, the first is dropped.
#[test]
fn contradictions(rt: HostRuntime) -> Result<(), Fail> {
    let alloc = rt.alloc();
    let text = b"pin 0 0 a\npin 0 0 b\npin 2 2 a\n";
    let core = [needed(1), needed(2)];
    let wanted = Wanted::Core(&core);
    checkerboard_explains(&rt, alloc, true, (3, 3, false), text, 1000, wanted)
}

/// Where there is no map at all, no line is to blame; where there is one, none is asked for.
#[test]
fn no_line_to_blame(rt: HostRuntime) -> Result<(), Fail> {
    let alloc = rt.alloc();
    let text = b"pin 0 0 a\n";
    let none = Wanted::Core(&[]);
    checkerboard_explains(&rt, alloc, false, (3, 2, false), text, 1000, none)?;
    checkerboard_explains(
        &rt,
        alloc,
        false,
        (2, 2, false),
        text,
        1000,
        Wanted::MapExists,
    )
}

/// Without a budget it isn't known whether a line is needed.
#[test]
fn undecided(rt: HostRuntime) -> Result<(), Fail> {
    let alloc = rt.alloc();
    let core = [Kept {
        index: 0,
        mark: Mark::Undecided,
    }];
    let sides = (3, 3, true);
    checkerboard_explains(
        &rt,
        alloc,
        true,
        sides,
        b"pin 0 0 a\n",
        0,
        Wanted::Core(&core),
    )?;
    checkerboard_explains(&rt, alloc, true, sides, b"", 0, Wanted::Spent)
}

/// Tiles that go on in a row have no second row, but where it is a hole.
#[test]
fn tiles(rt: HostRuntime) -> Result<(), Fail> {
    let alloc = rt.alloc();
    let text = b"pin 0 0 line/0\n";
    lines_explain(&rt, alloc, (2, 2, false), b"", text, Wanted::Core(&[]))?;
    lines_explain(
        &rt,
        alloc,
        (2, 2, false),
        b"..\n##\n",
        text,
        Wanted::MapExists,
    )?;
    let core = [needed(0)];
    let ban = b"ban 1 0 line/0\n";
    lines_explain(
        &rt,
        alloc,
        (2, 2, false),
        b"..\n##\n",
        ban,
        Wanted::Core(&core),
    )
}

/// Of 64 lines on a map of 48 by 48, all on one checkerboard but for the last, it and the one before
/// it stay.
#[test]
fn a_full_house(rt: HostRuntime) -> Result<(), Fail> {
    let alloc = rt.alloc();
    let patterns = checkerboard(&rt, alloc, true)?;
    let palette = letters(alloc)?;
    let lines = scattered(alloc)?;
    let pinned = sample_pins(&rt, alloc, &patterns, &palette, (48, 48, false), &lines)?;
    let core = [needed(62), needed(63)];
    explains(&rt, alloc, &pinned, 1000, Wanted::Core(&core))
}

/// The faults of the problem of all lines of a sample.
#[test]
fn sample_refusals(rt: HostRuntime) -> Result<(), Fail> {
    let alloc = rt.alloc();
    let lines = lines_of(&rt, alloc, b"pin 0 0 a\n\npin 3 0 a\npin 0 0 c\n")?;
    let outside = sample_fault(&rt, alloc, (3, 3, false), &lines)?;
    assert!(&rt; outside == Some(BuildFault::PinOutside { line: 3 }));
    let small = sample_fault(&rt, alloc, (1, 3, false), &lines)?;
    assert!(&rt; small == Some(BuildFault::SizeBelowN));
    Ok(())
}

/// The faults of the problem of all lines of a tile set.
#[test]
fn tile_refusals(rt: HostRuntime) -> Result<(), Fail> {
    let alloc = rt.alloc();
    let lines = lines_of(&rt, alloc, b"pin 0 0 a\n\npin 3 0 a\n")?;
    let large = tile_fault(&rt, alloc, (4096, 4096, false), &lines)?;
    let product = 33_554_432;
    assert!(&rt; large == Some(BuildFault::TooLarge { product }));
    let unknown = masked_fault(&rt, alloc, (3, 1, false), b".#.\n", &lines)?;
    assert!(&rt; unknown == Some(BuildFault::UnknownSymbol { line: 1 }));
    let hole = masked_fault(&rt, alloc, (3, 1, false), b"#..\n", &lines)?;
    assert!(&rt; hole == Some(BuildFault::PinInHole { line: 1 }));
    Ok(())
}

/// Why lines have no pinned problem over the patterns of `ab/ba`, if there is none.
fn sample_fault(
    rt: &impl Abort,
    alloc: Global,
    sides: Sides,
    lines: &[PinLine],
) -> Result<Option<BuildFault>, Fail> {
    let patterns = checkerboard(rt, alloc, true)?;
    let palette = letters(alloc)?;
    Ok(sample_pins(rt, alloc, &patterns, &palette, sides, lines).err())
}

/// The same over the tile set of a straight line.
fn tile_fault(
    rt: &impl Abort,
    alloc: Global,
    sides: Sides,
    lines: &[PinLine],
) -> Result<Option<BuildFault>, Fail> {
    let tiles = lines_set(rt, alloc)?;
    Ok(tile_pins(rt, alloc, &tiles, sides, None, lines).err())
}

/// The same with a mask.
fn masked_fault(
    rt: &impl Abort,
    alloc: Global,
    sides: Sides,
    mask: &[u8],
    lines: &[PinLine],
) -> Result<Option<BuildFault>, Fail> {
    let tiles = lines_set(rt, alloc)?;
    let mask = mask_of(rt, alloc, mask, sides)?;
    Ok(tile_pins(rt, alloc, &tiles, sides, Some(&mask), lines).err())
}
