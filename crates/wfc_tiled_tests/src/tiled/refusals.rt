//! What a build refuses, in its order.

use super::asking::{Sides, fault_of, lines, mask_of, masked_fault_of};
use std::alloc::Global;
use std::process::Abort;
use std::test::Fail;
use wfc_pins::BuildFault;
use wfc_tileset::TileSet;

/// Whether a map of a straight line has no problem with the lines, and for this reason.
fn is_refused(
    rt: &impl Abort,
    alloc: Global,
    tiles: &TileSet,
    sides: Sides,
    text: &[u8],
    wanted: BuildFault,
) -> Result<(), Fail> {
    let fault = fault_of(rt, alloc, tiles, sides, text)?;
    assert!(rt; fault == Some(wanted), "of {text:?}");
    Ok(())
}

/// The refusals of maps of straight lines.
fn lines_are_refused(rt: &impl Abort, alloc: Global, tiles: &TileSet) -> Result<(), Fail> {
    let flat = (3, 1, false);
    let outside = BuildFault::PinOutside { line: 1 };
    is_refused(rt, alloc, tiles, flat, b"pin 3 0 line/0", outside)?;
    let outside = BuildFault::PinOutside { line: 2 };
    is_refused(rt, alloc, tiles, (3, 1, true), b"\nban 0 1 line/9", outside)?;
    let unknown = BuildFault::UnknownSymbol { line: 1 };
    is_refused(rt, alloc, tiles, flat, b"ban 0 0 line/2", unknown)?;
    is_refused(
        rt,
        alloc,
        tiles,
        flat,
        b"pin 2 0 line\npin 3 0 line/0",
        unknown,
    )?;
    // Too many pairs come before the lines.
    let large = BuildFault::TooLarge { product: 8_396_800 };
    is_refused(
        rt,
        alloc,
        tiles,
        (4096, 1025, false),
        b"pin 4096 0 line/9",
        large,
    )?;
    let large = BuildFault::TooLarge {
        product: 33_554_432,
    };
    is_refused(rt, alloc, tiles, (4096, 4096, true), b"", large)
}

#[test]
fn refusals(rt: HostRuntime) -> Result<(), Fail> {
    let tiles = lines(&rt, rt.alloc())?;
    lines_are_refused(&rt, rt.alloc(), &tiles)
}

/// Whether a row of three whose second place is a hole has no problem with the lines, and for this
/// reason.
fn is_refused_with_a_hole(
    rt: &impl Abort,
    alloc: Global,
    tiles: &TileSet,
    text: &[u8],
    wanted: BuildFault,
) -> Result<(), Fail> {
    let mask = mask_of(rt, alloc, b".#.\n", 3, 1)?;
    let fault = masked_fault_of(rt, alloc, tiles, &mask, text)?;
    assert!(rt; fault == Some(wanted), "of {text:?}");
    Ok(())
}

/// The refusals of rows of straight lines with a hole.
fn lines_are_refused_with_a_hole(
    rt: &impl Abort,
    alloc: Global,
    tiles: &TileSet,
) -> Result<(), Fail> {
    let hole = BuildFault::PinInHole { line: 1 };
    is_refused_with_a_hole(rt, alloc, tiles, b"pin 1 0 line/9\n", hole)?;
    let hole = BuildFault::PinInHole { line: 2 };
    is_refused_with_a_hole(rt, alloc, tiles, b"\nban 1 0 line/0\n", hole)?;
    let outside = BuildFault::PinOutside { line: 1 };
    is_refused_with_a_hole(rt, alloc, tiles, b"pin 1 1 line/9\n", outside)?;
    let unknown = BuildFault::UnknownSymbol { line: 1 };
    is_refused_with_a_hole(
        rt,
        alloc,
        tiles,
        b"pin 2 0 line/2\nban 1 0 line/0\n",
        unknown,
    )
}

#[test]
fn refusals_with_a_hole(rt: HostRuntime) -> Result<(), Fail> {
    let tiles = lines(&rt, rt.alloc())?;
    lines_are_refused_with_a_hole(&rt, rt.alloc(), &tiles)
}
