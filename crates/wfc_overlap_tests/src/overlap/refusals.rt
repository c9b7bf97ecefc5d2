//! What a build refuses, in its order.

use super::asking::{Sides, fault_of};
use super::samples::{blank_and_red, checkerboard, letters, noise, single};
use std::alloc::Global;
use std::process::Abort;
use std::test::Fail;
use wfc_picture::Palette;
use wfc_pins::BuildFault;

/// Whether the checkerboard has no problem with the lines, and for this reason.
fn is_refused(
    rt: &impl Abort,
    alloc: Global,
    palette: &Palette,
    sides: Sides,
    text: &[u8],
    wanted: BuildFault,
) -> Result<(), Fail> {
    let patterns = checkerboard(rt, alloc)?;
    let fault = fault_of(rt, alloc, &patterns, palette, sides, text)?;
    assert!(rt; fault == Some(wanted));
    Ok(())
}

/// Whether the checkerboard has no output of three by three with the lines, since a place lies outside.
fn lies_outside(
    rt: &impl Abort,
    alloc: Global,
    text: &[u8],
    wrap: bool,
    line: u32,
) -> Result<(), Fail> {
    let palette = letters(alloc)?;
    let wanted = BuildFault::PinOutside { line };
    is_refused(rt, alloc, &palette, (3, 3, wrap), text, wanted)
}

/// Whether the checkerboard has no output of three by three with the lines, since a symbol is unknown.
fn is_unknown(rt: &impl Abort, alloc: Global, text: &[u8], line: u32) -> Result<(), Fail> {
    let palette = letters(alloc)?;
    let wanted = BuildFault::UnknownSymbol { line };
    is_refused(rt, alloc, &palette, (3, 3, false), text, wanted)
}

#[test]
fn refusals(rt: HostRuntime) -> Result<(), Fail> {
    let alloc = rt.alloc();
    is_unknown(&rt, alloc, b"pin 0 0 z", 1)?;
    lies_outside(&rt, alloc, b"pin 3 0 a", false, 1)?;
    // Of one line, a place outside comes first.
    lies_outside(&rt, alloc, b"pin 3 0 z", false, 1)?;
    lies_outside(&rt, alloc, b"ban 0 3 a", true, 1)?;
    is_unknown(&rt, alloc, b"ban 2 2 aa", 1)?;
    // The first line at fault, by its number in the file.
    is_unknown(&rt, alloc, b"#\nban 0 0 c\npin 9 9 a", 2)?;
    lies_outside(&rt, alloc, b"\npin 9 9 a\npin 0 0 c", false, 2)
}

/// A side below that of a window comes before the lines, and so do too many pairs.
#[test]
fn refusals_before_the_lines(rt: HostRuntime) -> Result<(), Fail> {
    let alloc = rt.alloc();
    let palette = letters(alloc)?;
    let (text, below) = (b"pin 9 9 z", BuildFault::SizeBelowN);
    is_refused(&rt, alloc, &palette, (1, 2, false), text, below)?;
    is_refused(&rt, alloc, &palette, (2, 1, true), text, below)?;
    is_refused(&rt, alloc, &palette, (4096, 1, true), text, below)?;
    let text = b"pin 9999 0 z";
    let many = BuildFault::TooLarge { product: 8_394_750 };
    is_refused(&rt, alloc, &palette, (4096, 1026, false), text, many)
}

/// A side below that of a window comes before too many pairs: of over 3,500 patterns, some 28 million.
#[test]
fn a_side_comes_before_the_pairs(rt: HostRuntime) -> Result<(), Fail> {
    let alloc = rt.alloc();
    let (patterns, palette) = (noise(&rt, alloc)?, letters(alloc)?);
    let text = b"pin 9999 0 z";
    for sides in [(4096, 2, true), (2, 4096, false)] {
        let fault = fault_of(&rt, alloc, &patterns, &palette, sides, text)?;
        assert!(rt; fault == Some(BuildFault::SizeBelowN));
    }
    Ok(())
}

/// Lines whose words spell no symbol of a palette of a blank and a red.
const MISSPELLED: [&[u8]; 5] = [
    b"pin 0 0 255,00,7",
    b"pin 0 0 255,0",
    b"pin 0 0 255,0,7,",
    b"ban 0 0 \\S",
    b"ban 0 0 s",
];

#[test]
fn words_that_are_no_symbol(rt: HostRuntime) -> Result<(), Fail> {
    let palette = blank_and_red(rt.alloc())?;
    for text in MISSPELLED {
        let wanted = BuildFault::UnknownSymbol { line: 1 };
        is_refused(&rt, rt.alloc(), &palette, (2, 2, false), text, wanted)?;
    }
    Ok(())
}

#[test]
fn one_row_too_many(rt: HostRuntime) -> Result<(), Fail> {
    let patterns = single(&rt, rt.alloc())?;
    let palette = letters(rt.alloc())?;
    let sides = (4096, 2049, true);
    let fault = fault_of(&rt, rt.alloc(), &patterns, &palette, sides, b"")?;
    assert!(rt; fault == Some(BuildFault::TooLarge { product: 8_392_704 }));
    Ok(())
}
