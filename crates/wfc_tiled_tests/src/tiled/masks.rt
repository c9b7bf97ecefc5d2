//! Masks and their cells.

use super::asking::{NONE, grid_of, mask_for, mask_of, strips};
use std::alloc::Global;
use std::process::Abort;
use std::test::Fail;
use wfc_tiled::{Mask, MaskFault};

/// Whether a place has this cell, or `NONE` for a hole.
fn has_cell(rt: &impl Abort, mask: &Mask, x: u32, y: u32, wanted: u32) {
    assert!(rt; x < mask.width() && y < mask.height());
    assert_eq!(rt; mask.cell(x, y).unwrap_or(NONE), wanted, "at {x}, {y}");
}

#[test]
fn cells_are_counted_without_the_holes(rt: HostRuntime) -> Result<(), Fail> {
    let mask = mask_of(&rt, rt.alloc(), b".#.\n#..\n", 3, 2)?;
    assert_eq!(rt; mask.cells(), 4);
    has_cell(&rt, &mask, 0, 0, 0);
    has_cell(&rt, &mask, 1, 0, NONE);
    has_cell(&rt, &mask, 2, 0, 1);
    has_cell(&rt, &mask, 0, 1, NONE);
    has_cell(&rt, &mask, 1, 1, 2);
    has_cell(&rt, &mask, 2, 1, 3);
    Ok(())
}

#[test]
fn a_large_mask(rt: HostRuntime) -> Result<(), Fail> {
    let text = strips(rt.alloc())?;
    let mask = mask_of(&rt, rt.alloc(), &text, 4096, 256)?;
    assert_eq!(rt; mask.cells(), 262_144);
    has_cell(&rt, &mask, 3, 0, 3);
    has_cell(&rt, &mask, 4, 0, NONE);
    has_cell(&rt, &mask, 16, 0, 4);
    has_cell(&rt, &mask, 0, 1, 1024);
    has_cell(&rt, &mask, 4083, 255, 262_143);
    has_cell(&rt, &mask, 4095, 255, NONE);
    Ok(())
}

/// Whether a text is no mask of a map of three by two, and for this reason.
fn is_refused(rt: &impl Abort, alloc: Global, text: &[u8], wanted: MaskFault) -> Result<(), Fail> {
    let grid = grid_of(rt, alloc, text)?;
    let fault = mask_for(rt, alloc, &grid, 3, 2).err();
    assert!(rt; fault == Some(wanted), "of {text:?}");
    Ok(())
}

/// That a mask has this width and this height.
fn differs(width: u32, height: u32) -> MaskFault {
    MaskFault::SizeDiffers { width, height }
}

#[test]
fn faults_of_masks(rt: HostRuntime) -> Result<(), Fail> {
    let alloc = rt.alloc();
    let second = MaskFault::BadSymbol { line: 2, column: 2 };
    let first = MaskFault::BadSymbol { line: 1, column: 3 };
    is_refused(&rt, alloc, b".x\n..\n", differs(2, 2))?;
    is_refused(&rt, alloc, b"..x\n", differs(3, 1))?;
    is_refused(&rt, alloc, b"...\n...\n...\n", differs(3, 3))?;
    is_refused(&rt, alloc, b".#.\n.x \n", second)?;
    is_refused(&rt, alloc, b"##X\n###\n", first)?;
    is_refused(&rt, alloc, b"###\n###\n", MaskFault::AllHoles)
}
