//! Each end of growth and each refusal, and a large area in 64 blocks.

use super::asking::{Asked, grown, indexed, taught};
use std::alloc::Global;
use std::process::Abort;
use std::test::Fail;
use wfc_blocks::{Block, GrowFault, Grown, Stuck};
use wfc_picture::Picture;

/// What is grown of a text of letters in rows of this width, whose windows wrap or not.
fn grown_of(
    rt: &impl Abort,
    alloc: Global,
    letters: &[u8],
    width: u32,
    wrap: bool,
    asked: Asked<'_>,
) -> Result<Result<Grown, GrowFault>, Fail> {
    let (picture, palette) = indexed(rt, alloc, letters, width)?;
    let patterns = taught(rt, alloc, &picture, wrap)?;
    grown(rt, alloc, &patterns, &palette, asked)
}

/// Looks at the numbers of a picture.
fn has_numbers(rt: &impl Abort, picture: &Picture, width: u32, wanted: &[u32]) {
    assert_eq!(rt; picture.width(), width);
    assert_eq!(rt; picture.height() as usize * width as usize, wanted.len());
    for y in 0..picture.height() {
        for x in 0..picture.width() {
            let at = y as usize * picture.width() as usize + x as usize;
            assert_eq!(rt; Some(&picture.at(x, y)), wanted.get(at));
        }
    }
}

/// Looks at a stuck block and at the lines of its pins: each has its line, its place and its symbol.
fn is_stuck(rt: &impl Abort, stuck: &Stuck, block: Block, lines: &[(u32, u32, u32, u8)]) {
    assert_eq!(rt; stuck.block, block);
    assert_eq!(rt; stuck.pins.len(), lines.len());
    for (pin, (line, x, y, symbol)) in stuck.pins.iter().zip(lines) {
        assert!(rt; pin.keep && pin.line == *line && pin.x == *x && pin.y == *y);
        assert_eq!(rt; pin.symbol.as_slice(), [*symbol].as_slice());
    }
}

#[test]
fn a_board_is_grown_block_by_block(rt: HostRuntime) -> Result<(), Fail> {
    let asked = Asked {
        width: 3,
        height: 3,
        side: 2,
        pins: b"pin 0 0 a\n",
        budget: 0,
    };
    let Ok(Grown::Map(picture)) = grown_of(&rt, rt.alloc(), b"abba", 2, true, asked)? else {
        panic!(rt; "no map");
    };
    has_numbers(&rt, &picture, 3, &[0, 1, 0, 1, 0, 1, 0, 1, 0]);
    Ok(())
}

// The one pattern, `a` and `b` over `b` and `a`, can't begin where the first block ends.
#[test]
fn the_second_block_is_stuck(rt: HostRuntime) -> Result<(), Fail> {
    let asked = Asked {
        width: 3,
        height: 2,
        side: 2,
        pins: b"",
        budget: 9,
    };
    let Ok(Grown::Stuck(stuck)) = grown_of(&rt, rt.alloc(), b"abba", 2, false, asked)? else {
        panic!(rt; "no block is stuck");
    };
    let block = Block {
        number: 1,
        x: 1,
        y: 0,
        width: 2,
        height: 2,
    };
    is_stuck(&rt, &stuck, block, &[(0, 0, 0, b'b'), (0, 0, 1, b'a')]);
    Ok(())
}

/// Twelve letters in rows of four, of which no map of 4 by 4 keeps three pins, though each cell keeps a
/// pattern until one is chosen.
const LETTERS: &[u8] = b"baabcabaabbb";

/// An area of one block with these pins.
fn without_map(budget: u32) -> Asked<'static> {
    Asked {
        width: 4,
        height: 4,
        side: 4,
        pins: b"pin 0 0 a\npin 1 1 b\npin 0 3 b\n",
        budget,
    }
}

#[test]
fn a_budget_is_spent(rt: HostRuntime) -> Result<(), Fail> {
    let asked = without_map(0);
    let Ok(Grown::Spent) = grown_of(&rt, rt.alloc(), LETTERS, 4, true, asked)? else {
        panic!(rt; "the budget was not spent");
    };
    Ok(())
}

#[test]
fn a_larger_budget_shows_that_it_is_stuck(rt: HostRuntime) -> Result<(), Fail> {
    let asked = without_map(1_000_000);
    let Ok(Grown::Stuck(stuck)) = grown_of(&rt, rt.alloc(), LETTERS, 4, true, asked)? else {
        panic!(rt; "no block is stuck");
    };
    let block = Block {
        number: 0,
        x: 0,
        y: 0,
        width: 4,
        height: 4,
    };
    let lines = [(1, 0, 0, b'a'), (2, 1, 1, b'b'), (3, 0, 3, b'b')];
    is_stuck(&rt, &stuck, block, &lines);
    Ok(())
}

// A side below the window, 81 blocks, too many pairs in the one block, a pin outside, and a symbol
// that the sample doesn't have; each of two faults at once comes in its place.
#[test]
fn refusals(rt: HostRuntime) -> Result<(), Fail> {
    let cases = [
        (1, 5, 2, b"pin 9 0 a\n".as_slice(), GrowFault::SizeBelowN),
        (
            10,
            10,
            2,
            b"pin 10 0 a\n".as_slice(),
            GrowFault::TooManyBlocks { count: 81 },
        ),
        (
            4096,
            4096,
            4096,
            b"pin 4096 0 a\n".as_slice(),
            GrowFault::TooLarge {
                product: 33_538_050,
            },
        ),
        (
            9,
            9,
            2,
            b"pin 0 0 a\nban 9 0 c\n".as_slice(),
            GrowFault::PinOutside { line: 2 },
        ),
        (
            9,
            9,
            2,
            b"ban 8 8 c\npin 9 0 a\n".as_slice(),
            GrowFault::UnknownSymbol { line: 1 },
        ),
    ];
    for (width, height, side, pins, fault) in cases {
        let asked = Asked {
            width,
            height,
            side,
            pins,
            budget: 0,
        };
        match grown_of(&rt, rt.alloc(), b"abba", 2, true, asked)? {
            Err(found) => assert_eq!(rt; found, fault),
            Ok(_) => panic!(rt; "nothing was refused"),
        }
    }
    Ok(())
}

#[test]
fn a_large_area_in_64_blocks(rt: HostRuntime) -> Result<(), Fail> {
    let asked = Asked {
        width: 1024,
        height: 1024,
        side: 129,
        pins: b"pin 100 3 b\n",
        budget: 0,
    };
    let Ok(Grown::Map(picture)) = grown_of(&rt, rt.alloc(), b"abba", 2, true, asked)? else {
        panic!(rt; "no map");
    };
    assert_eq!(rt; (picture.width(), picture.height()), (1024, 1024));
    let first = picture.at(0, 0);
    for y in 0..picture.height() {
        for x in 0..picture.width() {
            assert!(rt; (picture.at(x, y) == first) == ((x ^ y) & 1 == 0));
        }
    }
    assert_eq!(rt; first, 0);
    Ok(())
}
