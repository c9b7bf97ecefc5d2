//! Stacks and problems of boxes, worked out by hand.

ghost use Rattle.std.specs.Prelude.{◌≡◌};
ghost use Rattle.wfc_problem.specs.Network.{values};

use crate::pins::lines_of;
use crate::sets::{TOWER, stacks_of, tile_set, towers};
use std::alloc::{AllocError, Global};
use std::process::Abort;
use std::test::Fail;
use wfc_box::{StackFault, StackKey, build, stacks};
use wfc_pins::BuildFault;
use wfc_problem::Problem;

/// No cell, where one is looked for.
const NONE: u32 = 99_999_999;

/// A stack that names no action, and one that lacks an end behind one that is right.
const BAD_TURN: &[u8] = b"[[tile]]\nname = 'line'\nclass = 'I'\n\
      [[stack]]\nlower = 'line 0'\nupper = 'line 9'\n";

const NO_UPPER: &[u8] = b"[[tile]]\nname = 'line'\nclass = 'I'\n\
      [[stack]]\nlower = 'line'\nupper = 'line'\n[[stack]]\nlower = 'line 0'\n";

/// A lower end that is a number where the upper one is missing, and a stack that is no table.
const NO_TEXT: &[u8] = b"stack = [{lower = 3}]\n[[tile]]\nname = 'line'\nclass = 'I'\n";

const NO_TABLE: &[u8] = b"stack = [{lower = 'line', upper = 'line'}, 'line']\n\
      [[tile]]\nname = 'line'\nclass = 'I'\n";

const NO_ARRAY: &[u8] = b"stack = 'line'\n[[tile]]\nname = 'line'\nclass = 'I'\n";

const NO_TILE: &[u8] = b"stack = [{lower = 'line', upper = 'post'}]\n\
      [[tile]]\nname = 'line'\nclass = 'I'\n";

#[test]
fn a_line_stands_on_what_runs_across_it(rt: HostRuntime) -> Result<(), Fail> {
    let stacks = stacks_of(&rt, rt.alloc(), TOWER)??;
    assert!(rt; stacks.on(0, 1) && stacks.on(1, 0));
    assert!(rt; !stacks.on(0, 0) && !stacks.on(1, 1) && !stacks.on(0, 2));
    Ok(())
}

/// Whether this is the first fault of a document's stacks.
fn is_at_fault(
    rt: &impl Abort,
    alloc: Global,
    text: &[u8],
    wanted: StackFault,
) -> Result<(), Fail> {
    let found = stacks_of(rt, alloc, text)?.err();
    assert_eq!(rt; found, Some(wanted));
    Ok(())
}

#[test]
fn stacks_at_fault(rt: HostRuntime) -> Result<(), Fail> {
    let alloc = rt.alloc();
    is_at_fault(&rt, alloc, BAD_TURN, StackFault::BadTurn { stack: 0 })?;
    is_at_fault(
        &rt,
        alloc,
        NO_UPPER,
        StackFault::MissingKey {
            stack: 1,
            key: StackKey::Upper,
        },
    )?;
    is_at_fault(
        &rt,
        alloc,
        NO_TEXT,
        StackFault::NotText {
            stack: 0,
            key: StackKey::Lower,
        },
    )?;
    is_at_fault(&rt, alloc, NO_TABLE, StackFault::NotTable { stack: 1 })?;
    is_at_fault(&rt, alloc, NO_ARRAY, StackFault::NotArray)?;
    is_at_fault(&rt, alloc, NO_TILE, StackFault::UnknownTile { stack: 0 })
}

#[test]
fn many_stacks(rt: HostRuntime) -> Result<(), Fail> {
    let alloc = rt.alloc();
    let text = towers(alloc, 5000)?;
    let stacks = stacks_of(&rt, alloc, &text)??;
    assert!(rt; stacks.on(3, 17) && stacks.on(16, 8) && !stacks.on(17, 3));
    Ok(())
}

/// The problem of a tower of these sides with the lines of a text, or why there is none.
fn tower(
    rt: &impl Abort,
    alloc: Global,
    sides: (u32, u32, u32, bool),
    text: &[u8],
) -> Result<Result<Problem, BuildFault>, Fail> {
    let (width, height, depth, wrap) = sides;
    assert!(rt; 0 < width && width <= 4096 && 0 < height && height <= 4096);
    assert!(rt; 0 < depth && depth <= 256);
    let tiles = tile_set(rt, alloc, TOWER)?;
    let stacks = stacks(alloc, TOWER, &tiles)?;
    let pins = lines_of(rt, alloc, text)?;
    Ok(build(alloc, &tiles, &stacks, width, height, depth, wrap, &pins))
}

/// Writes what lies beside a cell in each direction, or `NONE`.
fn push_beside(
    rt: &impl Abort,
    found: &mut Vec<u32>,
    problem: &Problem,
    cell: u32,
) -> Result<(), AllocError> {
    assert!(rt; cell < problem.cells());
    for dir in 0..problem.dirs() {
        found.push(problem.neighbour(cell, dir).unwrap_or(NONE))?;
    }
    Ok(())
}

/// Whether these lie beside the cells of a tower.
fn lie_beside(
    rt: &impl Abort,
    alloc: Global,
    sides: (u32, u32, u32, bool),
    wanted: &[u32],
) -> Result<(), Fail> {
    let problem = tower(rt, alloc, sides, b"")??;
    let mut found = Vec::new(alloc);
    for cell in 0..problem.cells() {
        push_beside(rt, &mut found, &problem, cell)?;
    }
    assert!(rt; found.as_slice() == wanted);
    Ok(())
}

#[test]
fn layers_wrap_and_the_tower_does_not(rt: HostRuntime) -> Result<(), Fail> {
    let alloc = rt.alloc();
    let flat = [
        NONE, NONE, 1, NONE, 2, NONE, 0, NONE, NONE, NONE, 3, NONE, NONE, NONE, 3, NONE, NONE, 0,
        2, NONE, NONE, NONE, NONE, 1,
    ];
    lie_beside(&rt, alloc, (2, 1, 2, false), &flat)?;
    let wrapped = [
        1, 0, 1, 0, 2, NONE, 0, 1, 0, 1, 3, NONE, 3, 2, 3, 2, NONE, 0, 2, 3, 2, 3, NONE, 1,
    ];
    lie_beside(&rt, alloc, (2, 1, 2, true), &wrapped)?;
    lie_beside(
        &rt,
        alloc,
        (1, 1, 3, true),
        &[0, 0, 0, 0, 1, NONE, 1, 1, 1, 1, 2, 0, 2, 2, 2, 2, NONE, 1],
    )
}

#[test]
fn up_and_down(rt: HostRuntime) -> Result<(), Fail> {
    let alloc = rt.alloc();
    let text = b"[[tile]]\nname = 'a'\nclass = 'X'\n[[tile]]\nname = 'b'\nclass = 'X'\n\
          [[stack]]\nlower = 'a'\nupper = 'b'\n";
    let tiles = tile_set(&rt, alloc, text)?;
    let stacks = stacks(alloc, text, &tiles)?;
    let problem = build(alloc, &tiles, &stacks, 1, 1, 2, false, &[])?;
    assert!(rt; problem.values() == 2 && problem.dirs() == 6);
    let (upper, lower) = ([1u16], [0u16]);
    assert!(rt; problem.supports(0, 4) == upper.as_slice());
    assert!(rt; problem.supports(1, 5) == lower.as_slice());
    assert!(rt; problem.supports(0, 5).is_empty() && problem.supports(1, 4).is_empty());
    Ok(())
}

/// Whether the lower of two cells may have both values, and the upper one the second alone.
fn is_pinned_above(problem: &Problem) -> bool
    requires two_cells { problem.now.cells ≡ 2 }
    requires two_values { values problem.now ≡ 2 }
{
    let lower = problem.in_base(0, 0) && problem.in_base(0, 1);
    let upper = !problem.in_base(1, 0) && problem.in_base(1, 1);
    lower && upper
}

#[test]
fn pins_of_a_tower(rt: HostRuntime) -> Result<(), Fail> {
    let alloc = rt.alloc();
    let sides = (1, 1, 2, false);
    let problem = tower(&rt, alloc, sides, b"pin 0 0 1 line/1\n")??;
    assert!(rt; problem.cells() == 2 && problem.values() == 2);
    assert!(rt; is_pinned_above(&problem));
    let outside = tower(&rt, alloc, sides, b"pin 0 0 1 line/1\nban 0 0 2 line/2\n")?;
    assert!(rt; matches!(&outside, Err(BuildFault::PinOutside { line: 2 })));
    let unknown = tower(&rt, alloc, sides, b"pin 0 0 1 line/2\n")?;
    assert!(rt; matches!(&unknown, Err(BuildFault::UnknownSymbol { line: 1 })));
    let large = tower(&rt, alloc, (4096, 1024, 2, false), b"pin 0 0 2 line/2\n")?;
    assert!(rt;
        matches!(
            &large,
            Err(BuildFault::TooLarge {
                product: 16_777_216
            })
        )
    );
    Ok(())
}

#[test]
fn a_large_box_has_a_problem(rt: HostRuntime) -> Result<(), Fail> {
    let alloc = rt.alloc();
    let text = towers(alloc, 3)?;
    let tiles = tile_set(&rt, alloc, &text)?;
    let stacks = stacks(alloc, &text, &tiles)?;
    let problem = build(alloc, &tiles, &stacks, 64, 64, 16, true, &[])?;
    assert!(rt; problem.cells() == 65_536 && problem.values() == 20);
    assert!(rt; problem.dirs() == 6);
    assert!(rt; problem.neighbour(65_535, 4) == None);
    assert!(rt; problem.neighbour(65_535, 5) == Some(61_439));
    Ok(())
}
