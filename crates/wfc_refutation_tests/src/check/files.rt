//! Files that are read in pieces.

ghost use Rattle.std.specs.Prelude.{◌≤◌};

use super::{shape, side_by_side, text};
use std::alloc::Global;
use std::process::Abort;
use std::test::Fail;
use wfc_check::{CheckFault, check};
use wfc_outside::MemoryFolder;

const RIGHT: &str = "wfc-refutation 2/cells 2 values 1/for 2 3 2 1 1 0 0/r 0 0 0 2/x 0/q/";

const WRONG: &str = "wfc-refutation 1/cells 2 values 1/x 0/r 0 0 2/x 0/q/";

/// A folder that gives pieces of this size, with a file.
fn folder(alloc: Global, piece: usize, strokes: &str) -> Result<MemoryFolder, Fail>
    requires some { 1 ≤ piece }
{
    let mut folder = MemoryFolder::new(alloc, piece);
    folder.add(String::from_str(alloc, "r.txt")?, text(alloc, strokes)?)?;
    Ok(folder)
}

/// The answer to a file of a folder.
fn answer(
    alloc: Global,
    folder: &mut MemoryFolder,
    name: &str,
) -> Result<Result<(), CheckFault>, Fail> {
    let problem = side_by_side(alloc)?;
    Ok(check(alloc, &problem, &shape(), folder, name))
}

/// The answer to a file given in pieces of this size.
fn is_accepted(rt: &impl Abort, alloc: Global, piece: usize) -> Result<(), Fail> {
    assert!(rt; 1 <= piece);
    let mut folder = folder(alloc, piece, RIGHT)?;
    let told = answer(alloc, &mut folder, "r.txt")?;
    assert_eq!(rt; told, Ok(()), "{piece}");
    Ok(())
}

/// The answer is the same however little is given at a time.
#[test]
fn pieces_of_any_size_are_read(rt: HostRuntime) -> Result<(), Fail> {
    for piece in [1, 2, 7, 64, 5000] {
        is_accepted(&rt, rt.alloc(), piece)?;
    }
    Ok(())
}

/// A file that isn't there, and a reading that fails.
#[test]
fn faults_of_files_are_told(rt: HostRuntime) -> Result<(), Fail> {
    let mut missing = folder(rt.alloc(), 9, RIGHT)?;
    let told = answer(rt.alloc(), &mut missing, "s.txt")?;
    assert_eq!(rt; told, Err(CheckFault::Missing));
    let mut failing = folder(rt.alloc(), 40, RIGHT)?;
    failing.fail_at(2)?;
    let told = answer(rt.alloc(), &mut failing, "r.txt")?;
    assert_eq!(rt; told, Err(CheckFault::Failed));
    Ok(())
}

/// A line at fault before the reading that would fail.
#[test]
fn the_rest_of_a_wrong_file_is_not_read(rt: HostRuntime) -> Result<(), Fail> {
    let mut wrong = folder(rt.alloc(), 40, WRONG)?;
    wrong.fail_at(2)?;
    let answer = answer(rt.alloc(), &mut wrong, "r.txt")?;
    assert!(rt;
        matches!(answer, Err(CheckFault::Rejected { line: 3, .. })),
        "the rest isn't read"
    );
    Ok(())
}
