//! The check of a file that is read in pieces.

ghost use Rattle.std.specs.Prelude.{◌+◌, ◌≤◌, OnOk};
ghost use Rattle.wfc_problem.specs.Network.{IsProblem};
ghost use Rattle.wfc_check.specs.Answered.{Answers, IsToldRefutation};
ghost use Rattle.wfc_check.specs.Checker.{HasNone};

use crate::fault::CheckFault;
use crate::reading::{MAX_LINE_BYTES, MAX_REFUTATION_BYTES, Reading};
use crate::stream::{LineEnd, Stream};
use std::alloc::Global;
use wfc_outside::Folder;
use wfc_problem::Problem;
use wfc_proof::Shape;

/// Whether the named file is a refutation of the problem, in either format, in format 2 of this shape; else the first line at
/// fault, as `check_bytes` names it.
///
/// It ends at the latest with the piece, of at most 4,096 bytes, with which it was given more than 4,294,967,296. It reads no
/// further than to the line at fault, and keeps no more than a piece and a line; no clause says so. A file of more than
/// 4,294,967,296 bytes is `TooLong` where none of these is at fault.
pub fn check<F: Folder>(
    alloc: Global,
    problem: &Problem,
    shape: &Shape,
    folder: &mut F,
    name: &str,
) -> Result<(), CheckFault>
    ensures answer { Answers problem.now shape.now name.now (F.seen folder.old)
        (F.seen folder.new) result }
    ensures refutation { OnOk result
        (IsToldRefutation problem.now shape.now (F.seen folder.old).contents name.now) }
    ensures sound { OnOk result (HasNone problem.now) }
    ensures given { F.bytes_given folder.new
        ≤ F.bytes_given folder.old + MAX_REFUTATION_BYTES + 4096 }
{
    read_file(alloc, problem, shape, folder, name)
}

/// The answer to the lines of the file, one after another.
fn read_file<F: Folder>(
    alloc: Global,
    problem: &Problem,
    shape: &Shape,
    folder: &mut F,
    name: &str,
) -> Result<(), CheckFault>
    ensures answer { Answers problem.now shape.now name.now (F.seen folder.old)
        (F.seen folder.new) result }
    ensures problem { IsProblem problem.now }
    ensures given { F.bytes_given folder.new
        ≤ F.bytes_given folder.old + MAX_REFUTATION_BYTES + 4096 }
{
    let _cells = problem.cells();
    let mut reading = Reading::open(alloc, problem, shape)?;
    let Ok(mut stream) = Stream::new(alloc, name, MAX_REFUTATION_BYTES) else {
        return Err(CheckFault::NoMemory);
    };
    let Ok(mut line) = Vec::with_capacity(alloc, MAX_LINE_BYTES + 1) else {
        return Err(CheckFault::NoMemory);
    };
    'lines: loop {
        match stream.next_line(folder, &mut line) {
            Ok(LineEnd::Feed) => match reading.line(&line) {
                Ok(()) => {}
                Err(fault) => return Err(fault),
            },
            Ok(LineEnd::Long) => return Err(reading.bad_line()),
            Ok(LineEnd::End) => return reading.end(&line),
            Ok(LineEnd::Over) => return Err(CheckFault::TooLong),
            Err(fault) => return Err(CheckFault::from(fault)),
        }
    }
}
