//! The check of a text that is whole in memory.

ghost use Rattle.std.specs.Prelude.{◌≡◌, ◌≤◌, length, OnOk};
ghost use Rattle.wfc_outside.specs.Gives.{Gives};
ghost use Rattle.wfc_check.specs.Checker.{HasNone};
ghost use Rattle.wfc_check.specs.Text.{checked, IsRefutation};

use crate::fault::CheckFault;
use crate::reading::{MAX_REFUTATION_BYTES, Reading};
use memchr::memchr;
use std::alloc::Global;
use wfc_problem::Problem;
use wfc_proof::Shape;

/// Whether the bytes are a refutation of the problem, in either format, in format 2 of this shape; else the first line at
/// fault.
///
/// The faults in their order at a line: it is longer than 64 bytes or isn't of the form of its place (`BadLine`); it has
/// other numbers than the problem (`HeaderDiffers`) or names another shape (`OptionsDiffer`); it isn't right where it stands
/// (`Rejected`). Bytes behind the last line's end are a `BadLine`, as is an empty text, and a text that ends before its
/// proof is `NotEnded`.
pub fn check_bytes(
    alloc: Global,
    problem: &Problem,
    shape: &Shape,
    bytes: &[u8],
) -> Result<(), CheckFault>
    requires limit { length bytes.now ≤ MAX_REFUTATION_BYTES }
    ensures exact { Gives CheckFault.NoMemory (λ done. done) result
        (checked problem.now shape.now bytes.now) }
    ensures refutation { OnOk result (IsRefutation problem.now shape.now bytes.now) }
    ensures sound { OnOk result (HasNone problem.now) }
{
    read_lines(alloc, problem, shape, bytes)
}

/// The answer to the lines, one after another.
fn read_lines(
    alloc: Global,
    problem: &Problem,
    shape: &Shape,
    bytes: &[u8],
) -> Result<(), CheckFault>
    requires limit { length bytes.now ≤ MAX_REFUTATION_BYTES }
    ensures exact { Gives CheckFault.NoMemory (λ done. done) result
        (checked problem.now shape.now bytes.now) }
    ensures problem { IsProblem problem.now }
{
    let _cells = problem.cells();
    let mut reading = Reading::open(alloc, problem, shape)?;
    let mut rest = bytes;
    while let Some(end) = memchr(b'\n', rest) {
        reading.line(&rest[..end])?;
        rest = &rest[end + 1..];
    }
    reading.end(rest)
}

ghost use Rattle.wfc_problem.specs.Network.{IsProblem};
