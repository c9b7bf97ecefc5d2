//! Why a node of a proof is refused, and where an accepted one leads.

ghost use Rattle.std.specs.Prelude.{◌≡◌, ◌<◌, ◌≤◌, ◌+◌, ◌-◌, ◌==◌, ◌||◌, ◌&&◌, not, All, IsTrue, Ok, length};
ghost use Rattle.std.specs.List.{find, list_all, range_with_len};
ghost use Rattle.wfc_problem.specs.Network.{values, IsProblem};
ghost use Rattle.wfc_problem.specs.Rounds.{depth_of, pairs};
ghost use Rattle.wfc_proof.specs.Checker.{node_fault, node_step, node_steps};
ghost use Rattle.wfc_proof.specs.Lines.{nodes_of};
ghost use Rattle.wfc_proof.specs.Proof.Node.{removes, splits, empties};
ghost use Rattle.wfc_proof.specs.declared.Line.TheVariants.{Span};
ghost use Rattle.wfc_check.specs.Entries.{standing, waits_of, Branches};
ghost use Rattle.wfc_check.specs.Checker.{point_at, IsTaken};
ghost use Rattle.wfc_check.specs.declared.progress.Progress.TheVariants.{Going};

use crate::progress::Progress;
use crate::trail::BranchTrail;
use wfc_proof::Reject;

/// The first of these values that stands at a cell.
fn first_among(trail: &BranchTrail, cell: u32, among: &[u16]) -> Option<u16>
    requires cell_in { cell < trail.now.problem.cells }
    requires values_in { All (λ value. value < values trail.now.problem) among.now }
    ensures value { result ≡ find (standing trail.now cell) among.now }
{
    for value in among {
        if trail.has(cell, *value) {
            return Some(*value);
        }
    }
    None
}

/// The least value that stands at a cell.
fn least_at(trail: &BranchTrail, cell: u32) -> Option<u16>
    requires cell_in { cell < trail.now.problem.cells }
    ensures value { result
        ≡ find (standing trail.now cell) (range_with_len 0 (values trail.now.problem)) }
{
    for value in 0..trail.problem().values() {
        if trail.has(cell, value) {
            return Some(value);
        }
    }
    None
}

/// Whether a value other than this one stands at a cell.
#[inline]
fn stands_beside(trail: &BranchTrail, cell: u32, other: u16, value: u16) -> bool
    requires cell_in { cell < trail.now.problem.cells }
    requires other_in { other < values trail.now.problem }
    ensures value { result ≡ (not (other == value) && standing trail.now cell other) }
{
    other != value && trail.has(cell, other)
}

/// Whether another value than this stands at a cell.
fn has_other(trail: &BranchTrail, cell: u32, value: u16) -> bool
    requires cell_in { cell < trail.now.problem.cells }
    ensures value { result ≡ not (list_all (λ w. w == value || not (standing trail.now cell w))
        (range_with_len 0 (values trail.now.problem))) }
{
    for other in 0..trail.problem().values() {
        if stands_beside(trail, cell, other, value) {
            return true;
        }
    }
    false
}

/// Why a removal is refused, if it is.
pub fn removal_fault(trail: &BranchTrail, cell: u32, value: u16, dir: u8) -> Option<Reject>
    ensures value { result
        ≡ node_fault trail.now.problem (standing trail.now) (removes cell value dir) }
{
    let problem = trail.problem();
    if !(cell < problem.cells() && (value < problem.values() && dir < problem.dirs())) {
        return Some(Reject::IndexRange);
    }
    if !trail.has(cell, value) {
        return Some(Reject::NotStanding);
    }
    match problem.neighbour(cell, dir) {
        Some(next) => match first_among(trail, next, problem.supports(value, dir)) {
            Some(value) => Some(Reject::HasSupport { value }),
            None => None,
        },
        None => Some(Reject::NoNeighbour),
    }
}

/// Why a split of a cell into one value and its others is refused, if it is.
pub fn split_fault(trail: &BranchTrail, cell: u32, value: u16) -> Option<Reject>
    ensures value { result ≡ node_fault trail.now.problem (standing trail.now) (splits cell value) }
{
    let problem = trail.problem();
    if !(cell < problem.cells() && value < problem.values()) {
        return Some(Reject::IndexRange);
    }
    if !trail.has(cell, value) {
        return Some(Reject::NotStanding);
    }
    if !has_other(trail, cell, value) {
        return Some(Reject::OnlyValue);
    }
    None
}

/// Why the claim that a cell is empty is refused, if it is.
pub fn empty_fault(trail: &BranchTrail, cell: u32) -> Option<Reject>
    ensures value { result ≡ node_fault trail.now.problem (standing trail.now) (empties cell) }
{
    if cell >= trail.problem().cells() {
        return Some(Reject::IndexRange);
    }
    match least_at(trail, cell) {
        Some(value) => Some(Reject::NotEmpty { value }),
        None => None,
    }
}

/// Puts off the branch without the value, and takes away the others.
pub fn branch(trail: &mut BranchTrail, cell: u32, value: u16)
    requires stands { IsTrue (standing trail.old cell value) }
    requires few { length (waits_of trail.old) < depth_of trail.old.problem }
    ensures branches { Branches trail.old trail.new cell value }
{
    trail.put_off(cell, value);
    for other in 0..trail.problem().values() {
        if stands_beside(trail, cell, other, value) {
            trail.remove(cell, other);
        }
    }
}

/// Takes a value away, unless that is refused.
pub fn remove(trail: &mut BranchTrail, cell: u32, value: u16, dir: u8) -> Result<Progress, Reject>
    ensures taken { IsTaken (node_step trail.old.problem (point_at Going trail.old)
        (removes cell value dir)) trail.old trail.new result }
{
    match removal_fault(trail, cell, value, dir) {
        Some(reject) => Err(reject),
        None => {
            trail.remove(cell, value);
            Ok(Progress::Going)
        }
    }
}

/// Takes away the values from `first` to `last` one after another, or none where one of them is refused.
pub fn remove_span(
    trail: &mut BranchTrail,
    cell: u32,
    first: u16,
    last: u16,
    dir: u8,
) -> Result<Progress, Reject>
    requires whole { first ≤ last }
    ensures taken { IsTaken (node_steps trail.old.problem (point_at Going trail.old)
        (nodes_of (Span cell first last dir))) trail.old trail.new result }
{
    let mark = trail.len();
    for value in u32::from(first)..u32::from(last) + 1 {
        match removal_fault(trail, cell, value as u16, dir) {
            Some(reject) => {
                trail.back_to(mark);
                return Err(reject);
            }
            None => trail.remove(cell, value as u16),
        }
    }
    Ok(Progress::Going)
}

/// Begins the branch with the value, unless that is refused.
pub fn split(trail: &mut BranchTrail, cell: u32, value: u16) -> Result<Progress, Reject>
    requires problem { IsProblem trail.old.problem }
    requires few { pairs trail.old.problem (standing trail.old) + length (waits_of trail.old) ≤
        depth_of trail.old.problem }
    ensures taken { IsTaken (node_step trail.old.problem (point_at Going trail.old)
        (splits cell value)) trail.old trail.new result }
{
    match split_fault(trail, cell, value) {
        Some(reject) => Err(reject),
        None => {
            branch(trail, cell, value);
            Ok(Progress::Going)
        }
    }
}

/// Closes the branch at an empty cell, and begins the innermost one that waits.
pub fn close(trail: &mut BranchTrail, cell: u32) -> Result<Progress, Reject>
    ensures taken { IsTaken (node_step trail.old.problem (point_at Going trail.old) (empties cell))
        trail.old trail.new result }
{
    match empty_fault(trail, cell) {
        Some(reject) => Err(reject),
        None => match trail.close() {
            Some(entry) => {
                trail.remove(entry.cell, entry.value);
                Ok(Progress::Going)
            }
            None => Ok(Progress::Closed),
        },
    }
}
