//! The checks that parts have to pass to be a problem.

ghost use Rattle.std.specs.List.{position};
ghost use Rattle.std.specs.Prelude.{◌≡◌, ℕ, ◌+◌, ◌*◌, ◌<◌, ◌≤◌, not};
ghost use Rattle.std.specs.List.Sorted.{IsStrictlyIncreasing};
ghost use Rattle.std.specs.Result.{result_err};
ghost use Rattle.wfc_model.specs.Direction.{opposite};
ghost use Rattle.wfc_problem.specs.Fault.{problem_fault_of, lengths_fault, pair_count_fault, neighbours_fault};
ghost use Rattle.wfc_problem.specs.Fault.{supports_fault, weight_fault, back_fault, symmetry_fault, rises, leads_back};
ghost use Rattle.wfc_problem.specs.Fault.{first_failing, is_entry, is_weight};
ghost use Rattle.wfc_problem.specs.Network.{HasTables, IsIndexed, values};

use crate::symmetry::check_symmetry;
use crate::{MAX_PAIRS, MAX_VALUES, MAX_WEIGHT, NO_CELL, Part, Parts, ProblemFault, opposite};

/// All checks, in their order.
#[tactic(auto, using(crate::proofs::Faults::sized, crate::proofs::Faults::indexed), unfolding(crate::specs::Fault::problem_fault_of))]
pub fn check(parts: &Parts) -> Result<(), ProblemFault>
    ensures value { result_err result ≡ problem_fault_of parts.now }
{
    check_lengths(parts)?;
    check_size(parts)?;
    check_neighbours(parts)?;
    check_supports(parts)?;
    check_weights(parts)?;
    check_ways_back(parts)?;
    check_symmetry(parts)
}

fn check_lengths(parts: &Parts) -> Result<(), ProblemFault>
    ensures value { result_err result ≡ lengths_fault parts.now }
{
    let cells = parts.cells as usize;
    let dirs = parts.dirs as usize;
    let values = parts.weights.len();
    let part = if cells == 0 || (dirs != 4 && dirs != 6) {
        Part::Cells
    } else if values == 0 || values > MAX_VALUES as usize {
        Part::Weights
    } else if parts.neighbours.len() != cells * dirs {
        Part::Neighbours
    } else if parts.supports.len() != values * dirs {
        Part::Supports
    } else if parts.base.len() != cells * values {
        Part::Base
    } else {
        return Ok(());
    };
    Err(ProblemFault::Lengths { part })
}

fn check_size(parts: &Parts) -> Result<(), ProblemFault>
    requires few_values { values parts.now ≤ MAX_VALUES }
    ensures value { result_err result ≡ pair_count_fault parts.now }
{
    let product = parts.cells as u64 * parts.weights.len() as u64;
    if product > MAX_PAIRS {
        return Err(ProblemFault::TooLarge { product });
    }
    Ok(())
}

fn check_neighbours(parts: &Parts) -> Result<(), ProblemFault>
    requires sized { HasTables parts.now }
    ensures value { result_err result ≡ neighbours_fault parts.now }
{
    match first_wrong_entry(&parts.neighbours, parts.cells) {
        None => Ok(()),
        Some(at) => Err(ProblemFault::BadIndex {
            part: Part::Neighbours,
            at: at as u32,
        }),
    }
}

/// Where the first entry stands that is neither none nor one of so many cells.
fn first_wrong_entry(entries: &[u32], cells: u32) -> Option<usize>
    ensures value { result ≡ position (λ entry. not (is_entry cells entry)) entries.now }
{
    entries
        .iter()
        .position(|&entry| !(entry == NO_CELL || entry < cells))
}

fn check_supports(parts: &Parts) -> Result<(), ProblemFault>
    requires sized { HasTables parts.now }
    ensures value { result_err result ≡ supports_fault parts.now }
{
    match first_wrong_list(&parts.supports, parts.weights.len()) {
        None => Ok(()),
        Some(at) => Err(ProblemFault::BadIndex {
            part: Part::Supports,
            at: at as u32,
        }),
    }
}

/// Where the first list stands that doesn't rise below the limit.
fn first_wrong_list(lists: &[Vec<u16>], limit: usize) -> Option<usize>
    ensures value { result ≡ position (λ list. not (rises 0 limit list.items)) lists.now }
{
    lists.iter().position(|list| !rises_below(list, limit))
}

/// Whether the numbers rise strictly and are below `limit`.
fn rises_below(numbers: &[u16], limit: usize) -> bool
    ensures value { result ≡ rises 0 limit numbers.now }
{
    let mut low = 0;
    for number in numbers {
        let number = *number as usize;
        if number < low || number >= limit {
            return false;
        }
        low = number + 1;
    }
    true
}

fn check_weights(parts: &Parts) -> Result<(), ProblemFault>
    requires sized { HasTables parts.now }
    ensures value { result_err result ≡ weight_fault parts.now }
{
    match first_wrong_weight(&parts.weights) {
        None => Ok(()),
        Some(at) => Err(ProblemFault::BadWeight { value: at as u16 }),
    }
}

fn first_wrong_weight(weights: &[u32]) -> Option<usize>
    ensures value { result ≡ position (λ weight. not (is_weight weight)) weights.now }
{
    weights
        .iter()
        .position(|&weight| !(0 < weight && weight <= MAX_WEIGHT))
}

fn check_ways_back(parts: &Parts) -> Result<(), ProblemFault>
    requires sized { HasTables parts.now }
    requires indexed { IsIndexed parts.now }
    ensures value { result_err result ≡ back_fault parts.now }
{
    for cell in 0..parts.cells {
        if let Some(dir) = first_one_way(parts, cell) {
            return Err(ProblemFault::NotBack { cell, dir });
        }
    }
    Ok(())
}

/// The first direction in which the cell's neighbour doesn't lead back.
fn first_one_way(parts: &Parts, cell: u32) -> Option<u8>
    requires sized { HasTables parts.now }
    requires indexed { IsIndexed parts.now }
    requires cell_in { cell < parts.now.cells }
    ensures value { result ≡ first_failing (leads_back parts.now cell) parts.now.dirs }
{
    (0..parts.dirs).find(|&dir| !leads_back(parts, cell, dir))
}

/// Whether the cell beside `cell` in direction `dir`, if there is one, has `cell` beside it the
/// other way.
fn leads_back(parts: &Parts, cell: u32, dir: u8) -> bool
    requires sized { HasTables parts.now }
    requires indexed { IsIndexed parts.now }
    requires cell_in { cell < parts.now.cells }
    requires dir_in { dir < parts.now.dirs }
    ensures value { result ≡ leads_back parts.now cell dir }
{
    match parts.neighbour(cell, dir) {
        None => true,
        Some(next) => parts.neighbour(next, opposite(dir)) == Some(cell),
    }
}
