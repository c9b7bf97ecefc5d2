//! The greatest arc-consistent domains by their definition. It is slow: for small problems, and to
//! test faster programs against.

ghost use Rattle.std.specs.Prelude.{◌≡◌, ℕ, ◌+◌, ◌*◌, ◌<◌, ◌≤◌, IfOk, All, length, vec_len};
ghost use Rattle.std.specs.List.{list_any};
ghost use Rattle.wfc_outside.specs.Gives.{Gives};
ghost use Rattle.wfc_problem.specs.Domains.{IsGreatest, base_with, leaves, leaves_all};
ghost use Rattle.wfc_problem.specs.Network.{has_flag, neighbour, values};
ghost use Rattle.wfc_problem.specs.Rounds.{greatest, is_supported, round, side_holds};

use crate::{Literal, Problem};
use std::alloc::Global;
use wfc_outside::NoMemory;

/// The greatest arc-consistent domains of a problem whose base is cut by literals, as one flag for
/// each cell and value, row by row. It makes as many rounds over the whole problem as there are
/// pairs of a cell and a base value.
pub fn greatest_domains(
    alloc: Global,
    problem: &Problem,
    literals: &[Literal],
) -> Result<Vec<bool>, NoMemory>
    ensures exact { Gives (record {}) (λ flags. has_flag (values problem.now) flags.items) result
        (Ok (greatest problem.now literals.now)) }
    ensures length { IfOk result (λ flags. vec_len flags ≡ problem.now.cells * values problem.now) }
    ensures greatest { IfOk result (λ flags.
        IsGreatest problem.now literals.now (has_flag (values problem.now) flags.items)) }
{
    let mut flags = cut_base(alloc, problem, literals)?;
    for done in 0..problem.depth() {
        flags = next_round(alloc, problem, &flags)?;
    }
    Ok(flags)
}

/// The base, cut by each literal.
fn cut_base(alloc: Global, problem: &Problem, literals: &[Literal]) -> Result<Vec<bool>, NoMemory>
    ensures length { IfOk result (λ flags. vec_len flags ≡ problem.now.cells * values problem.now) }
    ensures value { IfOk result (λ flags.
        has_flag (values problem.now) flags.items ≡ base_with problem.now literals.now) }
{
    let values = problem.values() as usize;
    let mut flags = Vec::new(alloc);
    for place in 0..problem.cells() as usize * values {
        let (cell, value) = ((place / values) as u32, (place % values) as u16);
        flags.push(is_left(problem, literals, cell, value))?;
    }
    Ok(flags)
}

/// Whether the value is in the cell's base, and each literal leaves it there.
fn is_left(problem: &Problem, literals: &[Literal], cell: u32, value: u16) -> bool
    requires cell_in { cell < problem.now.cells }
    requires value_in { value < values problem.now }
    ensures value { result ≡ base_with problem.now literals.now cell value }
{
    problem.in_base(cell, value) && leaves_all(literals, cell, value)
}

/// Whether each literal leaves the value at the cell.
fn leaves_all(literals: &[Literal], cell: u32, value: u16) -> bool
    ensures value { result ≡ leaves_all literals.now cell value }
{
    literals.iter().all(|literal| leaves(*literal, cell, value))
}

fn leaves(literal: Literal, c: u32, v: u16) -> bool
    ensures value { result ≡ leaves literal c v }
{
    match literal {
        Literal::Is { cell, value } => c != cell || v == value,
        Literal::Not { cell, value } => !(c == cell && v == value),
    }
}

/// What stands, less each value that lacks a support in it.
fn next_round(alloc: Global, problem: &Problem, flags: &[bool]) -> Result<Vec<bool>, NoMemory>
    requires table { length flags.now ≡ problem.now.cells * values problem.now }
    ensures length { IfOk result (λ next. vec_len next ≡ problem.now.cells * values problem.now) }
    ensures value { IfOk result (λ next. has_flag (values problem.now) next.items
        ≡ round problem.now (has_flag (values problem.now) flags.now)) }
{
    let values = problem.values() as usize;
    let mut next = Vec::new(alloc);
    for place in 0..flags.len() {
        let (cell, value) = ((place / values) as u32, (place % values) as u16);
        next.push(stays(problem, flags, cell, value))?;
    }
    Ok(next)
}

/// Whether the value stands at the cell, and has support there.
fn stays(problem: &Problem, flags: &[bool], cell: u32, value: u16) -> bool
    requires table { length flags.now ≡ problem.now.cells * values problem.now }
    requires cell_in { cell < problem.now.cells }
    requires value_in { value < values problem.now }
    ensures value { result
        ≡ round problem.now (has_flag (values problem.now) flags.now) cell value }
{
    let place = cell as usize * problem.values() as usize + value as usize;
    flags[place] && is_supported(problem, flags, cell, value)
}

/// Whether the value has a support that stands in each direction in which the cell has a neighbour.
fn is_supported(problem: &Problem, flags: &[bool], cell: u32, value: u16) -> bool
    requires table { length flags.now ≡ problem.now.cells * values problem.now }
    requires cell_in { cell < problem.now.cells }
    requires value_in { value < values problem.now }
    ensures value { result
        ≡ is_supported problem.now (has_flag (values problem.now) flags.now) cell value }
{
    (0..problem.dirs()).all(|dir| side_holds(problem, flags, cell, value, dir))
}

fn side_holds(problem: &Problem, flags: &[bool], cell: u32, value: u16, dir: u8) -> bool
    requires table { length flags.now ≡ problem.now.cells * values problem.now }
    requires cell_in { cell < problem.now.cells }
    requires value_in { value < values problem.now }
    requires dir_in { dir < problem.now.dirs }
    ensures value { result ≡ side_holds problem.now (has_flag (values problem.now) flags.now) value
        dir (neighbour problem.now cell dir) }
{
    match problem.neighbour(cell, dir) {
        None => true,
        Some(next) => any_stands(flags, problem.values(), next, problem.supports(value, dir)),
    }
}

/// Whether one of these values stands at the cell.
fn any_stands(flags: &[bool], values: u16, cell: u32, wanted: &[u16]) -> bool
    requires row { (cell + 1) * values ≤ length flags.now }
    requires wanted { All (λ value. value < values) wanted.now }
    ensures value { result ≡ list_any (has_flag values flags.now cell) wanted.now }
{
    for value in wanted {
        if flags[cell as usize * values as usize + *value as usize] {
            return true;
        }
    }
    false
}
