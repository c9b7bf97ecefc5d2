//! What stands beside a cell.

ghost use Rattle.std.specs.Prelude.{◌≡◌, ℕ, ◌<◌, IfSome, IsTrue};
ghost use Rattle.wfc_problem.specs.Network.{values};
ghost use Rattle.wfc_problem.specs.Domains.{support_count};
ghost use Rattle.wfc_log.specs.Domains.{Fits, has};
ghost use Rattle.wfc_domains.specs.Loaded.{HaveSameSupports, IsSurrounded};

use wfc_log::Domains;
use wfc_problem::{Problem, hop_cell};

/// Whether the cell has a neighbour in each direction, at which all values stand.
pub fn is_surrounded(problem: &Problem, domains: &Domains, cell: u32) -> bool
    requires domains { Fits problem.now domains.now }
    requires cell_in { cell < problem.now.cells }
    ensures all { IsTrue result → IsSurrounded problem.now (has domains.now) cell problem.now.dirs }
{
    let values = u32::from(problem.values());
    for hop in problem.hops(cell) {
        let Some(next) = hop_cell(cell, *hop) else {
            return false;
        };
        if domains.size(next) != values {
            return false;
        }
    }
    true
}

/// A neighbour before the cell beside which the same supports stand as beside the cell itself, as along the edge of a map.
pub fn alike_before(problem: &Problem, domains: &Domains, cell: u32) -> Option<u32>
    requires domains { Fits problem.now domains.now }
    requires cell_in { cell < problem.now.cells }
    ensures before { IfSome result (λ next. next < cell) }
    ensures same { IfSome result (λ next. HaveSameSupports problem.now (has domains.now) next cell
        problem.now.dirs) }
{
    for hop in problem.hops(cell) {
        if let Some(next) = hop_cell(cell, *hop) {
            if next < cell && are_alike(problem, domains, next, cell) {
                return Some(next);
            }
        }
    }
    None
}

/// Whether in each direction all values stand beside both cells, or neither has a neighbour.
fn are_alike(problem: &Problem, domains: &Domains, cell: u32, other: u32) -> bool
    requires domains { Fits problem.now domains.now }
    requires cell_in { cell < problem.now.cells }
    requires other_in { other < problem.now.cells }
    ensures same { IsTrue result → HaveSameSupports problem.now (has domains.now) cell other
        problem.now.dirs }
{
    for dir in 0..problem.dirs() {
        if !is_same_side(problem, domains, cell, other, dir) {
            return false;
        }
    }
    true
}

/// Whether in this direction all values stand beside both cells, or neither has a neighbour.
fn is_same_side(problem: &Problem, domains: &Domains, cell: u32, other: u32, dir: u8) -> bool
    requires domains { Fits problem.now domains.now }
    requires cell_in { cell < problem.now.cells }
    requires other_in { other < problem.now.cells }
    requires dir_in { dir < problem.now.dirs }
    ensures same { IsTrue result → (v : ℕ) → support_count problem.now (has domains.now) cell v dir
        ≡ support_count problem.now (has domains.now) other v dir }
{
    let values = u32::from(problem.values());
    match (problem.neighbour(cell, dir), problem.neighbour(other, dir)) {
        (None, None) => true,
        (Some(next), Some(far)) => domains.size(next) == values && domains.size(far) == values,
        _ => false,
    }
}

/// How many supports of the value stand beside the cell in a direction. Where all values stand there, they are not
/// looked at.
#[inline]
pub fn count_beside(problem: &Problem, domains: &Domains, cell: u32, value: u16, dir: u8) -> u16
    requires domains { Fits problem.now domains.now }
    requires cell_in { cell < problem.now.cells }
    requires value_in { value < values problem.now }
    requires dir_in { dir < problem.now.dirs }
    ensures value { result ≡ support_count problem.now (has domains.now) cell value dir }
{
    let Some(next) = problem.neighbour(cell, dir) else {
        return 0;
    };
    let supports = problem.supports(value, dir);
    if domains.size(next) == u32::from(problem.values()) {
        supports.len() as u16
    } else {
        domains.count_among(next, supports)
    }
}
