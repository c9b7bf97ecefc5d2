//! The value that a word draws.

ghost use Rattle.std.specs.Prelude.{◌≡◌, ◌+◌, ◌*◌, ◌<◌, ◌≤◌, IsTrue};
ghost use Rattle.std.specs.List.{sum_by};
ghost use Rattle.wfc_problem.specs.Network.{value_weight};
ghost use Rattle.wfc_problem.specs.Sizes.{values_at, size_at};
ghost use Rattle.wfc_log.specs.Domains.{Fits, has};
ghost use Rattle.wfc_choose.specs.Draw.{drawn_value};

use wfc_domains::Domains;
use wfc_problem::Problem;

/// The value that a word draws of those that stand at a cell: the first in rising order at which the running sum of
/// the weights exceeds the word modulo the whole sum. It goes through the values twice, and takes no memory.
pub fn draw(problem: &Problem, domains: &Domains, cell: u32, word: u64) -> u16
    requires fits { Fits problem.now domains.now }
    requires cell_in { cell < problem.now.cells }
    requires some { 0 < size_at problem.now (has domains.now) cell }
    ensures exact { result
        ≡ drawn_value problem.now (values_at problem.now (has domains.now) cell) word }
    ensures stands { IsTrue (has domains.now cell result) }
{
    let number = word % weights_at(problem, domains, cell);
    let values = problem.values();
    let mut running: u64 = 0;
    let mut value = domains.next(cell, 0);
    while value < values {
        running += u64::from(problem.weight(value));
        if number < running {
            return value;
        }
        value = domains.next(cell, value + 1);
    }
    unreachable!()
}

/// The sum of the weights of the values that stand at a cell.
fn weights_at(problem: &Problem, domains: &Domains, cell: u32) -> u64
    requires fits { Fits problem.now domains.now }
    requires cell_in { cell < problem.now.cells }
    requires some { 0 < size_at problem.now (has domains.now) cell }
    ensures value { result
        ≡ sum_by (value_weight problem.now) (values_at problem.now (has domains.now) cell) }
    ensures some { 0 < result }
{
    let values = problem.values();
    let mut sum: u64 = 0;
    let mut value = domains.next(cell, 0);
    while value < values {
        sum += u64::from(problem.weight(value));
        value = domains.next(cell, value + 1);
    }
    sum
}
