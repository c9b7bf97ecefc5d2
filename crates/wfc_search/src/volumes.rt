//! The product of the sizes of all cells.

ghost use Rattle.std.specs.Prelude.{◌≡◌, ◌≤◌};
ghost use Rattle.std.specs.Option.{SomeIff};
ghost use Rattle.wfc_log.specs.Domains.{Fits, has};
ghost use Rattle.wfc_search.specs.Volume.{ways};
ghost use Rattle.wfc_search.specs.declared.TheConstants.{MAX_BUDGET};

use crate::MAX_BUDGET;
use wfc_domains::Domains;
use wfc_problem::Problem;

/// The product of the sizes of all cells, if it is at most `MAX_BUDGET`. Of the domains of a problem without literals it
/// is a budget that no run of the problem spends. It takes no memory.
pub fn volume(problem: &Problem, domains: &Domains) -> Option<u32>
    requires fits { Fits problem.now domains.now }
    ensures exact { SomeIff result (ways problem.now (has domains.now) ≤ MAX_BUDGET)
        (ways problem.now (has domains.now)) }
{
    let limit = u64::from(MAX_BUDGET);
    let mut product: u64 = 1;
    for cell in 0..problem.cells() {
        product = (product * u64::from(domains.size(cell))).min(limit + 1);
    }
    if product <= limit {
        Some(product as u32)
    } else {
        None
    }
}
