//! The run of the lines that are kept.

ghost use Rattle.std.specs.Prelude.{◌≡◌, length, IfOk};
ghost use Rattle.wfc_runs.specs.Words.{words_of_seed};
ghost use Rattle.wfc_explain.specs.Outcomes.{outcome_with};

use crate::PinnedProblem;
use std::alloc::Global;
use std::sync::ledger::Ledger;
use wfc_choose::Chooser;
use wfc_domains::Steps;
use wfc_outside::NoMemory;
use wfc_runs::outcome_counted;
use wfc_search::Outcome;

/// The outcome of the run of the lines that are kept, with the words of a seed.
pub(crate) fn outcome_with<M: PinnedProblem, L: Ledger>(
    alloc: Global,
    pinned: &M,
    keep: &[bool],
    chooser: Box<dyn Chooser>,
    seed: u64,
    budget: u32,
    steps: &mut Steps<L>,
) -> Result<Outcome, NoMemory>
    requires each_line { length keep.now ≡ (M.seen pinned.now).lines }
    ensures exact { IfOk result (λ outcome. outcome ≡ outcome_with
        (M.seen pinned.now) (told chooser).rule budget (words_of_seed seed) keep.now) }
{
    let problem = pinned.problem(alloc, keep)?;
    outcome_counted(alloc, &problem, chooser, budget, seed, steps)
}
