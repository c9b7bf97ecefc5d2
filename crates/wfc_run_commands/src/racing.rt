//! The task of `race`.

ghost use Rattle.std.specs.Prelude.{OnOk, ◌≡◌};
ghost use Rattle.wfc_plan.specs.Kinds.{HasChoosers};
ghost use Rattle.wfc_plan.specs.Plan.{Goes};
ghost use Rattle.wfc_run_commands.specs.RaceTask.{race_fits, race_made, race_plan, race_product};
ghost use Rattle.wfc_task.specs.Asked.{IsOutputAsked, IsSourceAsked};

use std::alloc::Global;
use wfc_choose::RuleKind;
use wfc_outside::Folder;
use wfc_plan::{Fault, Refusal, enough};
use wfc_problem::Problem;
use wfc_task::posed_problem;
use wfc_words::Request;

/// The greatest product of the cells, the values and the runners of a race.
pub const MAX_RACE: u64 = 8_388_608;

/// The problem that `race` runs on. The choosers are looked for before anything is read.
pub fn race_task<F: Folder>(
    alloc: Global,
    request: &Request,
    kinds: &[RuleKind],
    folder: &mut F,
) -> Result<Problem, Fault>
    requires source { IsSourceAsked request.now }
    requires output { IsOutputAsked request.now }
    ensures goes { Goes (race_plan kinds.now request.now)
        (F.seen folder.old) (F.seen folder.new) (race_made result) }
    ensures choosers { OnOk result (HasChoosers request.now.seeds kinds.now request.now.rule) }
{
    enough(request.seeds, kinds, request.rule)?;
    let problem = posed_problem(alloc, request, folder)?;
    race_fits(&problem, request.seeds)?;
    Ok(problem)
}

/// Whether a race of so many seeds over this problem isn't too large.
fn race_fits(problem: &Problem, seeds: u32) -> Result<(), Refusal>
    ensures exact { result ≡ race_fits seeds problem.now }
{
    let product = product(problem, seeds);
    if product <= MAX_RACE {
        Ok(())
    } else {
        Err(Refusal::RaceTooLarge { product })
    }
}

/// The cells, the values and the runners of a race, multiplied.
fn product(problem: &Problem, seeds: u32) -> u64
    ensures value { result ≡ race_product seeds problem.now }
{
    problem.cells() as u64 * problem.values() as u64 * seeds as u64
}
