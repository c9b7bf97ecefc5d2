//! The task of `refute`.

ghost use Rattle.wfc_plan.specs.Kinds.{HasChoosers};
ghost use Rattle.std.specs.Prelude.{OnOk};
ghost use Rattle.wfc_plan.specs.Plan.{Goes};
ghost use Rattle.wfc_proof_commands.specs.Checking.{flat_proofs};
ghost use Rattle.wfc_proof_commands.specs.RefuteTask.{refute_made, refute_plan};
ghost use Rattle.wfc_task.specs.Asked.{IsOutputAsked, IsSourceAsked};

use std::alloc::Global;
use wfc_choose::RuleKind;
use wfc_outside::Folder;
use wfc_plan::{Fault, enough};
use wfc_problem::Problem;
use wfc_task::posed_problem;
use wfc_words::Request;

/// The problem that `refute` runs on. The chooser is looked for before anything is read.
pub fn refute_task<F: Folder>(
    alloc: Global,
    request: &Request,
    kinds: &[RuleKind],
    folder: &mut F,
) -> Result<Problem, Fault>
    requires source { IsSourceAsked request.now }
    requires output { IsOutputAsked request.now }
    ensures goes { Goes (refute_plan flat_proofs kinds.now request.now)
        (F.seen folder.old) (F.seen folder.new) (refute_made result) }
    ensures chooser { OnOk result (HasChoosers 1 kinds.now request.now.rule) }
{
    enough(1, kinds, request.rule)?;
    let problem = posed_problem(alloc, request, folder)?;
    Ok(problem)
}
