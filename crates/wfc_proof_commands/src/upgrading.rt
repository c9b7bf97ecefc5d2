//! The task of `upgrade`.

ghost use Rattle.std.specs.Prelude.{IfOk, length, ◌≤◌};
ghost use Rattle.wfc_outside.specs.Gives.{result_map};
ghost use Rattle.wfc_plan.specs.Plan.{Goes};
ghost use Rattle.wfc_proof_commands.specs.UpgradeTask.{refutation_file_plan, upgrade_made, upgrade_plan};
ghost use Rattle.wfc_task.specs.Asked.{IsOutputAsked, IsSourceAsked};

use crate::checking::refutation_name;
use std::alloc::Global;
use wfc_outside::{Folder, MAX_FILE_BYTES};
use wfc_plan::{Fault, Source, whole_file};
use wfc_problem::Problem;
use wfc_task::posed_problem;
use wfc_words::Request;

/// What `upgrade` works on.
#[derive(Drop)]
pub struct Upgrading {
    pub problem: Problem,
    /// The text of the refutation.
    pub refutation: Vec<u8>,
}

/// What `upgrade` works on: the problem, and the whole of the refutation.
pub fn upgrade_task<F: Folder>(
    alloc: Global,
    request: &Request,
    folder: &mut F,
) -> Result<Upgrading, Fault>
    requires source { IsSourceAsked request.now }
    requires output { IsOutputAsked request.now }
    ensures goes { Goes (upgrade_plan request.now)
        (F.seen folder.old) (F.seen folder.new) (upgrade_made result) }
    ensures short { IfOk result (λ made. length made.refutation.items ≤ MAX_FILE_BYTES) }
{
    let problem = posed_problem(alloc, request, folder)?;
    let refutation = refutation_file(alloc, request, folder)?;
    Ok(Upgrading {
        problem,
        refutation,
    })
}

/// The whole of the file of the refutation.
fn refutation_file<F: Folder>(
    alloc: Global,
    request: &Request,
    folder: &mut F,
) -> Result<Vec<u8>, Fault>
    ensures goes { Goes (refutation_file_plan request.now)
        (F.seen folder.old) (F.seen folder.new) (result_map (λ bytes. bytes.items) result) }
    ensures short { IfOk result (λ bytes. length bytes.items ≤ MAX_FILE_BYTES) }
{
    let name = refutation_name(request);
    whole_file(alloc, folder, Source::Refutation, name)
}
