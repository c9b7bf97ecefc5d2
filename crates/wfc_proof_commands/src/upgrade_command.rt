//! The command `upgrade`: the proof of a refutation, written in format 2.

ghost use Rattle.std.specs.Prelude.{IfOk, None, Ok, Some, length, ◌≡◌, ◌≤◌};
ghost use Rattle.wfc_check.specs.Text.{IsRefutation, checked};
ghost use Rattle.wfc_proof.specs.ProofText.{IsProofText};
ghost use Rattle.wfc_proof.specs.Upgrade.{upgraded_text};
ghost use Rattle.wfc_proof_commands.specs.UpgradeCommand.{UpgradeAnswers};
ghost use Rattle.wfc_proof_commands.specs.UpgradeTask.{upgrade_plan};
ghost use Rattle.wfc_proof_commands.specs.Upgrading.{Answering, Upgrades, fault_in};
ghost use Rattle.wfc_reply.specs.Ending.{EndsPut};
ghost use Rattle.wfc_reply.specs.Reply.{done_with};
ghost use Rattle.wfc_task.specs.Asked.{IsOutputAsked, IsSourceAsked};
ghost use Rattle.wfc_task.specs.Sources.{window_side_of};

use crate::checking::shape;
use crate::upgrading::{Upgrading, upgrade_task};
use std::alloc::Global;
use wfc_check::{CheckFault, check_bytes};
use wfc_outside::{Folder, MAX_FILE_BYTES, NoMemory, Sink};
use wfc_problem::Problem;
use wfc_proof::{Shape, upgrade as put_upgraded};
use wfc_reply::{CommandVerdict, Stop};
use wfc_words::Request;

/// Reads the files, and puts the proof of the refutation.
pub fn upgrade<F: Folder, O: Sink>(
    alloc: Global,
    request: &Request,
    folder: &mut F,
    out: &mut O,
) -> Result<CommandVerdict, Stop>
    requires source { IsSourceAsked request.now }
    requires output { IsOutputAsked request.now }
    ensures ends { EndsPut (upgrade_plan request.now) (UpgradeAnswers request.now)
        (F.seen folder.old) (F.seen folder.new) (O.seen out.old) (O.seen out.new) result }
{
    let upgrading = upgrade_task(alloc, request, folder)?;
    answer(alloc, request, &upgrading, out)
}

/// Puts the proof of the text, if it is a refutation.
fn answer<O: Sink>(
    alloc: Global,
    request: &Request,
    upgrading: &Upgrading,
    out: &mut O,
) -> Result<CommandVerdict, Stop>
    requires side { window_side_of request.now.source ≤ 6 }
    requires short { length upgrading.now.refutation.items ≤ MAX_FILE_BYTES }
    ensures upgrades { Upgrades request.now upgrading.now.problem upgrading.now.refutation.items
        (O.seen out.old) (O.seen out.new) result }
{
    let shape = shape(request);
    match refutation_fault(alloc, &upgrading.problem, shape, &upgrading.refutation)? {
        None => put_proof(&upgrading.refutation, &upgrading.problem, shape, out),
        Some(fault) => Ok(CommandVerdict::Unaccepted { fault }),
    }
}

/// The first fault of a text as a refutation, if it has one.
fn refutation_fault(
    alloc: Global,
    problem: &Problem,
    shape: Shape,
    bytes: &[u8],
) -> Result<Option<CheckFault>, NoMemory>
    requires short { length bytes.now ≤ MAX_FILE_BYTES }
    ensures found { IfOk result (λ found. found ≡ fault_in (checked problem.now shape bytes.now)) }
    ensures refutation { result ≡ Ok None → IsRefutation problem.now shape bytes.now }
{
    match check_bytes(alloc, problem, &shape, bytes) {
        Ok(()) => Ok(None),
        Err(CheckFault::NoMemory) => Err(NoMemory),
        Err(fault) => Ok(Some(fault)),
    }
}

/// Puts the whole text of the proof in format 2.
fn put_proof<O: Sink>(
    bytes: &[u8],
    problem: &Problem,
    shape: Shape,
    out: &mut O,
) -> Result<CommandVerdict, Stop>
    requires proof { IsProofText problem.now shape bytes.now }
    requires limit { shape.n ≤ 6 }
    ensures put { Answering (done_with (upgraded_text problem.now shape bytes.now))
        (O.seen out.old) (O.seen out.new) result }
{
    put_upgraded(bytes, problem, &shape, out)?;
    out.finish()?;
    Ok(CommandVerdict::Done)
}
