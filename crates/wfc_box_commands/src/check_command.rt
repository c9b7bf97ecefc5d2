//! The command `box-check`: whether a file is a refutation of a box.

ghost use Rattle.wfc_box.specs.Boxes.{IsFrame};
ghost use Rattle.wfc_box_commands.specs.BoxProofs.{box_proofs};
ghost use Rattle.wfc_box_commands.specs.BoxSteps.{frame_asked};
ghost use Rattle.wfc_plan.specs.Plan.{Goes};
ghost use Rattle.wfc_proof_commands.specs.CheckCommand.{CheckAnswers};
ghost use Rattle.wfc_proof_commands.specs.CheckTask.{check_made, check_plan};
ghost use Rattle.wfc_reply.specs.Ends.{MayReply};
ghost use Rattle.wfc_reply.specs.ReplyView.{reply_view};

use crate::files::asked_problem;
use crate::steps::box_shape;
use std::alloc::Global;
use wfc_check::CheckFault;
use wfc_outside::Folder;
use wfc_plan::Fault;
use wfc_proof_commands::{check_answer, refutation};
use wfc_reply::Answer;
use wfc_words::Request;

/// Reads the refutation against the problem of the box that is asked for.
pub fn box_check<F: Folder>(
    alloc: Global,
    request: &Request,
    folder: &mut F,
) -> Result<Answer, Fault>
    requires frame { IsFrame (frame_asked request.now) }
    ensures ends { MayReply (check_plan box_proofs request.now) CheckAnswers
        (F.seen folder.old) (F.seen folder.new) (reply_view result) }
{
    let found = box_check_task(alloc, request, folder)?;
    let answer = check_answer(alloc, found)?;
    Ok(answer)
}

/// What `box-check` comes to: the first fault of the refutation's text, if it has one.
fn box_check_task<F: Folder>(
    alloc: Global,
    request: &Request,
    folder: &mut F,
) -> Result<Option<CheckFault>, Fault>
    requires frame { IsFrame (frame_asked request.now) }
    ensures goes { Goes (check_plan box_proofs request.now)
        (F.seen folder.old) (F.seen folder.new) (check_made result) }
{
    let problem = asked_problem(alloc, request, folder)?;
    let shape = box_shape(request);
    let found = refutation(alloc, request, &shape, &problem, folder)?;
    Ok(found)
}
