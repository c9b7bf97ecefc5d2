//! The command `check`: whether a file is a refutation.

ghost use Rattle.std.specs.Prelude.{IfOk, ◌≡◌};
ghost use Rattle.wfc_proof_commands.specs.Checking.{flat_proofs};
ghost use Rattle.wfc_proof_commands.specs.CheckAnswer.{check_answer};
ghost use Rattle.wfc_proof_commands.specs.CheckCommand.{CheckAnswers};
ghost use Rattle.wfc_proof_commands.specs.CheckTask.{check_plan};
ghost use Rattle.wfc_reply.specs.Ends.{MayReply};
ghost use Rattle.wfc_reply.specs.ReplyView.{answer_view, reply_view};
ghost use Rattle.wfc_task.specs.Asked.{IsOutputAsked, IsSourceAsked};

use crate::checking::check_task;
use std::alloc::Global;
use wfc_check::CheckFault;
use wfc_outside::{Folder, NoMemory};
use wfc_plan::Fault;
use wfc_reply::{Answer, CommandVerdict};
use wfc_words::Request;

/// Reads the refutation against the problem that is asked for.
pub fn check<F: Folder>(alloc: Global, request: &Request, folder: &mut F) -> Result<Answer, Fault>
    requires source { IsSourceAsked request.now }
    requires output { IsOutputAsked request.now }
    ensures ends { MayReply (check_plan flat_proofs request.now) CheckAnswers
        (F.seen folder.old) (F.seen folder.new) (reply_view result) }
{
    let found = check_task(alloc, request, folder)?;
    let answer = check_answer(alloc, found)?;
    Ok(answer)
}

/// The answer, where this is the first fault of the text, or there is none.
pub fn check_answer(alloc: Global, found: Option<CheckFault>) -> Result<Answer, NoMemory>
    ensures answers { IfOk result (λ answer. answer_view answer ≡ check_answer found) }
{
    match found {
        None => Ok(Answer {
            verdict: CommandVerdict::Done,
            text: Some(Vec::from_slice(alloc, b"accepted\n")?),
        }),
        Some(fault) => Ok(Answer {
            verdict: CommandVerdict::Unaccepted { fault },
            text: None,
        }),
    }
}
