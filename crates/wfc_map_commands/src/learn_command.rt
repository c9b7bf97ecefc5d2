//! The command `learn`: what a sample teaches, or what a tile set allows.

ghost use Rattle.std.specs.Prelude.{IfOk, ◌≡◌};
ghost use Rattle.wfc_map_commands.specs.Held.{rules_text};
ghost use Rattle.wfc_map_commands.specs.LearnCommand.{LearnAnswers};
ghost use Rattle.wfc_map_commands.specs.LearnTask.{learn_plan};
ghost use Rattle.wfc_reply.specs.Ends.{MayReply};
ghost use Rattle.wfc_reply.specs.Reply.{done_with};
ghost use Rattle.wfc_reply.specs.ReplyView.{answer_view, reply_view};
ghost use Rattle.wfc_task.specs.Asked.{IsSourceAsked};

use crate::learning::{Learned, learn_task};
use std::alloc::Global;
use wfc_outside::{Folder, NoMemory};
use wfc_plan::Fault;
use wfc_render::{learned_overlap, learned_tiles};
use wfc_reply::{Answer, CommandVerdict};
use wfc_words::Request;

/// Reads the sample or the tile set, and answers the text of its rules.
pub fn learn<F: Folder>(alloc: Global, request: &Request, folder: &mut F) -> Result<Answer, Fault>
    requires source { IsSourceAsked request.now }
    ensures ends { MayReply (learn_plan request.now) LearnAnswers
        (F.seen folder.old) (F.seen folder.new) (reply_view result) }
{
    let learned = learn_task(alloc, request, folder)?;
    let answer = answer(alloc, &learned)?;
    Ok(answer)
}

/// The text of the rules.
fn answer(alloc: Global, learned: &Learned) -> Result<Answer, NoMemory>
    ensures answers { IfOk result
        (λ answer. answer_view answer ≡ done_with (rules_text learned.now)) }
{
    let text = match learned {
        Learned::Windows(taught) => learned_overlap(alloc, &taught.patterns, &taught.palette)?,
        Learned::Tiles(tiles) => learned_tiles(alloc, tiles)?,
    };
    Ok(Answer {
        verdict: CommandVerdict::Done,
        text: Some(text),
    })
}
