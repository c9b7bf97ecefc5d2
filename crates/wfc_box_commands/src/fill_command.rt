//! The command `box-fill`: the box that a run ends in.

ghost use Rattle.std.specs.Prelude.{IfOk, map, ◌≡◌};
ghost use Rattle.wfc_box.specs.Boxes.{IsFrame};
ghost use Rattle.wfc_box_commands.specs.BoxFillAnswer.{box_filling_answer, layers_text};
ghost use Rattle.wfc_box_commands.specs.BoxFillCommand.{box_fill_command};
ghost use Rattle.wfc_box_commands.specs.BoxFilling.{IsBoxFilling};
ghost use Rattle.wfc_box_commands.specs.BoxSteps.{frame_asked};
ghost use Rattle.wfc_plan.specs.Kinds.{HasChoosers};
ghost use Rattle.wfc_problem.specs.Assignment.{IsLegalAssignment};
ghost use Rattle.wfc_reply.specs.Choosers.{kinds_of};
ghost use Rattle.wfc_reply.specs.Ends.{EndsBy};
ghost use Rattle.wfc_reply.specs.Reply.{done_with};
ghost use Rattle.wfc_reply.specs.ReplyView.{IsAnsweredAs, answer_view, reply_view};

use crate::filling::{BoxFilling, box_fill_task};
use std::alloc::Global;
use wfc_box::box_bytes;
use wfc_choose::Chooser;
use wfc_outside::{Folder, NoMemory};
use wfc_plan::Fault;
use wfc_reply::{Answer, CommandVerdict, first_chooser, kinds};
use wfc_runs::{RunEnd, run};
use wfc_words::Request;

/// Reads the files, and answers the text of the box in which the run ends.
pub fn box_fill<F: Folder>(
    alloc: Global,
    request: &Request,
    choosers: Vec<Box<dyn Chooser>>,
    folder: &mut F,
) -> Result<Answer, Fault>
    requires frame { IsFrame (frame_asked request.now) }
    ensures ends { EndsBy box_fill_command (map (λ chooser. (told chooser).rule) choosers.items)
        request.now (F.seen folder.old) (F.seen folder.new) (reply_view result) }
{
    let kinds = kinds(alloc, &choosers)?;
    let filling = box_fill_task(alloc, request, &kinds, folder)?;
    let answer = answer(alloc, request, choosers, &filling)?;
    Ok(answer)
}

/// Makes the run, and answers the text of the box in which it ends, or how else it ends.
fn answer(
    alloc: Global,
    request: &Request,
    choosers: Vec<Box<dyn Chooser>>,
    filling: &BoxFilling,
) -> Result<Answer, NoMemory>
    requires chooser { HasChoosers 1
        (kinds_of (map (λ chooser. (told chooser).rule) choosers.items)) request.now.rule }
    requires frame { IsFrame (frame_asked request.now) }
    requires filling { IsBoxFilling request.now filling.now }
    ensures answers { IfOk result (IsAnsweredAs
        (box_filling_answer (map (λ c. (told c).rule) choosers.items) request.now filling.now)) }
{
    let chooser = first_chooser(alloc, choosers, request.rule)?;
    let ran = run(
        alloc,
        &filling.problem,
        chooser,
        request.budget,
        request.seed,
    )?;
    match ran.end {
        RunEnd::Map { assignment } => box_answer(alloc, request, filling, &assignment),
        RunEnd::NoMap => Ok(Answer {
            verdict: CommandVerdict::NoMap,
            text: None,
        }),
        RunEnd::Spent => Ok(Answer {
            verdict: CommandVerdict::Spent {
                budget: request.budget,
            },
            text: None,
        }),
    }
}

/// The answer with the box that an assignment makes.
fn box_answer(
    alloc: Global,
    request: &Request,
    filling: &BoxFilling,
    assignment: &[u16],
) -> Result<Answer, NoMemory>
    requires frame { IsFrame (frame_asked request.now) }
    requires filling { IsBoxFilling request.now filling.now }
    requires legal { IsLegalAssignment filling.now.problem assignment.now }
    ensures text { IfOk result (λ answer. answer_view answer
        ≡ done_with (layers_text request.now filling.now.tiles filling.now.form assignment.now)) }
{
    let text = layers(alloc, request, filling, assignment)?;
    Ok(Answer {
        verdict: CommandVerdict::Done,
        text: Some(text),
    })
}

/// The text of the box that an assignment makes.
fn layers(
    alloc: Global,
    request: &Request,
    filling: &BoxFilling,
    assignment: &[u16],
) -> Result<Vec<u8>, NoMemory>
    requires frame { IsFrame (frame_asked request.now) }
    requires filling { IsBoxFilling request.now filling.now }
    requires legal { IsLegalAssignment filling.now.problem assignment.now }
    ensures text { IfOk result (λ text. text.items
        ≡ layers_text request.now filling.now.tiles filling.now.form assignment.now) }
{
    let _read = (filling.tiles.kind(), filling.problem.cells());
    box_bytes(
        alloc,
        &filling.tiles,
        filling.form,
        request.width,
        request.height,
        request.depth,
        assignment,
    )
}
