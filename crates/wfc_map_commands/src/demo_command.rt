//! The command `demo`: a run on a sample of its own, told in four numbers.

ghost use Rattle.wfc_plan.specs.Kinds.{HasChoosers};
ghost use Rattle.std.specs.Prelude.{IfOk, OnOk, Some, map, ◌++◌, ◌≡◌};
ghost use Rattle.wfc_choose.specs.declared.RuleKind.TheVariants.{Fewest};
ghost use Rattle.wfc_map_commands.specs.DemoAnswer.{count_line, demo_answer, demo_end, demo_text, demo_verdict};
ghost use Rattle.wfc_map_commands.specs.DemoCommand.{demo_command};
ghost use Rattle.wfc_reply.specs.Choosers.{kinds_of};
ghost use Rattle.wfc_reply.specs.Ends.{EndsBy};
ghost use Rattle.wfc_reply.specs.ReplyView.{IsAnsweredAs, reply_view};

use crate::demonstration::{Demonstration, demo_task};
use std::alloc::Global;
use wfc_choose::{Chooser, RuleKind};
use wfc_outside::{Folder, NoMemory};
use wfc_plan::Fault;
use wfc_reply::{Answer, CommandVerdict, first_chooser, kinds};
use wfc_runs::{RunEnd, run};
use wfc_text::push_number;
use wfc_words::Request;

/// How many retractions a demonstration may make.
const DEMO_BUDGET: u32 = 1000;

/// Makes the run of a demonstration, and answers its four lines.
pub fn demo<F: Folder>(
    alloc: Global,
    request: &Request,
    choosers: Vec<Box<dyn Chooser>>,
    folder: &mut F,
) -> Result<Answer, Fault>
    ensures ends { EndsBy demo_command (map (λ chooser. (told chooser).rule) choosers.items)
        request.now (F.seen folder.old) (F.seen folder.new) (reply_view result) }
{
    let kinds = kinds(alloc, &choosers)?;
    let task = demo_task(alloc, request, &kinds, folder)?;
    let answer = answer(alloc, request, choosers, &task)?;
    Ok(answer)
}

/// Makes the run, and answers how many patterns, cells and retractions there were, and how it ended.
fn answer(
    alloc: Global,
    request: &Request,
    choosers: Vec<Box<dyn Chooser>>,
    task: &Demonstration,
) -> Result<Answer, NoMemory>
    requires chooser { HasChoosers 1
        (kinds_of (map (λ chooser. (told chooser).rule) choosers.items)) Fewest }
    ensures answers { IfOk result (IsAnsweredAs (demo_answer task.now.patterns task.now.problem
        (demo_end (map (λ c. (told c).rule) choosers.items) task.now.problem request.now.number))) }
{
    let chooser = first_chooser(alloc, choosers, RuleKind::Fewest)?;
    let ran = run(
        alloc,
        &task.problem,
        chooser,
        DEMO_BUDGET,
        u64::from(request.number),
    )?;
    let verdict = verdict(&ran.end);
    let text = lines(
        alloc,
        u32::from(task.patterns.count()),
        task.problem.cells(),
        ran.retractions,
        verdict.status(),
    )?;
    Ok(Answer {
        verdict,
        text: Some(text),
    })
}

/// How a demonstration ends whose run ends so.
fn verdict(end: &RunEnd) -> CommandVerdict
    ensures value { result ≡ demo_verdict end.now }
{
    match end {
        RunEnd::Map { .. } => CommandVerdict::Done,
        RunEnd::NoMap => CommandVerdict::NoMap,
        RunEnd::Spent => CommandVerdict::Spent {
            budget: DEMO_BUDGET,
        },
    }
}

/// The four lines.
fn lines(
    alloc: Global,
    patterns: u32,
    cells: u32,
    retractions: u32,
    status: u8,
) -> Result<Vec<u8>, NoMemory>
    ensures text { IfOk result (λ text. text.items ≡ demo_text patterns cells retractions status) }
{
    let mut text = Vec::new(alloc);
    push_line(&mut text, b"patterns", patterns)?;
    push_line(&mut text, b"cells", cells)?;
    push_line(&mut text, b"retractions", retractions)?;
    push_line(&mut text, b"status", u32::from(status))?;
    Ok(text)
}

/// Writes a line behind a text: a name and a number.
fn push_line(text: &mut Vec<u8>, name: &[u8], number: u32) -> Result<(), NoMemory>
    ensures line { OnOk result (text.new.items ≡ text.old.items ++ count_line name.now number) }
{
    text.extend_from_slice(name)?;
    text.push(b' ')?;
    push_number(text, u64::from(number))?;
    text.push(b'\n')?;
    Ok(())
}
