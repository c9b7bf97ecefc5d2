//! The command `explain`: which lines of the pins file are to blame.

ghost use Rattle.std.specs.Prelude.{IfOk, Some, length, map, ◌+◌, ◌<◌, ◌≡◌, ◌≤◌};
ghost use Rattle.wfc_choose.specs.Pick.{Rule};
ghost use Rattle.wfc_explain.specs.Blame.{IsTrueExplained};
ghost use Rattle.wfc_plan.specs.Kinds.{HasChoosers};
ghost use Rattle.wfc_reply.specs.Choosers.{kinds_of};
ghost use Rattle.wfc_reply.specs.Ends.{EndsBy};
ghost use Rattle.wfc_reply.specs.ReplyView.{IsAnsweredAs, answer_view, reply_view};
ghost use Rattle.wfc_run_commands.specs.ExplainAnswer.{AreLines, answer_to, explained_by, explanation_asked};
ghost use Rattle.wfc_run_commands.specs.ExplainCommand.{ExplainsBy, explain_command};
ghost use Rattle.wfc_run_commands.specs.ExplainGiven.{IsExplainAsked};
ghost use Rattle.wfc_run_commands.specs.ExplainTask.{explain_plan_by, explain_sample_plan, explain_tiles_plan, line_numbers};
ghost use Rattle.wfc_runs.specs.Alike.{HaveRule, PickAlike};
ghost use Rattle.wfc_task.specs.Asked.{AskedBy, IsOutputAsked, IsSampleAsked, IsSourceAsked};

use crate::cores::core_text;
use crate::explaining::{EXPLAIN_CHOOSERS, lines, sample_pins, tile_pins};
use std::alloc::Global;
use std::marker::Brand;
use std::sync::ledger::{Blank, Ledger};
use wfc_choose::Chooser;
use wfc_domains::Steps;
use wfc_explain::{Explained, PinnedProblem, explain as explanation};
use wfc_outside::{Folder, NoMemory};
use wfc_pins::PinLine;
use wfc_plan::{Fault, enough};
use wfc_reply::{Answer, CommandVerdict, first_many, kinds};
use wfc_task::{mask, sample, tile_set};
use wfc_words::{Request, SourceModel};

/// Reads the files, leaves out the lines of the pins file in turn, and answers those that stay.
pub fn explain<F: Folder>(
    alloc: Global,
    request: &Request,
    choosers: Vec<Box<dyn Chooser>>,
    folder: &mut F,
) -> Result<Answer, Fault>
    requires source { IsSourceAsked request.now }
    requires output { IsOutputAsked request.now }
    requires asked { IsExplainAsked request.now }
    ensures ends { EndsBy explain_command (map (λ chooser. (told chooser).rule) choosers.items)
        request.now (F.seen folder.old) (F.seen folder.new) (reply_view result) }
{
    let kinds = kinds(alloc, &choosers)?;
    enough(EXPLAIN_CHOOSERS, &kinds, request.rule)?;
    explain_by(alloc, request.source, request, choosers, folder)
}

/// The same for a map that is made of this, where there are enough choosers.
fn explain_by<F: Folder>(
    alloc: Global,
    source: SourceModel,
    request: &Request,
    choosers: Vec<Box<dyn Chooser>>,
    folder: &mut F,
) -> Result<Answer, Fault>
    requires source { AskedBy source request.now }
    requires output { IsOutputAsked request.now }
    requires asked { IsExplainAsked request.now }
    requires choosers { HasChoosers EXPLAIN_CHOOSERS
        (kinds_of (map (λ chooser. (told chooser).rule) choosers.items)) request.now.rule }
    ensures ends { ExplainsBy (explain_plan_by source) (map (λ c. (told c).rule) choosers.items)
        request.now (F.seen folder.old) (F.seen folder.new) (reply_view result) }
{
    match source {
        SourceModel::Overlap { .. } => explain_sample(alloc, request, choosers, folder),
        SourceModel::Tiles => explain_tiles(alloc, request, choosers, folder),
    }
}

/// The same for a map of a sample's windows.
fn explain_sample<F: Folder>(
    alloc: Global,
    request: &Request,
    choosers: Vec<Box<dyn Chooser>>,
    folder: &mut F,
) -> Result<Answer, Fault>
    requires sample { IsSampleAsked request.now }
    requires output { IsOutputAsked request.now }
    requires asked { IsExplainAsked request.now }
    requires choosers { HasChoosers EXPLAIN_CHOOSERS
        (kinds_of (map (λ chooser. (told chooser).rule) choosers.items)) request.now.rule }
    ensures ends { ExplainsBy explain_sample_plan (map (λ c. (told c).rule) choosers.items)
        request.now (F.seen folder.old) (F.seen folder.new) (reply_view result) }
{
    let taught = sample(alloc, request, folder)?;
    let lines = lines(alloc, request, folder)?;
    let pins = sample_pins(alloc, request, &taught, &lines)?;
    let answer = answer(alloc, request, choosers, &pins, &lines)?;
    Ok(answer)
}

/// The same for a map of tiles.
fn explain_tiles<F: Folder>(
    alloc: Global,
    request: &Request,
    choosers: Vec<Box<dyn Chooser>>,
    folder: &mut F,
) -> Result<Answer, Fault>
    requires output { IsOutputAsked request.now }
    requires asked { IsExplainAsked request.now }
    requires choosers { HasChoosers EXPLAIN_CHOOSERS
        (kinds_of (map (λ chooser. (told chooser).rule) choosers.items)) request.now.rule }
    ensures ends { ExplainsBy explain_tiles_plan (map (λ c. (told c).rule) choosers.items)
        request.now (F.seen folder.old) (F.seen folder.new) (reply_view result) }
{
    let tiles = tile_set(alloc, request, folder)?;
    let lines = lines(alloc, request, folder)?;
    let mask = mask(alloc, request, folder)?;
    let pins = tile_pins(alloc, request, &tiles, &mask, &lines)?;
    let answer = answer(alloc, request, choosers, &pins, &lines)?;
    Ok(answer)
}

/// The answer over a problem whose lines can be left out; these are the lines in their file.
fn answer<M: PinnedProblem>(
    alloc: Global,
    request: &Request,
    choosers: Vec<Box<dyn Chooser>>,
    pinned: &M,
    lines: &[PinLine],
) -> Result<Answer, NoMemory>
    requires asked { IsExplainAsked request.now }
    requires choosers { HasChoosers EXPLAIN_CHOOSERS
        (kinds_of (map (λ chooser. (told chooser).rule) choosers.items)) request.now.rule }
    requires few { length lines.now + 1 ≤ EXPLAIN_CHOOSERS }
    requires each_line { (M.seen pinned.now).lines ≡ length lines.now }
    ensures answers { IfOk result (IsAnsweredAs (explained_by (map (λ c. (told c).rule)
        choosers.items) request.now (line_numbers lines.now) (M.seen pinned.now))) }
{
    let many = pinned.lines() + 1;
    let taken = first_many(alloc, choosers, request.rule, many)?;
    let said = run_explanation::<M, Brand>(alloc, request, pinned, taken, Blank::new(1))?;
    told_in(alloc, request, lines, &said)
}

/// Leaves the lines out in turn, with these choosers; the steps are counted in a ledger of its own.
fn run_explanation<M: PinnedProblem, L: Ledger>(
    alloc: Global,
    request: &Request,
    pinned: &M,
    choosers: Vec<Box<dyn Chooser>>,
    blank: Blank,
) -> Result<Explained, NoMemory>
    requires name { blank.name ≡ L.name }
    requires parts { blank.parts ≡ L.parts }
    requires some_part { 0 < blank.parts }
    requires choosers { length choosers.items ≡ (M.seen pinned.now).lines + 1 }
    requires alike { PickAlike (map (λ chooser. (told chooser).rule) choosers.items) }
    ensures exact { (rule : Rule) → HaveRule (map (λ c. (told c).rule) choosers.items) rule →
        IfOk result (λ said. said ≡ explanation_asked rule request.now (M.seen pinned.now)) }
    ensures blamed { IfOk result (IsTrueExplained (M.seen pinned.now)) }
{
    let mut steps = Steps::<L>::new(blank);
    explanation(
        alloc,
        pinned,
        choosers,
        request.seed,
        request.budget,
        &mut steps,
    )
}

/// The answer to an explanation.
fn told_in(
    alloc: Global,
    request: &Request,
    lines: &[PinLine],
    said: &Explained,
) -> Result<Answer, NoMemory>
    requires inside { AreLines (length lines.now) said.now }
    ensures answers { IfOk result (λ answer.
        answer_view answer ≡ answer_to request.now (line_numbers lines.now) said.now) }
{
    match said {
        Explained::Core(core) => Ok(Answer {
            verdict: CommandVerdict::Done,
            text: Some(core_text(alloc, lines, core.list())?),
        }),
        Explained::MapExists => Ok(Answer {
            verdict: CommandVerdict::MapExists,
            text: None,
        }),
        Explained::Spent => Ok(Answer {
            verdict: CommandVerdict::Spent {
                budget: request.budget,
            },
            text: None,
        }),
    }
}
