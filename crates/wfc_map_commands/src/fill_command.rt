//! The command `fill`: the map that a run ends in.

ghost use Rattle.wfc_plan.specs.Kinds.{HasChoosers};
ghost use Rattle.std.specs.Prelude.{IfOk, Some, false, map, true, ◌≡◌};
ghost use Rattle.wfc_map_commands.specs.FillAnswer.{fill_by, picture_text, tiles_text};
ghost use Rattle.wfc_map_commands.specs.FillCommand.{fill_command};
ghost use Rattle.wfc_map_commands.specs.Filling.{IsFilling, IsFillingBy, IsTileFilling};
ghost use Rattle.wfc_map_commands.specs.Held.{problem_in, text_of_assignment};
ghost use Rattle.wfc_problem.specs.Assignment.{IsLegalAssignment};
ghost use Rattle.wfc_reply.specs.Choosers.{kinds_of};
ghost use Rattle.wfc_reply.specs.Ends.{EndsBy};
ghost use Rattle.wfc_reply.specs.Reply.{done_with};
ghost use Rattle.wfc_reply.specs.ReplyView.{IsAnsweredAs, answer_view, reply_view};
ghost use Rattle.wfc_task.specs.Asked.{IsOutputAsked, IsSampleAsked, IsSourceAsked};
ghost use Rattle.wfc_task.specs.Sources.{is_of_windows};
ghost use Rattle.wfc_task.specs.Tiling.{mask_or_whole};
ghost use Rattle.wfc_tiled.specs.Maps.{tile_map};

use crate::filling::{Filled, Filling, TileFilling, fill_sample_task, fill_tiles_task};
use std::alloc::Global;
use wfc_choose::Chooser;
use wfc_outside::{Folder, NoMemory};
use wfc_overlap::picture_of;
use wfc_picture::Picture;
use wfc_plan::Fault;
use wfc_problem::Problem;
use wfc_render::{picture_bytes, tile_bytes};
use wfc_reply::{Answer, CommandVerdict, first_chooser, kinds};
use wfc_runs::{RunEnd, run};
use wfc_tiled::{tiles_of, tiles_of_masked};
use wfc_words::{Request, SourceModel};

/// Reads the files, and answers the text of the map in which the run ends.
pub fn fill<F: Folder>(
    alloc: Global,
    request: &Request,
    choosers: Vec<Box<dyn Chooser>>,
    folder: &mut F,
) -> Result<Answer, Fault>
    requires source { IsSourceAsked request.now }
    requires output { IsOutputAsked request.now }
    ensures ends { EndsBy fill_command (map (λ chooser. (told chooser).rule) choosers.items)
        request.now (F.seen folder.old) (F.seen folder.new) (reply_view result) }
{
    match request.source {
        SourceModel::Overlap { .. } => fill_sample(alloc, request, choosers, folder),
        SourceModel::Tiles => fill_tiles(alloc, request, choosers, folder),
    }
}

/// The same for a sample.
pub fn fill_sample<F: Folder>(
    alloc: Global,
    request: &Request,
    choosers: Vec<Box<dyn Chooser>>,
    folder: &mut F,
) -> Result<Answer, Fault>
    requires windows { is_of_windows request.now.source ≡ true }
    requires sample { IsSampleAsked request.now }
    requires output { IsOutputAsked request.now }
    ensures ends { EndsBy fill_command (map (λ chooser. (told chooser).rule) choosers.items)
        request.now (F.seen folder.old) (F.seen folder.new) (reply_view result) }
{
    let kinds = kinds(alloc, &choosers)?;
    let filled = fill_sample_task(alloc, request, &kinds, folder)?;
    let answer = answer(alloc, request, choosers, &filled)?;
    Ok(answer)
}

/// The same for a tile set.
fn fill_tiles<F: Folder>(
    alloc: Global,
    request: &Request,
    choosers: Vec<Box<dyn Chooser>>,
    folder: &mut F,
) -> Result<Answer, Fault>
    requires tiles { is_of_windows request.now.source ≡ false }
    requires output { IsOutputAsked request.now }
    ensures ends { EndsBy fill_command (map (λ chooser. (told chooser).rule) choosers.items)
        request.now (F.seen folder.old) (F.seen folder.new) (reply_view result) }
{
    let kinds = kinds(alloc, &choosers)?;
    let filled = fill_tiles_task(alloc, request, &kinds, folder)?;
    let answer = answer(alloc, request, choosers, &filled)?;
    Ok(answer)
}

/// Makes the run, and answers the text of the map in which it ends, or how else it ends.
fn answer(
    alloc: Global,
    request: &Request,
    choosers: Vec<Box<dyn Chooser>>,
    filled: &Filled,
) -> Result<Answer, NoMemory>
    requires chooser { HasChoosers 1
        (kinds_of (map (λ chooser. (told chooser).rule) choosers.items)) request.now.rule }
    requires output { IsOutputAsked request.now }
    requires filling { IsFillingBy request.now filled.now }
    ensures answers { IfOk result (IsAnsweredAs (fill_by (map (λ c. (told c).rule) choosers.items)
        request.now (text_of_assignment request.now filled.now) (problem_in filled.now))) }
{
    let chooser = first_chooser(alloc, choosers, request.rule)?;
    let problem = problem_in(filled);
    let ran = run(alloc, problem, chooser, request.budget, request.seed)?;
    match ran.end {
        RunEnd::Map { assignment } => map_answer(alloc, request, filled, &assignment),
        RunEnd::NoMap => Ok(Answer {
            verdict: CommandVerdict::NoMap,
            text: None,
        }),
        RunEnd::Spent => Ok(Answer {
            verdict: CommandVerdict::Spent {
                budget: request.budget,
            },
            text: None,
        }),
    }
}

/// The problem that `fill` runs on.
fn problem_in(filled: &Filled) -> &Problem
    ensures value { result.now ≡ problem_in filled.now }
{
    match filled {
        Filled::Windows(filling) => &filling.problem,
        Filled::Tiles(filling) => &filling.problem,
    }
}

/// The answer with the map that an assignment makes.
fn map_answer(
    alloc: Global,
    request: &Request,
    filled: &Filled,
    assignment: &[u16],
) -> Result<Answer, NoMemory>
    requires output { IsOutputAsked request.now }
    requires filling { IsFillingBy request.now filled.now }
    requires legal { IsLegalAssignment (problem_in filled.now) assignment.now }
    ensures text { IfOk result (λ answer. answer_view answer ≡ done_with (text_of_assignment
        request.now filled.now assignment.now)) }
{
    let text = match filled {
        Filled::Windows(filling) => picture_text(alloc, request, filling, assignment)?,
        Filled::Tiles(filling) => tiles_text(alloc, request, filling, assignment)?,
    };
    Ok(Answer {
        verdict: CommandVerdict::Done,
        text: Some(text),
    })
}

/// The text of the picture that an assignment of patterns paints.
fn picture_text(
    alloc: Global,
    request: &Request,
    filling: &Filling,
    assignment: &[u16],
) -> Result<Vec<u8>, NoMemory>
    requires output { IsOutputAsked request.now }
    requires filling { IsFilling request.now filling.now }
    requires legal { IsLegalAssignment filling.now.problem assignment.now }
    ensures text { IfOk result (λ text. text.items ≡ picture_text request.now filling.now.patterns
        filling.now.palette filling.now.layout assignment.now) }
{
    let picture = picture_of(
        alloc,
        &filling.patterns,
        request.width,
        request.height,
        request.wrap_out,
        assignment,
    )?;
    picture_bytes(alloc, &filling.layout, &filling.palette, &picture)
}

/// The text of the map that an assignment of variants makes.
fn tiles_text(
    alloc: Global,
    request: &Request,
    filling: &TileFilling,
    assignment: &[u16],
) -> Result<Vec<u8>, NoMemory>
    requires output { IsOutputAsked request.now }
    requires filling { IsTileFilling request.now filling.now }
    requires legal { IsLegalAssignment filling.now.problem assignment.now }
    ensures text { IfOk result (λ text. text.items ≡ tiles_text filling.now.tiles
        (mask_or_whole request.now filling.now.mask) filling.now.layout assignment.now) }
{
    let _read = (filling.tiles.kind(), filling.problem.cells());
    let map = tiles_in(alloc, request, filling, assignment)?;
    tile_bytes(alloc, &filling.layout, &filling.tiles, &map)
}

/// The map that an assignment of variants makes, with the holes of the mask.
fn tiles_in(
    alloc: Global,
    request: &Request,
    filling: &TileFilling,
    assignment: &[u16],
) -> Result<Picture, NoMemory>
    requires output { IsOutputAsked request.now }
    requires filling { IsTileFilling request.now filling.now }
    requires legal { IsLegalAssignment filling.now.problem assignment.now }
    ensures map { IfOk result
        (λ map. map ≡ tile_map (mask_or_whole request.now filling.now.mask) assignment.now) }
{
    match &filling.mask {
        Some(mask) => tiles_of_masked(alloc, mask, assignment),
        None => tiles_of(alloc, request.width, request.height, assignment),
    }
}
