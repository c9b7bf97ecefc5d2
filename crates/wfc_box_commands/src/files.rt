//! The files of a box, and what they hold.

ghost use Rattle.std.specs.Option.{option_map};
ghost use Rattle.std.specs.Prelude.{IfOk, None, length, ◌≡◌};
ghost use Rattle.wfc_box.specs.Boxes.{IsFrame};
ghost use Rattle.wfc_box_commands.specs.BoxFilling.{IsBoxed};
ghost use Rattle.wfc_box_commands.specs.BoxPlans.{box_pins_file_plan, box_pins_plan, box_plan, box_problem_plan, stacked_plan};
ghost use Rattle.wfc_box_commands.specs.BoxSteps.{frame_asked};
ghost use Rattle.wfc_outside.specs.Gives.{result_map};
ghost use Rattle.wfc_plan.specs.Plan.{Goes};
ghost use Rattle.wfc_tileset.specs.Pictures.{picture_name};

use crate::steps::{box_lines, posed_box, stacks_in};
use std::alloc::Global;
use wfc_box::{BoxPin, Stacks};
use wfc_outside::Folder;
use wfc_plan::{Fault, Source, whole_file};
use wfc_problem::Problem;
use wfc_task::{pictures, tile_document};
use wfc_tileset::TileSet;
use wfc_words::Request;

/// The tile set that is asked for, with its pictures, and its stacks. The bytes of the document are kept until its stacks
/// are looked at. By `goes` both are those of one text, that of the file where it is told; how often the file is read it
/// does not say.
pub(crate) fn stacked_set<F: Folder>(
    alloc: Global,
    request: &Request,
    folder: &mut F,
) -> Result<(TileSet, Stacks), Fault>
    ensures goes { Goes (stacked_plan request.now)
        (F.seen folder.old) (F.seen folder.new) result }
    ensures pictured { IfOk result
        (λ made. picture_name made.0 (length made.0.pictures) ≡ None) }
{
    let bytes = whole_file(alloc, folder, Source::Sample, request.file())?;
    let mut tiles = tile_document(alloc, &bytes)?;
    pictures(alloc, folder, &mut tiles)?;
    let stacks = stacks_in(alloc, &tiles, &bytes)?;
    Ok((tiles, stacks))
}

/// The pins and bans of a box's pins file.
fn box_pins_file<F: Folder>(alloc: Global, folder: &mut F, name: &str) -> Result<Vec<BoxPin>, Fault>
    ensures goes { Goes (box_pins_file_plan name.now)
        (F.seen folder.old) (F.seen folder.new) (result_map (λ lines. lines.items) result) }
{
    let bytes = whole_file(alloc, folder, Source::Pins, name)?;
    let lines = box_lines(alloc, &bytes)?;
    Ok(lines)
}

/// The pins and bans of the pins file, if one is named.
fn box_pins<F: Folder>(
    alloc: Global,
    folder: &mut F,
    name: Option<&str>,
) -> Result<Vec<BoxPin>, Fault>
    ensures goes { Goes (box_pins_plan (option_map (λ text. text.now) name.entry))
        (F.seen folder.old) (F.seen folder.new) (result_map (λ lines. lines.items) result) }
{
    match name {
        Some(name) => box_pins_file(alloc, folder, name),
        None => Ok(Vec::new(alloc)),
    }
}

/// The problem of a tile set and its stacks, by the pins file.
pub(crate) fn box_problem<F: Folder>(
    alloc: Global,
    request: &Request,
    tiles: &TileSet,
    stacks: &Stacks,
    folder: &mut F,
) -> Result<Problem, Fault>
    requires frame { IsFrame (frame_asked request.now) }
    ensures goes { Goes (box_problem_plan request.now (tiles.now, stacks.now))
        (F.seen folder.old) (F.seen folder.new) result }
    ensures boxed { IfOk result (IsBoxed request.now tiles.now) }
{
    let lines = box_pins(alloc, folder, request.pins())?;
    let problem = posed_box(alloc, request, tiles, stacks, &lines)?;
    Ok(problem)
}

/// The problem of the box that is asked for.
pub(crate) fn asked_problem<F: Folder>(
    alloc: Global,
    request: &Request,
    folder: &mut F,
) -> Result<Problem, Fault>
    requires frame { IsFrame (frame_asked request.now) }
    ensures goes { Goes (box_plan request.now) (F.seen folder.old) (F.seen folder.new) result }
{
    let (tiles, stacks) = stacked_set(alloc, request, folder)?;
    let problem = box_problem(alloc, request, &tiles, &stacks, folder)?;
    Ok(problem)
}
