//! The task of `box-fill`.

ghost use Rattle.std.specs.Prelude.{IfOk, OnOk};
ghost use Rattle.wfc_box.specs.Boxes.{IsFrame};
ghost use Rattle.wfc_box_commands.specs.BoxFillTask.{box_fill_made, box_fill_plan, box_filling_plan};
ghost use Rattle.wfc_box_commands.specs.BoxFilling.{IsBoxFilling};
ghost use Rattle.wfc_box_commands.specs.BoxSteps.{frame_asked};
ghost use Rattle.wfc_plan.specs.Kinds.{HasChoosers};
ghost use Rattle.wfc_plan.specs.Plan.{Goes};

use crate::files::{box_problem, stacked_set};
use crate::steps::box_form;
use std::alloc::Global;
use wfc_choose::RuleKind;
use wfc_outside::Folder;
use wfc_plan::{Fault, enough};
use wfc_problem::Problem;
use wfc_render::Form;
use wfc_tileset::TileSet;
use wfc_words::Request;

/// What `box-fill` works on.
#[derive(Drop)]
pub struct BoxFilling {
    pub tiles: TileSet,
    pub form: Form,
    pub problem: Problem,
}

/// What `box-fill` runs on. The chooser is looked for before anything is read, and the layout is looked at before the
/// pins file is.
pub fn box_fill_task<F: Folder>(
    alloc: Global,
    request: &Request,
    kinds: &[RuleKind],
    folder: &mut F,
) -> Result<BoxFilling, Fault>
    requires frame { IsFrame (frame_asked request.now) }
    ensures goes { Goes (box_fill_plan kinds.now request.now)
        (F.seen folder.old) (F.seen folder.new) (box_fill_made result) }
    ensures chooser { OnOk result (HasChoosers 1 kinds.now request.now.rule) }
    ensures filling { IfOk result (IsBoxFilling request.now) }
{
    enough(1, kinds, request.rule)?;
    let filling = box_filling(alloc, request, folder)?;
    Ok(filling)
}

/// The same behind its chooser.
fn box_filling<F: Folder>(
    alloc: Global,
    request: &Request,
    folder: &mut F,
) -> Result<BoxFilling, Fault>
    requires frame { IsFrame (frame_asked request.now) }
    ensures goes { Goes (box_filling_plan request.now)
        (F.seen folder.old) (F.seen folder.new) (box_fill_made result) }
    ensures filling { IfOk result (IsBoxFilling request.now) }
{
    let (tiles, stacks) = stacked_set(alloc, request, folder)?;
    let form = box_form(&tiles, request)?;
    let problem = box_problem(alloc, request, &tiles, &stacks, folder)?;
    Ok(BoxFilling {
        tiles,
        form,
        problem,
    })
}
