//! What `grow` works on.

ghost use Rattle.std.specs.Prelude.{IfOk, OnOk};
ghost use Rattle.wfc_grow_command.specs.GrowTask.{read_plan, growing_view};
ghost use Rattle.wfc_grow_command.specs.Growing.{IsGrowing};
ghost use Rattle.wfc_outside.specs.Gives.{result_map};
ghost use Rattle.wfc_plan.specs.Kinds.{HasChoosers};
ghost use Rattle.wfc_plan.specs.Plan.{Goes};
ghost use Rattle.wfc_task.specs.Asked.{IsOutputAsked, IsSampleAsked};

use std::alloc::Global;
use wfc_choose::RuleKind;
use wfc_outside::Folder;
use wfc_pins::PinLine;
use wfc_plan::{Fault, enough};
use wfc_render::Layout;
use wfc_task::{Taught, pins, sample, sample_layout};
use wfc_words::Request;

/// How many choosers it needs: one for each block that a map may have, and one more for the lines of a stuck one.
pub const GROW_CHOOSERS: u32 = 65;

/// What the sample teaches, how the map is written, and the lines of the pins file.
#[derive(Drop)]
pub struct Growing {
    pub taught: Taught,
    pub layout: Layout,
    pub lines: Vec<PinLine>,
}

/// What `grow` works on. The choosers are looked for before anything is read, and the layout is looked at before the pins
/// file is.
pub fn growing_task<F: Folder>(
    alloc: Global,
    request: &Request,
    kinds: &[RuleKind],
    folder: &mut F,
) -> Result<Growing, Fault>
    requires sample { IsSampleAsked request.now }
    requires output { IsOutputAsked request.now }
    ensures goes { Goes (read_plan kinds.now request.now)
        (F.seen folder.old) (F.seen folder.new) (result_map growing_view result) }
    ensures choosers { OnOk result (HasChoosers GROW_CHOOSERS kinds.now request.now.rule) }
    ensures growing { IfOk result (IsGrowing request.now) }
{
    enough(GROW_CHOOSERS, kinds, request.rule)?;
    let taught = sample(alloc, request, folder)?;
    let layout = sample_layout(taught.kind, request)?;
    let lines = pins(alloc, folder, request.pins())?;
    Ok(Growing {
        taught,
        layout,
        lines,
    })
}
