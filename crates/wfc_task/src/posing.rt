//! The problem of a request, whatever its map is made of.

ghost use Rattle.wfc_plan.specs.Plan.{Goes};
ghost use Rattle.wfc_task.specs.Asked.{AskedBy, IsOutputAsked, IsSampleAsked, IsSourceAsked};
ghost use Rattle.wfc_task.specs.Posed.{posed_plan, posed_plan_by, sample_problem_plan, tile_problem_plan};

use crate::files::{problem, sample};
use crate::tile_files::{tile_set, tiled_problem};
use std::alloc::Global;
use wfc_outside::Folder;
use wfc_plan::Fault;
use wfc_problem::Problem;
use wfc_words::{Request, SourceModel};

/// The problem of what the request names, by the pins file and the mask.
pub fn posed_problem<F: Folder>(
    alloc: Global,
    request: &Request,
    folder: &mut F,
) -> Result<Problem, Fault>
    requires source { IsSourceAsked request.now }
    requires output { IsOutputAsked request.now }
    ensures goes { Goes (posed_plan request.now) (F.seen folder.old) (F.seen folder.new) result }
{
    posed_by(alloc, request.source, request, folder)
}

/// The same for a map that is made of this.
fn posed_by<F: Folder>(
    alloc: Global,
    source: SourceModel,
    request: &Request,
    folder: &mut F,
) -> Result<Problem, Fault>
    requires source { AskedBy source request.now }
    requires output { IsOutputAsked request.now }
    ensures goes { Goes (posed_plan_by source request.now)
        (F.seen folder.old) (F.seen folder.new) result }
{
    match source {
        SourceModel::Overlap { .. } => sample_problem(alloc, request, folder),
        SourceModel::Tiles => tile_problem(alloc, request, folder),
    }
}

/// The problem of what the sample teaches.
fn sample_problem<F: Folder>(
    alloc: Global,
    request: &Request,
    folder: &mut F,
) -> Result<Problem, Fault>
    requires sample { IsSampleAsked request.now }
    requires output { IsOutputAsked request.now }
    ensures goes { Goes (sample_problem_plan request.now)
        (F.seen folder.old) (F.seen folder.new) result }
{
    let taught = sample(alloc, request, folder)?;
    let problem = problem(alloc, request, &taught, folder)?;
    Ok(problem)
}

/// The problem of the tile set.
fn tile_problem<F: Folder>(
    alloc: Global,
    request: &Request,
    folder: &mut F,
) -> Result<Problem, Fault>
    requires output { IsOutputAsked request.now }
    ensures goes { Goes (tile_problem_plan request.now)
        (F.seen folder.old) (F.seen folder.new) result }
{
    let tiles = tile_set(alloc, request, folder)?;
    let (_, problem) = tiled_problem(alloc, request, &tiles, folder)?;
    Ok(problem)
}
