//! The task of `learn`.

ghost use Rattle.wfc_map_commands.specs.LearnTask.{learn_made, learn_plan, learn_plan_by};
ghost use Rattle.wfc_plan.specs.Plan.{Goes};
ghost use Rattle.wfc_task.specs.Asked.{AskedBy, IsSourceAsked};

use std::alloc::Global;
use wfc_outside::Folder;
use wfc_plan::Fault;
use wfc_task::{Taught, sample, tile_set};
use wfc_tileset::TileSet;
use wfc_words::{Request, SourceModel};

/// What `learn` writes.
#[derive(Drop)]
pub enum Learned {
    /// What the windows of a sample teach.
    Windows(Taught),
    /// A tile set.
    Tiles(TileSet),
}

/// What `learn` writes: what the sample teaches, or the tile set.
pub fn learn_task<F: Folder>(
    alloc: Global,
    request: &Request,
    folder: &mut F,
) -> Result<Learned, Fault>
    requires source { IsSourceAsked request.now }
    ensures goes { Goes (learn_plan request.now)
        (F.seen folder.old) (F.seen folder.new) (learn_made result) }
{
    learn_by(alloc, request.source, request, folder)
}

/// The same for a map that is made of this.
fn learn_by<F: Folder>(
    alloc: Global,
    source: SourceModel,
    request: &Request,
    folder: &mut F,
) -> Result<Learned, Fault>
    requires source { AskedBy source request.now }
    ensures goes { Goes (learn_plan_by source request.now)
        (F.seen folder.old) (F.seen folder.new) (learn_made result) }
{
    match source {
        SourceModel::Overlap { .. } => Ok(Learned::Windows(sample(alloc, request, folder)?)),
        SourceModel::Tiles => Ok(Learned::Tiles(tile_set(alloc, request, folder)?)),
    }
}
