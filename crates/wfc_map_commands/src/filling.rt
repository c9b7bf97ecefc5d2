//! The task of `fill`.

ghost use Rattle.wfc_plan.specs.Kinds.{HasChoosers};
ghost use Rattle.std.specs.Prelude.{IfOk, OnOk, false, true, ◌≡◌};
ghost use Rattle.wfc_map_commands.specs.FillTask.{fill, fill_made, fill_plan, fill_sample_plan, fill_tiles_plan, tiles_filled};
ghost use Rattle.wfc_map_commands.specs.Filling.{IsFilling, IsFillingBy, IsTileFilling};
ghost use Rattle.wfc_outside.specs.Gives.{result_map};
ghost use Rattle.wfc_plan.specs.Plan.{Goes};
ghost use Rattle.wfc_task.specs.Asked.{IsOutputAsked, IsSampleAsked};
ghost use Rattle.wfc_task.specs.Sources.{is_of_windows};

use std::alloc::Global;
use wfc_choose::RuleKind;
use wfc_outside::Folder;
use wfc_pattern::Patterns;
use wfc_picture::Palette;
use wfc_plan::{Fault, enough};
use wfc_problem::Problem;
use wfc_render::Layout;
use wfc_task::{problem, sample, sample_layout, tile_layout, tile_set, tiled_problem};
use wfc_tiled::Mask;
use wfc_tileset::TileSet;
use wfc_words::Request;

/// What `fill` works on.
#[derive(Drop)]
pub struct Filling {
    pub palette: Palette,
    pub patterns: Patterns,
    pub layout: Layout,
    pub problem: Problem,
}

/// What `fill` works on for a tile set.
#[derive(Drop)]
pub struct TileFilling {
    pub tiles: TileSet,
    /// The mask, where one is named.
    pub mask: Option<Mask>,
    pub layout: Layout,
    pub problem: Problem,
}

/// What `fill` works on.
#[derive(Drop)]
pub enum Filled {
    Windows(Filling),
    Tiles(TileFilling),
}

/// What `fill` runs on for a sample. The chooser is looked for before anything is read, and the layout is looked at before
/// the pins file is.
pub fn fill_sample_task<F: Folder>(
    alloc: Global,
    request: &Request,
    kinds: &[RuleKind],
    folder: &mut F,
) -> Result<Filled, Fault>
    requires windows { is_of_windows request.now.source ≡ true }
    requires sample { IsSampleAsked request.now }
    requires output { IsOutputAsked request.now }
    ensures goes { Goes (fill_plan kinds.now request.now)
        (F.seen folder.old) (F.seen folder.new) (fill_made request.now result) }
    ensures chooser { OnOk result (HasChoosers 1 kinds.now request.now.rule) }
    ensures filling { IfOk result (IsFillingBy request.now) }
{
    enough(1, kinds, request.rule)?;
    let filling = sample_filling(alloc, request, folder)?;
    Ok(Filled::Windows(filling))
}

/// The same for a tile set.
pub fn fill_tiles_task<F: Folder>(
    alloc: Global,
    request: &Request,
    kinds: &[RuleKind],
    folder: &mut F,
) -> Result<Filled, Fault>
    requires tiles { is_of_windows request.now.source ≡ false }
    requires output { IsOutputAsked request.now }
    ensures goes { Goes (fill_plan kinds.now request.now)
        (F.seen folder.old) (F.seen folder.new) (fill_made request.now result) }
    ensures chooser { OnOk result (HasChoosers 1 kinds.now request.now.rule) }
    ensures filling { IfOk result (IsFillingBy request.now) }
{
    enough(1, kinds, request.rule)?;
    let filling = tile_filling(alloc, request, folder)?;
    Ok(Filled::Tiles(filling))
}

/// What `fill` runs on for a sample.
fn sample_filling<F: Folder>(
    alloc: Global,
    request: &Request,
    folder: &mut F,
) -> Result<Filling, Fault>
    requires sample { IsSampleAsked request.now }
    requires output { IsOutputAsked request.now }
    ensures goes { Goes (fill_sample_plan request.now) (F.seen folder.old) (F.seen folder.new)
        (result_map (λ made. fill made.patterns made.palette made.layout made.problem) result) }
    ensures filling { IfOk result (IsFilling request.now) }
{
    let taught = sample(alloc, request, folder)?;
    let layout = sample_layout(taught.kind, request)?;
    let problem = problem(alloc, request, &taught, folder)?;
    Ok(Filling {
        palette: taught.palette,
        patterns: taught.patterns,
        layout,
        problem,
    })
}

/// What `fill` runs on for a tile set.
fn tile_filling<F: Folder>(
    alloc: Global,
    request: &Request,
    folder: &mut F,
) -> Result<TileFilling, Fault>
    requires output { IsOutputAsked request.now }
    ensures goes { Goes (fill_tiles_plan request.now) (F.seen folder.old) (F.seen folder.new)
        (result_map (tiles_filled request.now) result) }
    ensures filling { IfOk result (IsTileFilling request.now) }
{
    let tiles = tile_set(alloc, request, folder)?;
    let layout = tile_layout(&tiles, request)?;
    let (mask, problem) = tiled_problem(alloc, request, &tiles, folder)?;
    Ok(TileFilling {
        tiles,
        mask,
        layout,
        problem,
    })
}
