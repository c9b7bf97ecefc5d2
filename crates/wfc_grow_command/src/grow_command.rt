//! The command `grow`: the map that growth ends in, or the block at which it is stuck.

ghost use Rattle.std.specs.Prelude.{IfOk, Some, length, map, ◌<◌, ◌≡◌, ◌≤◌};
ghost use Rattle.wfc_blocks.specs.declared.TheConstants.{MAX_BLOCKS};
ghost use Rattle.wfc_blocks.specs.declared.grown.Grown.TheVariants as grown;
ghost use Rattle.wfc_choose.specs.Pick.{Rule};
ghost use Rattle.wfc_grow_command.specs.GrowAnswer.{GrowsBy};
ghost use Rattle.wfc_grow_command.specs.GrowCommand.{GrowAnswers, grow_command};
ghost use Rattle.wfc_grow_command.specs.GrowGiven.{IsGrowAsked};
ghost use Rattle.wfc_grow_command.specs.GrowTask.{grow_refusal, growing_view};
ghost use Rattle.wfc_grow_command.specs.Growing.{CanBePut, EndsGrowing, IsGrowing, PutsGrown, growing_end};
ghost use Rattle.wfc_grow_command.specs.declared.growing.TheConstants.{GROW_CHOOSERS};
ghost use Rattle.wfc_outside.specs.Gives.{Gives};
ghost use Rattle.wfc_plan.specs.Kinds.{HasChoosers};
ghost use Rattle.wfc_render.specs.Map.{IsWritten};
ghost use Rattle.wfc_reply.specs.Choosers.{kinds_of};
ghost use Rattle.wfc_reply.specs.Ending.{EndsAs};
ghost use Rattle.wfc_runs.specs.Alike.{HaveRule, PickAlike};
ghost use Rattle.wfc_task.specs.Asked.{IsOutputAsked, IsSampleAsked};

use crate::growing::{GROW_CHOOSERS, Growing, growing_task};
use crate::stuck_block::put_stuck;
use std::alloc::Global;
use std::marker::Brand;
use std::sync::ledger::{Blank, Ledger};
use wfc_blocks::{GrowFault, Grown, grow as grow_area};
use wfc_choose::Chooser;
use wfc_domains::Steps;
use wfc_outside::{Folder, Sink, write_all};
use wfc_picture::Picture;
use wfc_pins::BuildFault;
use wfc_plan::{Fault, Refusal};
use wfc_render::picture_bytes;
use wfc_reply::{CommandVerdict, Stop, first_many, kinds};
use wfc_words::Request;

/// Reads the files, grows the map, and puts its text; or the block at which it is stuck, with its refutation.
pub fn grow<F: Folder, O: Sink>(
    alloc: Global,
    request: &Request,
    choosers: Vec<Box<dyn Chooser>>,
    folder: &mut F,
    out: &mut O,
) -> Result<CommandVerdict, Stop>
    requires output { IsOutputAsked request.now }
    requires asked { IsGrowAsked request.now }
    ensures ends { EndsAs grow_command (map (λ c. (told c).rule) choosers.items) request.now
        (F.seen folder.old) (F.seen folder.new) (O.seen out.old) (O.seen out.new) result }
{
    let kinds = kinds(alloc, &choosers)?;
    let growing = growing_task(alloc, request, &kinds, folder)?;
    grown_from(alloc, request, choosers, &growing, out)
}

/// Grows the map, and puts the text of what that came to.
fn grown_from<O: Sink>(
    alloc: Global,
    request: &Request,
    choosers: Vec<Box<dyn Chooser>>,
    growing: &Growing,
    out: &mut O,
) -> Result<CommandVerdict, Stop>
    requires output { IsOutputAsked request.now }
    requires asked { IsGrowAsked request.now }
    requires choosers { HasChoosers GROW_CHOOSERS
        (kinds_of (map (λ chooser. (told chooser).rule) choosers.items)) request.now.rule }
    requires growing { IsGrowing request.now growing.now }
    ensures ends { EndsGrowing (GrowAnswers (map (λ c. (told c).rule) choosers.items) request.now)
        request.now growing.now (O.seen out.old) (O.seen out.new) result }
{
    let mut taken = first_many(alloc, choosers, request.rule, GROW_CHOOSERS)?;
    let chooser = taken.remove(0);
    grown_with(alloc, request, growing, chooser, taken, out)
}

/// The same with a chooser for each block, and this one for the run of a stuck one.
fn grown_with<O: Sink>(
    alloc: Global,
    request: &Request,
    growing: &Growing,
    chooser: Box<dyn Chooser>,
    choosers: Vec<Box<dyn Chooser>>,
    out: &mut O,
) -> Result<CommandVerdict, Stop>
    requires output { IsOutputAsked request.now }
    requires asked { IsGrowAsked request.now }
    requires growing { IsGrowing request.now growing.now }
    requires have { HaveRule (map (λ chooser. (told chooser).rule) choosers.items)
        (told chooser).rule }
    requires enough { MAX_BLOCKS ≤ length choosers.items }
    ensures ends { EndsGrowing (GrowsBy (Some (told chooser).rule) request.now)
        request.now growing.now (O.seen out.old) (O.seen out.new) result }
{
    match growing_end::<Brand>(alloc, request, growing, choosers, Blank::new(1)) {
        Ok(made) => put_grown(alloc, request, growing, &made, chooser, out),
        Err(fault) => Err(Stop::Unanswered {
            fault: Fault::Refused {
                refusal: grow_refusal(fault),
            },
        }),
    }
}

/// What growth comes to, with its steps counted in a ledger of its own.
fn growing_end<L: Ledger>(
    alloc: Global,
    request: &Request,
    growing: &Growing,
    choosers: Vec<Box<dyn Chooser>>,
    blank: Blank,
) -> Result<Grown, GrowFault>
    requires name { blank.name ≡ L.name }
    requires parts { blank.parts ≡ L.parts }
    requires some_part { 0 < blank.parts }
    requires output { IsOutputAsked request.now }
    requires asked { IsGrowAsked request.now }
    requires growing { IsGrowing request.now growing.now }
    requires choosers { MAX_BLOCKS ≤ length choosers.items }
    requires alike { PickAlike (map (λ chooser. (told chooser).rule) choosers.items) }
    ensures exact { (rule : Rule) → HaveRule (map (λ c. (told c).rule) choosers.items) rule →
        Gives GrowFault.NoMemory (λ m. m) result (growing_end rule request.now growing.now) }
{
    // The proof knows how few symbols there are where they are counted.
    let _few = growing.taught.palette.len();
    let mut steps = Steps::<L>::new(blank);
    grow_area(
        alloc,
        &growing.taught.patterns,
        &growing.taught.palette,
        request.width,
        request.height,
        request.block,
        &growing.lines,
        choosers,
        request.seed,
        request.budget,
        &mut steps,
    )
}

/// A fault of growth as a refusal.
fn grow_refusal(fault: GrowFault) -> Refusal
    ensures value { result ≡ grow_refusal fault }
{
    match fault {
        GrowFault::SizeBelowN => build_refusal(BuildFault::SizeBelowN),
        GrowFault::TooManyBlocks { count } => Refusal::TooManyBlocks { count },
        GrowFault::TooLarge { product } => build_refusal(BuildFault::TooLarge { product }),
        GrowFault::PinOutside { line } => build_refusal(BuildFault::PinOutside { line }),
        GrowFault::UnknownSymbol { line } => build_refusal(BuildFault::UnknownSymbol { line }),
        GrowFault::NoMemory => Refusal::NoMemory,
    }
}

/// A fault of a problem as a refusal.
fn build_refusal(fault: BuildFault) -> Refusal
    ensures value { result ≡ Refusal.Build fault }
{
    Refusal::Build { fault }
}

/// Puts the text of an end of growth, if it has one.
fn put_grown<O: Sink>(
    alloc: Global,
    request: &Request,
    growing: &Growing,
    made: &Grown,
    chooser: Box<dyn Chooser>,
    out: &mut O,
) -> Result<CommandVerdict, Stop>
    requires sample { IsSampleAsked request.now }
    requires can { CanBePut (told chooser).rule request.now (growing_view growing.now) made.now }
    ensures puts { PutsGrown (told chooser).rule request.now (growing_view growing.now) made.now
        (O.seen out.old) (O.seen out.new) result }
{
    match made {
        Grown::Map(picture) => put_map(alloc, request, growing, picture, out),
        Grown::Stuck(stuck) => put_stuck(alloc, request, growing, stuck, chooser, out),
        Grown::Spent => Ok(CommandVerdict::Spent {
            budget: request.budget,
        }),
    }
}

/// Puts the text of a map.
fn put_map<O: Sink>(
    alloc: Global,
    request: &Request,
    growing: &Growing,
    picture: &Picture,
    out: &mut O,
) -> Result<CommandVerdict, Stop>
    requires written { IsWritten growing.now.layout growing.now.taught.palette picture.now }
    ensures puts { (rule : Rule) → PutsGrown rule request.now (growing_view growing.now)
        (grown.Map picture.now) (O.seen out.old) (O.seen out.new) result }
{
    let text = picture_bytes(alloc, &growing.layout, &growing.taught.palette, picture)?;
    write_all(out, &text)?;
    out.finish()?;
    Ok(CommandVerdict::Done)
}
