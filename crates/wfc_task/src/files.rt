//! The files of a request, and what they hold.

ghost use Rattle.std.specs.Option.{option_map};
ghost use Rattle.std.specs.Prelude.{IfOk, ◌*◌, ◌≤◌};
ghost use Rattle.wfc_model.specs.Raster.{height_of};
ghost use Rattle.wfc_outside.specs.Gives.{result_map};
ghost use Rattle.wfc_pattern.specs.Patterns.{IsPatterns};
ghost use Rattle.wfc_plan.specs.Plan.{Goes};
ghost use Rattle.wfc_task.specs.Asked.{IsOutputAsked, IsSampleAsked};
ghost use Rattle.wfc_task.specs.Lesson.{IsLesson, HasShownNumbers, IsPosed, IsSampled};
ghost use Rattle.wfc_task.specs.SamplePlans.{picture_plan, pins_file_plan, pins_plan, problem_plan, sample_plan, sampled_plan};
ghost use Rattle.wfc_task.specs.Sampled.{sampled_view};

use crate::lesson::Taught;
use crate::sampled::{Sampled, sampled_in};
use crate::steps::{patterns_taught, problem_of_lines, read_pin_lines, sample_in_numbers};
use std::alloc::Global;
use wfc_outside::Folder;
use wfc_picture::{Kind, MAX_PIXELS, Palette, Picture};
use wfc_pins::PinLine;
use wfc_plan::{Fault, Source, whole_file};
use wfc_problem::Problem;
use wfc_words::Request;

/// What the sample shows.
fn sample_file<F: Folder>(
    alloc: Global,
    request: &Request,
    folder: &mut F,
) -> Result<Sampled, Fault>
    ensures goes { Goes (sampled_plan request.now)
        (F.seen folder.old) (F.seen folder.new) (result_map sampled_view result) }
    ensures sampled { IfOk result (λ sampled. IsSampled (sampled_view sampled)) }
{
    let bytes = whole_file(alloc, folder, Source::Sample, request.file())?;
    let sampled = sampled_in(alloc, request, &bytes)?;
    Ok(sampled)
}

/// The kind of the sample, its picture in numbers, and its palette.
fn picture<F: Folder>(
    alloc: Global,
    request: &Request,
    folder: &mut F,
) -> Result<(Kind, Picture, Palette), Fault>
    ensures goes { Goes (picture_plan request.now) (F.seen folder.old) (F.seen folder.new) result }
    ensures numbered { IfOk result (λ made. HasShownNumbers made.0 made.1 made.2) }
    ensures small { IfOk result (λ made. made.1.width * height_of made.1 ≤ MAX_PIXELS) }
{
    let sampled = sample_file(alloc, request, folder)?;
    let (picture, palette) = sample_in_numbers(alloc, &sampled)?;
    Ok((sampled.kind, picture, palette))
}

/// What the sample teaches.
pub fn sample<F: Folder>(alloc: Global, request: &Request, folder: &mut F) -> Result<Taught, Fault>
    requires sample { IsSampleAsked request.now }
    ensures goes { Goes (sample_plan request.now) (F.seen folder.old) (F.seen folder.new) result }
    ensures lesson { IfOk result IsLesson }
{
    let (kind, picture, palette) = picture(alloc, request, folder)?;
    let patterns = patterns_taught(alloc, request, &picture)?;
    Ok(Taught {
        kind,
        palette,
        patterns,
    })
}

/// The pins and bans of a pins file.
fn pins_file<F: Folder>(alloc: Global, folder: &mut F, name: &str) -> Result<Vec<PinLine>, Fault>
    ensures goes { Goes (pins_file_plan name.now)
        (F.seen folder.old) (F.seen folder.new) (result_map (λ lines. lines.items) result) }
{
    let bytes = whole_file(alloc, folder, Source::Pins, name)?;
    let lines = read_pin_lines(alloc, &bytes)?;
    Ok(lines)
}

/// The pins and bans of the pins file, if one is named.
pub fn pins<F: Folder>(
    alloc: Global,
    folder: &mut F,
    name: Option<&str>,
) -> Result<Vec<PinLine>, Fault>
    ensures goes { Goes (pins_plan (option_map (λ text. text.now) name.entry))
        (F.seen folder.old) (F.seen folder.new) (result_map (λ lines. lines.items) result) }
{
    match name {
        Some(name) => pins_file(alloc, folder, name),
        None => Ok(Vec::new(alloc)),
    }
}

/// The problem of what the sample teaches, by the pins file.
pub fn problem<F: Folder>(
    alloc: Global,
    request: &Request,
    taught: &Taught,
    folder: &mut F,
) -> Result<Problem, Fault>
    requires patterns { IsPatterns taught.now.patterns }
    requires output { IsOutputAsked request.now }
    ensures goes { Goes (problem_plan request.now taught.now)
        (F.seen folder.old) (F.seen folder.new) result }
    ensures posed { IfOk result (IsPosed request.now taught.now.patterns) }
{
    let lines = pins(alloc, folder, request.pins())?;
    let problem = problem_of_lines(alloc, request, taught, &lines)?;
    Ok(problem)
}
