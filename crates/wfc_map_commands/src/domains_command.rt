//! The command `domains`: the greatest domains before any step and after each, put while the steps are made.

ghost use Rattle.std.specs.Prelude.{All, [], length, ◌<◌, ◌^◌, ◌≡◌, ◌≤◌};
ghost use Rattle.wfc_map_commands.specs.DomainsAnswer.{steps_text};
ghost use Rattle.wfc_map_commands.specs.DomainsCommand.{DomainsAnswers};
ghost use Rattle.wfc_map_commands.specs.DomainsTask.{domains_plan};
ghost use Rattle.wfc_map_commands.specs.Walk.{IsWalk, left_text};
ghost use Rattle.wfc_outside.specs.Sink.{Puts};
ghost use Rattle.wfc_pins.specs.Steps.{IsStepIn};
ghost use Rattle.wfc_pins.specs.declared.steps.StepLine.{StepLine};
ghost use Rattle.wfc_problem.specs.Network.{values};
ghost use Rattle.wfc_reply.specs.Ending.{EndsPut};
ghost use Rattle.wfc_task.specs.Asked.{IsOutputAsked, IsSourceAsked};

use crate::stepping::domains_task;
use crate::walk::{Walk, begin_walk};
use std::alloc::Global;
use std::marker::Brand;
use std::sync::ledger::{Blank, Ledger};
use wfc_domains::Steps;
use wfc_outside::{Folder, Sink, SinkFault};
use wfc_pins::StepLine;
use wfc_problem::Problem;
use wfc_reply::{CommandVerdict, Stop};
use wfc_words::Request;

/// Reads the files, and puts the block of the root and one of each step.
pub fn domains<F: Folder, O: Sink>(
    alloc: Global,
    request: &Request,
    folder: &mut F,
    out: &mut O,
) -> Result<CommandVerdict, Stop>
    requires source { IsSourceAsked request.now }
    requires output { IsOutputAsked request.now }
    ensures ends { EndsPut (domains_plan request.now) DomainsAnswers
        (F.seen folder.old) (F.seen folder.new) (O.seen out.old) (O.seen out.new) result }
{
    let stepping = domains_task(alloc, request, folder)?;
    let walk = begin_walk(alloc, &stepping)?;
    let verdict = walk.verdict();
    put_blocks::<O, Brand>(out, walk, &stepping.problem, &stepping.steps, Blank::new(1))?;
    out.finish()?;
    Ok(verdict)
}

/// Puts the block of the root, and makes each step and puts its block.
fn put_blocks<O: Sink, L: Ledger>(
    out: &mut O,
    walk: Walk<'_>,
    problem: &Problem,
    lines: &[StepLine],
    blank: Blank,
) -> Result<(), SinkFault>
    requires name { blank.name ≡ L.name }
    requires parts { blank.parts ≡ L.parts }
    requires some { 0 < blank.parts }
    requires begun { IsWalk walk.engine walk.beside [] }
    requires none { walk.beside ≡ 0 }
    requires problem { walk.engine.problem ≡ problem.now }
    requires inside { All (λ (line : StepLine). IsStepIn problem.now line.step) lines.now }
    requires spare { length lines.now ≤ walk.engine.spare }
    requires few { length lines.now < 2 ^ 32 }
    ensures put { Puts (O.seen out.old) (O.seen out.new) (steps_text problem.now lines.now) result }
{
    let count = problem.values();
    let cells = problem.cells();
    walk.put(out, 0, count, cells)?;
    put_steps::<O, L>(out, walk, lines, count, cells, blank)
}

/// Makes each step, counted in a ledger of its own, and puts its block.
fn put_steps<O: Sink, L: Ledger>(
    out: &mut O,
    walk: Walk<'_>,
    lines: &[StepLine],
    count: u16,
    cells: u32,
    blank: Blank,
) -> Result<(), SinkFault>
    requires name { blank.name ≡ L.name }
    requires parts { blank.parts ≡ L.parts }
    requires some { 0 < blank.parts }
    requires begun { IsWalk walk.engine walk.beside [] }
    requires none { walk.beside ≡ 0 }
    requires values { count ≡ values walk.engine.problem }
    requires cells { cells ≡ walk.engine.problem.cells }
    requires inside { All (λ (line : StepLine). IsStepIn walk.engine.problem line.step) lines.now }
    requires spare { length lines.now ≤ walk.engine.spare }
    requires few { length lines.now < 2 ^ 32 }
    ensures put { Puts (O.seen out.old) (O.seen out.new)
        (left_text walk.entry.engine.problem count cells lines.now 0) result }
{
    let mut walk = walk;
    let mut steps = Steps::<L>::new(blank);
    walk.make_each(out, lines, &mut steps, count, cells)
}
