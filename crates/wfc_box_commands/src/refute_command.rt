//! The command `box-refute`: the lines of a run, put while it is made.

ghost use Rattle.std.specs.Prelude.{OnOk, map, ◌≡◌, ◌≤◌};
ghost use Rattle.wfc_box.specs.Boxes.{IsFrame};
ghost use Rattle.wfc_box_commands.specs.BoxProofCommands.{box_refute_command};
ghost use Rattle.wfc_box_commands.specs.BoxProofs.{box_proofs};
ghost use Rattle.wfc_box_commands.specs.BoxSteps.{frame_asked};
ghost use Rattle.wfc_plan.specs.Kinds.{HasChoosers};
ghost use Rattle.wfc_plan.specs.Plan.{Goes};
ghost use Rattle.wfc_proof_commands.specs.RefuteTask.{refute_made, refute_plan};
ghost use Rattle.wfc_proof_commands.specs.Refuting.{writing_of};
ghost use Rattle.wfc_reply.specs.Ending.{EndsAs};

use crate::files::asked_problem;
use crate::steps::box_shape;
use std::alloc::Global;
use std::marker::Brand;
use std::sync::ledger::Blank;
use wfc_choose::{Chooser, RuleKind};
use wfc_outside::{Folder, Sink};
use wfc_plan::{Fault, enough};
use wfc_problem::Problem;
use wfc_proof_commands::refute_verdict;
use wfc_reply::{CommandVerdict, RunWriting, Stop, first_chooser, kinds, put_run};
use wfc_words::Request;

/// Reads the files, and puts the lines of the run.
pub fn box_refute<F: Folder, O: Sink>(
    alloc: Global,
    request: &Request,
    choosers: Vec<Box<dyn Chooser>>,
    folder: &mut F,
    out: &mut O,
) -> Result<CommandVerdict, Stop>
    requires frame { IsFrame (frame_asked request.now) }
    ensures ends { EndsAs box_refute_command (map (λ c. (told c).rule) choosers.items) request.now
        (F.seen folder.old) (F.seen folder.new) (O.seen out.old) (O.seen out.new) result }
{
    let kinds = kinds(alloc, &choosers)?;
    let problem = box_refute_task(alloc, request, &kinds, folder)?;
    let chooser = first_chooser(alloc, choosers, request.rule)?;
    let writing = box_writing(request);
    let outcome = put_run::<O, Brand>(alloc, writing, &problem, chooser, out, Blank::new(1))?;
    out.finish()?;
    Ok(refute_verdict(request.budget, outcome))
}

/// The problem that `box-refute` runs on. The chooser is looked for before anything is read.
fn box_refute_task<F: Folder>(
    alloc: Global,
    request: &Request,
    kinds: &[RuleKind],
    folder: &mut F,
) -> Result<Problem, Fault>
    requires frame { IsFrame (frame_asked request.now) }
    ensures goes { Goes (refute_plan box_proofs kinds.now request.now)
        (F.seen folder.old) (F.seen folder.new) (refute_made result) }
    ensures chooser { OnOk result (HasChoosers 1 kinds.now request.now.rule) }
{
    enough(1, kinds, request.rule)?;
    let problem = asked_problem(alloc, request, folder)?;
    Ok(problem)
}

/// How the run of a request is made, and how its lines are written.
fn box_writing(request: &Request) -> RunWriting
    ensures value { result ≡ writing_of box_proofs request.now }
    ensures side { result.shape.n ≤ 6 }
{
    RunWriting {
        format: request.format,
        shape: box_shape(request),
        budget: request.budget,
        seed: request.seed,
    }
}
