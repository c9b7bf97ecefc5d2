//! The steps of a steps file, and the task of `domains`.

ghost use Rattle.std.specs.Option.{option_map};
ghost use Rattle.std.specs.Prelude.{All, IfOk, length, ◌+◌, ◌<◌, ◌≡◌, ◌≤◌};
ghost use Rattle.wfc_map_commands.specs.DomainsTask.{domains_made, domains_plan};
ghost use Rattle.wfc_map_commands.specs.StepPlans.{steps_file_plan, steps_plan};
ghost use Rattle.wfc_map_commands.specs.Stepping.{fitting_steps, steps_in};
ghost use Rattle.wfc_outside.specs.Gives.{Gives, result_map};
ghost use Rattle.wfc_pins.specs.Steps.{IsStepIn};
ghost use Rattle.wfc_pins.specs.declared.steps.StepLine.{StepLine};
ghost use Rattle.wfc_plan.specs.Plan.{Goes};
ghost use Rattle.wfc_task.specs.Asked.{IsOutputAsked, IsSourceAsked};

use std::alloc::Global;
use wfc_outside::{Folder, MAX_FILE_BYTES};
use wfc_pins::{StepLine, read_steps, steps_fit};
use wfc_plan::{Fault, Refusal, Source, whole_file};
use wfc_problem::Problem;
use wfc_task::posed_problem;
use wfc_words::Request;

/// The steps of a steps file, which are all in the problem.
fn steps_file<F: Folder>(
    alloc: Global,
    folder: &mut F,
    name: &str,
    problem: &Problem,
) -> Result<Vec<StepLine>, Fault>
    ensures goes { Goes (steps_file_plan name.now problem.now)
        (F.seen folder.old) (F.seen folder.new) (result_map (λ steps. steps.items) result) }
    ensures inside { IfOk result (λ steps. All (λ
        (line : StepLine). IsStepIn problem.now line.step) steps.items) }
    ensures few { IfOk result (λ steps. length steps.items ≤ MAX_FILE_BYTES + 1) }
{
    let bytes = whole_file(alloc, folder, Source::Steps, name)?;
    let steps = steps_in(alloc, &bytes)?;
    let steps = fitting_steps(problem, steps)?;
    Ok(steps)
}

/// The steps of the steps file, if one is named.
fn steps<F: Folder>(
    alloc: Global,
    folder: &mut F,
    name: Option<&str>,
    problem: &Problem,
) -> Result<Vec<StepLine>, Fault>
    ensures goes { Goes (steps_plan (option_map (λ text. text.now) name.entry) problem.now)
        (F.seen folder.old) (F.seen folder.new) (result_map (λ steps. steps.items) result) }
    ensures inside { IfOk result (λ steps. All (λ
        (line : StepLine). IsStepIn problem.now line.step) steps.items) }
    ensures few { IfOk result (λ steps. length steps.items ≤ MAX_FILE_BYTES + 1) }
{
    match name {
        Some(name) => steps_file(alloc, folder, name, problem),
        None => Ok(Vec::new(alloc)),
    }
}

/// The steps of the bytes of a steps file.
fn steps_in(alloc: Global, bytes: &[u8]) -> Result<Vec<StepLine>, Refusal>
    requires short { length bytes.now ≤ MAX_FILE_BYTES }
    ensures exact { Gives Refusal.NoMemory (λ steps. steps.items) result (steps_in bytes.now) }
    ensures few { IfOk result (λ steps. length steps.items ≤ length bytes.now + 1) }
{
    Ok(read_steps(alloc, bytes)?)
}

/// The steps, if they are all in the problem.
fn fitting_steps(problem: &Problem, steps: Vec<StepLine>) -> Result<Vec<StepLine>, Refusal>
    ensures exact { result_map (λ kept. kept.items) result ≡ fitting_steps problem.now steps.items }
    ensures inside { IfOk result (λ steps. All (λ
        (line : StepLine). IsStepIn problem.now line.step) steps.items) }
    ensures few { IfOk result (λ kept. length kept.items ≡ length steps.items) }
{
    steps_fit(&steps, problem)?;
    Ok(steps)
}

/// What `domains` works on.
#[derive(Drop)]
pub struct Stepping {
    pub problem: Problem,
    pub steps: Vec<StepLine>,
}

/// What `domains` goes through: the problem, and steps that are all in it.
pub fn domains_task<F: Folder>(
    alloc: Global,
    request: &Request,
    folder: &mut F,
) -> Result<Stepping, Fault>
    requires source { IsSourceAsked request.now }
    requires output { IsOutputAsked request.now }
    ensures goes { Goes (domains_plan request.now)
        (F.seen folder.old) (F.seen folder.new) (domains_made result) }
    ensures inside { IfOk result (λ task. All (λ
        (line : StepLine). IsStepIn task.problem line.step) task.steps.items) }
    ensures few { IfOk result (λ task. length task.steps.items ≤ MAX_FILE_BYTES + 1) }
{
    let problem = posed_problem(alloc, request, folder)?;
    let steps = steps(alloc, folder, request.steps(), &problem)?;
    Ok(Stepping { problem, steps })
}
