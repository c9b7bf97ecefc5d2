//! The command `refute`: the lines of a run, put while it is made.

ghost use Rattle.std.specs.Prelude.{map, ◌≡◌, ◌≤◌};
ghost use Rattle.wfc_proof_commands.specs.Checking.{flat_proofs};
ghost use Rattle.wfc_proof_commands.specs.RefuteCommand.{refute_command};
ghost use Rattle.wfc_proof_commands.specs.Refuting.{writing_of};
ghost use Rattle.wfc_reply.specs.Ending.{EndsAs};
ghost use Rattle.wfc_reply.specs.Outcomes.{refute_verdict};
ghost use Rattle.wfc_task.specs.Asked.{IsOutputAsked, IsSourceAsked};

use crate::checking::shape;
use crate::refuting::refute_task;
use std::alloc::Global;
use std::marker::Brand;
use std::sync::ledger::Blank;
use wfc_choose::Chooser;
use wfc_outside::{Folder, Sink};
use wfc_reply::{CommandVerdict, RunWriting, Stop, first_chooser, kinds, put_run};
use wfc_search::Outcome;
use wfc_words::Request;

/// Reads the files, and puts the lines of the run.
pub fn refute<F: Folder, O: Sink>(
    alloc: Global,
    request: &Request,
    choosers: Vec<Box<dyn Chooser>>,
    folder: &mut F,
    out: &mut O,
) -> Result<CommandVerdict, Stop>
    requires source { IsSourceAsked request.now }
    requires output { IsOutputAsked request.now }
    ensures ends { EndsAs refute_command (map (λ c. (told c).rule) choosers.items) request.now
        (F.seen folder.old) (F.seen folder.new) (O.seen out.old) (O.seen out.new) result }
{
    let kinds = kinds(alloc, &choosers)?;
    let problem = refute_task(alloc, request, &kinds, folder)?;
    let chooser = first_chooser(alloc, choosers, request.rule)?;
    let writing = writing_of(request);
    let outcome = put_run::<O, Brand>(alloc, writing, &problem, chooser, out, Blank::new(1))?;
    out.finish()?;
    Ok(refute_verdict(request.budget, outcome))
}

/// How the run of a request is made, and how its lines are written.
fn writing_of(request: &Request) -> RunWriting
    requires source { IsSourceAsked request.now }
    ensures value { result ≡ writing_of flat_proofs request.now }
    ensures side { result.shape.n ≤ 6 }
{
    RunWriting {
        format: request.format,
        shape: shape(request),
        budget: request.budget,
        seed: request.seed,
    }
}

/// How the command ends whose run ends so.
pub fn refute_verdict(budget: u32, outcome: Outcome) -> CommandVerdict
    ensures value { result ≡ refute_verdict budget outcome }
{
    match outcome {
        Outcome::Map => CommandVerdict::MapExists,
        Outcome::NoMap => CommandVerdict::Done,
        Outcome::Spent => CommandVerdict::Spent { budget },
    }
}
