//! The command `race`: a race of seeds, told in one line.

ghost use Rattle.std.specs.Prelude.{IfOk, Some, length, map, ◌+◌, ◌<◌, ◌^◌, ◌≡◌, ◌≤◌};
ghost use Rattle.wfc_plan.specs.Kinds.{HasChoosers};
ghost use Rattle.wfc_race.specs.declared.TheConstants.{MAX_RUNNERS};
ghost use Rattle.wfc_reply.specs.Choosers.{kinds_of};
ghost use Rattle.wfc_reply.specs.Ends.{EndsBy};
ghost use Rattle.wfc_reply.specs.ReplyView.{IsAnsweredAs, answer_view, reply_view};
ghost use Rattle.wfc_run_commands.specs.RaceCommand.{race_command};
ghost use Rattle.wfc_run_commands.specs.Races.{IsRaced};
ghost use Rattle.wfc_run_commands.specs.Racing.{IsRaceAsked, IsSeedIn, race_answer, race_end, race_line, raced_answer};
ghost use Rattle.wfc_task.specs.Asked.{IsOutputAsked, IsSourceAsked};

use crate::races;
use crate::races::Raced;
use crate::racing::race_task;
use std::alloc::Global;
use std::marker::Brand;
use std::sync::ledger::{Blank, Ledger};
use wfc_choose::Chooser;
use wfc_domains::Steps;
use wfc_outside::{Folder, NoMemory};
use wfc_plan::Fault;
use wfc_problem::Problem;
use wfc_reply::{Answer, CommandVerdict, first_many, kinds};
use wfc_text::push_number;
use wfc_words::Request;

/// Reads the files, makes the race, and answers the line of the runner that ends it.
pub fn race<F: Folder>(
    alloc: Global,
    request: &Request,
    choosers: Vec<Box<dyn Chooser>>,
    folder: &mut F,
) -> Result<Answer, Fault>
    requires source { IsSourceAsked request.now }
    requires output { IsOutputAsked request.now }
    requires runners { IsRaceAsked request.now }
    ensures ends { EndsBy race_command (map (λ chooser. (told chooser).rule) choosers.items)
        request.now (F.seen folder.old) (F.seen folder.new) (reply_view result) }
{
    let kinds = kinds(alloc, &choosers)?;
    let problem = race_task(alloc, request, &kinds, folder)?;
    let answer = answer(alloc, request, choosers, &problem)?;
    Ok(answer)
}

/// Makes the race, and answers how it ends.
fn answer(
    alloc: Global,
    request: &Request,
    choosers: Vec<Box<dyn Chooser>>,
    problem: &Problem,
) -> Result<Answer, NoMemory>
    requires runners { IsRaceAsked request.now }
    requires choosers { HasChoosers request.now.seeds
        (kinds_of (map (λ chooser. (told chooser).rule) choosers.items)) request.now.rule }
    ensures answers { IfOk result (IsAnsweredAs (race_answer request.now
        (race_end (map (λ c. (told c).rule) choosers.items) request.now problem.now))) }
{
    let runners = first_many(alloc, choosers, request.rule, request.seeds)?;
    let raced = run_race::<Brand>(alloc, request, problem, runners, Blank::new(1))?;
    told_in(alloc, request, raced)
}

/// The race of these choosers, with its steps counted in a ledger of its own.
fn run_race<L: Ledger>(
    alloc: Global,
    request: &Request,
    problem: &Problem,
    runners: Vec<Box<dyn Chooser>>,
    blank: Blank,
) -> Result<Raced, NoMemory>
    requires name { blank.name ≡ L.name }
    requires parts { blank.parts ≡ L.parts }
    requires some_part { 0 < blank.parts }
    requires some { 1 ≤ length runners.items }
    requires few { length runners.items ≤ MAX_RUNNERS }
    requires fits { request.now.seed + length runners.items ≤ 2 ^ 64 }
    requires quantum { 1 ≤ request.now.quantum }
    ensures raced { IfOk result (IsRaced problem.now (map (λ chooser. (told chooser).rule)
        runners.items) request.now.budget request.now.seed request.now.quantum) }
{
    let mut steps = Steps::<L>::new(blank);
    races::race(
        alloc,
        problem,
        runners,
        request.budget,
        request.seed,
        request.quantum,
        &mut steps,
    )
}

/// The answer to an end.
fn told_in(alloc: Global, request: &Request, raced: Raced) -> Result<Answer, NoMemory>
    requires seed_in { IsSeedIn request.now.seed raced }
    ensures answers { IfOk result (λ answer. answer_view answer ≡ raced_answer request.now raced) }
{
    match raced {
        Raced::Map {
            runner,
            retractions,
        } => Ok(Answer {
            verdict: CommandVerdict::Done,
            text: Some(line(alloc, request.seed + runner as u64, retractions, b"map")?),
        }),
        Raced::NoMap {
            runner,
            retractions,
        } => Ok(Answer {
            verdict: CommandVerdict::NoMap,
            text: Some(line(alloc, request.seed + runner as u64, retractions, b"no map")?),
        }),
        Raced::AllSpent => Ok(Answer {
            verdict: CommandVerdict::Spent {
                budget: request.budget,
            },
            text: None,
        }),
    }
}

/// The line of a race.
fn line(alloc: Global, seed: u64, retractions: u32, said: &[u8]) -> Result<Vec<u8>, NoMemory>
    ensures text { IfOk result (λ text. text.items ≡ race_line seed retractions said.now) }
{
    let mut text = Vec::new(alloc);
    text.extend_from_slice(b"seed ")?;
    push_number(&mut text, seed)?;
    text.extend_from_slice(b" retractions ")?;
    push_number(&mut text, u64::from(retractions))?;
    text.push(b' ')?;
    text.extend_from_slice(said)?;
    text.push(b'\n')?;
    Ok(text)
}
