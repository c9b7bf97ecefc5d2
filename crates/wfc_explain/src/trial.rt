//! Leaving lines out, one after the other.

ghost use Rattle.std.specs.Prelude.{◌≡◌, ◌++◌, ◌+◌, ◌∷◌, [], ◌<◌, ◌≤◌, true, IfOk, OnOk, length, map, replicate, vec_len};
ghost use Rattle.wfc_choose.specs.Pick.{Rule};
ghost use Rattle.wfc_explain.specs.Blame.{IsTrueExplained};
ghost use Rattle.wfc_explain.specs.Trials.{all_lines, core_of, explanation_of, lines_without, next_trial};
ghost use Rattle.wfc_explain.specs.Trials.{outcome_mark, trial_after, trial_with};
ghost use Rattle.wfc_explain.specs.Outcomes.{outcome_with};
ghost use Rattle.wfc_runs.specs.Alike.{HaveRule, PickAlike};
ghost use Rattle.wfc_runs.specs.Words.{words_of_seed};

use crate::PinnedProblem;
use crate::explained::{Core, Explained, Kept, Mark};
use crate::runs::outcome_with;
use std::alloc::Global;
use std::marker::Model;
use std::sync::ledger::Ledger;
use wfc_choose::Chooser;
use wfc_domains::Steps;
use wfc_outside::NoMemory;
use wfc_search::Outcome;

/// Which lines of a pinned problem are to blame, found by leaving them out one after the other: a
/// line without which the others, of those that are still kept, have no map is dropped for good.
/// Each run has a chooser of the list, the budget, and the words of the seed from their beginning.
///
/// The list has one chooser more than there are lines. Another core may have fewer lines.
pub fn explain<M: PinnedProblem, L: Ledger>(
    alloc: Global,
    pinned: &M,
    choosers: Vec<Box<dyn Chooser>>,
    seed: u64,
    budget: u32,
    steps: &mut Steps<L>,
) -> Result<Explained, NoMemory>
    requires choosers { vec_len choosers ≡ (M.seen pinned.now).lines + 1 }
    requires alike { PickAlike (map (λ chooser. (told chooser).rule) choosers.items) }

    // It is what leaving lines out in turn gives, each run by the rule of the choosers.
    ensures exact { (rule : Rule) → HaveRule (map (λ c. (told c).rule) choosers.items) rule →
        IfOk result (λ e. e ≡ explanation_of (M.seen pinned.now) rule budget (words_of_seed seed)) }

    // The core admits no map, and without a line that is needed it admits one.
    ensures blamed { IfOk result (IsTrueExplained (M.seen pinned.now)) }
{
    let mut choosers = choosers;
    let keep = all_lines(alloc, pinned.lines())?;
    let chooser = take(&mut choosers);
    match outcome_with(alloc, pinned, &keep, chooser, seed, budget, steps)? {
        Outcome::Map => Ok(Explained::MapExists),
        Outcome::NoMap => {
            let core = leave_out_in_turn(alloc, pinned, choosers, seed, budget, steps)?;
            Ok(Explained::Core(core))
        }
        Outcome::Spent => Ok(Explained::Spent),
    }
}

/// Takes a chooser from a list.
fn take(choosers: &mut Vec<Box<dyn Chooser>>) -> Box<dyn Chooser>
    requires some { 0 < vec_len choosers.old }
    ensures taken { choosers.old.items ≡ choosers.new.items ++ result ∷ [] }
{
    choosers.pop().unwrap()
}

/// The lines that stay once all were looked at.
fn leave_out_in_turn<M: PinnedProblem, L: Ledger>(
    alloc: Global,
    pinned: &M,
    choosers: Vec<Box<dyn Chooser>>,
    seed: u64,
    budget: u32,
    steps: &mut Steps<L>,
) -> Result<Core, NoMemory>
    requires choosers { vec_len choosers ≡ (M.seen pinned.now).lines }
    ensures exact { (rule : Rule) → HaveRule (map (λ c. (told c).rule) choosers.items) rule →
        IfOk result (λ core. core ≡ core_of (M.seen pinned.now) rule budget (words_of_seed seed)) }
{
    let lines = pinned.lines();
    let mut left = choosers;
    let mut trial = Trial::new(alloc, lines)?;
    for line in 0..lines {
        let chooser = take(&mut left);
        trial.look_at(alloc, pinned, line, chooser, seed, budget, steps)?;
    }
    Ok(trial.into_core())
}

/// Which lines are still kept, and those that were looked at and stay.
#[derive(Drop)]
struct Trial {
    keep: Vec<bool>,
    list: Vec<Kept>,
}

impl Model for Trial {
    ghost use Rattle.wfc_explain.specs.Trials.{TrialView};

    ghost Value = { TrialView };

    ghost view = { λ t. record { keep = t.keep.items; core = t.list.items } };
}

impl Trial {
    /// All lines are kept, and none was looked at.
    fn new(alloc: Global, lines: u32) -> Result<Trial, NoMemory>
        ensures value { IfOk result (λ trial.
            trial ≡ record { keep = all_lines lines; core = [] }) }
    {
        Ok(Trial {
            keep: all_lines(alloc, lines)?,
            list: Vec::new(alloc),
        })
    }

    /// Looks at a line: makes the run without it.
    fn look_at<M: PinnedProblem, L: Ledger>(
        &mut self,
        alloc: Global,
        pinned: &M,
        line: u32,
        chooser: Box<dyn Chooser>,
        seed: u64,
        budget: u32,
        steps: &mut Steps<L>,
    ) -> Result<(), NoMemory>
        requires each_line { length self.old.keep ≡ (M.seen pinned.now).lines }
        requires line_in { line < length self.old.keep }
        ensures tried { OnOk result (self.new ≡ next_trial (outcome_with (M.seen pinned.now)
            (told chooser).rule budget (words_of_seed seed)) self.old line) }
    {
        self.keep[line as usize] = false;
        let outcome = outcome_with(alloc, pinned, &self.keep, chooser, seed, budget, steps)?;
        self.decide(line, outcome)
    }

    /// Keeps a line, or drops it, by the outcome of the run without it.
    fn decide(&mut self, line: u32, outcome: Outcome) -> Result<(), NoMemory>
        requires line_in { line < length self.old.keep }
        ensures decided { OnOk result (self.new ≡ trial_with self.old line (outcome_mark outcome)) }
    {
        let mark = outcome_mark(outcome);
        self.keep[line as usize] = mark.is_some();
        if let Some(mark) = mark {
            self.list.push(Kept { index: line, mark })?;
        }
        Ok(())
    }

    /// The lines that stay.
    fn into_core(self) -> Core
        ensures value { result ≡ self.core }
    {
        Core::new(self.list)
    }
}

/// How a line stays, by the outcome of the run without it.
fn outcome_mark(outcome: Outcome) -> Option<Mark>
    ensures value { result ≡ outcome_mark outcome }
{
    match outcome {
        Outcome::Map => Some(Mark::Needed),
        Outcome::NoMap => None,
        Outcome::Spent => Some(Mark::Undecided),
    }
}

/// All lines are kept.
fn all_lines(alloc: Global, lines: u32) -> Result<Vec<bool>, NoMemory>
    ensures value { IfOk result (λ keep. keep.items ≡ all_lines lines) }
{
    Ok(vec![in alloc; true; lines as usize]?)
}
