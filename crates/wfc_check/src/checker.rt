//! The checker itself.

ghost use Rattle.std.specs.Prelude.{◌≡◌, ◌+◌, ◌≤◌, ◌↔◌, length, IsTrue, IfOk, OnErr, Ok};
ghost use Rattle.wfc_problem.specs.Network.{IsProblem};
ghost use Rattle.wfc_problem.specs.Rounds.{depth_of, pairs};
ghost use Rattle.wfc_proof.specs.Checker.{line_step, closed_step};
ghost use Rattle.wfc_check.specs.Entries.{standing, waits_of};
ghost use Rattle.wfc_check.specs.Checker.{point_at, point_of, checker_problem, progress_of, line_answer, led_to, IsTaken, IsAtBase};
ghost use Rattle.wfc_check.specs.Checker.{AreEnded, SpellClosing, HasNone};
ghost use Rattle.wfc_check.specs.declared.progress.Progress.TheVariants.{Going};

use crate::nodes;
use crate::progress::Progress;
use crate::trail::BranchTrail;
use std::alloc::Global;
use std::marker::Model;
use wfc_outside::NoMemory;
use wfc_problem::Problem;
use wfc_proof::{Line, Reject};

/// Takes the lines of a proof one after another, and refuses the first that isn't right where it stands.
///
/// It holds a flag for each pair of a cell and a value, and has room for two entries of 8 bytes for each pair of a cell
/// and a value of its base. All of that is taken by `open`.
#[derive(Drop)]
pub struct Checker<'p> {
    trail: BranchTrail<'p>,
    progress: Progress,
}

impl<'p> Model for Checker<'p> {
    ghost use Rattle.wfc_check.specs.Checker.{CheckerView, point_at, IsReached};

    ghost Value = { CheckerView };

    ghost view = { λ a. record { trail = a.trail; progress = a.progress } };

    ghost invariant = { λ a. IsReached a.trail.problem (point_at a.progress a.trail) };
}

impl<'p> Checker<'p> {
    /// A checker at the base domains of the problem, with no branch that waits.
    pub fn open(alloc: Global, problem: &'p Problem) -> Result<Checker<'p>, NoMemory>
        ensures ok { IfOk result (IsAtBase problem.now) }
        ensures problem { IsProblem problem.now }
    {
        let trail = BranchTrail::new(alloc, problem)?;
        Ok(Checker {
            trail,
            progress: Progress::Going,
        })
    }

    /// The problem.
    #[inline]
    pub fn problem(&self) -> &'p Problem
        ensures value { result.now ≡ checker_problem self.now }
        ensures problem { IsProblem (checker_problem self.now) }
    {
        self.trail.problem()
    }

    /// How far the proof has come.
    #[inline]
    pub fn progress(&self) -> Progress
        ensures value { result ≡ progress_of (point_of self.now) }
    {
        self.progress
    }

    /// Takes a line, or refuses it and stays as it was. It takes no memory.
    ///
    /// A removal and a split cost as much as the values of a cell at most, and so do a branch that closes and the next
    /// one that begins, but for what is taken back, which was paid for when it was taken away.
    pub fn line(&mut self, line: Line) -> Result<Progress, Reject>
        ensures value { result ≡ line_answer (line_step (checker_problem self.old) (point_of
            self.old) line) }
        ensures next { point_of self.new ≡ led_to (point_of self.old)
            (line_step (checker_problem self.old) (point_of self.old) line) }
        ensures same { checker_problem self.new ≡ checker_problem self.old }
        ensures refused { OnErr result (self.new ≡ self.old) }
    {
        let progress = take_line(&mut self.trail, self.progress, line)?;
        self.progress = progress;
        Ok(progress)
    }
}

/// Whether these lines are a proof that the problem has no legal assignment: each of them is right where it stands, and
/// the last one ends the proof.
pub fn is_proof(alloc: Global, problem: &Problem, lines: &[Line]) -> Result<bool, NoMemory>
    ensures exact { IfOk result (λ yes. IsTrue yes ↔ AreEnded problem.now lines.now) }
    ensures spelled { IfOk result (λ yes. IsTrue yes ↔ SpellClosing problem.now lines.now) }
    ensures sound { IfOk result (λ yes. IsTrue yes → HasNone problem.now) }
{
    are_ended(alloc, problem, lines)
}

/// Whether each of these lines is accepted, and the last one ends the proof.
fn are_ended(alloc: Global, problem: &Problem, lines: &[Line]) -> Result<bool, NoMemory>
    ensures exact { IfOk result (λ yes. IsTrue yes ↔ AreEnded problem.now lines.now) }
    ensures problem { IsProblem problem.now }
{
    let mut checker = Checker::open(alloc, problem)?;
    let mut progress = Progress::Going;
    for line in lines {
        match checker.line(*line) {
            Ok(next) => progress = next,
            Err(_) => return Ok(false),
        }
    }
    Ok(progress == Progress::Ended)
}

/// A line, as far as the proof has come.
fn take_line(trail: &mut BranchTrail, progress: Progress, line: Line) -> Result<Progress, Reject>
    requires problem { IsProblem trail.old.problem }
    requires few { progress ≡ Going → pairs trail.old.problem (standing trail.old)
        + length (waits_of trail.old) ≤ depth_of trail.old.problem }
    ensures taken { IsTaken (line_step trail.old.problem (point_at progress trail.old) line)
        trail.old trail.new result }
{
    match progress {
        Progress::Going => open_line(trail, line),
        Progress::Closed => closed_line(line),
        Progress::Ended => Err(Reject::AfterEnd),
    }
}

/// A line while a branch is open.
fn open_line(trail: &mut BranchTrail, line: Line) -> Result<Progress, Reject>
    requires problem { IsProblem trail.old.problem }
    requires few { pairs trail.old.problem (standing trail.old) + length (waits_of trail.old) ≤
        depth_of trail.old.problem }
    ensures taken { IsTaken
        (line_step trail.old.problem (point_at Going trail.old) line) trail.old trail.new result }
{
    match line {
        Line::Remove { cell, value, dir } => nodes::remove(trail, cell, value, dir),
        Line::Span {
            cell,
            first,
            last,
            dir,
        } => {
            if first > last {
                return Err(Reject::IndexRange);
            }
            nodes::remove_span(trail, cell, first, last, dir)
        }
        Line::Try { cell, value } => nodes::split(trail, cell, value),
        Line::Empty { cell } => nodes::close(trail, cell),
        Line::End | Line::Found | Line::Out => Err(Reject::NotClosed),
    }
}

/// A line where the proof is closed: only its end may follow.
fn closed_line(line: Line) -> Result<Progress, Reject>
    ensures value { result ≡ line_answer (closed_step line) }
{
    match line {
        Line::End => Ok(Progress::Ended),
        _ => Err(Reject::AfterEnd),
    }
}
