//! The steps of a steps file.

ghost use Rattle.std.specs.Prelude.{◌≡◌, ◌≤◌, ◌<◌, ◌+◌, ◌^◌, length, All, IsTrue, OnOk, Some};
ghost use Rattle.std.specs.Result.{result_err};
ghost use Rattle.wfc_lists.specs.Counts.{one_if};
ghost use Rattle.wfc_outside.specs.Gives.{Gives};
ghost use Rattle.wfc_text.specs.View.{line_view};
ghost use Rattle.wfc_pins.specs.Words.{words_of};

use crate::words::{Words, is_skipped, is_word, number16, number32};
use std::alloc::{AllocError, AllocFailed, Global};
use thiserror::Error;
use wfc_outside::MAX_FILE_BYTES;
use wfc_problem::{Literal, Problem};
use wfc_text::{TextLine, lines};

/// A step of a steps file: something is assumed, or what was assumed last and still stands is taken back.
#[derive(Clone, Copy, Debug, PartialEq, Eq)]
pub enum Step {
    Assume(Literal),
    Undo,
}

/// A step, and the number of its line.
#[derive(Clone, Copy, Debug, PartialEq, Eq)]
pub struct StepLine {
    pub line: u32,
    pub step: Step,
}

/// Why a text is no steps file.
#[derive(Clone, Copy, Debug, PartialEq, Eq, Error)]
pub enum StepFault {
    /// This line is no step.
    #[error("a line is no step")]
    BadLine { line: u32 },
    /// This line is an `undo` where nothing stands.
    #[error("nothing stands to be undone")]
    NothingToUndo { line: u32 },
    #[error("memory ran out")]
    NoMemory,
}

impl<T: Drop> From<AllocFailed<T>> for StepFault {
    ghost use Rattle.wfc_pins.specs.declared.steps.StepFault.TheVariants as faults;

    ghost from_gives = { λ _ fault. fault ≡ faults.NoMemory };

    fn from(_error: AllocFailed<T>) -> StepFault {
        StepFault::NoMemory
    }
}

/// Why steps don't fit a problem.
#[derive(Clone, Copy, Debug, PartialEq, Eq, Error)]
pub enum RangeFault {
    /// The cell or the value of this line is not in the problem.
    #[error("a step is out of range")]
    OutOfRange { line: u32 },
}

ghost use Rattle.wfc_pins.specs.Steps.{IsStepIn, assumed_step, step_fits, is_assumption, is_undo, range_fault, step_of_line, step_of};
ghost use Rattle.wfc_pins.specs.Steps.{step_of_words, steps_of};

/// The steps of a steps file, in the order of its lines. A line is `choose CELL VALUE`, `forbid CELL VALUE` or `undo`,
/// with CELL up to 4,294,967,295 and VALUE up to 65,535, both in decimal.
pub fn read_steps(alloc: Global, bytes: &[u8]) -> Result<Vec<StepLine>, StepFault>
    requires limit { length bytes.now ≤ MAX_FILE_BYTES }
    ensures exact { Gives StepFault.NoMemory (λ steps. steps.items) result (steps_of bytes.now) }
{
    let mut steps = Vec::new(alloc);
    let mut standing = 0;
    for line in lines(bytes) {
        if is_skipped(line.bytes) {
            continue;
        }
        let step = step_of(&line, standing == 0)?;
        standing = standing_after(standing, step.step);
        steps.push(step)?;
    }
    Ok(steps)
}

/// The step of a line; `spent` says that nothing stands to be undone.
fn step_of(line: &TextLine<'_>, spent: bool) -> Result<StepLine, StepFault>
    ensures exact { result ≡ step_of line.now.number spent (step_of_line (line_view line.now)) }
{
    let step = step_words(line.bytes).ok_or(StepFault::BadLine { line: line.number })?;
    if spent && matches!(step, Step::Undo) {
        return Err(StepFault::NothingToUndo { line: line.number });
    }
    Ok(StepLine {
        line: line.number,
        step,
    })
}

/// How many assumptions stand after a step.
fn standing_after(standing: u32, step: Step) -> u32
    requires some { IsTrue (is_undo (Some step)) → 0 < standing }
    requires few { standing + 1 < 2 ^ 32 }
    ensures after { result + one_if (is_undo (Some step))
        ≡ standing + one_if (is_assumption (Some step)) }
{
    match step {
        Step::Assume(_) => standing + 1,
        Step::Undo => standing - 1,
    }
}

/// What the words of a line say, if it is a step.
fn step_words(line: &[u8]) -> Option<Step>
    ensures exact { result ≡ step_of_words (words_of line.now) }
{
    let mut words = Words::new(line);
    let word = words.next()?;
    match words.next() {
        Some(cell) => {
            let value = words.next()?;
            match words.next() {
                Some(_) => None,
                None => assumed_step(word, number32(cell)?, number16(value)?),
            }
        }
        None => is_word(word, "undo").then_some(Step::Undo),
    }
}

/// What a first word says of a cell and a value.
fn assumed_step(word: &[u8], cell: u32, value: u16) -> Option<Step>
    ensures value { result ≡ assumed_step word.now (Some cell) (Some value) }
{
    if is_word(word, "choose") {
        Some(Step::Assume(Literal::Is { cell, value }))
    } else if is_word(word, "forbid") {
        Some(Step::Assume(Literal::Not { cell, value }))
    } else {
        None
    }
}

ghost use Rattle.wfc_pins.specs.declared.steps.StepLine.{StepLine};

/// Says whether the cell and the value of each step are in the problem; an `undo` has none.
pub fn steps_fit(steps: &[StepLine], problem: &Problem) -> Result<(), RangeFault>
    ensures exact { result_err result ≡ range_fault problem.now steps.now }
    ensures ok { OnOk result (All (λ (line : StepLine). IsStepIn problem.now line.step) steps.now) }
{
    match steps.iter().find(|line| !step_fits(problem, line.step)) {
        Some(line) => Err(RangeFault::OutOfRange { line: line.line }),
        None => Ok(()),
    }
}

/// Whether the cell and the value of a step are in the problem.
fn step_fits(problem: &Problem, step: Step) -> bool
    ensures value { result ≡ step_fits problem.now step }
{
    match step {
        Step::Assume(Literal::Is { cell, value }) | Step::Assume(Literal::Not { cell, value }) => {
            cell < problem.cells() && value < problem.values()
        }
        Step::Undo => true,
    }
}
