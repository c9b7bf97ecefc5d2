//! The lines of a refutation's text, one after another, and the first that is at fault.

ghost use Rattle.std.specs.Prelude.{◌≡◌, ◌+◌, ◌-◌, ◌^◌, ◌<◌, IfOk, OnOk};
ghost use Rattle.wfc_proof.specs.Heads.{format_of, head_numbers, shape_of};
ghost use Rattle.wfc_check.specs.Checker.{checker_problem, point_of};
ghost use Rattle.wfc_check.specs.Text.{after_first, after_numbers, after_shape, line_in, line_led, place_after_bytes, proving_place};
ghost use Rattle.wfc_check.specs.Text.{stage_answer};
ghost use Rattle.wfc_check.specs.Text.{IsStaged, Leads, answer_at_end, at_start};

use crate::checker::Checker;
use crate::fault::CheckFault;
use crate::progress::Progress;
use std::alloc::Global;
use wfc_outside::NoMemory;
use wfc_problem::Problem;
use wfc_proof::{
    Format, Line, LineFault, Shape, read_format, read_line, read_line_2, read_numbers, read_shape,
};

/// How many bytes a line may have at most, without its end.
pub const MAX_LINE_BYTES: usize = 64;

/// How many bytes a text may have at most.
pub const MAX_REFUTATION_BYTES: u64 = 4_294_967_296;

/// Which kind of line comes next: that which names the format, the numbers, the shape, or a line of the proof.
#[derive(Clone, Copy, Debug, PartialEq, Eq)]
pub(crate) enum Stage {
    First,
    Numbering { format: Format },
    Shaping,
    Proving { format: Format },
}

/// A text that was read up to a line.
#[derive(Drop)]
pub(crate) struct Reading<'p, 's> {
    checker: Checker<'p>,
    shape: &'s Shape,
    stage: Stage,
    /// The number of the line that comes next.
    number: u64,
}

impl<'p, 's> Reading<'p, 's> {
    ghost use Rattle.wfc_check.specs.Reading.{reading_place, reads_for, IsOpenedFor};

    /// The start of a text, which is held to this problem and this shape. It takes all the memory that the reading of lines
    /// needs.
    pub(crate) fn open(
        alloc: Global,
        problem: &'p Problem,
        shape: &'s Shape,
    ) -> Result<Reading<'p, 's>, NoMemory>
        ensures ok { IfOk result (IsOpenedFor problem.now shape.now) }
    {
        let checker = Checker::open(alloc, problem)?;
        Ok(Reading {
            checker,
            shape,
            stage: Stage::First,
            number: 1,
        })
    }

    /// The next line, without its end.
    pub(crate) fn line(&mut self, line: &[u8]) -> Result<(), CheckFault>
        requires counted { self.old.number < 2 ^ 64 - 1 }
        ensures led { Leads (line_led (checker_problem self.old.checker) self.old.shape.now
            self.old.number (reading_place self.old) line.now) (reading_place self.new) result }
        ensures same { OnOk result (reads_for self.new ≡ reads_for self.old) }
        ensures next { OnOk result (self.new.number ≡ self.old.number + 1) }
    {
        if line.len() > MAX_LINE_BYTES {
            return Err(self.bad_line());
        }
        self.stage = take_line(&mut self.checker, self.shape, self.stage, self.number, line)?;
        self.number += 1;
        Ok(())
    }

    /// The text ends behind these bytes, which have no line's end.
    pub(crate) fn end(&self, line: &[u8]) -> Result<(), CheckFault>
        ensures exact { result ≡ answer_at_end self.now.number (reading_place self.now) line.now }
    {
        if !line.is_empty() {
            return Err(self.bad_line());
        }
        match self.stage {
            Stage::First => Err(self.bad_line()),
            Stage::Numbering { .. } | Stage::Shaping => Err(CheckFault::NotEnded),
            Stage::Proving { .. } => match self.checker.progress() {
                Progress::Ended => Ok(()),
                Progress::Going | Progress::Closed => Err(CheckFault::NotEnded),
            },
        }
    }

    /// The fault of a next line that is no line of its place.
    pub(crate) fn bad_line(&self) -> CheckFault
        ensures value { result ≡ CheckFault.BadLine self.now.number }
    {
        CheckFault::BadLine { line: self.number }
    }
}

/// A line that isn't too long, and the stage behind it.
fn take_line(
    checker: &mut Checker<'_>,
    shape: &Shape,
    stage: Stage,
    number: u64,
    line: &[u8],
) -> Result<Stage, CheckFault>
    ensures led { IsStaged (stage_answer (checker_problem checker.old) shape.now number stage
        (point_of checker.old) line.now) (point_of checker.new) result }
    ensures same { checker_problem checker.new ≡ checker_problem checker.old }
{
    match stage {
        Stage::First => after_first(number, line),
        Stage::Numbering { format } => after_numbers(checker.problem(), format, number, line),
        Stage::Shaping => after_shape(shape, number, line),
        Stage::Proving { format } => {
            place_after_line(checker, format, number, line)?;
            Ok(stage)
        }
    }
}

/// The stage behind a line that names a format.
fn after_first(number: u64, line: &[u8]) -> Result<Stage, CheckFault>
    ensures exact { result ≡ after_first number (format_of line.now) }
{
    match read_format(line) {
        Ok(format) => Ok(Stage::Numbering { format }),
        Err(_) => Err(CheckFault::BadLine { line: number }),
    }
}

/// The stage behind the second line of a head, which has to tell how many cells and values the
/// problem has.
fn after_numbers(
    problem: &Problem,
    format: Format,
    number: u64,
    line: &[u8],
) -> Result<Stage, CheckFault>
    ensures exact { result ≡ after_numbers problem.now format number (head_numbers line.now) }
{
    let Ok(numbers) = read_numbers(line) else {
        return Err(CheckFault::BadLine { line: number });
    };
    if numbers.cells != problem.cells() || numbers.values != u32::from(problem.values()) {
        return Err(CheckFault::HeaderDiffers {
            cells: numbers.cells,
            values: numbers.values,
        });
    }
    match format {
        Format::One => Ok(Stage::Proving { format }),
        Format::Two => Ok(Stage::Shaping),
    }
}

/// The stage behind the shape of a head.
fn after_shape(shape: &Shape, number: u64, line: &[u8]) -> Result<Stage, CheckFault>
    ensures exact { result ≡ after_shape shape.now number (shape_of line.now) }
{
    let Ok(found) = read_shape(line) else {
        return Err(CheckFault::BadLine { line: number });
    };
    if found == *shape {
        Ok(Stage::Proving {
            format: Format::Two,
        })
    } else {
        Err(CheckFault::OptionsDiffer { found })
    }
}

/// Hands a line of the proof to the checker; `number` is the line's own, and stands in its fault.
fn place_after_line(
    checker: &mut Checker<'_>,
    format: Format,
    number: u64,
    line: &[u8],
) -> Result<(), CheckFault>
    ensures led { Leads (place_after_bytes (checker_problem checker.old) number format
        (point_of checker.old) line.now) (proving_place format (point_of checker.new)) result }
    ensures same { checker_problem checker.new ≡ checker_problem checker.old }
{
    let Ok(line) = line_in(format, line) else {
        return Err(CheckFault::BadLine { line: number });
    };
    match checker.line(line) {
        Ok(_) => Ok(()),
        Err(reject) => Err(CheckFault::Rejected {
            line: number,
            reject,
        }),
    }
}

/// The line that bytes spell in the format.
#[inline]
fn line_in(format: Format, bytes: &[u8]) -> Result<Line, LineFault>
    ensures exact { result ≡ line_in format bytes.now }
{
    match format {
        Format::One => read_line(bytes),
        Format::Two => read_line_2(bytes),
    }
}
