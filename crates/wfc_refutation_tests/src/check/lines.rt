//! Lines one by one, and lists of lines.

use super::ring;
use std::alloc::Global;
use std::process::Abort;
use std::test::Fail;
use wfc_check::{Checker, Progress, Reject, is_proof};
use wfc_proof::{Line, read_line_2};

/// The lines that strokes part.
fn lines(alloc: Global, strokes: &str) -> Result<Vec<Line>, Fail> {
    let mut lines = Vec::new(alloc);
    for part in strokes.as_bytes().split(|byte| *byte == b'/') {
        lines.push(read_line_2(part)?)?;
    }
    Ok(lines)
}

/// A line with its answer.
fn answers(
    rt: &impl Abort,
    checker: &mut Checker<'_>,
    line: &str,
    want: Result<Progress, Reject>,
) -> Result<(), Fail> {
    let got = checker.line(read_line_2(line.as_bytes())?);
    assert_eq!(rt; got, want, "{line}");
    Ok(())
}

/// A line that is taken, and leaves a branch open.
fn goes_on(rt: &impl Abort, checker: &mut Checker<'_>, line: &str) -> Result<(), Fail> {
    answers(rt, checker, line, Ok(Progress::Going))
}

/// Lines that are refused at the base, and a value that is tried there.
fn tries(rt: &impl Abort, checker: &mut Checker<'_>) -> Result<(), Fail> {
    answers(rt, checker, "q", Err(Reject::NotClosed))?;
    answers(rt, checker, "r 0 0 0 4", Err(Reject::IndexRange))?;
    answers(rt, checker, "r 0 0 0 1", Err(Reject::NoNeighbour))?;
    answers(
        rt,
        checker,
        "r 0 0 0 2",
        Err(Reject::HasSupport { value: 1 }),
    )?;
    answers(rt, checker, "x 0", Err(Reject::NotEmpty { value: 0 }))?;
    goes_on(rt, checker, "t 0 0")?;
    answers(rt, checker, "t 0 0", Err(Reject::OnlyValue))
}

/// The first branch, in which cell 0 has the value.
fn refutes_the_first(rt: &impl Abort, checker: &mut Checker<'_>) -> Result<(), Fail> {
    answers(
        rt,
        checker,
        "r 1 0 1 0",
        Err(Reject::HasSupport { value: 0 }),
    )?;
    goes_on(rt, checker, "r 1 0 0 0")?;
    answers(rt, checker, "r 1 0 0 0", Err(Reject::NotStanding))?;
    goes_on(rt, checker, "r 2 0 0 2")?;
    goes_on(rt, checker, "r 2 1 1 0")?;
    goes_on(rt, checker, "x 2")
}

/// The second branch, in which cell 0 doesn't have the value.
fn refutes_the_second(rt: &impl Abort, checker: &mut Checker<'_>) -> Result<(), Fail> {
    answers(rt, checker, "q", Err(Reject::NotClosed))?;
    answers(rt, checker, "r 0 0 0 0", Err(Reject::NotStanding))?;
    goes_on(rt, checker, "r 1 1 1 0")?;
    goes_on(rt, checker, "r 2 1 1 2")?;
    goes_on(rt, checker, "r 2 0 0 0")?;
    answers(rt, checker, "x 2", Ok(Progress::Closed))
}

/// Each line with its answer, from the base on.
fn refutes(rt: &impl Abort, checker: &mut Checker<'_>) -> Result<(), Fail> {
    tries(rt, checker)?;
    refutes_the_first(rt, checker)?;
    refutes_the_second(rt, checker)?;
    answers(rt, checker, "x 2", Err(Reject::AfterEnd))?;
    answers(rt, checker, "q", Ok(Progress::Ended))?;
    answers(rt, checker, "q", Err(Reject::AfterEnd))
}

#[test]
fn lines_are_answered(rt: HostRuntime) -> Result<(), Fail> {
    let problem = ring(rt.alloc())?;
    let mut checker = Checker::open(rt.alloc(), &problem)?;
    refutes(&rt, &mut checker)
}

/// Whether the lines that strokes part are a proof.
fn is_one(alloc: Global, strokes: &str) -> Result<bool, Fail> {
    let problem = ring(alloc)?;
    let lines = lines(alloc, strokes)?;
    Ok(is_proof(alloc, &problem, &lines)?)
}

/// Lines that are a proof, or none.
fn proves(rt: &impl Abort, alloc: Global, strokes: &str, want: bool) -> Result<(), Fail> {
    assert_eq!(rt; is_one(alloc, strokes)?, want, "{strokes}");
    Ok(())
}

/// Both branches are needed, and the end.
#[test]
fn lists_of_lines_are_proofs(rt: HostRuntime) -> Result<(), Fail> {
    let whole = "t 0 0/r 1 0 0 0/r 2 0 0 2/r 2 1 1 0/x 2/r 1 1 1 0/r 2 1 1 2/r 2 0 0 0/x 2/q";
    let unended = "t 0 0/r 1 0 0 0/r 2 0 0 2/r 2 1 1 0/x 2/r 1 1 1 0/r 2 1 1 2/r 2 0 0 0/x 2";
    let half = "t 0 0/r 1 0 0 0/r 2 0 0 2/r 2 1 1 0/x 2/q";
    proves(&rt, rt.alloc(), whole, true)?;
    proves(&rt, rt.alloc(), unended, false)?;
    proves(&rt, rt.alloc(), half, false)?;
    proves(
        &rt,
        rt.alloc(),
        "r 1 0 0 0/r 2 0 0 2/r 2 1 1 0/x 2/q",
        false,
    )
}
