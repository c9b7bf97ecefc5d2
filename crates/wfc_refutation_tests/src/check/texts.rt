//! Texts that are whole in memory, hostile ones among them.

use super::{ring, shape, side_by_side, text};
use std::alloc::Global;
use std::process::Abort;
use std::test::Fail;
use wfc_check::{CheckFault, Reject, check_bytes};
use wfc_problem::Problem;
use wfc_proof::Shape;

fn bad(line: u64) -> Result<(), CheckFault> {
    Err(CheckFault::BadLine { line })
}

fn rejected(line: u64, reject: Reject) -> Result<(), CheckFault> {
    Err(CheckFault::Rejected { line, reject })
}

/// A problem, and the head that a text about it begins with.
#[derive(Drop)]
struct About {
    problem: Problem,
    head: &'static str,
}

/// Texts of format 1 for two cells side by side.
fn about_two(alloc: Global) -> Result<About, Fail> {
    Ok(About {
        problem: side_by_side(alloc)?,
        head: "wfc-refutation 1/cells 2 values 1/",
    })
}

/// The answer to a text that goes on behind its head.
fn answer(
    rt: &impl Abort,
    alloc: Global,
    about: &About,
    strokes: &str,
) -> Result<Result<(), CheckFault>, Fail> {
    let mut bytes = text(alloc, about.head)?;
    bytes.extend_from_slice(&text(alloc, strokes)?)?;
    assert!(rt; bytes.len() < 1000);
    Ok(check_bytes(alloc, &about.problem, &shape(), &bytes))
}

/// What is answered to a text that goes on behind its head.
fn answered(
    rt: &impl Abort,
    alloc: Global,
    about: &About,
    strokes: &str,
    want: Result<(), CheckFault>,
) -> Result<(), Fail> {
    let got = answer(rt, alloc, about, strokes)?;
    assert_eq!(rt; got, want, "{strokes}");
    Ok(())
}

/// What is answered to each text.
fn are_answered(
    rt: &impl Abort,
    alloc: Global,
    about: &About,
    cases: &[(&str, Result<(), CheckFault>)],
) -> Result<(), Fail> {
    for (strokes, want) in cases {
        answered(rt, alloc, about, strokes, *want)?;
    }
    Ok(())
}

/// Each head with its answer.
fn heads(rt: &impl Abort, alloc: Global, about: &About) -> Result<(), Fail> {
    let differ = Err(CheckFault::HeaderDiffers {
        cells: 2,
        values: 2,
    });
    let unended = Err(CheckFault::NotEnded);
    let cases = [
        ("", bad(1)),
        ("wfc-refutation 3/", bad(1)),
        ("wfc-refutation 1", bad(1)),
        ("wfc-refutation 1/", unended),
        ("wfc-refutation 1/cells 02 values 1/", bad(2)),
        ("wfc-refutation 1/cells 4294967296 values 1/", bad(2)),
        ("wfc-refutation 1/cells 2 values 2/", differ),
        ("wfc-refutation 1/cells 2 values 1/", unended),
    ];
    are_answered(rt, alloc, about, &cases)
}

/// What is answered to heads for two cells side by side.
#[test]
fn hostile_heads_are_answered(rt: HostRuntime) -> Result<(), Fail> {
    let about = About {
        problem: side_by_side(rt.alloc())?,
        head: "",
    };
    heads(&rt, rt.alloc(), &about)
}

/// Each text with lines that are refused.
fn texts(rt: &impl Abort, alloc: Global, about: &About) -> Result<(), Fail> {
    let out = rejected(3, Reject::IndexRange);
    let cases = [
        ("x 0/", rejected(3, Reject::NotEmpty { value: 0 })),
        ("r 0 0 2/r 0 0 2/", rejected(4, Reject::NotStanding)),
        ("r 2 0 2/", out),
        ("r 0 1 2/", out),
        ("r 0 0 4/", out),
        ("t 0 0/", rejected(3, Reject::OnlyValue)),
        ("r  0 0 2/", bad(3)),
        ("r 0 0 0 2/", bad(3)),
        (
            "xxxxxxxxxxxxxxxxxxxxxxxxxxxxxxxxxxxxxxxxxxxxxxxxxxxxxxxxxxxxxxxxx/",
            bad(3),
        ),
    ];
    are_answered(rt, alloc, about, &cases)
}

/// What is answered to texts whose lines don't stand, or are no line.
#[test]
fn hostile_texts_are_answered(rt: HostRuntime) -> Result<(), Fail> {
    let about = about_two(rt.alloc())?;
    texts(&rt, rt.alloc(), &about)
}

/// Each text with an end, or where one should be.
fn ends(rt: &impl Abort, alloc: Global, about: &About) -> Result<(), Fail> {
    let after = rejected(5, Reject::AfterEnd);
    let cases = [
        ("r 1 0 0/x 1/q/", Ok(())),
        ("s/", rejected(3, Reject::NotClosed)),
        ("r 0 0 2/q/", rejected(4, Reject::NotClosed)),
        ("r 0 0 2/x 0/x 0/", after),
        ("r 0 0 2/x 0/s/", after),
        ("r 0 0 2/x 0/q/q/", rejected(6, Reject::AfterEnd)),
        ("r 0 0 2/x 0/q/z/", bad(6)),
        ("r 0 0 2/x 0/q", bad(5)),
    ];
    are_answered(rt, alloc, about, &cases)
}

/// What is answered to texts that end at once, too early, or not where they should.
#[test]
fn hostile_ends_are_answered(rt: HostRuntime) -> Result<(), Fail> {
    let about = about_two(rt.alloc())?;
    ends(&rt, rt.alloc(), &about)
}

/// Each text of format 2 with its answer.
fn texts_of_format_2(rt: &impl Abort, alloc: Global, about: &About) -> Result<(), Fail> {
    let differ = Err(CheckFault::OptionsDiffer {
        found: Shape {
            symmetry: 8,
            ..shape()
        },
    });
    let out = rejected(4, Reject::IndexRange);
    let cases = [
        ("for 2 3 2 1 1 0 0/r 0 0 0 2/x 0/q/", Ok(())),
        ("for 2 3 2 1 8 0 0/r 0 0 0 2/x 0/q/", differ),
        ("for 7 3 2 1 1 0 0/", bad(3)),
        ("for 2 3 2 1 1 0 2/", bad(3)),
        ("for 2 3 2 1 01 0 0/", bad(3)),
        ("for 2 3 2 1 1 0 0/r 0 1 0 2/", bad(4)),
        ("for 2 3 2 1 1 0 0/r 0 0 2/", bad(4)),
        ("for 2 3 2 1 1 0 0/r 0 0 2 2/", out),
    ];
    are_answered(rt, alloc, about, &cases)
}

/// The head of format 2 names the shape, and a removal is of neighbouring values.
#[test]
fn texts_of_format_2_are_answered(rt: HostRuntime) -> Result<(), Fail> {
    let about = About {
        problem: side_by_side(rt.alloc())?,
        head: "wfc-refutation 2/cells 2 values 1/",
    };
    texts_of_format_2(&rt, rt.alloc(), &about)
}

/// Each text with branches and its answer.
fn branches(rt: &impl Abort, alloc: Global, about: &About) -> Result<(), Fail> {
    let both = "t 0 0/r 1 0 0/r 2 0 2/r 2 1 0/x 2/r 1 1 0/r 2 1 2/r 2 0 0/x 2/q/";
    let first = "t 0 0/r 1 0 0/r 2 0 2/r 2 1 0/x 2/q/";
    let later = "t 0 0/r 2 1 0/r 1 0 0/";
    let cases = [
        (both, Ok(())),
        (first, rejected(8, Reject::NotClosed)),
        (later, rejected(4, Reject::HasSupport { value: 0 })),
    ];
    are_answered(rt, alloc, about, &cases)
}

/// A value is tried, and both branches are refuted; an end after the first is refused, and so is a removal whose support
/// goes later.
#[test]
fn branches_are_refuted(rt: HostRuntime) -> Result<(), Fail> {
    let about = About {
        problem: ring(rt.alloc())?,
        head: "wfc-refutation 1/cells 3 values 2/",
    };
    branches(&rt, rt.alloc(), &about)
}
