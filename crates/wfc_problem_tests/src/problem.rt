//! Small problems by hand, and each refusal.

ghost use Rattle.std.specs.Prelude.{◌≡◌};
ghost use Rattle.wfc_problem.specs.Network.{values};

use std::alloc::{AllocError, Global};
use std::process::Abort;
use std::test::Fail;
use wfc_problem::{
    Literal, MAX_WEIGHT, NO_CELL, Part, Parts, Problem, ProblemFault, greatest_domains, opposite,
};

/// A way to spoil the parts of `spoiled`, in the order of the checks.
#[derive(Clone, Copy, Debug, PartialEq, Eq)]
enum Spoil {
    Directions,
    NoWeights,
    MoreNeighbours,
    FewerSupports,
    MoreFlags,
    StrangeNeighbour,
    FallingSupports,
    NoWeight,
    OneWay,
    OneSided,
}

const SPOILS: [Spoil; 10] = [
    Spoil::Directions,
    Spoil::NoWeights,
    Spoil::MoreNeighbours,
    Spoil::FewerSupports,
    Spoil::MoreFlags,
    Spoil::StrangeNeighbour,
    Spoil::FallingSupports,
    Spoil::NoWeight,
    Spoil::OneWay,
    Spoil::OneSided,
];

/// What is refused where the parts are spoiled so.
fn refusal(spoil: Spoil) -> ProblemFault {
    match spoil {
        Spoil::Directions => ProblemFault::Lengths { part: Part::Cells },
        Spoil::NoWeights => ProblemFault::Lengths {
            part: Part::Weights,
        },
        Spoil::MoreNeighbours => ProblemFault::Lengths {
            part: Part::Neighbours,
        },
        Spoil::FewerSupports => ProblemFault::Lengths {
            part: Part::Supports,
        },
        Spoil::MoreFlags => ProblemFault::Lengths { part: Part::Base },
        Spoil::StrangeNeighbour => ProblemFault::BadIndex {
            part: Part::Neighbours,
            at: 5,
        },
        Spoil::FallingSupports => ProblemFault::BadIndex {
            part: Part::Supports,
            at: 6,
        },
        Spoil::NoWeight => ProblemFault::BadWeight { value: 1 },
        Spoil::OneWay => ProblemFault::NotBack { cell: 0, dir: 2 },
        Spoil::OneSided => ProblemFault::NotSymmetric { value: 1, dir: 3 },
    }
}

/// Two cells side by side and two values that may stand beside each other in all ways, but for what
/// is spoiled.
fn spoiled(alloc: Global, spoils: &[Spoil]) -> Result<Parts, AllocError> {
    Ok(Parts {
        cells: 2,
        dirs: if spoils.contains(&Spoil::Directions) {
            5
        } else {
            4
        },
        neighbours: spoiled_neighbours(alloc, spoils)?,
        weights: spoiled_weights(alloc, spoils)?,
        supports: spoiled_supports(alloc, spoils)?,
        base: spoiled_base(alloc, spoils)?,
    })
}

fn spoiled_neighbours(alloc: Global, spoils: &[Spoil]) -> Result<Vec<u32>, AllocError> {
    let left = if spoils.contains(&Spoil::OneWay) {
        NO_CELL
    } else {
        0
    };
    let below = if spoils.contains(&Spoil::StrangeNeighbour) {
        2
    } else {
        NO_CELL
    };
    let table = [
        NO_CELL, NO_CELL, 1, NO_CELL, left, below, NO_CELL, NO_CELL, NO_CELL,
    ];
    let len = if spoils.contains(&Spoil::MoreNeighbours) {
        9
    } else {
        8
    };
    Vec::from_slice(alloc, &table[..len])
}

fn spoiled_weights(alloc: Global, spoils: &[Spoil]) -> Result<Vec<u32>, AllocError> {
    let last = if spoils.contains(&Spoil::NoWeight) {
        0
    } else {
        1
    };
    let table = [MAX_WEIGHT, last];
    let len = if spoils.contains(&Spoil::NoWeights) {
        0
    } else {
        2
    };
    Vec::from_slice(alloc, &table[..len])
}

fn spoiled_supports(alloc: Global, spoils: &[Spoil]) -> Result<Vec<Vec<u16>>, AllocError> {
    let lists = if spoils.contains(&Spoil::FewerSupports) {
        7
    } else {
        8
    };
    let mut supports = Vec::new(alloc);
    for list in 0..lists {
        supports.push(Vec::from_slice(alloc, spoiled_list(list, spoils))?)?;
    }
    Ok(supports)
}

fn spoiled_list(list: u8, spoils: &[Spoil]) -> &'static [u16] {
    if list == 1 && spoils.contains(&Spoil::OneSided) {
        &[0]
    } else if list == 6 && spoils.contains(&Spoil::FallingSupports) {
        &[0, 0]
    } else {
        &[0, 1]
    }
}

fn spoiled_base(alloc: Global, spoils: &[Spoil]) -> Result<Vec<bool>, AllocError> {
    let table = [true, false, true, true, true];
    let len = if spoils.contains(&Spoil::MoreFlags) {
        5
    } else {
        4
    };
    Vec::from_slice(alloc, &table[..len])
}

/// So many cells whose entries of the neighbour table are all the same, and so many values that
/// support none.
fn uniform(
    alloc: Global,
    cells: u16,
    entry: u32,
    values: u16,
    weight: u32,
) -> Result<Parts, AllocError> {
    let mut supports = Vec::new(alloc);
    for _list in 0..values as usize * 4 {
        supports.push(Vec::new(alloc))?;
    }
    Ok(Parts {
        cells: cells as u32,
        dirs: 4,
        neighbours: vec![in alloc; entry; cells as usize * 4]?,
        weights: vec![in alloc; weight; values as usize]?,
        supports,
        base: vec![in alloc; true; cells as usize * values as usize]?,
    })
}

/// For each of two values the other, in each of so many directions.
fn the_other(alloc: Global, dirs: u8) -> Result<Vec<Vec<u16>>, AllocError> {
    let mut supports = Vec::new(alloc);
    for value in 0..2u16 {
        for _dir in 0..dirs {
            supports.push(Vec::from_slice(alloc, &[1 - value])?)?;
        }
    }
    Ok(supports)
}

/// Cells with this table of neighbours, and two values that may stand in each direction beside the
/// other alone.
pub(crate) fn striped(
    alloc: Global,
    cells: u16,
    dirs: u8,
    neighbours: &[u32],
) -> Result<Parts, AllocError> {
    Ok(Parts {
        cells: cells as u32,
        dirs,
        neighbours: Vec::from_slice(alloc, neighbours)?,
        weights: Vec::from_slice(alloc, &[1, 3])?,
        supports: the_other(alloc, dirs)?,
        base: vec![in alloc; true; cells as usize * 2]?,
    })
}

/// These parts are a problem of this depth.
fn has_depth(rt: &impl Abort, parts: Parts, wanted: u32) -> Result<(), Fail> {
    let problem = Problem::new(parts)?;
    assert_eq!(rt; problem.depth(), wanted);
    Ok(())
}

/// These parts are no problem, for this reason.
fn is_refused(rt: &impl Abort, parts: Parts, wanted: ProblemFault) {
    assert_eq!(rt; Problem::new(parts).err(), Some(wanted));
}

#[test]
fn a_single_cell(rt: HostRuntime) -> Result<(), Fail> {
    has_depth(&rt, uniform(rt.alloc(), 1, NO_CELL, 1, 1)?, 1)?;
    // One that is its own neighbour.
    has_depth(&rt, uniform(rt.alloc(), 1, 0, 1, 1)?, 1)?;
    let fault = ProblemFault::BadWeight { value: 0 };
    is_refused(&rt, uniform(rt.alloc(), 1, NO_CELL, 1, 0)?, fault);
    is_refused(
        &rt,
        uniform(rt.alloc(), 1, NO_CELL, 1, MAX_WEIGHT + 1)?,
        fault,
    );
    Ok(())
}

/// Of two faults the one that is checked first is told.
fn the_earlier_is_told(
    rt: &impl Abort,
    alloc: Global,
    first: Spoil,
    other: Spoil,
) -> Result<(), Fail> {
    let fault = Problem::new(spoiled(alloc, &[first, other])?).err();
    let earlier = if (first as u8) < other as u8 {
        first
    } else {
        other
    };
    assert_eq!(rt; fault, Some(refusal(earlier)), "at {first:?} and {other:?}");
    Ok(())
}

#[test]
fn each_refusal_comes_in_its_order(rt: HostRuntime) -> Result<(), Fail> {
    assert!(rt; Problem::new(spoiled(rt.alloc(), &[])?).is_ok());
    for first in SPOILS {
        for other in SPOILS {
            the_earlier_is_told(&rt, rt.alloc(), first, other)?;
        }
    }
    Ok(())
}

/// One flag too many in the base is found before the pairs are counted.
fn a_longer_base_is_refused(rt: &impl Abort, alloc: Global) -> Result<(), Fail> {
    let mut longer = uniform(alloc, 2049, NO_CELL, 4096, 1)?;
    longer.base.push(true)?;
    is_refused(rt, longer, ProblemFault::Lengths { part: Part::Base });
    Ok(())
}

#[test]
fn the_limit_of_pairs(rt: HostRuntime) -> Result<(), Fail> {
    let full = uniform(rt.alloc(), 2048, NO_CELL, 4096, 1)?;
    has_depth(&rt, full, 8_388_608)?;
    let many = uniform(rt.alloc(), 2049, 2049, 4096, 0)?;
    is_refused(&rt, many, ProblemFault::TooLarge { product: 8_392_704 });
    a_longer_base_is_refused(&rt, rt.alloc())?;
    let values = uniform(rt.alloc(), 1, NO_CELL, 4097, 1)?;
    let part = Part::Weights;
    is_refused(&rt, values, ProblemFault::Lengths { part });
    Ok(())
}

/// What lies beside two cells side by side, and which values may stand there.
fn sides_are_read(rt: &impl Abort, problem: &Problem)
    requires cells { problem.now.cells ≡ 2 }
    requires values { values problem.now ≡ 2 }
    requires dirs { problem.now.dirs ≡ 4 }
{
    let beside = [
        problem.neighbour(0, 2),
        problem.neighbour(1, 2),
        problem.neighbour(1, 0),
    ];
    assert_eq!(rt; beside, [Some(1), None, Some(0)]);
    assert_eq!(rt; problem.supports(1, 3), [0, 1].as_slice());
    assert!(rt; problem.ok(3, 1, 0));
}

/// The base of two cells, of which the first lacks value 1, and the weights.
fn values_are_read(rt: &impl Abort, problem: &Problem)
    requires cells { problem.now.cells ≡ 2 }
    requires values { values problem.now ≡ 2 }
{
    assert_eq!(rt;
        [problem.in_base(0, 1), problem.in_base(1, 0)],
        [false, true]
    );
    assert_eq!(rt; [problem.weight(0), problem.weight(1)], [MAX_WEIGHT, 1]);
}

/// Two cells, two values and four directions, and what belongs to them.
fn two_cells_are_read(rt: &impl Abort, problem: &Problem) {
    assert_eq!(rt; problem.cells(), 2);
    assert_eq!(rt; problem.values(), 2);
    assert_eq!(rt; problem.dirs(), 4);
    sides_are_read(rt, problem);
    values_are_read(rt, problem);
}

#[test]
fn what_is_read(rt: HostRuntime) -> Result<(), Fail> {
    let problem = Problem::new(spoiled(rt.alloc(), &[])?)?;
    two_cells_are_read(&rt, &problem);
    let flags = [true, false, true, true];
    base_is(&rt, rt.alloc(), &problem, &flags, false, 3)
}

/// A flag for each pair, set where the cell may have the value.
fn flags_of(alloc: Global, problem: &Problem) -> Result<Vec<bool>, AllocError> {
    let mut flags = Vec::new(alloc);
    for cell in 0..problem.cells() {
        for value in 0..problem.values() {
            flags.push(problem.in_base(cell, value))?;
        }
    }
    Ok(flags)
}

/// The flags of the base, whether all are set, and how many are.
fn base_is(
    rt: &impl Abort,
    alloc: Global,
    problem: &Problem,
    wanted: &[bool],
    whole: bool,
    depth: u32,
) -> Result<(), Fail> {
    assert_eq!(rt; flags_of(alloc, problem)?.as_slice(), wanted);
    assert_eq!(rt; (problem.is_whole(), problem.depth()), (whole, depth));
    Ok(())
}

/// Three cells with two values, but that the last cell may not have the last value.
fn without_the_last(alloc: Global) -> Result<Parts, AllocError> {
    let mut base = vec![in alloc; true; 5]?;
    base.push(false)?;
    let parts = uniform(alloc, 3, NO_CELL, 2, 1)?;
    Ok(Parts { base, ..parts })
}

#[test]
fn a_whole_base(rt: HostRuntime) -> Result<(), Fail> {
    let whole = Problem::new(uniform(rt.alloc(), 3, NO_CELL, 2, 1)?)?;
    base_is(&rt, rt.alloc(), &whole, &[true; 6], true, 6)
}

#[test]
fn a_base_without_its_last_flag(rt: HostRuntime) -> Result<(), Fail> {
    let cut = Problem::new(without_the_last(rt.alloc())?)?;
    let flags = [true, true, true, true, true, false];
    base_is(&rt, rt.alloc(), &cut, &flags, false, 5)
}

#[test]
fn six_directions_and_back(rt: HostRuntime) -> Result<(), Fail> {
    for (dir, back) in [(0, 2), (1, 3), (2, 0), (3, 1), (4, 5), (5, 4)] {
        assert_eq!(rt; opposite(dir), back);
    }
    Ok(())
}

#[test]
fn six_directions(rt: HostRuntime) -> Result<(), Fail> {
    let none = NO_CELL;
    let stacked = [
        none, none, none, none, 1, none, none, none, none, none, none, 0,
    ];
    has_depth(&rt, striped(rt.alloc(), 2, 6, &stacked)?, 4)?;
    let twisted = [
        none, none, none, none, 1, none, none, none, none, none, 0, none,
    ];
    let fault = ProblemFault::NotBack { cell: 0, dir: 4 };
    is_refused(&rt, striped(rt.alloc(), 2, 6, &twisted)?, fault);
    Ok(())
}

const FIRST_IS_0: Literal = Literal::Is { cell: 0, value: 0 };

const FIRST_NOT_1: Literal = Literal::Not { cell: 0, value: 1 };

const SECOND_NOT_1: Literal = Literal::Not { cell: 1, value: 1 };

const SECOND_IS_1: Literal = Literal::Is { cell: 1, value: 1 };

const THIRD_IS_1: Literal = Literal::Is { cell: 2, value: 1 };

/// What is left of the base of a problem under these literals.
fn leaves(
    rt: &impl Abort,
    alloc: Global,
    problem: &Problem,
    literals: &[Literal],
    wanted: &[bool],
) -> Result<(), Fail> {
    let left = greatest_domains(alloc, problem, literals)?;
    assert_eq!(rt; left.as_slice(), wanted);
    Ok(())
}

#[test]
fn rounds_on_a_ring(rt: HostRuntime) -> Result<(), Fail> {
    let none = NO_CELL;
    let ring = [2, none, 1, none, 0, none, 2, none, 1, none, 0, none];
    let problem = Problem::new(striped(rt.alloc(), 3, 4, &ring)?)?;
    leaves(&rt, rt.alloc(), &problem, &[], &[true; 6])?;
    leaves(&rt, rt.alloc(), &problem, &[FIRST_IS_0], &[false; 6])
}

#[test]
fn rounds_on_a_row(rt: HostRuntime) -> Result<(), Fail> {
    let none = NO_CELL;
    let row = [none, none, 1, none, 0, none, 2, none, 1, none, none, none];
    let problem = Problem::new(striped(rt.alloc(), 3, 4, &row)?)?;
    let left = [false, true, true, false, false, true];
    leaves(&rt, rt.alloc(), &problem, &[SECOND_NOT_1], &left)
}

/// A cell with one beside it, and one on the layer above that.
#[test]
fn rounds_through_six_directions(rt: HostRuntime) -> Result<(), Fail> {
    let none = NO_CELL;
    let bent = [
        none, none, 1, none, none, none, 0, none, none, none, 2, none, none, none, none, none,
        none, 1,
    ];
    let problem = Problem::new(striped(rt.alloc(), 3, 6, &bent)?)?;
    let several = [FIRST_NOT_1, SECOND_IS_1, FIRST_IS_0];
    let chosen = [true, false, false, true, true, false];
    leaves(&rt, rt.alloc(), &problem, &several, &chosen)?;
    let at_odds = [FIRST_NOT_1, THIRD_IS_1];
    leaves(&rt, rt.alloc(), &problem, &at_odds, &[false; 6])
}

/// The same, with one pair of a cell and a base value, whose flag stands at this place.
fn single(alloc: Global, parts: Parts, place: usize) -> Result<Parts, AllocError> {
    let mut base = Vec::new(alloc);
    for at in 0..parts.base.len() {
        base.push(at == place)?;
    }
    Ok(Parts { base, ..parts })
}

/// Of so many flags one is set, at this place.
fn one_is_set(rt: &impl Abort, flags: &[bool], count: usize, place: usize) {
    assert_eq!(rt; flags.len(), count);
    assert_eq!(rt; flags.iter().filter(|&&flag| flag).count(), 1);
    assert_eq!(rt; flags.get(place), Some(&true));
}

/// With ample memory there is an answer for the largest problem.
#[test]
fn rounds_of_the_most_pairs(rt: HostRuntime) -> Result<(), Fail> {
    let full = uniform(rt.alloc(), 2048, NO_CELL, 4096, 1)?;
    let problem = Problem::new(single(rt.alloc(), full, 5000)?)?;
    let flags = greatest_domains(rt.alloc(), &problem, &[FIRST_NOT_1, SECOND_NOT_1])?;
    one_is_set(&rt, &flags, 8_388_608, 5000);
    Ok(())
}
