//! A constraint problem as a proved value: cells, what lies beside what, the values with their
//! weights, which value may stand beside which, and the values that each cell begins with. Beside
//! it: what a literal cuts off, and what the greatest arc-consistent domains of a problem are.
#![tactic(auto)]

ghost use Rattle.std.specs.Prelude.{◌≡◌, ◌<◌};
ghost use Rattle.wfc_model.specs.Direction.{opposite};

mod checks;
mod entries;
pub mod examples;
mod hops;
pub mod laws;
mod making;
mod plain;
mod reading;
mod strides;
mod symmetry;

use hops::Hops;
pub use hops::{hop_cell, hop_end};
pub use plain::greatest_domains;
use std::marker::Model;
pub use strides::{FourSides, Strides};
use thiserror::Error;

/// The most values that a problem has.
pub const MAX_VALUES: u16 = 4096;

/// The most pairs of a cell and a value that a problem has.
pub const MAX_PAIRS: u64 = 8_388_608;

/// The largest weight of a value; the least is 1.
pub const MAX_WEIGHT: u32 = 16_777_216;

/// The entry of a neighbour table where a cell has no neighbour.
pub const NO_CELL: u32 = 4_294_967_295;

/// The hop of a cell where it has no neighbour. Between two cells no hop is so far, since there are at most `MAX_PAIRS`.
pub const NO_HOP: u32 = 2_147_483_648;

/// What a step of a search says of one cell: it has this value, or it doesn't have it. The value stands beside the tag,
/// so that eight bytes hold it.
#[derive(Clone, Copy, Debug, PartialEq, Eq)]
pub enum Literal {
    Is { value: u16, cell: u32 },
    Not { value: u16, cell: u32 },
}

/// A field of `Parts`; `Cells` stands for the number of cells and that of directions.
#[derive(Clone, Copy, Debug, PartialEq, Eq)]
pub enum Part {
    Cells,
    Neighbours,
    Weights,
    Supports,
    Base,
}

/// What a problem is made of. Each table is written row by row.
#[derive(Debug, Drop)]
pub struct Parts {
    /// How many cells there are, at least 1.
    pub cells: u32,
    /// How many directions there are, 4 or 6. 0 and 2, 1 and 3, 4 and 5 are opposite.
    pub dirs: u8,
    /// For each cell and direction the cell that lies there, or `NO_CELL`.
    pub neighbours: Vec<u32>,
    /// For each value how much it weighs in a draw, 1 to `MAX_WEIGHT`.
    pub weights: Vec<u32>,
    /// For each value and direction the values that may stand there beside it, strictly rising.
    pub supports: Vec<Vec<u16>>,
    /// For each cell and value whether the cell may have it at all.
    pub base: Vec<bool>,
}

impl Model for Parts {
    ghost use Rattle.std.specs.Prelude.{map};
    ghost use Rattle.wfc_problem.specs.Network.{Network};

    ghost Value = { Network };

    ghost view = { λ a. record {
      cells = a.cells;
      dirs = a.dirs;
      neighbours = a.neighbours.items;
      weights = a.weights.items;
      supports = map (λ v. v.items) a.supports.items;
      base = a.base.items;
    } };
}

/// Why parts are no problem.
#[derive(Clone, Copy, Debug, PartialEq, Eq, Error)]
pub enum ProblemFault {
    /// There are more than `MAX_PAIRS` pairs of a cell and a value, namely `product`.
    #[error("too many pairs of a cell and a value")]
    TooLarge { product: u64 },
    /// Some value may stand beside `value` in direction `dir`, but not `value` beside it the other
    /// way.
    #[error("a value supports one that does not support it")]
    NotSymmetric { value: u16, dir: u8 },
    /// Entry `at` of the neighbours is no cell, or list `at` of the supports doesn't rise below the
    /// number of values.
    #[error("an index is out of range or out of order")]
    BadIndex { part: Part, at: u32 },
    /// There was no memory left.
    #[error("out of memory")]
    NoMemory,
    /// The neighbour of `cell` in direction `dir` doesn't have `cell` as its neighbour the other
    /// way.
    #[error("a neighbour does not lead back")]
    NotBack { cell: u32, dir: u8 },
    /// A part hasn't the length, or the count, that it is to have.
    #[error("a part has the wrong length")]
    Lengths { part: Part },
    /// The weight of `value` is 0 or above `MAX_WEIGHT`.
    #[error("a weight is out of range")]
    BadWeight { value: u16 },
}

/// The direction that leads back.
#[inline]
pub fn opposite(dir: u8) -> u8
    requires dir_in { dir < 6 }
    ensures value { result ≡ opposite dir }
{
    if dir < 4 { (dir + 2) % 4 } else { 9 - dir }
}

/// A constraint problem. Cells, values and directions count from 0.
#[derive(Debug, Drop)]
pub struct Problem {
    /// With no flags in the base where each of them is set, and with no neighbours.
    parts: Parts,
    whole: bool,
    hops: Hops,
}

impl Model for Problem {
    ghost use Rattle.wfc_problem.specs.Network.{Network};
    ghost use Rattle.wfc_problem.specs.Whole.{network_of};
    ghost use Rattle.wfc_problem.specs.Hops.{HasBeside};

    ghost Value = { Network };

    ghost view = { λ a. network_of a.whole (record a.parts { neighbours = a.hops.entries }) };

    ghost invariant = { λ a. HasBeside a.whole a.parts a.hops };
}
