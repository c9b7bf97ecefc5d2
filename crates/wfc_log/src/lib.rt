//! Domains as flags, and the log of what was removed from them: what an engine writes at each step.
#![tactic(auto)]

ghost use Rattle.std.specs.Prelude.{◌≡◌};
ghost use Rattle.wfc_log.specs.Log.{loss_of};

mod bits;
mod domains;
pub mod examples;
mod older;
mod packed;
mod tops;
mod trail;

pub use domains::Domains;
pub use trail::Trail;

/// Why a value was removed: an assumed literal cuts it, or no value that stands at the neighbour in this direction
/// supports it.
#[derive(Clone, Copy, Debug, PartialEq, Eq)]
pub enum Cause {
    Assumed,
    Arc(u8),
}

/// A value that no longer stands at a cell. `before` is how many values stood there just before.
#[derive(Clone, Copy, Debug, PartialEq, Eq)]
pub struct Removal {
    pub cell: u32,
    pub value: u16,
    pub before: u16,
    pub cause: Cause,
}

/// What a removal took away: a value at a cell, and why.
#[derive(Clone, Copy, Debug, PartialEq, Eq)]
pub struct Loss {
    pub cell: u32,
    pub value: u16,
    pub cause: Cause,
}

impl Removal {
    /// What it took away.
    #[inline]
    pub fn loss(self) -> Loss
        ensures value { result ≡ loss_of self }
    {
        Loss {
            cell: self.cell,
            value: self.value,
            cause: self.cause,
        }
    }
}

/// Whether each cell has a value left, or which cell has none.
#[derive(Clone, Copy, Debug, PartialEq, Eq)]
pub enum Verdict {
    Alive,
    Dead { cell: u32 },
}
