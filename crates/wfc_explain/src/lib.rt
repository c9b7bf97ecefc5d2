//! Why no map exists: which lines of a pins file are to blame.
//!
//! Lines are left out one after the other, and one without which the others still have no map is
//! dropped for good. So the lines that stay admit no map by themselves, and without one of them
//! that is needed the others admit one.
#![tactic(auto)]

ghost use Rattle.std.specs.Prelude.{◌≡◌, length, IfOk};
ghost use Rattle.wfc_explain.specs.Pinned.{PinnedView, IsPinned};

pub mod examples;
mod explained;
mod kept;
pub mod laws;
mod overlap_pins;
mod runs;
mod tile_pins;
mod trial;

pub use explained::{Core, Explained, Kept, Mark};
pub use overlap_pins::OverlapPins;
use std::alloc::Global;
pub use tile_pins::TilePins;
pub use trial::explain;
use wfc_outside::NoMemory;
use wfc_problem::Problem;

/// A problem whose lines of pins and bans can be left out.
pub trait PinnedProblem {
    /// How many lines there are, and the problem of those that are kept.
    ghost seen: { Self → PinnedView };

    /// How many lines there are.
    fn lines(&self) -> u32
        ensures value { result ≡ (seen self.now).lines }
        ensures pinned { IsPinned (seen self.now) };

    /// The problem of the lines that are kept, of which `keep` has a truth value for each line.
    fn problem(&self, alloc: Global, keep: &[bool]) -> Result<Problem, NoMemory>
        requires each_line { length keep.now ≡ (seen self.now).lines }
        ensures value { IfOk result (λ problem. problem ≡ (seen self.now).problem_of keep.now) };
}
