//! Domains under literals that are put on and taken away: what an engine keeps, and what every engine promises.
#![tactic(auto)]

mod beside;
mod board;
mod copies;
mod counters;
pub mod examples;
pub mod laws;
mod levels;
mod pairs;
mod plain;
mod singles;
mod steps;
mod store;

pub use board::{Board, is_alive};
pub use counters::Counters;
pub use counters::lowering::{mask_at, unit_at};
pub use levels::Levels;
pub use plain::PlainStore;
use std::alloc::AllocError;
pub use steps::Steps;
pub use store::Store;
pub use wfc_log::{Cause, Domains, Loss, Removal, Trail, Verdict};

/// Why a store was not opened.
#[derive(Clone, Copy, Debug, PartialEq, Eq)]
pub enum OpenFault {
    NoMemory,
}

impl From<AllocError> for OpenFault {
    fn from(_error: AllocError) -> OpenFault {
        OpenFault::NoMemory
    }
}
