//! How far a search has come.

use crate::Outcome;

/// How far a search has come.
#[derive(Clone, Copy, Debug)]
pub struct Course {
    pub budget: u32,
    pub retractions: u32,
    pub outcome: Option<Outcome>,
    pub broken: bool,
}
