//! How far a proof has come.

/// Whether a branch is open, the proof is closed, or its end was read.
#[derive(Clone, Copy, Debug, PartialEq, Eq)]
pub enum Progress {
    Going,
    Closed,
    Ended,
}
