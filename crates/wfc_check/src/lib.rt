//! Whether lines are those of a proof that a problem has no legal assignment.
//!
//! The checker stands on the problem and on the definitions of proofs, and on no engine: what it accepts is right
//! whatever wrote the lines.
#![tactic(auto)]

mod bytes;
mod checker;
mod fault;
mod file;
pub mod laws;
mod nodes;
mod progress;
mod reading;
mod stream;
mod trail;

pub use bytes::check_bytes;
pub use checker::{Checker, is_proof};
pub use fault::CheckFault;
pub use file::check;
pub use progress::Progress;
pub use reading::{MAX_LINE_BYTES, MAX_REFUTATION_BYTES};
pub use wfc_proof::Reject;
