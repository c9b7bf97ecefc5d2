//! Plans: which files a command reads, in which order, and what it refuses on the way; the faults that stop it, and
//! their exit statuses.
#![tactic(auto)]

mod causes;
mod choosing;
mod fault;
pub mod laws;
mod reading;

pub use choosing::enough;
pub use fault::{Fault, FaultClass, Refusal, Source};
pub use reading::whole_file;
