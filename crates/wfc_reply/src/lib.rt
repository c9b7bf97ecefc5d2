//! What a call of the program is asked for, and what a command replies: its answer with a verdict, or a fault; and the
//! choosers that it takes.
#![tactic(auto)]

mod behind;
mod choosers;
pub mod laws;
mod putting;
mod reply;

pub use behind::put_run_behind;
pub use choosers::{first_chooser, first_many, kinds};
pub use putting::{RunWriting, put_run};
pub use reply::{Answer, CommandVerdict, Stop};
