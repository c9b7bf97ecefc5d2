//! The words of each command. A command is a row of a table, which `clap` reads as one simple command; what the words
//! mean is `clap`'s definition of it.
#![tactic(auto)]

mod asked;
mod commands;
mod fault;
mod groups;
mod kinds;
pub mod laws;
mod named;
mod numbers;
mod reading;
mod simple;
mod texts;
mod values;

pub use asked::Request;
pub use fault::{CommandFault, ValueName};
pub use kinds::{CommandKind, SourceModel};
pub use reading::request;
