//! Pins and steps: the lines of two kinds of files, read into values, and why no problem can be built with pins.
//!
//! Both files are texts of lines that end with LF or CRLF; the last line may lack its end. Words are parted by blanks
//! or TABs. A line without a word, or whose first byte is `#`, is passed over, but it counts. Lines count from 1.
#![tactic(auto)]

mod fault;
pub mod laws;
mod pins;
mod steps;
mod words;

pub use fault::BuildFault;
pub use pins::{PinFault, PinLine, keep_of, read_pins};
pub use steps::{RangeFault, Step, StepFault, StepLine, read_steps, steps_fit};
pub use words::{Words, is_skipped, number32};
