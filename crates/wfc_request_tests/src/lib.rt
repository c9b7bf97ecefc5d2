//! Tests of the words of a command, and of what they come to: in a crate of their own over the libraries, which are so proved once.
#![tactic(auto)]

#[cfg(test)]
mod task;
#[cfg(test)]
mod words;
