//! Tests of what a command writes, and of the lines on the error stream: in a crate of their own over the libraries, which are
//! so proved once.
#![tactic(auto)]

#[cfg(test)]
mod lines;
#[cfg(test)]
mod render;
