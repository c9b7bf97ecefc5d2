//! Tests of boxes: in a crate of their own over the libraries, which are so proved once.
#![tactic(auto)]

#[cfg(test)]
mod boxes;
#[cfg(test)]
mod pins;
#[cfg(test)]
mod sets;
#[cfg(test)]
mod texts;
