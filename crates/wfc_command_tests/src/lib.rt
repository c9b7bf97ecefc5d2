//! Command lines with what they answer, and devices that fail: tests of the whole program, in a crate of their own over its one call.
#![tactic(auto)]

#[cfg(test)]
mod compare;
#[cfg(test)]
mod devices;
#[cfg(test)]
mod hostile;
#[cfg(test)]
mod rows;
#[cfg(test)]
mod tiles;
