//! Tests of commands whose answers are read again by others: the lines to blame, maps that are grown, boxes and refutations.
#![tactic(auto)]

#[cfg(test)]
mod boxes;
#[cfg(test)]
mod cores;
#[cfg(test)]
mod growths;
#[cfg(test)]
mod proofs;
