//! Tests of the search, of runs with the words of a seed, and of races: in a crate of their own over the libraries, which are
//! so proved once.
#![tactic(auto)]

#[cfg(test)]
mod problems;
#[cfg(test)]
mod races;
#[cfg(test)]
mod runs;
#[cfg(test)]
mod search;
