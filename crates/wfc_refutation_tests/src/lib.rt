//! Tests of the lines of refutations, and of what checks them: in a crate of their own over the libraries, which are so proved once.
#![tactic(auto)]

#[cfg(test)]
mod check;
#[cfg(test)]
mod proof;
