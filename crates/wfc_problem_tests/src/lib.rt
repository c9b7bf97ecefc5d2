//! Tests of problems, pins and steps: in a crate of their own over the libraries, which are so proved once.
#![tactic(auto)]

#[cfg(test)]
mod hops;
#[cfg(test)]
mod pins;
#[cfg(test)]
mod problem;
#[cfg(test)]
mod strides;
