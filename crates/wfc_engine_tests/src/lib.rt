//! Tests of the engines and the choosers: in a crate of their own over the libraries, which are so proved once.
#![tactic(auto)]

#[cfg(test)]
mod ac4;
#[cfg(test)]
mod choose;
#[cfg(test)]
mod largest;
#[cfg(test)]
mod long;
#[cfg(test)]
mod paired;
