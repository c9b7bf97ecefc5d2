//! Tests of devices, texts and grids: in a crate of their own over the libraries, which are so proved once.
#![tactic(auto)]

#[cfg(test)]
mod grid;
#[cfg(test)]
mod outside;
#[cfg(test)]
mod text;
