//! Tests of pictures, images and what a sample teaches: in a crate of their own over the libraries, which are so proved once.
#![tactic(auto)]

#[cfg(test)]
mod pattern;
#[cfg(test)]
mod picture;
#[cfg(test)]
mod ppm;
#[cfg(test)]
mod symmetry;
