//! Problems and pictures of small samples, worked out by hand, and large ones.

mod asking;
mod pictures;
mod problems;
mod refusals;
mod samples;
