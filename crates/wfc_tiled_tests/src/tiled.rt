//! Masks, problems and maps of small tile sets, worked out by hand, and of large ones.

mod asking;
mod maps;
mod masks;
mod problems;
mod refusals;
