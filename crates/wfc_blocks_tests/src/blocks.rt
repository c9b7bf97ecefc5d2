//! What is grown of small samples, worked out by hand, and of a large area.

mod asking;
mod rows;
