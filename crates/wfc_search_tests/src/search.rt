//! Searches over the plain engine, and volumes by hand.

mod expecting;
mod searches;
mod volumes;
mod words;
