//! Laws of the definitions, each a function with no body whose contract is the law. They run nothing.

pub mod faults;
pub mod requests;
pub mod rows;
pub mod single;
