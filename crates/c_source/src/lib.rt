//! A program with the lines of its accesses and calls.
#![tactic(auto)]

mod lines;
mod search;
mod source;

pub use lines::Lines;
pub use source::Source;
