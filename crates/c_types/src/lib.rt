//! The names of a source: a raw tree becomes a program with the lines of its accesses and calls,
//! or the least fault of its names.
#![tactic(auto)]

mod counts;
mod fault;
mod function;
mod line_table;
mod resolving;
mod starts;
mod tops;

pub use fault::NameFault;
pub use resolving::resolve;
