//! Calls between functions, creations of threads, and the functions in which threads begin.
#![tactic(auto)]

mod build;
mod callers;
mod created;
mod mains;
mod site;
mod sites;
mod table;

pub use build::calls;
pub use table::Calls;
