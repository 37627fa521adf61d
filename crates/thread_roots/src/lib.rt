//! Control flow and calls of a whole program, for what follows both.
#![tactic(auto)]

mod build;
mod control;

pub use build::graphs;
pub use control::Graphs;
