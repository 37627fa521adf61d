//! The canonical text of a program.
#![tactic(auto)]

mod acts;
mod expressions;
mod functions;
mod heads;
mod jumps;
mod names;
mod operations;
mod pieces;
mod printing;
mod statements;
mod steps;

pub use printing::print;
