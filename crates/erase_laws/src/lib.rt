//! What a program with further operations does is what the program does: each law is the contract of
//! a function that does nothing.
#![tactic(auto)]

mod laws;

pub use laws::{operations_add_nothing, runs_are_erased, steps_follow};
