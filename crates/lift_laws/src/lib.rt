//! What the program does without new operations it does with them, where its regions stay apart and its
//! orders are given: the law is the contract of a function that does nothing.
#![tactic(auto)]

mod laws;

pub use laws::source_runs_are_repeated;
