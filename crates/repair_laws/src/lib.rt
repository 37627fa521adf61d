//! What a program with placed operations has no run with, and that it does what the program does: each
//! law is the contract of a function that does nothing.
#![tactic(auto)]

mod laws;

pub use laws::{no_atomicity_violation, no_order_violation, placed_operations_add_nothing};
