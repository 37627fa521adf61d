//! The program that a placement makes of a program, and that it meets what the laws of locks and
//! orders need: each law is the contract of a function that does nothing.
#![tactic(auto)]

mod laws;

pub use laws::{
    all_befores_set_no_flag, locks_are_placed, no_root_is_called, orders_are_placed,
    orders_begin_with_their_tokens, placements_are_stripped, threads_are_created_once,
};
