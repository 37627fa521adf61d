//! How often threads hold an inserted lock, and that one thread at a time is inside its region: the
//! law is the contract of a function that does nothing.
#![tactic(auto)]

mod laws;

pub use laws::one_thread_is_inside;
