//! Where the events of accesses come: the law is the contract of a function that does nothing.
#![tactic(auto)]

mod laws;

pub use laws::accesses_come_in_visits;
