//! Programs with a lock round a region have no atomicity violation there: each law is the contract of
//! a function that does nothing.
#![tactic(auto)]

mod laws;

pub use laws::{no_violation_in_one_visit, no_violation_to_next_visit};
