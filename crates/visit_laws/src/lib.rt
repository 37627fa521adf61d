//! Nodes that no run visits, and locks and orders that no operation has: each law is the contract of a
//! function that does nothing.
#![tactic(auto)]

mod laws;

pub use laws::{no_access_in_a_shut_set, no_entry_beyond_the_locks, no_wait_beyond_the_orders};
