//! Laws of the faults of names: where they stand.
#![tactic(auto)]

mod laws;

pub use laws::each_fault_of_names_stands_at_a_token;
