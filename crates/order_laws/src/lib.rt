//! Programs with the signals of an order have no violation of it: each law is the contract of a
//! function that does nothing.
#![tactic(auto)]

mod laws;

pub use laws::{
    ended_visits_set_flags, flag_tells, no_all_before_violation, no_first_before_violation,
    tokens_are_counted,
};
