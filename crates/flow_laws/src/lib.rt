//! Laws of control flow, each the contract of a function that does nothing.
#![tactic(auto)]

mod laws;

pub use laws::{
    a_body_that_does_not_fall_through_is_left_by_returns, a_function_has_its_own_paths,
    a_region_has_its_ends,
};
