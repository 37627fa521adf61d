//! Which programs are straight-line ones, and the law that they are valid.
#![tactic(auto)]

mod laws;

pub use laws::straight_programs_are_valid;
