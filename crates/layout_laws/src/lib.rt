//! Where frames stand in a program: in a visit of a node, or on the edge of a place.
#![tactic(auto)]

mod laws;

pub use laws::programs_are_laid_out;
