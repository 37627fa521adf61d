//! Laws of the counts of a file, each the contract of a function that does nothing.
#![tactic(auto)]

mod laws;

pub use laws::the_counts_of_a_file_are_those_of_its_program;
